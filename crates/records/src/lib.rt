// The entry points over a lent slice of definition records: a caller in Rust or C lends one array. Thin walks over the number slices' form.
#![tactic(auto)]

ghost use Rattle.std.specs.Prelude.{◌≡◌, ◌≤◌, [], ◌∷◌, take, length};
ghost use Rattle.refusal.specs.Refusals.{fault_in};
ghost use Rattle.lower.specs.Stores.{stores, stores_of};
ghost use Rattle.lower.specs.Faults.{pairs_fault, places_fault};
ghost use Rattle.fusion.specs.Left.{lent};
ghost use Rattle.fusion.specs.Answer.{told_fused, Fuses};
ghost use Rattle.fill_back.specs.Filling.{FillsIs};
ghost use Rattle.records.specs.Records.{dsts_of, rhss_of, records_in, lent_by, no_numbers, numbers_of, Stand, first_of, RestKept, reloaded, rows_only, crowded, crowd_fault, looked, found, FillsFirst, FusesFirst};

use fusion::Counts;
use lower::{LentSystem, Sizes};
use operand::TermStores;
use refusal::Refusal;

pub mod files;
pub mod values;

// A definition: its right side, as an operand's number, and its destination wire. The one place where its layout stands.
#[repr(C)]
#[derive(Clone, Copy)]
pub struct Definition {
    pub rhs: u64,
    pub dst: u16,
}

// A constraint system as its owner lends it, its definitions as records.
#[derive(Clone, Copy)]
pub struct LentRecords<'a> {
    pub stores: TermStores<'a>,
    pub ands: &'a [u64],
    pub imuls: &'a [u64],
    pub bmuls: &'a [u64],
    pub zeros: &'a [u64],
    pub defs: &'a [Definition],
    pub sizes: Sizes,
}

// The numbers of the first `len` records: of all, or of so many as there may be definitions.
#[derive(Drop)]
struct Numbers {
    len: usize,
    dsts: [u16; lower::MAX_DEFINITIONS],
    rhss: [u64; lower::MAX_DEFINITIONS],
}

impl Numbers {
    // Arrays to unload to.
    fn none() -> Numbers
        ensures { result ≡ no_numbers }
    {
        Numbers {
            len: 0,
            dsts: [0u16; lower::MAX_DEFINITIONS],
            rhss: [0u64; lower::MAX_DEFINITIONS],
        }
    }

    // Takes those of the first records, to where the arrays stand: handed out by value they would be copied.
    fn unload(&mut self, defs: &[Definition])
        requires { self.old ≡ no_numbers }
        ensures are { self.new ≡ numbers_of defs.now }
        ensures stand { Stand self.new }
        ensures fit { self.new.len ≤ length defs.now }
    {
        let len = defs.len().min(lower::MAX_DEFINITIONS);
        for k in 0..len {
            let d = defs[k];
            self.dsts[k] = d.dst;
            self.rhss[k] = d.rhs;
        }
        self.len = len;
    }

    // The system whose definitions these are.
    fn system<'b>(&'b self, records: &'b LentRecords<'_>) -> LentSystem<'b>
        requires { Stand self.now }
        ensures of_numbers { stores_of result ≡ stores records.now.stores.old.now records.now.stores.new.now records.now.ands.now records.now.imuls.now records.now.bmuls.now records.now.zeros.now (take self.now.len self.now.dsts) (take self.now.len self.now.rhss) }
        ensures same_sizes { result.sizes ≡ records.now.sizes }
    {
        records.with(
            &self.dsts[..self.len],
            &self.rhss[..self.len],
            records.sizes,
        )
    }
}

// The first records, made of these numbers.
fn reload(defs: &mut [Definition], dsts: &[u16], rhss: &[u64])
    requires records_there { length dsts.now ≤ length defs.old }
    requires rhss_there { length dsts.now ≤ length rhss.now }
    ensures { defs.new ≡ reloaded defs.old dsts.now rhss.now (length dsts.now) }
{
    for (k, dst) in dsts.iter().enumerate() {
        defs[k] = Definition {
            rhs: rhss[k],
            dst: *dst,
        };
    }
}

impl LentRecords<'_> {
    // The same terms and rows, with these definitions and sizes.
    fn with<'b>(&'b self, dsts: &'b [u16], rhss: &'b [u64], sizes: Sizes) -> LentSystem<'b>
        ensures of_numbers { stores_of result ≡ stores self.now.stores.old.now self.now.stores.new.now self.now.ands.now self.now.imuls.now self.now.bmuls.now self.now.zeros.now dsts.now rhss.now }
        ensures same_sizes { result.sizes ≡ sizes }
    {
        LentSystem {
            stores: TermStores {
                old: self.stores.old,
                new: self.stores.new,
            },
            ands: self.ands,
            imuls: self.imuls,
            bmuls: self.bmuls,
            zeros: self.zeros,
            dsts,
            rhss,
            sizes,
        }
    }

    // What `check` finds of 3, 4 and 5 in the rows.
    fn check_rows(&self) -> Result<(), Refusal>
        ensures { fault_in result ≡ places_fault (rows_only self.now.sizes) (records_in self.now) }
    {
        let sizes = Sizes {
            linears: 0,
            ..self.sizes
        };
        self.with(&[], &[], sizes).check_places()
    }

    // The same in one definition.
    fn check_definition(&self, definition: Definition) -> Result<(), Refusal>
        ensures { fault_in result ≡ pairs_fault self.now.sizes.wires self.now.stores.old.now self.now.stores.new.now (definition.dst ∷ []) (definition.rhs ∷ []) }
    {
        let sizes = Sizes {
            wires: self.sizes.wires,
            ands: 0,
            imuls: 0,
            bmuls: 0,
            zeros: 0,
            linears: 1,
        };
        self.with(&[definition.dst], &[definition.rhs], sizes)
            .check_places()
    }

    // The same in the first `n` definitions, which are read where they stand.
    fn check_definitions(&self, n: usize) -> Result<(), Refusal>
        requires { n ≤ length self.now.defs.now }
        ensures { fault_in result ≡ pairs_fault self.now.sizes.wires self.now.stores.old.now self.now.stores.new.now (take n (dsts_of self.now.defs.now)) (take n (rhss_of self.now.defs.now)) }
    {
        for definition in &self.defs[..n] {
            self.check_definition(*definition)?;
        }
        Ok(())
    }

    // Whether there are too many definitions, all of them there.
    fn is_crowded(&self) -> bool
        ensures { result ≡ crowded self.now.sizes (length self.now.defs.now) }
    {
        let n = self.sizes.linears;
        lower::MAX_DEFINITIONS < n && n <= self.defs.len()
    }

    // Refuses such a system: 3, 4 and 5 come before 6.
    fn check_crowd(&self) -> Result<(), Refusal>
        ensures { fault_in result ≡ crowd_fault self.now.sizes (records_in self.now) }
    {
        if self.is_crowded() {
            self.check_rows()?;
            self.check_definitions(self.sizes.linears)?;
            return Err(Refusal::Full);
        }
        Ok(())
    }
}

// Filling back over these numbers of the first records, where there are not too many.
fn fill_back_first(
    system: &LentRecords<'_>,
    numbers: &Numbers,
    flags: &[u8],
    assignment: &mut [u64],
) -> Result<(), Refusal>
    requires { Stand numbers.now }
    ensures { FillsFirst (looked (length system.now.defs.now) system.now.sizes) (found system.now.sizes system.now.stores.old.now system.now.stores.new.now system.now.defs.now) system.now.sizes (first_of system.now numbers.now) flags.now assignment.old assignment.new (fault_in result) }
{
    system.check_crowd()?;
    fill_back::fill_back(&numbers.system(system), flags, assignment)
}

// `fill_back`, where the definitions are records.
pub fn fill_back_records(
    system: &LentRecords<'_>,
    flags: &[u8],
    assignment: &mut [u64],
) -> Result<(), Refusal>
    ensures { FillsIs system.now.sizes (records_in system.now) flags.now assignment.old assignment.new (fault_in result) }
{
    let mut numbers = Numbers::none();
    numbers.unload(system.defs);
    fill_back_first(system, &numbers, flags, assignment)
}

// Fusing over the first `len` numbers of each kind. The rest of the two slices is as it was.
fn fuse_numbers(
    old: &[u64],
    new: &mut [u64],
    ands: &mut [u64],
    imuls: &mut [u64],
    bmuls: &mut [u64],
    zeros: &mut [u64],
    dsts: &mut [u16],
    rhss: &mut [u64],
    len: usize,
    flags: &mut [u8],
    z: Sizes,
    slots: u64,
) -> Result<Counts, Refusal>
    requires dsts_there { len ≤ length dsts.old }
    requires rhss_there { len ≤ length rhss.old }
    ensures first { Fuses slots z (lent old.now new.old ands.old imuls.old bmuls.old zeros.old (take len dsts.old) (take len rhss.old) flags.old) (lent old.now new.new ands.new imuls.new bmuls.new zeros.new (take len dsts.new) (take len rhss.new) flags.new) (told_fused result) }
    ensures dsts_kept { RestKept len dsts.old dsts.new }
    ensures rhss_kept { RestKept len rhss.old rhss.new }
{
    fusion::fuse(
        old,
        new,
        ands,
        imuls,
        bmuls,
        zeros,
        &mut dsts[..len],
        &mut rhss[..len],
        flags,
        z,
        slots,
    )
}

// The same, where there are not too many records. The rest is as it was.
fn fuse_first(
    old: &[u64],
    new: &mut [u64],
    ands: &mut [u64],
    imuls: &mut [u64],
    bmuls: &mut [u64],
    zeros: &mut [u64],
    defs: &[Definition],
    dsts: &mut [u16],
    rhss: &mut [u64],
    len: usize,
    flags: &mut [u8],
    z: Sizes,
    slots: u64,
) -> Result<Counts, Refusal>
    requires dsts_there { len ≤ length dsts.old }
    requires rhss_there { len ≤ length rhss.old }
    ensures first { FusesFirst (looked (length defs.now) z) (found z old.now [] defs.now) slots z (lent old.now new.old ands.old imuls.old bmuls.old zeros.old (take len dsts.old) (take len rhss.old) flags.old) (lent old.now new.new ands.new imuls.new bmuls.new zeros.new (take len dsts.new) (take len rhss.new) flags.new) (told_fused result) }
    ensures dsts_kept { RestKept len dsts.old dsts.new }
    ensures rhss_kept { RestKept len rhss.old rhss.new }
{
    let records = LentRecords {
        stores: TermStores { old, new: &[] },
        ands: &*ands,
        imuls: &*imuls,
        bmuls: &*bmuls,
        zeros: &*zeros,
        defs,
        sizes: z,
    };
    records.check_crowd()?;
    fuse_numbers(
        old, new, ands, imuls, bmuls, zeros, dsts, rhss, len, flags, z, slots,
    )
}

// `fuse`, where the definitions are records. Those whose numbers were unloaded are made anew, so a refusal, which leaves each number, leaves each
// record.
// Kept: the lists one by one, as `fuse` takes them: a struct of `&mut` slices wants ghost names in every contract.
pub fn fuse_records(
    old: &[u64],
    new: &mut [u64],
    ands: &mut [u64],
    imuls: &mut [u64],
    bmuls: &mut [u64],
    zeros: &mut [u64],
    defs: &mut [Definition],
    flags: &mut [u8],
    z: Sizes,
    slots: u64,
) -> Result<Counts, Refusal>
    ensures { Fuses slots z (lent_by old.now new.old ands.old imuls.old bmuls.old zeros.old defs.old flags.old) (lent_by old.now new.new ands.new imuls.new bmuls.new zeros.new defs.new flags.new) (told_fused result) }
{
    let mut numbers = Numbers::none();
    numbers.unload(&*defs);
    let fused = fuse_first(
        old,
        new,
        ands,
        imuls,
        bmuls,
        zeros,
        &*defs,
        &mut numbers.dsts,
        &mut numbers.rhss,
        numbers.len,
        flags,
        z,
        slots,
    );
    reload(
        defs,
        &numbers.dsts[..numbers.len],
        &numbers.rhss[..numbers.len],
    );
    fused
}
