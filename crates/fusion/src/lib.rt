// The fusion pass: decide, rebuild, patch. Follows frontend/src/pass/fusion.
#![tactic(auto)]

ghost use Rattle.std.specs.Prelude.{◌≡◌, true, [], ◌++◌, ◌≤◌, ◌+◌, length, take, replicate};
ghost use Rattle.std.proofs.lemmas.List.Edits.{sets};
ghost use Rattle.lower.specs.Stores.{stores, stores_of, system_in, system_of};
ghost use Rattle.legraph.specs.Tables.{numbered};
ghost use Rattle.commit_set.specs.Answer.{decision_fault};
ghost use Rattle.reach.specs.Reach.{ReachIn};
ghost use Rattle.reach.specs.Steps.{Filled};
ghost use Rattle.apply.specs.Applied.{is_stranded, keep_from, committed_wires};
ghost use Rattle.fusion.specs.Left.{lent, has_room, counts_of, leaves};
ghost use Rattle.fusion.specs.Answer.{told_fused, Fuses};
ghost use Rattle.fusion.specs.Steps.{Ready, Ordered, chosen, Holds, Rebuilt, lacks_room, Closable, counts_by, Fresh, Prepares};

use lower::{LentSystem, Sizes};
use operand::TermStores;
use patch::Cursor;
use refusal::Refusal;

// Operands of rebuilt constraints: six at most of each of 1,024, and one of each of 1,024 definitions.
const MAX_OPERANDS: usize = 7168;

// Terms of the store of new terms.
const MAX_NEW_TERMS: usize = 16384;

// What is told of a patched system.
#[derive(Clone, Copy, Debug, PartialEq, Eq)]
pub struct Counts {
    pub gone: usize,
    pub stranded: usize,
    pub committed: usize,
    // terms of the new store
    pub written: usize,
    // wires that need a stored value
    pub kept: usize,
}

// How many definitions are left of each sort.
#[derive(Clone, Copy)]
struct Linears {
    stranded: usize,
    committed: usize,
}

// Whether the result does not fit.
#[tactic(auto, unfolding(crate::specs::Steps::lacks_room))]
fn lacks_room(c: Cursor, new: usize, flags: usize, wires: usize) -> bool
    ensures { result ≡ lacks_room c new flags wires }
{
    c.full || new < c.count || flags < wires
}

// Definitions: stranded ones are moved down, and committed ones stand after them.
fn patch_definitions(
    dsts: &mut [u16],
    rhss: &mut [u64],
    n: usize,
    wires: usize,
    decisions: &[u64],
    table: &[u16],
    reach: &[u64],
    list: &[u64],
) -> Linears
    requires { Closable dsts.old rhss.old n wires decisions.now table.now reach.now list.now }
    ensures dsts_after { dsts.new ≡ sets dsts.old 0 (keep_from (is_stranded decisions.now reach.now) 0 (take n dsts.old) ++ committed_wires table.now decisions.now 0 wires) }
    ensures rhss_after { rhss.new ≡ sets rhss.old 0 (keep_from (is_stranded decisions.now reach.now) 0 (take n rhss.old) ++ take (length (committed_wires table.now decisions.now 0 wires)) list.now) }
    ensures stranded { result.stranded ≡ length (keep_from (is_stranded decisions.now reach.now) 0 (take n dsts.old)) }
    ensures committed { result.committed ≡ length (committed_wires table.now decisions.now 0 wires) }
{
    let stranded = apply::retain_stranded(&mut *dsts, &mut *rhss, n, decisions, reach);
    let committed = apply::add_committed(
        &mut *dsts, &mut *rhss, stranded, wires, table, decisions, list,
    );
    Linears {
        stranded,
        committed,
    }
}

#[tactic(auto, unfolding(crate::specs::Steps::counts_by))]
fn count_all(z: Sizes, l: Linears, written: usize) -> Counts
    requires { (l.stranded + l.committed ≤ z.linears) × (z.linears ≤ z.wires) }
    ensures { result ≡ counts_by z l written }
{
    let n = z.linears;
    let wires = z.wires;
    let stranded = l.stranded;
    let committed = l.committed;
    Counts {
        gone: n - stranded - committed,
        stranded,
        committed,
        written,
        kept: wires - (n - committed),
    }
}

// Writes the patched system over the old one, with the new terms and the numbers of their operands.
fn apply_patches(
    old: &[u64],
    new: &mut [u64],
    ands: &mut [u64],
    imuls: &mut [u64],
    bmuls: &mut [u64],
    zeros: &mut [u64],
    dsts: &mut [u16],
    rhss: &mut [u64],
    flags: &mut [u8],
    z: Sizes,
    decisions: &[u64],
    table: &[u16],
    reach: &[u64],
    terms: &[u64],
    list: &[u64],
) -> Counts
    requires ready { Ready z (stores old.now [] ands.old imuls.old bmuls.old zeros.old dsts.old rhss.old) decisions.now }
    requires table_of_definitions { table.now ≡ numbered 0 (take z.linears dsts.old) (replicate 4096 0) }
    requires reach_in { ReachIn (system_of z (stores old.now [] ands.old imuls.old bmuls.old zeros.old dsts.old rhss.old)) (chosen z (stores old.now [] ands.old imuls.old bmuls.old zeros.old dsts.old rhss.old) decisions.now) z.linears dsts.old reach.now }
    requires holds { Holds (system_of z (stores old.now [] ands.old imuls.old bmuls.old zeros.old dsts.old rhss.old)) (chosen z (stores old.now [] ands.old imuls.old bmuls.old zeros.old dsts.old rhss.old) decisions.now) terms.now list.now }
    requires room { has_room (system_of z (stores old.now [] ands.old imuls.old bmuls.old zeros.old dsts.old rhss.old)) (chosen z (stores old.now [] ands.old imuls.old bmuls.old zeros.old dsts.old rhss.old) decisions.now) (lent old.now new.old ands.old imuls.old bmuls.old zeros.old dsts.old rhss.old flags.old) ≡ true }
    ensures left { lent old.now new.new ands.new imuls.new bmuls.new zeros.new dsts.new rhss.new flags.new ≡ leaves z (lent old.now new.old ands.old imuls.old bmuls.old zeros.old dsts.old rhss.old flags.old) (chosen z (stores old.now [] ands.old imuls.old bmuls.old zeros.old dsts.old rhss.old) decisions.now) }
    ensures counts { result ≡ counts_of (system_of z (stores old.now [] ands.old imuls.old bmuls.old zeros.old dsts.old rhss.old)) (chosen z (stores old.now [] ands.old imuls.old bmuls.old zeros.old dsts.old rhss.old) decisions.now) }
{
    let n = z.linears;
    let wires = z.wires;
    apply::extend(&mut *new, 0, terms);
    let stores = TermStores { old, new: &[] };
    let rest = apply::patch_lists(
        &stores,
        &mut *ands,
        &mut *imuls,
        &mut *bmuls,
        &mut *zeros,
        z,
        table,
        list,
    );
    let l = patch_definitions(
        &mut *dsts, &mut *rhss, n, wires, decisions, table, reach, rest,
    );
    apply::write_flags(&mut *flags, wires, table, decisions);
    count_all(z, l, terms.len())
}

// One mask a definition, one place a definition where the masks of its terms begin, and a mask and an entry a term.
const MAX_MASKS: usize = 18432;

// The masks of the definitions and of their terms, and with them all operands that are rebuilt.
fn rebuild(
    system: &LentSystem<'_>,
    decisions: &[u64],
    table: &[u16],
    order: &[u16],
    reach: &mut [u64],
    out: &mut [u64],
    list: &mut [u64],
) -> Cursor
    requires ready { Ready system.now.sizes (stores_of system.now) decisions.now }
    requires ordered { Ordered system.now.sizes (stores_of system.now) table.now order.now }
    requires lengths { (length reach.old ≡ 1024) × (length out.old ≡ 16384) × (length list.old ≡ 7168) }
    ensures reach_in { ReachIn (system_in system.now) (chosen system.now.sizes (stores_of system.now) decisions.now) system.now.sizes.linears system.now.dsts.now reach.new }
    ensures filled { Filled system.now.sizes.linears reach.old reach.new }
    ensures rebuilt { Rebuilt (system_in system.now) (chosen system.now.sizes (stores_of system.now) decisions.now) out.old list.old out.new list.new result }
{
    let n = system.sizes.linears;
    let mut alive = [0u64; MAX_MASKS];
    reach::masks(system, decisions, order, &mut alive, &mut *reach);
    patch::expand::write_looks(&system.stores, system.rhss, table, decisions, &mut alive, n);
    let b = patch::build::build(system, table, decisions, &alive, &mut *out, &mut *list);
    b.cursor
}

// Decides and rebuilds a system that the checks have found nothing in, or refuses it for a circle. One table and one walk serve the
// decisions and the masks.
fn prepare(
    system: &LentSystem<'_>,
    slots: u8,
    table: &mut [u16],
    decisions: &mut [u64],
    reach: &mut [u64],
    out: &mut [u64],
    list: &mut [u64],
) -> Result<Cursor, Refusal>
    requires no_fault { decision_fault slots system.now.sizes (stores_of system.now) ≡ 0 }
    requires fresh { Fresh table.old decisions.old reach.old out.old list.old }
    ensures { Prepares slots system.now.sizes (stores_of system.now) table.new decisions.new reach.new out.old list.old out.new list.new result }
{
    let mut all = [0u16; lower::MAX_DEFINITIONS];
    let walked = commit_set::order_definitions(system, &mut *table, &mut all);
    if walked.circle {
        return Err(Refusal::Circle);
    }
    let order = &all[walked.left..];
    commit_set::decide_in_order(system, &*table, order, slots, &mut *decisions);
    Ok(rebuild(
        system,
        &*decisions,
        &*table,
        order,
        &mut *reach,
        &mut *out,
        &mut *list,
    ))
}

// Fuses a system that the checks have found nothing in, or refuses it for a circle or for room. The arrays stand here, so that a call that
// the checks refuse clears none, and first, so that they are cleared once: a function's locals are cleared as it begins.
fn fuse_checked(
    old: &[u64],
    new: &mut [u64],
    ands: &mut [u64],
    imuls: &mut [u64],
    bmuls: &mut [u64],
    zeros: &mut [u64],
    dsts: &mut [u16],
    rhss: &mut [u64],
    flags: &mut [u8],
    z: Sizes,
    slots: u8,
) -> Result<Counts, Refusal>
    requires no_fault { decision_fault slots z (stores old.now [] ands.old imuls.old bmuls.old zeros.old dsts.old rhss.old) ≡ 0 }
    ensures { Fuses slots z (lent old.now new.old ands.old imuls.old bmuls.old zeros.old dsts.old rhss.old flags.old) (lent old.now new.new ands.new imuls.new bmuls.new zeros.new dsts.new rhss.new flags.new) (told_fused result) }
{
    let mut table = [0u16; lower::MAX_WIRES];
    let mut decisions = [0u64; lower::MAX_DEFINITIONS];
    let mut reach = [0u64; lower::MAX_DEFINITIONS];
    let mut out = [0u64; MAX_NEW_TERMS];
    let mut list = [0u64; MAX_OPERANDS];
    let system = LentSystem {
        stores: TermStores { old, new: &[] },
        ands: &*ands,
        imuls: &*imuls,
        bmuls: &*bmuls,
        zeros: &*zeros,
        dsts: &*dsts,
        rhss: &*rhss,
        sizes: z,
    };
    let cursor = prepare(
        &system,
        slots,
        &mut table,
        &mut decisions,
        &mut reach,
        &mut out,
        &mut list,
    )?;
    if lacks_room(cursor, new.len(), flags.len(), z.wires) {
        return Err(Refusal::Room);
    }
    Ok(apply_patches(
        old,
        &mut *new,
        &mut *ands,
        &mut *imuls,
        &mut *bmuls,
        &mut *zeros,
        &mut *dsts,
        &mut *rhss,
        &mut *flags,
        z,
        &decisions,
        &table,
        &reach,
        &out[..cursor.count],
        &list,
    ))
}

// Fuses a system in the lent stores with so many slots a term: its lists are patched, `new` has the new terms and `flags` the committed
// wires; or a refusal, and everything is as it was.
pub fn fuse(
    old: &[u64],
    new: &mut [u64],
    ands: &mut [u64],
    imuls: &mut [u64],
    bmuls: &mut [u64],
    zeros: &mut [u64],
    dsts: &mut [u16],
    rhss: &mut [u64],
    flags: &mut [u8],
    z: Sizes,
    slots: u64,
) -> Result<Counts, Refusal>
    ensures { Fuses slots z (lent old.now new.old ands.old imuls.old bmuls.old zeros.old dsts.old rhss.old flags.old) (lent old.now new.new ands.new imuls.new bmuls.new zeros.new dsts.new rhss.new flags.new) (told_fused result) }
{
    let system = LentSystem {
        stores: TermStores { old, new: &[] },
        ands: &*ands,
        imuls: &*imuls,
        bmuls: &*bmuls,
        zeros: &*zeros,
        dsts: &*dsts,
        rhss: &*rhss,
        sizes: z,
    };
    commit_set::check(&system, slots)?;
    fuse_checked(
        old,
        &mut *new,
        &mut *ands,
        &mut *imuls,
        &mut *bmuls,
        &mut *zeros,
        &mut *dsts,
        &mut *rhss,
        &mut *flags,
        z,
        slots as u8,
    )
}
