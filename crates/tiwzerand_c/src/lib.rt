// The library for C: the archive's functions. Each calls the function of that name of the library `tiwzerand`, and promises the same.
// Kept: one function for each exported name, its parameters one by one (the C interface).
#![tactic(auto)]

ghost use Rattle.std.specs.Prelude.{[]};
ghost use Rattle.lower.specs.Stores.{stores};
ghost use Rattle.fusion.specs.Left.{lent};
ghost use Rattle.fill_back.specs.Filling.{FillsIs};
ghost use Rattle.tell.specs.Gives.{Gives};
ghost use Rattle.tiwzerand.specs.Exported.{sizes, compose_told, push_told, Reads, Writes, FusesTo, Evaluates};

pub mod by_records;

// Shifts by number. The values: 0 and the one shift's number, 1 where they clear every word, 2 where both are needed.
#[unsafe(no_mangle)]
pub extern "C" fn tiwzerand_compose(inner: u64, outer: u64, values: &mut [u64]) -> u8
    ensures { Gives (compose_told inner outer) values.old result values.new }
{
    tiwzerand::tiwzerand_compose(inner, outer, values)
}

// The values: 0 and the numbers of the inner and the outer shift, 1 where they clear every word, 2 where the slots are too few.
#[unsafe(no_mangle)]
pub extern "C" fn tiwzerand_push_inner(
    inner: u64,
    outer: u64,
    shift: u64,
    slots: u64,
    values: &mut [u64],
) -> u8
    ensures { Gives (push_told inner outer shift slots) values.old result values.new }
{
    tiwzerand::tiwzerand_push_inner(inner, outer, shift, slots, values)
}

// The values: wires, Ands, Imuls, Bmuls, Zeros, definitions, terms; on a refusal the offset.
#[unsafe(no_mangle)]
pub extern "C" fn tiwzerand_read(
    input: &[u8],
    terms: &mut [u64],
    ands: &mut [u64],
    imuls: &mut [u64],
    bmuls: &mut [u64],
    zeros: &mut [u64],
    dsts: &mut [u16],
    rhss: &mut [u64],
    values: &mut [u64],
) -> u8
    ensures { Reads input.now terms.old ands.old imuls.old bmuls.old zeros.old dsts.old rhss.old values.old result terms.new ands.new imuls.new bmuls.new zeros.new dsts.new rhss.new values.new }
{
    tiwzerand::tiwzerand_read(input, terms, ands, imuls, bmuls, zeros, dsts, rhss, values)
}

// The values: gone, stranded, committed, terms written, kept.
#[unsafe(no_mangle)]
pub extern "C" fn tiwzerand_fuse(
    old: &[u64],
    new: &mut [u64],
    ands: &mut [u64],
    imuls: &mut [u64],
    bmuls: &mut [u64],
    zeros: &mut [u64],
    dsts: &mut [u16],
    rhss: &mut [u64],
    flags: &mut [u8],
    wires: usize,
    n_ands: usize,
    n_imuls: usize,
    n_bmuls: usize,
    n_zeros: usize,
    n_linears: usize,
    slots: u64,
    values: &mut [u64],
) -> u8
    ensures { FusesTo slots (sizes wires n_ands n_imuls n_bmuls n_zeros n_linears) (lent old.now new.old ands.old imuls.old bmuls.old zeros.old dsts.old rhss.old flags.old) (lent old.now new.new ands.new imuls.new bmuls.new zeros.new dsts.new rhss.new flags.new) values.old result values.new }
{
    tiwzerand::tiwzerand_fuse(
        old, new, ands, imuls, bmuls, zeros, dsts, rhss, flags, wires, n_ands, n_imuls, n_bmuls,
        n_zeros, n_linears, slots, values,
    )
}

// Writes the system as a house file. The value: its length.
#[unsafe(no_mangle)]
pub extern "C" fn tiwzerand_write<'a>(
    old: &'a [u64],
    new: &'a [u64],
    ands: &[u64],
    imuls: &[u64],
    bmuls: &[u64],
    zeros: &[u64],
    dsts: &[u16],
    rhss: &[u64],
    wires: usize,
    n_ands: usize,
    n_imuls: usize,
    n_bmuls: usize,
    n_zeros: usize,
    n_linears: usize,
    out: &mut [u8],
    values: &mut [u64],
) -> u8
    ensures { Writes (sizes wires n_ands n_imuls n_bmuls n_zeros n_linears) (stores old.now new.now ands.now imuls.now bmuls.now zeros.now dsts.now rhss.now) out.old values.old result out.new values.new }
{
    tiwzerand::tiwzerand_write(
        old, new, ands, imuls, bmuls, zeros, dsts, rhss, wires, n_ands, n_imuls, n_bmuls, n_zeros,
        n_linears, out, values,
    )
}

// The values of all operands, in the writer's order, to `out`. The value: how many.
#[unsafe(no_mangle)]
pub extern "C" fn tiwzerand_evaluate<'a>(
    old: &'a [u64],
    new: &'a [u64],
    ands: &[u64],
    imuls: &[u64],
    bmuls: &[u64],
    zeros: &[u64],
    dsts: &[u16],
    rhss: &[u64],
    wires: usize,
    n_ands: usize,
    n_imuls: usize,
    n_bmuls: usize,
    n_zeros: usize,
    n_linears: usize,
    assignment: &[u64],
    out: &mut [u64],
    values: &mut [u64],
) -> u8
    ensures { Evaluates (sizes wires n_ands n_imuls n_bmuls n_zeros n_linears) (stores old.now new.now ands.now imuls.now bmuls.now zeros.now dsts.now rhss.now) assignment.now out.old values.old result out.new values.new }
{
    tiwzerand::tiwzerand_evaluate(
        old, new, ands, imuls, bmuls, zeros, dsts, rhss, wires, n_ands, n_imuls, n_bmuls, n_zeros,
        n_linears, assignment, out, values,
    )
}

// Gives each defined wire that is not committed the value of its definition. The system is the one before fusing.
#[unsafe(no_mangle)]
pub extern "C" fn tiwzerand_fill_back(
    old: &[u64],
    ands: &[u64],
    imuls: &[u64],
    bmuls: &[u64],
    zeros: &[u64],
    dsts: &[u16],
    rhss: &[u64],
    wires: usize,
    n_ands: usize,
    n_imuls: usize,
    n_bmuls: usize,
    n_zeros: usize,
    n_linears: usize,
    flags: &[u8],
    assignment: &mut [u64],
) -> u8
    ensures { FillsIs (sizes wires n_ands n_imuls n_bmuls n_zeros n_linears) (stores old.now [] ands.now imuls.now bmuls.now zeros.now dsts.now rhss.now) flags.now assignment.old assignment.new result }
{
    tiwzerand::tiwzerand_fill_back(
        old, ands, imuls, bmuls, zeros, dsts, rhss, wires, n_ands, n_imuls, n_bmuls, n_zeros,
        n_linears, flags, assignment,
    )
}
