// The library for C and Rust. A slice is a pointer and a length; each function returns 0, or the refusal's number, and lays an answer's
// values in a lent slice. Nothing is asked of the numbers handed in.
// Kept: the parameters of the exported functions, one by one (the C interface).
#![tactic(auto)]

ghost use Rattle.std.specs.Prelude.{◌≡◌, []};
ghost use Rattle.refusal.specs.Refusals.{fault_in};
ghost use Rattle.lower.specs.Stores.{stores};
ghost use Rattle.fusion.specs.Left.{lent};
ghost use Rattle.fill_back.specs.Filling.{FillsIs};
ghost use Rattle.tell.specs.Gives.{Gives};
ghost use Rattle.tiwzerand.specs.Exported.{sizes, composed_at, compose_told, pushed_at, push_told, Reads, Writes, FusesTo, Evaluates};

use lower::{LentSystem, Sizes};
use operand::{PushInner, TermStores};
use refusal::Refusal;
use shift::{Composition, Shift};

pub mod by_records;

// The sizes of a system, each handed in by itself.
fn sizes(
    wires: usize,
    ands: usize,
    imuls: usize,
    bmuls: usize,
    zeros: usize,
    linears: usize,
) -> Sizes
    ensures { result ≡ sizes wires ands imuls bmuls zeros linears }
{
    Sizes {
        wires,
        ands,
        imuls,
        bmuls,
        zeros,
        linears,
    }
}

// The number of an answer that has no values.
fn number(answer: Result<(), Refusal>) -> u8
    ensures { result ≡ fault_in answer }
{
    match answer {
        Ok(()) => 0,
        Err(refusal) => refusal.number(),
    }
}

fn composed(inner: u64, outer: u64) -> Result<Composition, Refusal>
    ensures { result ≡ composed_at inner outer }
{
    let i = Shift::from_index(inner)?;
    let o = Shift::from_index(outer)?;
    Shift::compose(i, o)
}

// Shifts by number. The values: 0 and the one shift's number, 1 where they clear every word, 2 where both are needed.
#[unsafe(no_mangle)]
pub extern "C" fn tiwzerand_compose(inner: u64, outer: u64, values: &mut [u64]) -> u8
    ensures { Gives (compose_told inner outer) values.old result values.new }
{
    tell::composed(composed(inner, outer), values)
}

fn pushed(inner: u64, outer: u64, shift: u64, slots: u64) -> Result<PushInner, Refusal>
    ensures { result ≡ pushed_at inner outer shift slots }
{
    let i = Shift::from_index(inner)?;
    let o = Shift::from_index(outer)?;
    let s = Shift::from_index(shift)?;
    operand::push_inner(i, o, s, slots as usize)
}

// The values: 0 and the numbers of the inner and the outer shift, 1 where they clear every word, 2 where the slots are too few.
#[unsafe(no_mangle)]
pub extern "C" fn tiwzerand_push_inner(
    inner: u64,
    outer: u64,
    shift: u64,
    slots: u64,
    values: &mut [u64],
) -> u8
    ensures { Gives (push_told inner outer shift slots) values.old result values.new }
{
    tell::pushed(pushed(inner, outer, shift, slots), values)
}

// The values: wires, Ands, Imuls, Bmuls, Zeros, definitions, terms; on a refusal the offset.
#[unsafe(no_mangle)]
pub extern "C" fn tiwzerand_read(
    input: &[u8],
    terms: &mut [u64],
    ands: &mut [u64],
    imuls: &mut [u64],
    bmuls: &mut [u64],
    zeros: &mut [u64],
    dsts: &mut [u16],
    rhss: &mut [u64],
    values: &mut [u64],
) -> u8
    ensures { Reads input.now terms.old ands.old imuls.old bmuls.old zeros.old dsts.old rhss.old values.old result terms.new ands.new imuls.new bmuls.new zeros.new dsts.new rhss.new values.new }
{
    let answer = house_read::read(input, terms, ands, imuls, bmuls, zeros, dsts, rhss);
    tell::read(answer, values)
}

// The values: gone, stranded, committed, terms written, kept.
#[unsafe(no_mangle)]
pub extern "C" fn tiwzerand_fuse(
    old: &[u64],
    new: &mut [u64],
    ands: &mut [u64],
    imuls: &mut [u64],
    bmuls: &mut [u64],
    zeros: &mut [u64],
    dsts: &mut [u16],
    rhss: &mut [u64],
    flags: &mut [u8],
    wires: usize,
    n_ands: usize,
    n_imuls: usize,
    n_bmuls: usize,
    n_zeros: usize,
    n_linears: usize,
    slots: u64,
    values: &mut [u64],
) -> u8
    ensures { FusesTo slots (sizes wires n_ands n_imuls n_bmuls n_zeros n_linears) (lent old.now new.old ands.old imuls.old bmuls.old zeros.old dsts.old rhss.old flags.old) (lent old.now new.new ands.new imuls.new bmuls.new zeros.new dsts.new rhss.new flags.new) values.old result values.new }
{
    let z = sizes(wires, n_ands, n_imuls, n_bmuls, n_zeros, n_linears);
    let answer = fusion::fuse(
        old, new, ands, imuls, bmuls, zeros, dsts, rhss, flags, z, slots,
    );
    tell::fused(answer, values)
}

// Writes the system as a house file. The value: its length.
#[unsafe(no_mangle)]
pub extern "C" fn tiwzerand_write<'a>(
    old: &'a [u64],
    new: &'a [u64],
    ands: &[u64],
    imuls: &[u64],
    bmuls: &[u64],
    zeros: &[u64],
    dsts: &[u16],
    rhss: &[u64],
    wires: usize,
    n_ands: usize,
    n_imuls: usize,
    n_bmuls: usize,
    n_zeros: usize,
    n_linears: usize,
    out: &mut [u8],
    values: &mut [u64],
) -> u8
    ensures { Writes (sizes wires n_ands n_imuls n_bmuls n_zeros n_linears) (stores old.now new.now ands.now imuls.now bmuls.now zeros.now dsts.now rhss.now) out.old values.old result out.new values.new }
{
    let system = LentSystem {
        stores: TermStores { old, new },
        ands,
        imuls,
        bmuls,
        zeros,
        dsts,
        rhss,
        sizes: sizes(wires, n_ands, n_imuls, n_bmuls, n_zeros, n_linears),
    };
    let answer = house_write::write(&system, out);
    tell::written(answer, values)
}

// The values of all operands, in the writer's order, to `out`. The value: how many.
#[unsafe(no_mangle)]
pub extern "C" fn tiwzerand_evaluate<'a>(
    old: &'a [u64],
    new: &'a [u64],
    ands: &[u64],
    imuls: &[u64],
    bmuls: &[u64],
    zeros: &[u64],
    dsts: &[u16],
    rhss: &[u64],
    wires: usize,
    n_ands: usize,
    n_imuls: usize,
    n_bmuls: usize,
    n_zeros: usize,
    n_linears: usize,
    assignment: &[u64],
    out: &mut [u64],
    values: &mut [u64],
) -> u8
    ensures { Evaluates (sizes wires n_ands n_imuls n_bmuls n_zeros n_linears) (stores old.now new.now ands.now imuls.now bmuls.now zeros.now dsts.now rhss.now) assignment.now out.old values.old result out.new values.new }
{
    let system = LentSystem {
        stores: TermStores { old, new },
        ands,
        imuls,
        bmuls,
        zeros,
        dsts,
        rhss,
        sizes: sizes(wires, n_ands, n_imuls, n_bmuls, n_zeros, n_linears),
    };
    let answer = evaluate::evaluate(&system, assignment, out);
    tell::evaluated(answer, values)
}

// Gives each defined wire that is not committed the value of its definition. The system is the one before fusing.
#[unsafe(no_mangle)]
pub extern "C" fn tiwzerand_fill_back(
    old: &[u64],
    ands: &[u64],
    imuls: &[u64],
    bmuls: &[u64],
    zeros: &[u64],
    dsts: &[u16],
    rhss: &[u64],
    wires: usize,
    n_ands: usize,
    n_imuls: usize,
    n_bmuls: usize,
    n_zeros: usize,
    n_linears: usize,
    flags: &[u8],
    assignment: &mut [u64],
) -> u8
    ensures { FillsIs (sizes wires n_ands n_imuls n_bmuls n_zeros n_linears) (stores old.now [] ands.now imuls.now bmuls.now zeros.now dsts.now rhss.now) flags.now assignment.old assignment.new result }
{
    let system = LentSystem {
        stores: TermStores { old, new: &[] },
        ands,
        imuls,
        bmuls,
        zeros,
        dsts,
        rhss,
        sizes: sizes(wires, n_ands, n_imuls, n_bmuls, n_zeros, n_linears),
    };
    number(fill_back::fill_back(&system, flags, assignment))
}
