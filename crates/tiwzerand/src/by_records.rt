// The functions over definition records: one array in the place of destinations and right sides, of any length.
// Kept: beside those over numbers, since each exported name is a function of its own (the C interface).
ghost use Rattle.std.specs.Prelude.{[]};
ghost use Rattle.fill_back.specs.Filling.{FillsIs};
ghost use Rattle.records.specs.Records.{dsts_of, rhss_of, stores_by, lent_by};
ghost use Rattle.tiwzerand.specs.Exported.{sizes, Reads, FusesTo, Writes, Evaluates};

use crate::sizes;
use operand::TermStores;
use records::{Definition, LentRecords};

// `tiwzerand_fuse` over records.
#[unsafe(no_mangle)]
pub extern "C" fn tiwzerand_fuse_records(
    old: &[u64],
    new: &mut [u64],
    ands: &mut [u64],
    imuls: &mut [u64],
    bmuls: &mut [u64],
    zeros: &mut [u64],
    defs: &mut [Definition],
    flags: &mut [u8],
    wires: usize,
    n_ands: usize,
    n_imuls: usize,
    n_bmuls: usize,
    n_zeros: usize,
    n_linears: usize,
    slots: u64,
    values: &mut [u64],
) -> u8
    ensures { FusesTo slots (sizes wires n_ands n_imuls n_bmuls n_zeros n_linears) (lent_by old.now new.old ands.old imuls.old bmuls.old zeros.old defs.old flags.old) (lent_by old.now new.new ands.new imuls.new bmuls.new zeros.new defs.new flags.new) values.old result values.new }
{
    let z = sizes(wires, n_ands, n_imuls, n_bmuls, n_zeros, n_linears);
    let answer = records::fuse_records(old, new, ands, imuls, bmuls, zeros, defs, flags, z, slots);
    tell::fused(answer, values)
}

// `tiwzerand_read` to records.
#[unsafe(no_mangle)]
pub extern "C" fn tiwzerand_read_records(
    input: &[u8],
    terms: &mut [u64],
    ands: &mut [u64],
    imuls: &mut [u64],
    bmuls: &mut [u64],
    zeros: &mut [u64],
    defs: &mut [Definition],
    values: &mut [u64],
) -> u8
    ensures { Reads input.now terms.old ands.old imuls.old bmuls.old zeros.old (dsts_of defs.old) (rhss_of defs.old) values.old result terms.new ands.new imuls.new bmuls.new zeros.new (dsts_of defs.new) (rhss_of defs.new) values.new }
{
    let answer = records::files::read_records(input, terms, ands, imuls, bmuls, zeros, defs);
    tell::read(answer, values)
}

// `tiwzerand_write` from records.
#[unsafe(no_mangle)]
pub extern "C" fn tiwzerand_write_records<'a>(
    old: &'a [u64],
    new: &'a [u64],
    ands: &[u64],
    imuls: &[u64],
    bmuls: &[u64],
    zeros: &[u64],
    defs: &[Definition],
    wires: usize,
    n_ands: usize,
    n_imuls: usize,
    n_bmuls: usize,
    n_zeros: usize,
    n_linears: usize,
    out: &mut [u8],
    values: &mut [u64],
) -> u8
    ensures { Writes (sizes wires n_ands n_imuls n_bmuls n_zeros n_linears) (stores_by old.now new.now ands.now imuls.now bmuls.now zeros.now defs.now) out.old values.old result out.new values.new }
{
    let system = LentRecords {
        stores: TermStores { old, new },
        ands,
        imuls,
        bmuls,
        zeros,
        defs,
        sizes: sizes(wires, n_ands, n_imuls, n_bmuls, n_zeros, n_linears),
    };
    let answer = records::files::write_records(&system, out);
    tell::written(answer, values)
}

// `tiwzerand_evaluate` over records.
#[unsafe(no_mangle)]
pub extern "C" fn tiwzerand_evaluate_records<'a>(
    old: &'a [u64],
    new: &'a [u64],
    ands: &[u64],
    imuls: &[u64],
    bmuls: &[u64],
    zeros: &[u64],
    defs: &[Definition],
    wires: usize,
    n_ands: usize,
    n_imuls: usize,
    n_bmuls: usize,
    n_zeros: usize,
    n_linears: usize,
    assignment: &[u64],
    out: &mut [u64],
    values: &mut [u64],
) -> u8
    ensures { Evaluates (sizes wires n_ands n_imuls n_bmuls n_zeros n_linears) (stores_by old.now new.now ands.now imuls.now bmuls.now zeros.now defs.now) assignment.now out.old values.old result out.new values.new }
{
    let system = LentRecords {
        stores: TermStores { old, new },
        ands,
        imuls,
        bmuls,
        zeros,
        defs,
        sizes: sizes(wires, n_ands, n_imuls, n_bmuls, n_zeros, n_linears),
    };
    let answer = records::values::evaluate_records(&system, assignment, out);
    tell::evaluated(answer, values)
}

// `tiwzerand_fill_back` over records.
#[unsafe(no_mangle)]
pub extern "C" fn tiwzerand_fill_back_records(
    old: &[u64],
    ands: &[u64],
    imuls: &[u64],
    bmuls: &[u64],
    zeros: &[u64],
    defs: &[Definition],
    wires: usize,
    n_ands: usize,
    n_imuls: usize,
    n_bmuls: usize,
    n_zeros: usize,
    n_linears: usize,
    flags: &[u8],
    assignment: &mut [u64],
) -> u8
    ensures { FillsIs (sizes wires n_ands n_imuls n_bmuls n_zeros n_linears) (stores_by old.now [] ands.now imuls.now bmuls.now zeros.now defs.now) flags.now assignment.old assignment.new result }
{
    let system = LentRecords {
        stores: TermStores { old, new: &[] },
        ands,
        imuls,
        bmuls,
        zeros,
        defs,
        sizes: sizes(wires, n_ands, n_imuls, n_bmuls, n_zeros, n_linears),
    };
    crate::number(records::fill_back_records(&system, flags, assignment))
}
