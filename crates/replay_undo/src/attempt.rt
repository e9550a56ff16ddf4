// The system of a house file under one assignment, in stores that are made for it.
ghost use Rattle.lower.specs.Stores.{stores_of};
ghost use Rattle.replay_undo.specs.Attempts.{WithFlags, WithValues, WithWords, Attempt};

use crate::tally::Tally;
use crate::values::Assigned;
use crate::{back, patched, values, words};
use lower::LentSystem;
use operand::TermStores;
use replaying::UNTOUCHED;

// A house file, the slots to fuse it with, and the seed of its words.
#[derive(Clone, Copy)]
pub struct Case<'a> {
    pub file: &'a [u8],
    pub slots: u64,
    pub seed: u64,
}

// Fuses a copy, which leaves the flags, as many as words; then fills back over the originals.
fn with_flags(case: &Case<'_>, system: &LentSystem<'_>, assigned: &Assigned<'_>, t: &mut Tally)
    ensures { WithFlags case.now.file.now case.now.slots system.now.sizes (stores_of system.now) assigned.now.words.now assigned.now.values.now t.old t.new }
{
    let n = assigned.words.len().min(lower::MAX_WIRES);
    let mut flags = [7u8; lower::MAX_WIRES];
    let flags = &mut flags[..n];
    patched::patched(case, system.sizes, assigned, flags, t);
    back::undo(system, flags, assigned.words, t);
    back::evaluations(system, assigned, t);
}

fn with_values(case: &Case<'_>, system: &LentSystem<'_>, words: &[u64], t: &mut Tally)
    ensures { WithValues case.now.file.now case.now.slots system.now.sizes (stores_of system.now) words.now t.old t.new }
{
    let mut out = [UNTOUCHED; values::MAX_VALUES];
    let _ = evaluate::evaluate(system, words, &mut out);
    let assigned = Assigned {
        words,
        values: &out,
    };
    values::see_definitions(system, &assigned, t);
    with_flags(case, system, &assigned, t);
}

// As many words as wires. Filled back with no wire committed, all definitions hold.
fn with_words(case: &Case<'_>, kind: usize, system: &LentSystem<'_>, t: &mut Tally)
    ensures { WithWords case.now.file.now case.now.slots case.now.seed kind system.now.sizes (stores_of system.now) t.old t.new }
{
    let n = system.sizes.wires.min(lower::MAX_WIRES);
    let none = [0u8; lower::MAX_WIRES];
    let mut words = [0u64; lower::MAX_WIRES];
    let words = &mut words[..n];
    words::make(words, kind, case.seed);
    let _ = fill_back::fill_back(system, &none[..n], words);
    with_values(case, system, words, t);
}

// A house file that is not read is not answered as it has to be.
pub fn attempt(case: &Case<'_>, kind: usize, t: &mut Tally)
    ensures { Attempt case.now.file.now case.now.slots case.now.seed kind t.old t.new }
{
    let mut terms = [UNTOUCHED; 8192];
    let mut ands = [UNTOUCHED; 3072];
    let mut imuls = [UNTOUCHED; 4096];
    let mut bmuls = [UNTOUCHED; 6144];
    let mut zeros = [UNTOUCHED; 1024];
    let mut dsts = [7u16; 1024];
    let mut rhss = [UNTOUCHED; 1024];
    let answer = house_read::read(
        case.file, &mut terms, &mut ands, &mut imuls, &mut bmuls, &mut zeros, &mut dsts, &mut rhss,
    );
    let Ok(read) = answer else {
        t.count_answer(false);
        return;
    };
    let system = LentSystem {
        stores: TermStores {
            old: &terms,
            new: &[],
        },
        ands: &ands,
        imuls: &imuls,
        bmuls: &bmuls,
        zeros: &zeros,
        dsts: &dsts,
        rhss: &rhss,
        sizes: read.sizes,
    };
    with_words(case, kind, &system, t);
}
