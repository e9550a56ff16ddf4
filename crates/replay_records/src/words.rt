// An assignment, and what filling back makes of it: the definitions of a file's system hold, but for the committed wires.
ghost use Rattle.std.specs.Prelude.{◌≡◌, ◌^◌, ◌<◌, ◌≤◌, length};
ghost use Rattle.refusal.specs.Refusals.{fault_in};
ghost use Rattle.lower.specs.Accepted.{MAX_DEFINITIONS};
ghost use Rattle.records.specs.Records.{records_in};
ghost use Rattle.replay_records.specs.Words.{stirred, word_at, made_words, rows_of, definitions_at, holds_of, holding_of, counted_of, FilledIn, WithWords, Filled};

use crate::{lend, places};
use lower::Sizes;
use operand::TermStores;
use records::{Definition, LentRecords};
use refusal::Refusal;
use replaying::UNTOUCHED;

// Six operands at most of each of 1,024 constraints, and one of each of 1,024 definitions.
const MAX_VALUES: usize = 7168;

fn stir(x: u64) -> u64
    ensures { (result ≡ stirred x) × (result < 1000000007) }
{
    (x % 1000000007 * 48271 + 11) % 1000000007
}

// The word of wire `i`.
#[tactic(auto, unfolding(crate::specs::Words::word_at))]
fn word(i: usize) -> u64
    ensures { result ≡ word_at i }
{
    let a = stir(stir(i as u64));
    let b = stir(a);
    stir(b) * 17179869184 + b * 16 + a % 16
}

fn make(words: &mut [u64])
    ensures { words.new ≡ made_words (length words.old) words.old }
{
    for i in 0..words.len() {
        words[i] = word(i);
    }
}

// No more than the limits of a system, so that no product and no sum is too large.
pub fn rows(n: usize) -> usize
    ensures { (result ≡ rows_of n) × (result ≤ 1024) }
{
    n.min(lower::MAX_OTHERS)
}

// Where the values of the definitions begin, in the writer's order.
fn definitions_at(z: Sizes) -> usize
    ensures { (result ≡ definitions_at z) × (result < 2 ^ 16) }
{
    3 * rows(z.ands) + 4 * rows(z.imuls) + 6 * rows(z.bmuls) + rows(z.zeros)
}

// 1 where the definition's wire is not committed, and its word is the value.
#[tactic(auto, unfolding(crate::specs::Words::holds_of))]
fn holds(d: Definition, value: u64, flags: &[u8], words: &[u64]) -> usize
    ensures { (result ≡ holds_of d value flags.now words.now) × (result ≤ 1) }
{
    let w = d.dst as usize;
    if house_file::byte(flags, w) != 0 {
        return 0;
    }
    places::same(places::get(words, w), value)
}

// How many of the first `n` definitions hold so.
fn holding(
    defs: &[Definition],
    n: usize,
    values: &[u64],
    at: usize,
    flags: &[u8],
    words: &[u64],
) -> usize
    requires { (n ≤ 1024) × (n ≤ length defs.now) × (at < 2 ^ 16) }
    ensures { result ≡ holding_of defs.now n values.now at flags.now words.now }
{
    let mut c = 0;
    for i in 0..n {
        c += holds(defs[i], places::get(values, at + i), flags, words);
    }
    c
}

#[tactic(auto, using(lower::proofs::Refusals::number_some), unfolding(crate::specs::Words::counted_of))]
fn counted(
    filled: Result<(), Refusal>,
    evaluated: Result<usize, Refusal>,
    system: &LentRecords<'_>,
    values: &[u64],
    flags: &[u8],
    words: &[u64],
) -> usize
    requires { length system.now.defs.now ≡ MAX_DEFINITIONS }
    ensures { result ≡ counted_of (fault_in filled) evaluated system.now.defs.now system.now.sizes values.now flags.now words.now }
{
    match (filled, evaluated) {
        (Ok(()), Ok(_)) => {
            let z = system.sizes;
            holding(
                system.defs,
                rows(z.linears),
                values,
                definitions_at(z),
                flags,
                words,
            )
        }
        _ => 0,
    }
}

fn filled_in(system: &LentRecords<'_>, flags: &[u8], words: &mut [u64], values: &mut [u64]) -> usize
    requires { length system.now.defs.now ≡ MAX_DEFINITIONS }
    ensures { FilledIn system.now.sizes (records_in system.now) system.now.defs.now flags.now words.old values.old words.new values.new result }
{
    make(&mut *words);
    let filled = records::fill_back_records(system, flags, &mut *words);
    let evaluated = records::values::evaluate_records(system, &*words, &mut *values);
    counted(filled, evaluated, system, &*values, flags, &*words)
}

// As many words as wires.
fn with_words(system: &LentRecords<'_>, flags: &[u8]) -> usize
    requires { length system.now.defs.now ≡ MAX_DEFINITIONS }
    ensures { WithWords system.now.sizes (records_in system.now) system.now.defs.now flags.now result }
{
    let n = system.sizes.wires.min(lower::MAX_WIRES);
    let mut words = [0u64; lower::MAX_WIRES];
    let mut values = [UNTOUCHED; MAX_VALUES];
    filled_in(system, flags, &mut words[..n], &mut values)
}

// Kept: makes the stores that `attempt` makes too: with no heap they stand in the function that lends them.
// How many uncommitted definitions of the file's system hold, once filled back.
pub fn filled(file: &[u8], flags: &[u8]) -> usize
    ensures { Filled file.now flags.now result }
{
    let mut terms = [UNTOUCHED; 8192];
    let mut ands = [UNTOUCHED; 3072];
    let mut imuls = [UNTOUCHED; 4096];
    let mut bmuls = [UNTOUCHED; 6144];
    let mut zeros = [UNTOUCHED; 1024];
    let loaded = lend::read(
        file, &mut terms, &mut ands, &mut imuls, &mut bmuls, &mut zeros,
    );
    match loaded.read {
        Err(_) => 0,
        Ok(read) => {
            let system = LentRecords {
                stores: TermStores {
                    old: &terms,
                    new: &[],
                },
                ands: &ands,
                imuls: &imuls,
                bmuls: &bmuls,
                zeros: &zeros,
                defs: &loaded.defs,
                sizes: read.sizes,
            };
            with_words(&system, flags)
        }
    }
}
