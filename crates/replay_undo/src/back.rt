// Filling back over the original definitions, and what is refused.
ghost use Rattle.std.specs.Prelude.{◌≡◌, ◌↔◌, IsTrue, length};
ghost use Rattle.lower.specs.Stores.{stores_of};
ghost use Rattle.replay_undo.specs.Places.{same_places};
ghost use Rattle.replay_undo.specs.Undone.{Filled, Returns, ShortFlags, ShortWords, Undone, Undo, Evaluation, Evaluations};

use crate::tally::Tally;
use crate::values::Assigned;
use crate::{places, values, words};
use lower::LentSystem;
use refusal::Refusal;
use replaying::UNTOUCHED;

// Fills back from the words `before`: how many words are then the expected ones, where `told` is answered.
fn filled(
    system: &LentSystem<'_>,
    flags: &[u8],
    before: &[u64],
    told: Result<(), Refusal>,
    expected: &[u64],
) -> Option<usize>
    ensures { Filled system.now.sizes (stores_of system.now) flags.now before.now told expected.now result }
{
    let n = before.len().min(lower::MAX_WIRES);
    let mut again = [0u64; lower::MAX_WIRES];
    let again = &mut again[..n];
    again.copy_from_slice(&before[..n]);
    let answer = fill_back::fill_back(system, flags, again);
    if answer != told {
        return None;
    }
    Some(places::same_numbers(again, expected, 0, expected.len()))
}

// Every word returns.
fn returns(system: &LentSystem<'_>, flags: &[u8], noisy: &[u64], words: &[u64], t: &mut Tally)
    ensures { Returns system.now.sizes (stores_of system.now) flags.now noisy.now words.now t.old t.new }
{
    let same = filled(system, flags, noisy, Ok(()), words);
    t.count_words(same.unwrap_or(0), words.len());
}

// One flag too few is refused, and the words are as they were.
fn short_flags(system: &LentSystem<'_>, flags: &[u8], noisy: &[u64], t: &mut Tally)
    ensures { ShortFlags system.now.sizes (stores_of system.now) flags.now noisy.now t.old t.new }
{
    let flags = &flags[..flags.len().saturating_sub(1)];
    let same = filled(system, flags, noisy, Err(Refusal::Size), noisy);
    t.count_answer(same == Some(noisy.len()));
}

// One word too few is refused, and the words are as they were.
fn short_words(system: &LentSystem<'_>, flags: &[u8], noisy: &[u64], t: &mut Tally)
    ensures { ShortWords system.now.sizes (stores_of system.now) flags.now noisy.now t.old t.new }
{
    let noisy = &noisy[..noisy.len().saturating_sub(1)];
    let same = filled(system, flags, noisy, Err(Refusal::Size), noisy);
    t.count_answer(same == Some(noisy.len()));
}

// With the flags of fusing, and with such flags as say something else of the wires that are not defined; with all wires committed, where no
// word changes; and what is refused.
fn undone(
    system: &LentSystem<'_>,
    flags: &[u8],
    other: &[u8],
    all: &[u8],
    noisy: &[u64],
    words: &[u64],
    t: &mut Tally,
)
    ensures { Undone system.now.sizes (stores_of system.now) flags.now other.now all.now noisy.now words.now t.old t.new }
{
    returns(system, flags, noisy, words, t);
    returns(system, other, noisy, words, t);
    returns(system, all, noisy, noisy, t);
    short_flags(system, flags, noisy, t);
    short_words(system, flags, noisy, t);
}

// The words of all uncommitted defined wires are overwritten, and filled back.
pub fn undo(system: &LentSystem<'_>, flags: &[u8], words: &[u64], t: &mut Tally)
    ensures { Undo system.now.sizes (stores_of system.now) flags.now words.now t.old t.new }
{
    let n = words.len().min(lower::MAX_WIRES);
    let all = [201u8; lower::MAX_WIRES];
    let mut other = [201u8; lower::MAX_WIRES];
    let mut noisy = [0u64; lower::MAX_WIRES];
    let other = &mut other[..n];
    let noisy = &mut noisy[..n];
    let d = values::rows(system.sizes.linears);
    noisy.copy_from_slice(&words[..n]);
    words::overwrite(noisy, system.dsts, d, flags);
    words::lay_flags(other, system.dsts, d, flags);
    undone(system, flags, other, &all[..n], noisy, words, t);
}

// `told` is answered, and all places are the expected ones.
fn is_as_told(
    answer: Result<usize, Refusal>,
    told: Result<usize, Refusal>,
    out: &[u64],
    expected: &[u64],
) -> bool
    ensures { IsTrue result ↔ (answer ≡ told) × (same_places out.now expected.now 0 (length out.now) ≡ length out.now) }
{
    answer == told && places::same_numbers(out, expected, 0, out.len()) == out.len()
}

// Evaluates with room for so many values.
fn evaluation(
    system: &LentSystem<'_>,
    words: &[u64],
    room: usize,
    told: Result<usize, Refusal>,
    expected: &[u64],
    t: &mut Tally,
)
    ensures { Evaluation system.now.sizes (stores_of system.now) words.now room told expected.now t.old t.new }
{
    let n = room.min(values::MAX_VALUES);
    let mut out = [UNTOUCHED; values::MAX_VALUES];
    let out = &mut out[..n];
    let answer = evaluate::evaluate(system, words, out);
    t.count_answer(is_as_told(answer, told, out, expected));
}

// One word too few, and room for one value too few, are refused, and no place is written; as much room as there are values is enough; and
// places behind the values are as they were.
pub fn evaluations(system: &LentSystem<'_>, assigned: &Assigned<'_>, t: &mut Tally)
    ensures { Evaluations system.now.sizes (stores_of system.now) assigned.now.words.now assigned.now.values.now t.old t.new }
{
    let blank = [UNTOUCHED; values::MAX_VALUES];
    let Assigned { words, values } = *assigned;
    let count = values::count_of(system.sizes);
    let few = &words[..words.len().saturating_sub(1)];
    evaluation(
        system,
        few,
        values::MAX_VALUES,
        Err(Refusal::Size),
        &blank,
        t,
    );
    evaluation(
        system,
        words,
        count.saturating_sub(1),
        Err(Refusal::Room),
        &blank,
        t,
    );
    evaluation(system, words, count, Ok(count), values, t);
    let rest = values::MAX_VALUES.saturating_sub(count);
    t.count_answer(places::same_numbers(values, &blank, count, rest) == rest);
}
