// Shows by running that removing is undone by recomputing. The input is a part of the harness's fuse.bin: of its vectors that are not
// refused and have the whole room, those with a house file of at most 2,000 bytes, and the circuits keccak, blake3 and ghash; and the circuit of
// docs/MISSING.md, a failed acquisition, at one slot and two. It is the number of them, and for each the house file and the slots. Each is gone through with four assignments: all zeros, all ones, and two of any
// words, each filled back so that all definitions hold. Looked at: that they do; that the patched system's definitions hold, stranded ones
// too, and its other operands have the same values, up to the order of the constraints; that each word returns when the words of all
// uncommitted defined wires are overwritten and filled back with the flags of fusing, and stays when all wires are committed; and that what is
// too short is refused and nothing written. What is printed: how many of each were so and how many not, and a digest of all values.
#![tactic(auto)]

ghost use Rattle.std.specs.Prelude.{◌≡◌, ◌^◌, ◌<◌, ◌≤◌, length};
ghost use Rattle.replay_undo.specs.Replay.{vector_at, VectorReplayed, ReplayedAll};

use attempt::Case;
use std::io;
use tally::Tally;

mod attempt;
mod back;
mod patched;
mod places;
mod tally;
mod values;
mod words;

const MAX_INPUT: usize = 131072;

// Where the parts of a vector stand: the house file up to `answer`.
#[derive(Clone, Copy)]
struct Vector {
    file: usize,
    answer: usize,
    slots: u64,
    seed: u64,
    end: usize,
}

// Where it begins is the seed of its words.
#[tactic(auto, unfolding(crate::specs::Replay::vector_at))]
fn vector_at(input: &[u8], at: usize) -> Vector
    requires { at < 2 ^ 61 }
    ensures value { result ≡ vector_at input.now at }
    ensures at_lt_end { at < result.end }
{
    let file = at + 4;
    let answer = file + replaying::number(input, at);
    Vector {
        file,
        answer,
        slots: replaying::number(input, answer) as u64,
        seed: at as u64,
        end: answer + 4,
    }
}

// Under each of the four assignments.
fn replay_vector(case: &Case<'_>, t: &mut Tally)
    ensures { VectorReplayed case.now.file.now case.now.slots case.now.seed t.old 4 t.new }
{
    for kind in 0..4 {
        attempt::attempt(case, kind, t);
    }
}

// Kept: each vector says where the next begins, so the loop does not go over a range.
fn replay(input: &[u8]) -> Tally
    requires { length input.now ≤ 131072 }
    ensures { ReplayedAll input.now result }
{
    let mut t = Tally::default();
    let mut at = 4;
    while at < input.len() {
        let v = vector_at(input, at);
        let case = Case {
            file: replaying::part(input, v.file, v.answer),
            slots: v.slots,
            seed: v.seed,
        };
        replay_vector(&case, &mut t);
        at = v.end;
    }
    t
}

fn print(rt: &impl Print, t: Tally) -> io::Result<()> {
    let lines = [
        ("systems fused", t.systems),
        ("words as they have to be", t.returned),
        ("words otherwise", t.lost),
        ("operand values equal", t.equal),
        ("operand values not equal", t.unequal),
        ("definitions that hold", t.hold),
        ("definitions that do not", t.broken),
        ("refusals right", t.right),
        ("refusals wrong", t.wrong),
        ("digest", t.digest),
    ];
    for (label, n) in lines {
        println!(rt; "{label} {n}")?;
    }
    Ok(())
}

fn main(rt: HostRuntime) -> io::Result<()> {
    let mut input = [0u8; MAX_INPUT];
    let n = streams::read_full(&mut rt.stdin(), &mut input)?;
    print(&rt, replay(&input[..n]))
}
