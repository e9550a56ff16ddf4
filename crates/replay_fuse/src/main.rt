// Replays fusing. The input is the harness's fuse.bin: the number of vectors, and for each a house file, slots, the room of the result
// store, a refusal's number (0 for none), the patched lists as a house file, and five counts. What is printed: how many vectors were
// answered so and how many not, the counts in all, a digest of all files written; and of further calls how many were answered as they
// have to be.
#![tactic(auto)]

ghost use Rattle.std.specs.Prelude.{◌≡◌, ◌+◌, ◌^◌, ◌<◌, ◌≤◌, length};
ghost use Rattle.replaying.specs.Places.{part_of};
ghost use Rattle.replay_fuse.specs.Replay.{vector_at, told_at, VectorReplayed, ReplayedAll};

use judge::{Case, Told};
use replaying::{number, part};
use std::io;
use tally::Tally;

mod attempt;
mod further;
mod judge;
mod places;
mod tally;

const MAX_INPUT: usize = 262144;

// Where the parts of a vector stand: the house file up to `answer`, the result up to `counts`.
#[derive(Clone, Copy)]
struct Vector {
    file: usize,
    answer: usize,
    slots: u64,
    room: usize,
    result: usize,
    counts: usize,
    end: usize,
}

#[tactic(auto, unfolding(crate::specs::Replay::vector_at))]
fn vector_at(input: &[u8], at: usize) -> Vector
    requires { at < 2 ^ 61 }
    ensures value { result ≡ vector_at input.now at }
    ensures at_lt_end { (at < result.end) × (result.answer < at + 2 ^ 60) × (result.counts < at + 2 ^ 60) }
{
    let file = at + 4;
    let answer = file + number(input, at);
    let result = answer + 16;
    let counts = result + number(input, answer + 12);
    Vector {
        file,
        answer,
        slots: number(input, answer) as u64,
        room: number(input, answer + 4),
        result,
        counts,
        end: counts + 20,
    }
}

// What a vector tells: its refusal, and its counts.
#[tactic(auto, unfolding(crate::specs::Replay::told_at))]
fn told_at(input: &[u8], answer: usize, counts: usize) -> Told
    requires { (answer < 2 ^ 61) × (counts < 2 ^ 61) }
    ensures { result ≡ told_at input.now answer counts }
{
    Told {
        refusal: number(input, answer + 8),
        gone: number(input, counts),
        stranded: number(input, counts + 4),
        committed: number(input, counts + 8),
        written: number(input, counts + 12),
        kept: number(input, counts + 16),
    }
}

fn replay_vector(input: &[u8], v: Vector, t: Tally) -> Tally
    requires { (v.answer < 2 ^ 61) × (v.counts < 2 ^ 61) }
    ensures { VectorReplayed (part_of input.now v.file v.answer) v.slots v.room (told_at input.now v.answer v.counts) (part_of input.now v.result v.counts) t result }
{
    let case = Case {
        file: part(input, v.file, v.answer),
        slots: v.slots,
        room: v.room,
        wires: lower::MAX_WIRES,
        told: told_at(input, v.answer, v.counts),
        patched: part(input, v.result, v.counts),
        digest: t.digest,
    };
    let seen = attempt::attempt(&case);
    further::check_further(&case, t.with_vector(seen))
}

// Kept: each vector says where the next begins, so the loop does not go over a range.
fn replay(input: &[u8]) -> Tally
    requires { length input.now ≤ 262144 }
    ensures { ReplayedAll input.now result }
{
    let mut t = Tally::default();
    let mut at = 4;
    while at < input.len() {
        let v = vector_at(input, at);
        t = replay_vector(input, v, t);
        at = v.end;
    }
    t
}

fn print(rt: &impl Print, t: Tally) -> io::Result<()> {
    let lines = [
        ("vectors right ", t.right),
        ("vectors wrong ", t.wrong),
        ("gone ", t.gone),
        ("stranded ", t.stranded),
        ("committed ", t.committed),
        ("terms written ", t.written),
        ("digest ", t.digest),
        ("checks right ", t.passed),
        ("checks wrong ", t.failed),
    ];
    for (label, n) in lines {
        streams::print_number(rt, label, n)?;
    }
    Ok(())
}

fn main(rt: HostRuntime) -> io::Result<()> {
    let mut input = [0u8; MAX_INPUT];
    let n = streams::read_full(&mut rt.stdin(), &mut input)?;
    print(&rt, replay(&input[..n]))
}
