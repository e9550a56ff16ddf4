// Replays fusing over records. The input is the harness's fuse.bin: the number of vectors, and for each a house file, slots, the room of the
// result store, a refusal's number (0 for none), the patched lists as a house file, and five counts. Each file is read, fused and written, its
// definitions as records, and filled back over the flags. What is printed: how many vectors were answered so and how many not, the counts in
// all, how many definitions hold once filled back, and a digest of all files written.
#![tactic(auto)]

ghost use Rattle.std.specs.Prelude.{◌≡◌, ◌+◌, ◌^◌, ◌<◌, ◌≤◌, length};
ghost use Rattle.replay_records.specs.Replay.{vector_at, told_at, ReplayedAll};

use fusion::Counts;
use judge::{Task, Told};
use replaying::number;
use std::io;
use streams::print_number;
use tally::Tally;

mod attempt;
mod judge;
mod lend;
mod places;
mod tally;
mod words;

const MAX_INPUT: usize = 262144;

// Where the parts of a vector stand: the house file up to `answer`, the result up to `counts`.
#[derive(Clone, Copy)]
struct Vector {
    file: usize,
    answer: usize,
    slots: u64,
    room: usize,
    result: usize,
    counts: usize,
    end: usize,
}

#[tactic(auto, unfolding(crate::specs::Replay::vector_at))]
fn vector_at(input: &[u8], at: usize) -> Vector
    requires { at < 2 ^ 61 }
    ensures value { result ≡ vector_at input.now at }
    ensures at_lt_end { (at < result.end) × (result.answer < at + 2 ^ 60) × (result.counts < at + 2 ^ 60) }
{
    let file = at + 4;
    let answer = file + number(input, at);
    let result = answer + 16;
    let counts = result + number(input, answer + 12);
    Vector {
        file,
        answer,
        slots: number(input, answer) as u64,
        room: number(input, answer + 4),
        result,
        counts,
        end: counts + 20,
    }
}

// What a vector tells: its refusal, and its counts.
#[tactic(auto, unfolding(crate::specs::Replay::told_at))]
fn told_at(input: &[u8], answer: usize, counts: usize) -> Told
    requires { (answer < 2 ^ 61) × (counts < 2 ^ 61) }
    ensures { result ≡ told_at input.now answer counts }
{
    Told {
        refusal: number(input, answer + 8),
        counts: Counts {
            gone: number(input, counts),
            stranded: number(input, counts + 4),
            committed: number(input, counts + 8),
            written: number(input, counts + 12),
            kept: number(input, counts + 16),
        },
    }
}

// Kept: each vector says where the next one begins, so the loop does not go over a range.
fn replay(input: &[u8]) -> Tally
    requires { length input.now ≤ 262144 }
    ensures { ReplayedAll input.now result }
{
    let mut t = Tally::nothing();
    let mut at = 4;
    while at < input.len() {
        let v = vector_at(input, at);
        let task = Task {
            file: replaying::part(input, v.file, v.answer),
            slots: v.slots,
            room: v.room,
            told: told_at(input, v.answer, v.counts),
            patched: replaying::part(input, v.result, v.counts),
            digest: t.digest,
        };
        t = t.count(attempt::attempt(&task));
        at = v.end;
    }
    t
}

fn main(rt: HostRuntime) -> io::Result<()> {
    let mut input = [0u8; MAX_INPUT];
    let n = streams::read_full(&mut rt.stdin(), &mut input)?;
    if MAX_INPUT < n {
        return Ok(());
    }
    let t = replay(&input[..n]);
    print_number(&rt, "vectors right ", t.right)?;
    print_number(&rt, "vectors wrong ", t.wrong)?;
    print_number(&rt, "gone ", t.gone)?;
    print_number(&rt, "stranded ", t.stranded)?;
    print_number(&rt, "committed ", t.committed)?;
    print_number(&rt, "terms written ", t.written)?;
    print_number(&rt, "definitions that hold ", t.holding)?;
    print_number(&rt, "digest ", t.digest)
}
