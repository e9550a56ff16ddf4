// Replays the vectors of the house file, and writes and reads files at the limits. The input is the number of vectors, then each: the
// length of a file, the file, and what it has to be answered with: number, offset, wires, five counts, terms. All numbers have four bytes.
// What is printed: how many checks were right and wrong, and a digest of all that was read.
#![tactic(auto)]

ghost use Rattle.std.specs.Prelude.{◌≡◌, ◌+◌, ◌^◌, ◌<◌, ◌≤◌};
ghost use Rattle.replay_house.specs.Replay.{number_at, expected_at, meets_asked, state_of, file_of_vector, vector_of, vectors_of};

use pass::Seen;
use std::io;
use tally::Tally;

mod limits;
mod pass;
mod tally;

// A number of four bytes, 0 past the end.
// Kept: replaying::number reads one that is cut at the end as its first bytes say.
fn number(input: &[u8], at: usize) -> usize
    ensures { (result ≡ number_at input.now at) × (result < 4294967296) }
{
    if input.len() < 4 {
        return 0;
    }
    if input.len() - 4 < at {
        return 0;
    }
    house_file::num(input, at) + 65536 * house_file::num(input, at + 2)
}

// What a vector asks of a file of `n` bytes: nine numbers from `at` on. A file that is read is written again, in as many bytes.
fn expected(input: &[u8], at: usize, n: usize) -> Option<Seen>
    ensures { result ≡ expected_at input.now at n }
{
    if input.len() < at {
        return None;
    }
    let fault = number(input, at);
    Some(Seen {
        number: fault,
        at: number(input, at + 4),
        wires: number(input, at + 8),
        ands: number(input, at + 12),
        imuls: number(input, at + 16),
        bmuls: number(input, at + 20),
        zeros: number(input, at + 24),
        linears: number(input, at + 28),
        terms: number(input, at + 32),
        written: 0,
        length: if fault == 0 { n } else { 0 },
    })
}

// Whether that was seen.
fn meets(seen: Seen, asked: Option<Seen>) -> bool
    ensures { result ≡ meets_asked seen asked }
{
    match asked {
        Some(asked) => pass::same(seen, asked),
        None => false,
    }
}

// One file: read and written, held against what it has to be answered with, and what was written again.
fn file_of(file: &[u8], asked: Option<Seen>, one: &mut [u8], two: &mut [u8], t: Tally) -> Tally
    ensures { state_of one.new two.new result ≡ file_of_vector file.now asked (state_of one.old two.old t) }
{
    let seen = pass::pass(file, &mut *one);
    let told = t.answer(seen).count(meets(seen, asked));
    if seen.number != 0 {
        return told;
    }
    pass::again(seen, &*one, &mut *two, told)
}

fn vector(input: &[u8], at: usize, n: usize, one: &mut [u8], two: &mut [u8], t: Tally) -> Tally
    requires { (at < 2 ^ 63 + 8) × (n < 4294967296) }
    ensures { state_of one.new two.new result ≡ vector_of input.now at n (state_of one.old two.old t) }
{
    let end = at + n;
    if input.len() < end {
        return t.count(false);
    }
    file_of(&input[at..end], expected(input, end, n), one, two, t)
}

fn vectors(input: &[u8], one: &mut [u8], two: &mut [u8]) -> Tally
    ensures { state_of one.new two.new result ≡ vectors_of input.now (number_at input.now 0) 4 (state_of one.old two.old (record { right = 0; wrong = 0; digest = 0 })) }
{
    let mut t = Tally {
        right: 0,
        wrong: 0,
        digest: 0,
    };
    let mut at = 4;
    for _ in 0..number(input, 0) {
        if input.len() <= at {
            return t.count(false);
        }
        let n = number(input, at);
        t = vector(input, at + 4, n, &mut *one, &mut *two, t);
        at = at + 4 + n + 36;
    }
    t
}

fn replay(rt: &impl Print, input: &[u8]) -> io::Result<()> {
    let mut one = [0u8; 262144];
    let mut two = [0u8; 262144];
    let t = limits::limits(vectors(input, &mut one, &mut two), &mut one, &mut two);
    println!(rt; "right {} wrong {} digest {}", t.right, t.wrong, t.digest)
}

fn main(rt: HostRuntime) -> io::Result<()> {
    let mut input = [0u8; 262144];
    let n = streams::read_full(&mut rt.stdin(), &mut input)?;
    replay(&rt, &input[..n])
}
