// Replays checks in memory. The input is a list of pairs of numbers, eight bytes each: a place and what to put there; or a place past all
// and the number that what stands in memory has to be given. What is printed: how many answers were right and wrong, and a digest of them.
//
// Memory is one array of 8192 numbers. 0 is the limit of terms; 1 to 6 the counts; from 7 on, two places for each of the eight stores
// (old, new, ands, imuls, bmuls, zeros, destinations, right sides): where it begins and where it ends; from 23 on, what stands in them.
// The destinations are an array of their own.
#![tactic(auto)]

ghost use Rattle.std.specs.Prelude.{◌≡◌, ◌/◌, ◌<◌, length, slice_index, slice_set};
ghost use Rattle.replay_lower.specs.Replay.{word_at, part_of, store_at, sizes_at, checked_at, counted, state_of, step_of, after};

use lower::{LentSystem, Sizes};
use operand::TermStores;
use std::io;

#[derive(Clone, Copy)]
struct Tally {
    right: u64,
    wrong: u64,
    digest: u64,
}

// The number at place `i`, 0 past the end.
fn get(memory: &[u64], i: usize) -> u64
    ensures { result ≡ slice_index memory.now i }
{
    memory.get(i).copied().unwrap_or(0)
}

// A part of a store; empty where it is none.
fn part<T>(store: &[T], begin: u64, end: u64) -> &[T]
    ensures { result.now ≡ part_of store.now begin end }
{
    store.get(begin as usize..end as usize).unwrap_or(&[])
}

// The part of `places` that begins and ends where the memory says, at `i` and `i + 1`.
#[tactic(auto, unfolding(crate::specs::Replay::store_at))]
fn store<'a, T>(memory: &[u64], places: &'a [T], i: u16) -> &'a [T]
    ensures { result.now ≡ store_at memory.now places.now i }
{
    part(places, get(memory, i as usize), get(memory, i as usize + 1))
}

#[tactic(auto, unfolding(crate::specs::Replay::sizes_at))]
fn sizes(memory: &[u64]) -> Sizes
    ensures { result ≡ sizes_at memory.now }
{
    Sizes {
        wires: get(memory, 1) as usize,
        ands: get(memory, 2) as usize,
        imuls: get(memory, 3) as usize,
        bmuls: get(memory, 4) as usize,
        zeros: get(memory, 5) as usize,
        linears: get(memory, 6) as usize,
    }
}

// The number of the refusal, 0 for none.
fn run(memory: &[u64], dsts: &[u16]) -> u8
    ensures { result ≡ checked_at memory.now dsts.now }
{
    let system = LentSystem {
        stores: TermStores {
            old: store(memory, memory, 7),
            new: store(memory, memory, 9),
        },
        ands: store(memory, memory, 11),
        imuls: store(memory, memory, 13),
        bmuls: store(memory, memory, 15),
        zeros: store(memory, memory, 17),
        dsts: store(memory, dsts, 19),
        rhss: store(memory, memory, 21),
        sizes: sizes(memory),
    };
    match system.check_all(get(memory, 0)) {
        Ok(()) => 0,
        Err(refusal) => refusal.number(),
    }
}

fn count(t: Tally, answer: u8, expected: u64) -> Tally
    ensures { result ≡ counted t answer expected }
{
    let digest = (t.digest % 1000000007 * 31 + answer as u64) % 1000000007;
    if answer as u64 == expected {
        return Tally {
            right: t.right.wrapping_add(1),
            digest,
            ..t
        };
    }
    Tally {
        wrong: t.wrong.wrapping_add(1),
        digest,
        ..t
    }
}

fn byte(input: &[u8], i: usize) -> u64
    ensures { (result ≡ slice_index input.now i) × (result < 256) }
{
    if i < input.len() {
        return input[i] as u64;
    }
    0
}

// The `i`-th number of the input, the low byte first.
fn word(input: &[u8], i: usize) -> u64
    ensures { result ≡ word_at input.now i }
{
    if input.len() / 8 <= i {
        return 0;
    }
    let at = 8 * i;
    byte(input, at)
        + 256 * byte(input, at + 1)
        + 65536 * byte(input, at + 2)
        + 16777216 * byte(input, at + 3)
        + 4294967296 * byte(input, at + 4)
        + 1099511627776 * byte(input, at + 5)
        + 281474976710656 * byte(input, at + 6)
        + 72057594037927936 * byte(input, at + 7)
}

// A place past the end takes nothing.
fn put<T: Copy>(store: &mut [T], i: usize, number: T)
    ensures { store.new ≡ slice_set store.old i number }
{
    if i < store.len() {
        store[i] = number;
    }
}

// One pair: places below 65536 are memory's, the next 65536 the destinations'; at those past them, what stands in memory is checked.
fn step(memory: &mut [u64], dsts: &mut [u16], place: u64, number: u64, t: Tally) -> Tally
    ensures { state_of memory.new dsts.new result ≡ step_of (state_of memory.old dsts.old t) place number }
{
    let i = (place % 65536) as usize;
    match place / 65536 {
        0 => put(&mut *memory, i, number),
        1 => put(&mut *dsts, i, (number % 65536) as u16),
        _ => return count(t, run(&*memory, &*dsts), number),
    }
    t
}

fn replay(input: &[u8]) -> Tally
    ensures { result ≡ (after input.now (length input.now / 16)).tally }
{
    let mut memory = [0u64; 8192];
    let mut dsts = [0u16; 2048];
    let mut t = Tally {
        right: 0,
        wrong: 0,
        digest: 0,
    };
    for i in 0..input.len() / 16 {
        t = step(
            &mut memory,
            &mut dsts,
            word(input, 2 * i),
            word(input, 2 * i + 1),
            t,
        );
    }
    t
}

fn main(rt: HostRuntime) -> io::Result<()> {
    let mut input = [0u8; 262144];
    let n = streams::read_full(&mut rt.stdin(), &mut input)?;
    let t = replay(&input[..n]);
    println!(rt; "right {} wrong {} digest {}", t.right, t.wrong, t.digest)
}
