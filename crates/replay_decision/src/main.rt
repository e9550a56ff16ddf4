// Replays decisions. The input is the harness's decision.bin: the number of vectors, and for each a house file, slots, a refusal's number
// (0 for none) and a flag for each wire, 1 for committed. What is printed: how many vectors were answered so and how many not, the
// committed wires, a digest of all flags and of the decisions' numbers; and of further calls how many were answered as they have to be.
#![tactic(auto)]

ghost use Rattle.std.specs.Prelude.{◌≡◌, ◌^◌, ◌<◌, ◌≤◌, length, get_or};
ghost use Rattle.refusal.specs.Refusals.{number_of, fault_in};
ghost use Rattle.lower.specs.Stores.{stores_of};
ghost use Rattle.replay_decision.specs.Replay.{vector_at, marked_by, flags_of, equal_places, count_of, digest_of, vector_counted, check_counted, refused_right, decided_right, judged_flags, judged, Answers, AnswersIn, SlotsChecked, RoomChecked, FurtherChecked, SystemReplayed, VectorReplayed, ReplayedAll};

use lower::{LentSystem, Sizes};
use operand::TermStores;
use refusal::Refusal;
use replaying::{UNTOUCHED, mix, number, part, untouched};
use std::io;

const MAX_INPUT: usize = 262144;

// Slots that are refused: small, one past a byte and what a narrower number would take for 1, and the largest.
const WRONG_SLOTS: [u64; 7] = [0, 3, 255, 256, 257, 4294967297, 18446744073709551615];

// Where the parts of a vector stand: the house file up to `answer`, the flags up to `end`.
#[derive(Clone, Copy)]
struct Vector {
    file: usize,
    answer: usize,
    slots: u64,
    refusal: u64,
    flags: usize,
    end: usize,
}

// What a vector asks of its system: slots, and as answer a refusal's number, or 0 and a flag for each wire.
#[derive(Clone, Copy)]
struct Asked<'a> {
    slots: u64,
    refusal: u64,
    flags: &'a [u8],
}

// Vectors, committed wires, a digest, and further checks.
#[derive(Clone, Copy)]
struct Tally {
    right: u64,
    wrong: u64,
    committed: u64,
    digest: u64,
    passed: u64,
    failed: u64,
}

#[tactic(auto, unfolding(crate::specs::Replay::vector_at))]
fn vector_at(input: &[u8], at: usize) -> Vector
    requires { at < 2 ^ 61 }
    ensures value { result ≡ vector_at input.now at }
    ensures at_lt_end { at < result.end }
{
    let file = at + 4;
    let answer = file + number(input, at);
    let flags = answer + 12;
    let end = flags + number(input, answer + 8);
    Vector {
        file,
        answer,
        slots: number(input, answer) as u64,
        refusal: number(input, answer + 4) as u64,
        flags,
        end,
    }
}

// The number at place `i`, `none` past the end.
fn get<T: Copy>(l: &[T], i: usize, none: T) -> T
    ensures { result ≡ get_or l.now i none }
{
    l.get(i).copied().unwrap_or(none)
}

// The wire of a definition that commits gets its flag.
fn mark_one(met: &mut [u64], decision: u64, dst: u16)
    ensures { met.new ≡ marked_by decision dst met.old }
{
    let wire = dst as usize;
    if decision == 0 && wire < met.len() {
        met[wire] = 1;
    }
}

// The flags of the first `n` definitions.
fn mark(met: &mut [u64], decisions: &[u64], dsts: &[u16], n: usize)
    ensures { met.new ≡ flags_of decisions.now dsts.now n met.old }
{
    for i in 0..n {
        mark_one(&mut *met, get(decisions, i, 0), get(dsts, i, 0));
    }
}

// How many of the first `n` places are the same.
fn equal_places(flags: &[u8], met: &[u64], n: usize) -> usize
    ensures { result ≡ equal_places flags.now met.now n }
{
    let mut c: usize = 0;
    for i in 0..n {
        c += (house_file::byte(flags, i) as u64 == get(met, i, 0)) as usize;
    }
    c
}

// How many of the first `n` places have the number `x`.
fn count(l: &[u64], x: u64, n: usize) -> usize
    ensures { result ≡ count_of l.now x n }
{
    let mut c: usize = 0;
    for i in 0..n {
        c += (get(l, i, 0) == x) as usize;
    }
    c
}

fn digest_of(l: &[u64], n: usize, start: u64) -> u64
    ensures { result ≡ digest_of l.now n start }
{
    let mut digest = start;
    for i in 0..n {
        digest = mix(digest, get(l, i, 0));
    }
    digest
}

impl Tally {
    // One more vector.
    fn with_vector(self, right: bool, committed: usize, digest: u64) -> Tally
        ensures { result ≡ vector_counted self right committed digest }
    {
        let committed = self.committed.wrapping_add(committed as u64);
        if right {
            Tally {
                right: self.right.wrapping_add(1),
                committed,
                digest,
                ..self
            }
        } else {
            Tally {
                wrong: self.wrong.wrapping_add(1),
                committed,
                digest,
                ..self
            }
        }
    }

    // One more check.
    fn with_check(self, right: bool) -> Tally
        ensures { result ≡ check_counted self right }
    {
        if right {
            Tally {
                passed: self.passed.wrapping_add(1),
                ..self
            }
        } else {
            Tally {
                failed: self.failed.wrapping_add(1),
                ..self
            }
        }
    }
}

// A refusal: no flags, and the decisions as they were.
fn refused(refusal: Refusal, asked: &Asked<'_>, decisions: &[u64]) -> bool
    ensures { result ≡ refused_right (number_of refusal) asked.now.refusal decisions.now asked.now.flags.now }
{
    refusal.number() as u64 == asked.refusal && asked.flags.len() == 0 && untouched(decisions, 0)
}

// No refusal: every wire's flag, and the places past the definitions as they were.
fn decided(asked: &Asked<'_>, decisions: &[u64], met: &[u64], z: Sizes) -> bool
    ensures { result ≡ decided_right asked.now.refusal decisions.now z.linears asked.now.flags.now met.now z.wires }
{
    asked.refusal == 0
        && asked.flags.len() == z.wires
        && equal_places(asked.flags, met, z.wires) == z.wires
        && untouched(decisions, z.linears)
}

#[tactic(auto, unfolding(crate::specs::Replay::judged_flags))]
fn judge_flags(asked: &Asked<'_>, decisions: &[u64], met: &[u64], z: Sizes, t: Tally) -> Tally
    ensures { result ≡ judged_flags asked.now.refusal decisions.now z.linears asked.now.flags.now met.now z.wires t }
{
    t.with_vector(
        decided(asked, decisions, met, z),
        count(met, 1, z.wires),
        digest_of(decisions, z.linears, digest_of(met, z.wires, t.digest)),
    )
}

// What was answered and left, against the vector.
#[tactic(auto, unfolding(crate::specs::Replay::judged))]
fn judge(
    answer: Result<(), Refusal>,
    asked: &Asked<'_>,
    system: &LentSystem<'_>,
    decisions: &[u64],
    t: Tally,
) -> Tally
    ensures { result ≡ judged (fault_in answer) asked.now.refusal decisions.now system.now.dsts.now system.now.sizes.linears asked.now.flags.now system.now.sizes.wires t }
{
    match answer {
        Ok(()) => {
            let mut met = [0u64; lower::MAX_WIRES];
            mark(&mut met, decisions, system.dsts, system.sizes.linears);
            judge_flags(asked, decisions, &met, system.sizes, t)
        }
        Err(refusal) => t.with_vector(
            refused(refusal, asked, decisions),
            0,
            mix(t.digest, refusal.number() as u64),
        ),
    }
}

// Whether the answer is the expected one; a refusal leaves the decisions as they were.
fn answers(
    system: &LentSystem<'_>,
    slots: u64,
    decisions: &mut [u64],
    expected: Result<(), Refusal>,
) -> bool
    ensures { Answers slots system.now.sizes (stores_of system.now) decisions.old (fault_in expected) result }
{
    let answer = commit_set::decide(system, slots, &mut *decisions);
    answer == expected && (answer.is_ok() || untouched(&*decisions, 0))
}

// The same with room for so many decisions.
fn answers_in(
    system: &LentSystem<'_>,
    slots: u64,
    room: usize,
    expected: Result<(), Refusal>,
) -> bool
    ensures { AnswersIn slots system.now.sizes (stores_of system.now) room (fault_in expected) result }
{
    let mut decisions = [UNTOUCHED; lower::MAX_DEFINITIONS];
    let room = room.min(lower::MAX_DEFINITIONS);
    answers(system, slots, &mut decisions[..room], expected)
}

fn check_slots(system: &LentSystem<'_>, mut t: Tally) -> Tally
    ensures { SlotsChecked system.now.sizes (stores_of system.now) t 7 result }
{
    for slots in &WRONG_SLOTS {
        t = t.with_check(answers_in(system, *slots, lower::MAX_DEFINITIONS, Err(Refusal::Slots)));
    }
    t
}

// One place too few is refused, exactly enough is not.
fn check_room(system: &LentSystem<'_>, slots: u64, t: Tally) -> Tally
    ensures { RoomChecked slots system.now.sizes (stores_of system.now) t result }
{
    let n = system.sizes.linears;
    if n == 0 {
        return t;
    }
    let short = answers_in(system, slots, n - 1, Err(Refusal::Room));
    let enough = answers_in(system, slots, n, Ok(()));
    t.with_check(short).with_check(enough)
}

// Room is checked last, so only where nothing else is refused.
fn check_further(
    system: &LentSystem<'_>,
    slots: u64,
    answer: Result<(), Refusal>,
    t: Tally,
) -> Tally
    ensures { FurtherChecked slots (fault_in answer) system.now.sizes (stores_of system.now) t result }
{
    let u = check_slots(system, t);
    match answer {
        Ok(()) => check_room(system, slots, u),
        Err(_) => u,
    }
}

fn replay_system(system: &LentSystem<'_>, asked: &Asked<'_>, t: Tally) -> Tally
    ensures { SystemReplayed asked.now.slots asked.now.refusal asked.now.flags.now system.now.sizes (stores_of system.now) t result }
{
    let mut decisions = [UNTOUCHED; lower::MAX_DEFINITIONS];
    let answer = commit_set::decide(system, asked.slots, &mut decisions);
    let u = judge(answer, asked, system, &decisions, t);
    check_further(system, asked.slots, answer, u)
}

// A house file that is not read is a wrong vector.
fn replay_vector(file: &[u8], asked: &Asked<'_>, t: Tally) -> Tally
    ensures { VectorReplayed file.now asked.now.slots asked.now.refusal asked.now.flags.now t result }
{
    let mut terms = [0u64; 8192];
    let mut ands = [0u64; 3072];
    let mut imuls = [0u64; 4096];
    let mut bmuls = [0u64; 6144];
    let mut zeros = [0u64; 1024];
    let mut dsts = [0u16; 1024];
    let mut rhss = [0u64; 1024];
    let read = house_read::read(
        file, &mut terms, &mut ands, &mut imuls, &mut bmuls, &mut zeros, &mut dsts, &mut rhss,
    );
    match read {
        Ok(read) => {
            let system = LentSystem {
                stores: TermStores {
                    old: &terms,
                    new: &terms[..0],
                },
                ands: &ands,
                imuls: &imuls,
                bmuls: &bmuls,
                zeros: &zeros,
                dsts: &dsts,
                rhss: &rhss,
                sizes: read.sizes,
            };
            replay_system(&system, asked, t)
        }
        Err(_) => t.with_vector(false, 0, t.digest),
    }
}

fn replay(input: &[u8]) -> Tally
    requires { length input.now ≤ 262144 }
    ensures { ReplayedAll input.now result }
{
    let mut t = Tally {
        right: 0,
        wrong: 0,
        committed: 0,
        digest: 0,
        passed: 0,
        failed: 0,
    };
    let mut at = 4;
    while at < input.len() {
        let v = vector_at(input, at);
        let asked = Asked {
            slots: v.slots,
            refusal: v.refusal,
            flags: part(input, v.flags, v.end),
        };
        t = replay_vector(part(input, v.file, v.answer), &asked, t);
        at = v.end;
    }
    t
}

fn main(rt: HostRuntime) -> io::Result<()> {
    let mut input = [0u8; MAX_INPUT];
    let n = streams::read_full(&mut rt.stdin(), &mut input)?;
    if MAX_INPUT < n {
        return Ok(());
    }
    let t = replay(&input[0..n]);
    println!(rt;
        "vectors {} right {} wrong {}",
        number(&input[0..n], 0),
        t.right,
        t.wrong
    )?;
    println!(rt; "committed {} digest {}", t.committed, t.digest)?;
    println!(rt; "checks right {} wrong {}", t.passed, t.failed)
}
