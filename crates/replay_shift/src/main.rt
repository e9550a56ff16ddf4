// Runs compose over all pairs of valid shifts, push_inner over a spread of triples at slots 0 to 3, and apply over 300 words, and prints
// the counts by case and a digest of all answers: the first three lines of stdout are the unchanged Rust's. The last two count answers
// and refusals of shifts and numbers that the Rust takes differently or not at all.
#![tactic(auto)]

ghost use Rattle.std.specs.Prelude.{◌≡◌, ℕ, ◌<◌, List};
ghost use Rattle.word.specs.Answers.{told_by};
ghost use Rattle.replay_shift.specs.Tallies.{over, churned, mixed, more, counted, mixed_in, shift_in};
ghost use Rattle.replay_shift.specs.Replay.{of_composition, of_push, nth_valid, index_at, index_all, compose_at, compose_row, compose_all, push_at, third_of, push_pair, push_row, push_all, apply_at, apply_word, apply_edges, apply_next, apply_all};
ghost use Rattle.replay_shift.specs.Refusals.{refusal_of, noted, noted_apply, noted_index, noted_compose, noted_push, noted_shift, noted_number, noted_all};

use operand::PushInner;
use refusal::Refusal;
use shift::{Composition, Shift, ShiftVariant};
use std::io;

// How often each case of an answer came, by the case's number, and the digest of the answers so far.
#[derive(Clone, Copy)]
pub struct Tally {
    pub first: u64,
    pub second: u64,
    pub third: u64,
    pub digest: u64,
}

const NONE: Tally = Tally {
    first: 0,
    second: 0,
    third: 0,
    digest: 0,
};

// The last word, and the digest so far.
#[derive(Clone, Copy)]
pub struct Words {
    pub word: u64,
    pub digest: u64,
}

fn churn(w: u64) -> u64
    ensures { result ≡ churned w }
{
    let a = w ^ (w << 13);
    let b = a ^ (a >> 7);
    b ^ (b << 17)
}

fn mix(h: u64, x: u64) -> u64
    ensures { result ≡ mixed h x }
{
    churn(h ^ x).wrapping_add(0x9e37_79b9_7f4a_7c15)
}

fn one_more(n: u64) -> u64
    ensures { result ≡ more n }
{
    n.wrapping_add(1)
}

// What `step` makes of `first` at 0, then of that at 1, .., and at last at n - 1.
fn over<A: Copy, F: Fn(A, u64) -> A>(n: u64, first: A, step: F) -> A
    requires { (a : A) (k : ℕ) → k < n → F.pre step a k }
    ensures { (f : ℕ → A → A) → ((a : A) (k : ℕ) (r : A) → k < n → F.post step a k r → r ≡ f k a) → result ≡ over f n first }
{
    let mut sum = first;
    for k in 0..n {
        sum = step(sum, k);
    }
    sum
}

#[tactic(auto, unfolding(crate::specs::Tallies::counted, crate::specs::Tallies::mixed_in))]
fn count(t: Tally, k: u64) -> Tally
    ensures { result ≡ counted t k }
{
    let mut counts = mix_in(t, k);
    match k {
        0 => counts.first = one_more(t.first),
        1 => counts.second = one_more(t.second),
        _ => counts.third = one_more(t.third),
    }
    counts
}

#[tactic(auto, unfolding(crate::specs::Tallies::mixed_in))]
fn mix_in(t: Tally, x: u64) -> Tally
    ensures { result ≡ mixed_in t x }
{
    Tally {
        digest: mix(t.digest, x),
        ..t
    }
}

fn shift_in(t: Tally, s: Shift) -> Tally
    ensures { result ≡ shift_in t s }
{
    match s.index() {
        Ok(x) => mix_in(t, x),
        Err(_) => t,
    }
}

fn of_composition(t: Tally, c: Composition) -> Tally
    ensures { result ≡ of_composition t c }
{
    match c {
        Composition::Single(s) => shift_in(count(t, 0), s),
        Composition::Zero => count(t, 1),
        Composition::Pair => count(t, 2),
    }
}

fn of_push(t: Tally, p: PushInner) -> Tally
    ensures { result ≡ of_push t p }
{
    match p {
        PushInner::Seq(a, b) => shift_in(shift_in(count(t, 0), a), b),
        PushInner::Zero => count(t, 1),
        PushInner::OverBudget => count(t, 2),
    }
}

// The valid shifts by rising number: 64 of each full-width variant, then 32 of each half-word one.
fn valid_shift(k: u64) -> Shift
    requires { k < 384 }
    ensures { result ≡ nth_valid k }
{
    if k < 256 {
        return Shift::spelled(k);
    }
    Shift {
        variant: ShiftVariant::from_u8((k / 32 - 4) as u8),
        amount: (k % 32) as u8,
    }
}

#[tactic(auto, unfolding(crate::specs::Replay::index_at))]
fn index_at(t: Tally, n: u64) -> Tally
    ensures { result ≡ index_at n t }
{
    match Shift::from_index(n) {
        Ok(s) => shift_in(count(t, 0), s),
        Err(_) => count(t, 1),
    }
}

// Numbers to shifts and back, up to twice the numbers that the Rust takes.
#[tactic(auto, unfolding(crate::specs::Replay::index_all))]
fn index_all() -> Tally
    ensures { result ≡ index_all }
{
    over(1024, NONE, |sum, n| index_at(sum, n))
}

fn compose_at(t: Tally, inner: Shift, outer: Shift) -> Tally
    ensures { result ≡ compose_at t inner outer }
{
    match Shift::compose(inner, outer) {
        Ok(x) => of_composition(t, x),
        Err(_) => t,
    }
}

#[tactic(auto, unfolding(crate::specs::Replay::compose_row))]
fn compose_row(t: Tally, inner: Shift) -> Tally
    ensures { result ≡ compose_row inner t }
{
    over(384, t, |sum, k| compose_at(sum, inner, valid_shift(k)))
}

#[tactic(auto, unfolding(crate::specs::Replay::compose_all))]
fn compose_all() -> Tally
    ensures { result ≡ compose_all }
{
    over(384, NONE, |sum, k| compose_row(sum, valid_shift(k)))
}

#[tactic(auto, unfolding(crate::specs::Replay::push_at))]
fn push_at(t: Tally, inner: Shift, outer: Shift, shift: Shift, slots: usize) -> Tally
    ensures { result ≡ push_at inner outer shift slots t }
{
    match operand::push_inner(inner, outer, shift, slots) {
        Ok(x) => of_push(t, x),
        Err(_) => t,
    }
}

fn push_slots(t: Tally, inner: Shift, outer: Shift, shift: Shift) -> Tally
    ensures { result ≡ over (push_at inner outer shift) 4 t }
{
    over(
        4,
        t,
        |sum, slots| push_at(sum, inner, outer, shift, slots as usize),
    )
}

// One of a spread of third shifts for the pair of the i-th and the o-th.
fn third(i: u64, o: u64, k: u64) -> Shift
    requires { (i < 384) × (o < 384) × (k < 6) }
    ensures { result ≡ third_of i o k }
{
    valid_shift((37 * i + 101 * o + 53 * k + 11) % 384)
}

#[tactic(auto, unfolding(crate::specs::Replay::push_pair))]
fn push_pair(t: Tally, i: u64, o: u64) -> Tally
    requires { (i < 384) × (o < 384) }
    ensures { result ≡ push_pair i o t }
{
    let inner = valid_shift(i);
    let outer = valid_shift(o);
    over(6, t, |sum, k| push_slots(sum, inner, outer, third(i, o, k)))
}

#[tactic(auto, unfolding(crate::specs::Replay::push_row))]
fn push_row(t: Tally, i: u64) -> Tally
    requires { i < 384 }
    ensures { result ≡ push_row i t }
{
    over(384, t, |sum, o| push_pair(sum, i, o))
}

#[tactic(auto, unfolding(crate::specs::Replay::push_all))]
fn push_all() -> Tally
    ensures { result ≡ push_all }
{
    over(384, NONE, |sum, i| push_row(sum, i))
}

fn apply_at(h: u64, w: u64, s: Shift) -> u64
    ensures { result ≡ apply_at h w s }
{
    match s.apply(w) {
        Ok(v) => mix(h, v),
        Err(_) => h,
    }
}

#[tactic(auto, unfolding(crate::specs::Replay::apply_word))]
fn apply_word(h: u64, w: u64) -> u64
    ensures { result ≡ apply_word w h }
{
    over(384, h, |sum, k| apply_at(sum, w, valid_shift(k)))
}

const EDGES: [u64; 8] = [
    0,
    1,
    0x7fff_ffff_ffff_ffff,
    0x8000_0000_0000_0000,
    0xffff_ffff_ffff_ffff,
    0x7fff_ffff,
    0x8000_0000,
    0xffff_ffff_0000_0000,
];

#[tactic(auto, unfolding(crate::specs::Replay::apply_edges))]
fn apply_edges() -> u64
    ensures { result ≡ apply_edges }
{
    EDGES.iter().fold(0, |sum, w| apply_word(sum, *w))
}

#[tactic(auto, unfolding(crate::specs::Replay::apply_next))]
fn apply_next(s: Words) -> Words
    ensures { result ≡ apply_next s }
{
    let w = churn(s.word);
    Words {
        word: w,
        digest: apply_word(s.digest, w),
    }
}

#[tactic(auto, unfolding(crate::specs::Replay::apply_all))]
fn apply_all() -> u64
    ensures { result ≡ apply_all }
{
    let first = Words {
        word: 0x0123_4567_89ab_cdef,
        digest: apply_edges(),
    };
    over(292, first, |s, _| apply_next(s)).digest
}

// The number of a refusal, 0 for an answer.
fn refusal_of<T: Copy>(x: Result<T, Refusal>) -> u64
    ensures { (values : T → List ℕ) → result ≡ refusal_of (told_by values x) }
{
    match x {
        Ok(_) => 0,
        Err(r) => r.number() as u64,
    }
}

// An answer more, by whether it refuses with 4.
fn note(t: Tally, refusal: u64) -> Tally
    ensures { result ≡ noted t refusal }
{
    count(t, refusal / 4)
}

fn note_apply(t: Tally, s: Shift) -> Tally
    ensures { result ≡ noted_apply t s }
{
    note(t, refusal_of(s.apply(1)))
}

fn note_index(t: Tally, s: Shift) -> Tally
    ensures { result ≡ noted_index t s }
{
    note(t, refusal_of(s.index()))
}

fn note_compose(t: Tally, inner: Shift, outer: Shift) -> Tally
    ensures { result ≡ noted_compose t inner outer }
{
    note(t, refusal_of(Shift::compose(inner, outer)))
}

fn note_push(t: Tally, inner: Shift, outer: Shift, shift: Shift) -> Tally
    ensures { result ≡ noted_push t inner outer shift }
{
    note(t, refusal_of(operand::push_inner(inner, outer, shift, 2)))
}

// The shift s in each place where a call takes one, beside sll 0, which an early answer looks at first.
#[tactic(auto, unfolding(crate::specs::Refusals::noted_shift))]
fn note_shift(t: Tally, s: Shift) -> Tally
    ensures { result ≡ noted_shift s t }
{
    let id = Shift::IDENTITY;
    let a = note_index(note_apply(t, s), s);
    let b = note_compose(note_compose(a, s, id), id, s);
    let c = note_push(note_push(b, s, id, id), id, s, id);
    note_push(c, id, id, s)
}

#[tactic(auto, unfolding(crate::specs::Refusals::noted_number))]
fn note_number(t: Tally, n: u64) -> Tally
    requires { n < 2048 }
    ensures { result ≡ noted_number n t }
{
    let s = Shift {
        variant: ShiftVariant::from_u8((n / 256) as u8),
        amount: (n % 256) as u8,
    };
    note_shift(t, s)
}

// Every shift that can be spelled, valid or not.
#[tactic(auto, unfolding(crate::specs::Refusals::noted_all))]
fn note_all() -> Tally
    ensures { result ≡ noted_all }
{
    over(2048, NONE, |sum, n| note_number(sum, n))
}

fn main(rt: HostRuntime) -> io::Result<()> {
    let c = compose_all();
    println!(rt;
        "compose single {} zero {} pair {} digest {}",
        c.first, c.second, c.third, c.digest
    )?;
    let p = push_all();
    println!(rt;
        "push seq {} zero {} over {} digest {}",
        p.first, p.second, p.third, p.digest
    )?;
    println!(rt; "apply digest {}", apply_all())?;
    let x = index_all();
    println!(rt;
        "index valid {} refused {} digest {}",
        x.first, x.second, x.digest
    )?;
    let n = note_all();
    println!(rt;
        "spelled answered {} refused {} other {}",
        n.first, n.second, n.third
    )
}
