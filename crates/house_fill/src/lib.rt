// The second pass over a house file: each store is filled by a walk of its own. What a file says is laid out whether it is sound or not;
// the first pass has refused it if it is not. A number past a store's end is dropped.
#![tactic(auto)]

ghost use Rattle.std.specs.Prelude.{◌≡◌, ◌+◌, ◌*◌, ◌^◌, ◌<◌, ◌≤◌, length, map};
ghost use Rattle.std.proofs.lemmas.List.Edits.{sets};
ghost use Rattle.operand.specs.Numbers.{term_number};
ghost use Rattle.house_file.specs.Decoding.{term_at, terms_at, operands_at, operands_terms, entry_at, entries_at};
ghost use Rattle.house_fill.specs.Layout.{operands_laid, terms_laid, number_from, numbers_from, shown, list_laid, destinations_laid, Filled};

use house_file::{arity_of, byte, num, put, start_of};
use operand::{Wire, WireOperand};

fn term_at(s: &[u8], at: usize) -> u64
    requires { at + 6 < 2 ^ 63 }
    ensures { result ≡ term_number (term_at s.now at) }
{
    let wire = num(s, at) as u16;
    let inner = num(s, at + 2) as u16;
    let outer = num(s, at + 4) as u16;
    operand::term::number(Wire(wire), inner, outer)
}

// `n` terms from place `p` on.
fn put_terms(s: &[u8], n: usize, at: usize, store: &mut [u64], p: usize)
    requires { (at + 6 * n < 2 ^ 62) × (p + n < 2 ^ 62) }
    ensures { store.new ≡ sets store.old p (map term_number (terms_at s.now n at)) }
{
    let mut a = at;
    let mut q = p;
    for _ in 0..n {
        put(store, q, term_at(s, a));
        a += 6;
        q += 1;
    }
}

// The terms of `k` operands from place `p` on. The place after them.
fn put_operands(s: &[u8], k: usize, at: usize, store: &mut [u64], p: usize) -> usize
    requires { (at + 400000 * k < 2 ^ 62) × (p + 65536 * k < 2 ^ 62) }
    ensures { (result ≡ p + operands_terms s.now k at) × ((result ≤ p + 65536 * k) × (store.new ≡ sets store.old p (operands_laid (operands_at s.now k at)))) }
{
    let mut a = at;
    let mut q = p;
    for _ in 0..k {
        let n = num(s, a);
        put_terms(s, n, a + 2, store, q);
        a = a + 2 + 6 * n;
        q += n;
    }
    q
}

// The terms of the `n` fields after the first.
fn put_all_terms(s: &[u8], n: usize, store: &mut [u64])
    requires { n < 4096 }
    ensures { store.new ≡ sets store.old 0 (terms_laid (entries_at s.now n 5)) }
{
    let mut a = 5;
    let mut q = 0;
    for _ in 0..n {
        let tag = byte(s, a);
        let k = arity_of(tag);
        let b = start_of(tag, a + 3);
        q = put_operands(s, k, b, store, q);
        a = a + 3 + num(s, a + 1);
    }
}

// The number of an operand in the old store.
fn operand_number(start: usize, len: usize) -> u64
    requires { (start < 2147483648) × (len < 65536) }
    ensures { result ≡ number_from start len }
{
    operand::valid::number(WireOperand {
        start: start as u32,
        len: len as u32,
        new: false,
    })
}

// The numbers of `k` operands from place `p` on; the first starts at term `t`.
fn put_numbers(s: &[u8], k: usize, at: usize, t: usize, store: &mut [u64], p: usize)
    requires { (at + 400000 * k < 2 ^ 62) × ((p + k < 2 ^ 62) × (t + 65536 * k < 2147483648)) }
    ensures { store.new ≡ sets store.old p (numbers_from t (operands_at s.now k at)) }
{
    let mut a = at;
    let mut u = t;
    let mut q = p;
    for _ in 0..k {
        let n = num(s, a);
        put(store, q, operand_number(u, n));
        a = a + 2 + 6 * n;
        u += n;
        q += 1;
    }
}

// How many terms `k` operands have.
fn sum_terms(s: &[u8], k: usize, at: usize) -> usize
    requires { at + 400000 * k < 2 ^ 62 }
    ensures { (result ≡ operands_terms s.now k at) × (result ≤ 65536 * k) }
{
    let mut a = at;
    let mut sum = 0;
    for _ in 0..k {
        let n = num(s, a);
        sum += n;
        a = a + 2 + 6 * n;
    }
    sum
}

// What the field at `at` adds to the list of a kind, from place `p` on; its first operand starts at term `t`. The place after it.
fn put_entry(s: &[u8], kind: usize, at: usize, t: usize, store: &mut [u64], p: usize) -> usize
    requires { (at < 2 ^ 60) × ((p < 2 ^ 60) × (t + 393216 < 2147483648)) }
    ensures { (result ≡ p + length (shown kind t (entry_at s.now at))) × ((result ≤ p + 6) × (store.new ≡ sets store.old p (shown kind t (entry_at s.now at)))) }
{
    let tag = byte(s, at);
    if tag != kind {
        return p;
    }
    let k = arity_of(tag);
    let b = start_of(tag, at + 3);
    put_numbers(s, k, b, t, store, p);
    p + k
}

// The list of a kind, of the `n` fields after the first.
fn put_list(s: &[u8], n: usize, kind: usize, store: &mut [u64])
    requires { n < 4096 }
    ensures { store.new ≡ sets store.old 0 (list_laid kind 0 (entries_at s.now n 5)) }
{
    let mut a = 5;
    let mut t = 0;
    let mut q = 0;
    for _ in 0..n {
        let tag = byte(s, a);
        let k = arity_of(tag);
        let b = start_of(tag, a + 3);
        q = put_entry(s, kind, a, t, store, q);
        t += sum_terms(s, k, b);
        a = a + 3 + num(s, a + 1);
    }
}

// The destination of the field at `at`, if it is a Linear, at place `p`. The place after it.
fn put_destination(s: &[u8], at: usize, store: &mut [u16], p: usize) -> usize
    requires { (at < 2 ^ 60) × (p < 2 ^ 60) }
    ensures { (result ≡ p + length (destinations_laid (entries_at s.now 1 at))) × ((result ≤ p + 1) × (store.new ≡ sets store.old p (destinations_laid (entries_at s.now 1 at)))) }
{
    let tag = byte(s, at);
    if tag != house_file::LINEAR {
        return p;
    }
    put(store, p, num(s, at + 3) as u16);
    p + 1
}

// The destinations of the Linears among the `n` fields after the first.
fn put_destinations(s: &[u8], n: usize, store: &mut [u16])
    requires { n < 4096 }
    ensures { store.new ≡ sets store.old 0 (destinations_laid (entries_at s.now n 5)) }
{
    let mut a = 5;
    let mut q = 0;
    for _ in 0..n {
        q = put_destination(s, a, store, q);
        a = a + 3 + num(s, a + 1);
    }
}

// The `n` fields after the first, laid out in the stores.
// Kept: a parameter for each store, as C lends them.
pub fn fill(
    s: &[u8],
    n: usize,
    terms: &mut [u64],
    ands: &mut [u64],
    imuls: &mut [u64],
    bmuls: &mut [u64],
    zeros: &mut [u64],
    dsts: &mut [u16],
    rhss: &mut [u64],
)
    requires { n < 4096 }
    ensures { Filled (entries_at s.now n 5) terms.old ands.old imuls.old bmuls.old zeros.old dsts.old rhss.old terms.new ands.new imuls.new bmuls.new zeros.new dsts.new rhss.new }
{
    put_all_terms(s, n, terms);
    put_list(s, n, 2, ands);
    put_list(s, n, 3, imuls);
    put_list(s, n, 4, bmuls);
    put_list(s, n, 5, zeros);
    put_destinations(s, n, dsts);
    put_list(s, n, house_file::LINEAR, rhss);
}
