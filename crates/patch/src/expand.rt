// A term is expanded through its definition's operand, an operand through its terms, until a committed or undefined wire stands.
// A definition may have thousands of terms that write nothing, and be met thousands of times. So one mask a term is at hand, and one mask
// is carried down that takes in just what gets through the shifts: a term is passed over by one test. The two shifts are carried down as
// one number, spelt as in a term with no wire: a term is written by adding its wire. Whatever is read of a definition stands in one store:
// the masks of its terms one after the other, since most are only passed over, and its terms behind them, with what is put in their place.
ghost use Rattle.std.specs.Prelude.{◌≡◌, true, false, ℕ, ◌+◌, ◌-◌, ◌*◌, ◌^◌, ◌≤◌, ◌<◌, eqb, length, get_or, set, take, drop};
ghost use Rattle.std.specs.Int.Bits.{bit_and};
ghost use Rattle.shift.specs.Shifts.{Valid, valid_number, shift_at};
ghost use Rattle.operand.specs.Numbers.{Term, term_of, term_number, operand_at, terms_at, operand_of};
ghost use Rattle.operand.specs.Push.{push_valid};
ghost use Rattle.alive.specs.Masks.{ones, pulled};
ghost use Rattle.lower.specs.Lists.{All, sum_of};
ghost use Rattle.lower.specs.Faults.{length_of};
ghost use Rattle.lower.specs.Accepted.{ShiftsOf};
ghost use Rattle.lower.specs.Stores.{Stands};
ghost use Rattle.legraph.specs.Tables.{told_node};
ghost use Rattle.legraph.specs.Walked.{rhs_in};
ghost use Rattle.patch.specs.Expansion.{Within};
ghost use Rattle.patch.specs.Steps.{put, write_down};
ghost use Rattle.patch.specs.Spelling.{Source, source, source_of, in_place, inlined_number, spelt, cursor_at, spelt_to, inner_of, outer_of, bare, Over, folded_as, spell_under, spell, Sees, NextLive, look, laid, Entries, Lookable, Looks, Readable, reading, Opened, Openable, Entered, Enterable};

use crate::{Cursor, LentSource};
use legraph::Node;
use operand::{LinDefId, PushInner, TermStores, Wire};
use shift::Shift;

// The store of new terms with one more, or full.
fn put(out: &mut [u64], c: Cursor, t: u64) -> Cursor
    requires { (c.full ≡ false) × (c.count ≤ length out.old) }
    ensures { (spelt out.new result ≡ put (term_of t) (spelt out.old c)) × (result.count ≤ length out.old) }
{
    let n = c.count;
    if out.len() <= n {
        return Cursor {
            count: n,
            full: true,
        };
    }
    out[n] = t;
    Cursor {
        count: n + 1,
        full: false,
    }
}

// The same by one number: how many terms there are, or, once a term found no room, one more than the store has places.
fn put_below(out: &mut [u64], n: usize, t: u64) -> usize
    ensures { (spelt_to out.new result ≡ put (term_of t) (spelt_to out.old n)) × (result ≤ length out.old + 1) }
{
    let end = out.len();
    if end <= n {
        return end + 1;
    }
    out[n] = t;
    n + 1
}

// Such a number as a cursor.
fn cursor(end: usize, n: usize) -> Cursor
    ensures { result ≡ cursor_at end n }
{
    if end < n {
        return Cursor {
            count: end,
            full: true,
        };
    }
    Cursor {
        count: n,
        full: false,
    }
}

// The bits that can be set in a definition.
fn mask_of(alive: &[u64], d: LinDefId) -> u64
    ensures { result ≡ get_or alive.now d.0 0 }
{
    let i = d.0 as usize;
    if alive.len() <= i {
        return 0;
    }
    alive[i]
}

// Whether the mask takes in nothing that the definition can have. That this is a word is said too: a proof does not know it of a store
// that stands in a struct.
fn is_dead(alive: &[u64], d: LinDefId, mask: u64) -> bool
    ensures dead { result ≡ eqb (bit_and (get_or alive.now d.0 0) mask) 0 }
    ensures word { get_or alive.now d.0 0 < 2 ^ 64 }
{
    mask_of(alive, d) & mask == 0
}

// A decision of 0 is Commit.
pub fn is_committed(decisions: &[u64], d: LinDefId) -> bool
    ensures { result ≡ eqb (get_or decisions.now d.0 0) 0 }
{
    let i = d.0 as usize;
    if decisions.len() <= i {
        return true;
    }
    decisions[i] == 0
}

// The definition that is put in the place of a wire, if there is one. That the numbers of the table are small is said for the same reason.
fn inlined(table: &[u16], decisions: &[u64], wire: Wire) -> Node
    ensures node { told_node result ≡ inlined_number decisions.now (get_or table.now wire.0 0) }
    ensures nodes { (w : ℕ) → get_or table.now w 0 < 65536 }
{
    let node = legraph::node_of(table, wire);
    let Node::LinDef(d) = node else {
        return Node::Opaque;
    };
    if is_committed(decisions, d) {
        return Node::Opaque;
    }
    Node::LinDef(d)
}

// Where the masks of a definition's terms begin, and how many they are, stands in the store of masks from here on.
const LOOKS: usize = lower::MAX_DEFINITIONS;

// The `n` places of a store from `at` on.
fn part<'a>(store: &'a [u64], at: usize, n: usize) -> &'a [u64]
    requires { at + n ≤ length store.now }
    ensures { result.now ≡ take n (drop at store.now) }
{
    let end = at + n;
    &store[at..end]
}

// The first term from `from` on of which the mask takes in something: most terms are passed over here, so this does little else.
fn next_live(ms: &[u64], from: usize, mask: u64) -> usize
    requires { from ≤ length ms.now }
    ensures { NextLive ms.now from mask result }
{
    for i in from..ms.len() {
        if ms[i] & mask != 0 {
            return i;
        }
    }
    ms.len()
}

// The two shifts of a term, spelt as there; the wire's place is empty.
fn shifts(t: u64) -> u64
    ensures { result ≡ term_number (bare (term_of t)) }
{
    t - t % 65536
}

// The mask pulled back through the shift of number `s`. Most shifts of terms are identities (of amount 0), which leave a mask as it is.
pub fn pull(s: u64, mask: u64) -> u64
    requires { valid_number s ≡ true }
    ensures { result ≡ pulled (shift_at s) mask }
{
    if s % 64 == 0 {
        return mask;
    }
    alive::pulled(shift::valid::from_index(s), mask)
}

// The bits of a word that get through both shifts of a term.
fn through(t: u64) -> u64
    requires { ShiftsOf (term_of t) }
    ensures { result ≡ pulled (inner_of t) (pulled (outer_of t) ones) }
{
    let mask = pull(operand::term::outer(t), 0xffff_ffff_ffff_ffff);
    pull(operand::term::inner(t), mask)
}

// What push_inner answers, by one number.
fn fold_shifts(inner: Shift, outer: Shift, s: Shift) -> Option<u64>
    requires { Valid inner × Valid outer × Valid s }
    ensures { result ≡ folded_as (push_valid inner outer s 2) }
{
    match operand::valid::push_inner(inner, outer, s, 2) {
        PushInner::Seq(i, o) => {
            Some(65536 * shift::valid::index(i) + 4294967296 * shift::valid::index(o))
        }
        PushInner::Zero | PushInner::OverBudget => None,
    }
}

// The shift whose number stands in the wire's place folded in below the two others. They come as one number, so that none is taken out of
// it before it is needed.
fn fold_three(x: u64) -> Option<u64>
    requires { (valid_number (term_of x).wire ≡ true) × ShiftsOf (term_of x) }
    ensures { result ≡ folded_as (push_valid (inner_of x) (outer_of x) (shift_at (term_of x).wire) 2) }
{
    fold_shifts(
        shift::valid::from_index(operand::term::inner(x)),
        shift::valid::from_index(operand::term::outer(x)),
        shift::valid::from_index(x % 65536),
    )
}

// The shifts `over` with the shift `s` folded in as the innermost one. Where two of the three are identities, as nearly always, that is
// the third.
fn fold(over: u64, s: u64) -> Option<u64>
    requires { Over over × (valid_number s ≡ true) }
    ensures { result ≡ folded_as (push_valid (inner_of over) (outer_of over) (shift_at s) 2) }
{
    let i = operand::term::inner(over);
    let o = operand::term::outer(over);
    if o % 64 == 0 {
        if i % 64 == 0 {
            if s % 64 == 0 {
                return Some(0);
            }
            return Some(65536 * s);
        }
        if s % 64 == 0 {
            return Some(65536 * i);
        }
    }
    fold_three(over + s)
}

// A term at the top. One that stands is written as it is.
pub fn expand_term(
    source: &LentSource<'_>,
    out: &mut [u64],
    c: Cursor,
    t: u64,
    below: usize,
) -> Cursor
    requires readable { Readable (source_of source.now) }
    requires within { Within (in_place (source_of source.now)) below (term_of t).wire }
    requires shifts_of { ShiftsOf (term_of t) × (c.count ≤ length out.old) }
    ensures { (spelt out.new result ≡ spell (source_of source.now) below (term_of t) (spelt out.old c)) × (result.count ≤ length out.old) }
{
    if c.full {
        return c;
    }
    let alive = source.alive;
    let node = inlined(source.table, source.decisions, operand::term::wire(t));
    let Node::LinDef(d) = node else {
        return put(&mut *out, c, t);
    };
    let mask = through(t);
    if is_dead(alive, d, mask) {
        return c;
    }
    let n = expand_operand(alive, &mut *out, c.count, d, shifts(t), mask, below - 1);
    cursor(out.len(), n)
}

// The terms of the definition `d`, each below the two shifts. What the mask does not take in writes nothing. All that is read on the way
// stands in the store of masks, so nothing is said of the other stores but that it was laid down for some. Of the functions that call each
// other this alone has two callers: a call is made for each definition that is opened, none for a term.
#[cycle(expand_at_expand_below_expand_operand)]
fn expand_operand(
    alive: &[u64],
    out: &mut [u64],
    n: usize,
    d: LinDefId,
    over: u64,
    mask: u64,
    below: usize,
) -> usize
    requires openable { Openable alive.now d.0 below }
    requires over { Over over × (n ≤ length out.old + 1) }
    requires sees { Sees mask (inner_of over) (outer_of over) }
    ensures { ((s : Source) → Opened (reading s alive.now) d.0 below → spelt_to out.new result ≡ spell_under (spell (reading s alive.now) below) (inner_of over) (outer_of over) (rhs_in s.old s.new s.rhss d.0) (spelt_to out.old n)) × (result ≤ length out.old + 1) }
{
    let i = d.0 as usize;
    let w = alive[LOOKS + i];
    let at = (w % 65536) as usize;
    let m = (w / 65536) as usize;
    let ms = part(alive, at, m);
    let es = part(alive, at + m, m);
    let mut cur = n;
    // Kept: a `for` is no plainer, since the next place is found, not counted.
    let mut k = next_live(ms, 0, mask);
    while k < es.len() {
        cur = expand_below(alive, &mut *out, cur, es[k], over, mask, below);
        k = next_live(ms, k + 1, mask);
    }
    cur
}

// One term of a definition, by its entry, its shift folded in as the innermost one. The mask takes in something of it, so a definition in
// its place is not dead.
#[cycle(expand_at_expand_below_expand_operand)]
fn expand_below(
    alive: &[u64],
    out: &mut [u64],
    n: usize,
    e: u64,
    over: u64,
    mask: u64,
    below: usize,
) -> usize
    requires enterable { Enterable alive.now e mask below }
    requires over { Over over × (n ≤ length out.old + 1) }
    requires sees { Sees mask (inner_of over) (outer_of over) }
    ensures { ((s : Source) (t : ℕ) → Entered (reading s alive.now) t e mask below → spelt_to out.new result ≡ write_down (spell (reading s alive.now) below) (term_of t).wire (push_valid (inner_of over) (outer_of over) (inner_of t) 2) (spelt_to out.old n)) × (result ≤ length out.old + 1) }
{
    let s = operand::term::inner(e);
    let Some(x) = fold(over, s) else {
        return n;
    };
    let wire = operand::term::wire(e);
    if e < 4294967296 {
        return put_below(&mut *out, n, x + wire.0 as u64);
    }
    expand_at(alive, &mut *out, n, LinDefId(wire.0), s, x, mask, below)
}

// The definition `d` in the place of a term with the shift `s`. Once a term found no room nothing is done.
#[cycle(expand_at_expand_below_expand_operand)]
fn expand_at(
    alive: &[u64],
    out: &mut [u64],
    n: usize,
    d: LinDefId,
    s: u64,
    over: u64,
    mask: u64,
    below: usize,
) -> usize
    requires below_nonzero { (0 < below) × Openable alive.now d.0 (below - 1) }
    requires s_value { valid_number s ≡ true }
    requires over { Over over × (n ≤ length out.old + 1) }
    requires sees { Sees (pulled (shift_at s) mask) (inner_of over) (outer_of over) }
    ensures { ((q : Source) → Opened (reading q alive.now) d.0 (below - 1) → spelt_to out.new result ≡ spell_under (spell (reading q alive.now) (below - 1)) (inner_of over) (outer_of over) (rhs_in q.old q.new q.rhss d.0) (spelt_to out.old n)) × (result ≤ length out.old + 1) }
{
    if out.len() < n {
        return n;
    }
    expand_operand(alive, &mut *out, n, d, over, pull(s, mask), below - 1)
}

// The mask of a term of a definition, at the place `at`, and its entry, at the place `to`: its shift and its wire, or, with a mark above
// them, its shift and the definition in the wire's place.
fn lay(table: &[u16], decisions: &[u64], alive: &mut [u64], t: u64, at: usize, to: usize)
    requires t_value { valid_number (term_of t).inner ≡ true }
    requires at_in_bounds { (at < length alive.old) × (to < length alive.old) }
    ensures { alive.new ≡ set (set alive.old at (look table.now decisions.now alive.old (term_of t))) to (laid table.now decisions.now (term_of t)) }
{
    let s = operand::term::inner(t);
    let wire = operand::term::wire(t);
    let node = inlined(table, decisions, wire);
    let Node::LinDef(d) = node else {
        alive[at] = 0xffff_ffff_ffff_ffff;
        alive[to] = 65536 * s + wire.0 as u64;
        return;
    };
    let m = shift::valid::apply(shift::valid::from_index(s), mask_of(&*alive, d));
    alive[at] = m;
    alive[to] = 4294967296 + 65536 * s + d.0 as u64;
}

fn look_terms(ts: &[u64], table: &[u16], decisions: &[u64], alive: &mut [u64], at: usize)
    requires room { (1024 ≤ at) × (at + 2 * length ts.now ≤ length alive.old) }
    requires shifts_there { All (λ (t : ℕ). valid_number (term_of t).inner ≡ true) ts.now }
    requires nodes { (w : ℕ) → get_or table.now w 0 ≤ 1024 }
    ensures { Entries table.now decisions.now alive.old alive.new ts.now at (length ts.now) (length ts.now) }
{
    let to = at + ts.len();
    for (i, t) in ts.iter().enumerate() {
        lay(table, decisions, &mut *alive, *t, at + i, to + i);
    }
}

// The masks of the terms of one right side, their entries behind them, and how many they are.
fn look_operand(
    stores: &TermStores<'_>,
    h: u64,
    table: &[u16],
    decisions: &[u64],
    alive: &mut [u64],
    at: usize,
) -> usize
    requires stands { Stands stores.now.old.now stores.now.new.now h }
    requires shifts_there { All (λ (u : Term). valid_number u.inner ≡ true) (operand_of stores.now.old.now stores.now.new.now h) }
    requires room { (1024 ≤ at) × (at + 2 * length_of h ≤ length alive.old) }
    requires nodes { (w : ℕ) → get_or table.now w 0 ≤ 1024 }
    ensures { (result ≡ length_of h) × Entries table.now decisions.now alive.old alive.new (terms_at stores.now.old.now stores.now.new.now (operand_at h)) at (length_of h) (length_of h) }
{
    let ts = stores.terms(h);
    look_terms(ts, table, decisions, &mut *alive, at);
    ts.len()
}

// The masks and the entries of the terms of the first `n` definitions, behind the masks of those, with the places where they begin between.
pub fn write_looks(
    stores: &TermStores<'_>,
    rhss: &[u64],
    table: &[u16],
    decisions: &[u64],
    alive: &mut [u64],
    n: usize,
)
    requires lookable { Lookable stores.now.old.now stores.now.new.now rhss.now table.now n }
    requires room { (2048 + 2 * sum_of length_of (take n rhss.now) ≤ length alive.old) × (length alive.old < 65536) }
    ensures masks_kept { (j : ℕ) → j < 1024 → get_or alive.new j 0 ≡ get_or alive.old j 0 }
    ensures looks { (d : ℕ) → d < n → Looks (source stores.now.old.now stores.now.new.now rhss.now table.now decisions.now alive.new) d }
{
    let mut at = LOOKS + LOOKS;
    for d in 0..n {
        let m = look_operand(stores, rhss[d], table, decisions, &mut *alive, at);
        alive[LOOKS + d] = (at + 65536 * m) as u64;
        at = at + 2 * m;
    }
}
