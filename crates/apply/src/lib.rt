// The patched lists, written over the old ones. Follows frontend/src/pass/fusion/patch.rs.
#![tactic(auto)]

ghost use Rattle.std.specs.Prelude.{◌≡◌, cond, [], ◌∷◌, ◌+◌, ◌≤◌, ◌<◌, length, get_or, take, drop};
ghost use Rattle.std.proofs.lemmas.List.Edits.{sets};
ghost use Rattle.lower.specs.Lists.{All};
ghost use Rattle.lower.specs.Stores.{Stands};
ghost use Rattle.apply.specs.Applied.{untouched, only_if, kept_rows, rows_after, struck, from_imuls, from_bmuls, from_zeros, from_commits, Rows, Listed, is_stranded, keep_from, is_committed, committed_wires, flags_from};

use legraph::Node;
use lower::Sizes;
use operand::{TermStores, Wire};

// All of `from`, from the place `at` on. No `copy_from_slice`: between two lists that are lent it becomes a memmove, and the archive for C
// needs memcpy and memset alone.
pub fn extend(to: &mut [u64], at: usize, from: &[u64])
    requires { at + length from.now ≤ length to.old }
    ensures { to.new ≡ sets to.old at from.now }
{
    for i in 0..from.len() {
        to[at + i] = from[i];
    }
}

// A row that names a defined wire is struck, any other goes down over what was struck. Answers the next place to write.
fn keep_row(
    stores: &TermStores<'_>,
    hs: &mut [u64],
    k: usize,
    from: usize,
    to: usize,
    table: &[u16],
) -> usize
    requires { (to ≤ from) × (from + k ≤ length hs.old) × All (Stands stores.now.old.now stores.now.new.now) (take k (drop from hs.old)) }
    ensures hs_after { hs.new ≡ sets hs.old to (only_if (untouched stores.now.old.now stores.now.new.now table.now (take k (drop from hs.old))) (take k (drop from hs.old))) }
    ensures value { result ≡ to + length (only_if (untouched stores.now.old.now stores.now.new.now table.now (take k (drop from hs.old))) (take k (drop from hs.old))) }
{
    let end = from + k;
    if patch::rebuild::row_names(stores, &hs[from..end], table) {
        return to;
    }
    hs.copy_within(from..end, to);
    to + k
}

// Rows that name a defined wire are struck, and the others close up. Answers how many numbers are left.
fn retain_unsubsumed(
    stores: &TermStores<'_>,
    hs: &mut [u64],
    k: usize,
    n: usize,
    table: &[u16],
) -> usize
    requires { Rows stores.now.old.now stores.now.new.now k n hs.old }
    ensures hs_after { hs.new ≡ sets hs.old 0 (kept_rows (untouched stores.now.old.now stores.now.new.now table.now) k n hs.old) }
    ensures value { result ≡ length (kept_rows (untouched stores.now.old.now stores.now.new.now table.now) k n hs.old) }
{
    let mut at = 0;
    for i in 0..n {
        at = keep_row(stores, &mut *hs, k, k * i, at, table);
    }
    at
}

// What the struck rows leave is filled from the list of new numbers. Answers the rest of that list.
fn patch_rows<'a>(
    stores: &TermStores<'_>,
    hs: &mut [u64],
    k: usize,
    n: usize,
    table: &[u16],
    list: &'a [u64],
) -> &'a [u64]
    requires rows { Rows stores.now.old.now stores.now.new.now k n hs.old }
    requires list_there { struck (untouched stores.now.old.now stores.now.new.now table.now) k n hs.old ≤ length list.now }
    ensures hs_after { hs.new ≡ sets hs.old 0 (rows_after (untouched stores.now.old.now stores.now.new.now table.now) k n hs.old list.now) }
    ensures rest { result.now ≡ drop (struck (untouched stores.now.old.now stores.now.new.now table.now) k n hs.old) list.now }
{
    let at = retain_unsubsumed(stores, &mut *hs, k, n, table);
    let (filling, rest) = list.split_at(k * n - at);
    extend(&mut *hs, at, filling);
    rest
}

// The four lists of constraints, in their order. Answers the numbers of the definitions, the rest of the list of new numbers.
pub fn patch_lists<'a>(
    stores: &TermStores<'_>,
    ands: &mut [u64],
    imuls: &mut [u64],
    bmuls: &mut [u64],
    zeros: &mut [u64],
    z: Sizes,
    table: &[u16],
    list: &'a [u64],
) -> &'a [u64]
    requires { Listed stores.now.old.now stores.now.new.now ands.old imuls.old bmuls.old zeros.old z table.now list.now }
    ensures ands_after { ands.new ≡ sets ands.old 0 (rows_after (untouched stores.now.old.now stores.now.new.now table.now) 3 z.ands ands.old list.now) }
    ensures imuls_after { imuls.new ≡ sets imuls.old 0 (rows_after (untouched stores.now.old.now stores.now.new.now table.now) 4 z.imuls imuls.old (drop (from_imuls (untouched stores.now.old.now stores.now.new.now table.now) z ands.old) list.now)) }
    ensures bmuls_after { bmuls.new ≡ sets bmuls.old 0 (rows_after (untouched stores.now.old.now stores.now.new.now table.now) 6 z.bmuls bmuls.old (drop (from_bmuls (untouched stores.now.old.now stores.now.new.now table.now) z ands.old imuls.old) list.now)) }
    ensures zeros_after { zeros.new ≡ sets zeros.old 0 (rows_after (untouched stores.now.old.now stores.now.new.now table.now) 1 z.zeros zeros.old (drop (from_zeros (untouched stores.now.old.now stores.now.new.now table.now) z ands.old imuls.old bmuls.old) list.now)) }
    ensures rest { result.now ≡ drop (from_commits (untouched stores.now.old.now stores.now.new.now table.now) z ands.old imuls.old bmuls.old zeros.old) list.now }
{
    let after_ands = patch_rows(stores, &mut *ands, 3, z.ands, table, list);
    let after_imuls = patch_rows(stores, &mut *imuls, 4, z.imuls, table, after_ands);
    let after_bmuls = patch_rows(stores, &mut *bmuls, 6, z.bmuls, table, after_imuls);
    patch_rows(stores, &mut *zeros, 1, z.zeros, table, after_bmuls)
}

// What would stand past the end is 0.
fn number_at(l: &[u64], i: usize) -> u64
    ensures { result ≡ get_or l.now i 0 }
{
    l.get(i).copied().unwrap_or(0)
}

// Not committed, and no walk meets it: its reach mask is 0.
fn is_stranded(decisions: &[u64], reach: &[u64], d: usize) -> bool
    ensures { result ≡ is_stranded decisions.now reach.now d }
{
    number_at(decisions, d) != 0 && number_at(reach, d) == 0
}

// Definition `i` goes down to the place `to`, unless it is gone or committed. Answers the next place to write.
fn keep_definition(
    dsts: &mut [u16],
    rhss: &mut [u64],
    i: usize,
    to: usize,
    decisions: &[u64],
    reach: &[u64],
) -> usize
    requires { (to ≤ i) × (i < length dsts.old) × (i < length rhss.old) }
    ensures dsts_after { dsts.new ≡ sets dsts.old to (only_if (is_stranded decisions.now reach.now i) (get_or dsts.old i 0 ∷ [])) }
    ensures rhss_after { rhss.new ≡ sets rhss.old to (only_if (is_stranded decisions.now reach.now i) (get_or rhss.old i 0 ∷ [])) }
    ensures value { result ≡ to + length (only_if (is_stranded decisions.now reach.now i) (i ∷ [])) }
{
    if is_stranded(decisions, reach, i) {
        dsts[to] = dsts[i];
        rhss[to] = rhss[i];
        return to + 1;
    }
    to
}

// Stranded definitions stay, and close up. Answers how many there are.
pub fn retain_stranded(
    dsts: &mut [u16],
    rhss: &mut [u64],
    n: usize,
    decisions: &[u64],
    reach: &[u64],
) -> usize
    requires { (n ≤ length dsts.old) × (n ≤ length rhss.old) }
    ensures dsts_after { dsts.new ≡ sets dsts.old 0 (keep_from (is_stranded decisions.now reach.now) 0 (take n dsts.old)) }
    ensures rhss_after { rhss.new ≡ sets rhss.old 0 (keep_from (is_stranded decisions.now reach.now) 0 (take n rhss.old)) }
    ensures value { result ≡ length (keep_from (is_stranded decisions.now reach.now) 0 (take n dsts.old)) }
{
    let mut at = 0;
    for i in 0..n {
        at = keep_definition(&mut *dsts, &mut *rhss, i, at, decisions, reach);
    }
    at
}

// A decision of 0 is Commit.
fn is_committed(table: &[u16], decisions: &[u64], wire: Wire) -> bool
    ensures { result ≡ is_committed decisions.now (get_or table.now wire.0 0) }
{
    let node = legraph::node_of(table, wire);
    let Node::LinDef(d) = node else {
        return false;
    };
    number_at(decisions, d.0 as usize) == 0
}

// The definition of a committed wire, with its new right side, the first of the list. Answers how many are added.
fn add_definition(
    dsts: &mut [u16],
    rhss: &mut [u64],
    at: usize,
    wire: Wire,
    table: &[u16],
    decisions: &[u64],
    list: &[u64],
    from: usize,
) -> usize
    requires dsts_there { at + length (only_if (is_committed decisions.now (get_or table.now wire.0 0)) (wire.0 ∷ [])) ≤ length dsts.old }
    requires rhss_there { at + length (only_if (is_committed decisions.now (get_or table.now wire.0 0)) (wire.0 ∷ [])) ≤ length rhss.old }
    requires list_there { from + length (only_if (is_committed decisions.now (get_or table.now wire.0 0)) (wire.0 ∷ [])) ≤ length list.now }
    ensures dsts_after { dsts.new ≡ sets dsts.old at (only_if (is_committed decisions.now (get_or table.now wire.0 0)) (wire.0 ∷ [])) }
    ensures rhss_after { rhss.new ≡ sets rhss.old at (only_if (is_committed decisions.now (get_or table.now wire.0 0)) (get_or list.now from 0 ∷ [])) }
    ensures value { result ≡ length (only_if (is_committed decisions.now (get_or table.now wire.0 0)) (wire.0 ∷ [])) }
{
    if is_committed(table, decisions, wire) {
        dsts[at] = wire.0;
        rhss[at] = list[from];
        return 1;
    }
    0
}

// The committed definitions, by rising wire number, with their new right sides. Answers how many there are.
pub fn add_committed(
    dsts: &mut [u16],
    rhss: &mut [u64],
    at: usize,
    wires: usize,
    table: &[u16],
    decisions: &[u64],
    list: &[u64],
) -> usize
    requires wires_bound { wires < 65536 }
    requires dsts_there { at + length (committed_wires table.now decisions.now 0 wires) ≤ length dsts.old }
    requires rhss_there { at + length (committed_wires table.now decisions.now 0 wires) ≤ length rhss.old }
    requires list_there { length (committed_wires table.now decisions.now 0 wires) ≤ length list.now }
    ensures dsts_after { dsts.new ≡ sets dsts.old at (committed_wires table.now decisions.now 0 wires) }
    ensures rhss_after { rhss.new ≡ sets rhss.old at (take (length (committed_wires table.now decisions.now 0 wires)) list.now) }
    ensures value { result ≡ length (committed_wires table.now decisions.now 0 wires) }
{
    let mut n = 0;
    for w in 0..wires {
        n += add_definition(
            &mut *dsts,
            &mut *rhss,
            at + n,
            Wire(w as u16),
            table,
            decisions,
            list,
            n,
        );
    }
    n
}

fn flag_of(table: &[u16], decisions: &[u64], wire: Wire) -> u8
    ensures { result ≡ cond (is_committed decisions.now (get_or table.now wire.0 0)) 1 0 }
{
    u8::from(is_committed(table, decisions, wire))
}

// 1 for each wire that is committed, else 0.
pub fn write_flags(flags: &mut [u8], wires: usize, table: &[u16], decisions: &[u64])
    requires { (wires < 65536) × (wires ≤ length flags.old) }
    ensures { flags.new ≡ sets flags.old 0 (flags_from table.now decisions.now 0 wires) }
{
    for w in 0..wires {
        flags[w] = flag_of(table, decisions, Wire(w as u16));
    }
}
