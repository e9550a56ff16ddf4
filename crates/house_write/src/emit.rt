// The bytes of a system that is known to be sound and to fit: each part goes to its place. A byte past the end would be dropped.
ghost use Rattle.std.specs.Prelude.{◌≡◌, false, ◌∷◌, map, ◌+◌, ◌*◌, ◌^◌, ◌<◌, ◌≤◌, length, take};
ghost use Rattle.std.proofs.lemmas.List.Edits.{sets};
ghost use Rattle.operand.specs.Numbers.{term_of, operand_of};
ghost use Rattle.lower.specs.Lists.{All};
ghost use Rattle.lower.specs.Stores.{stores_of, rows_of, definitions_of, system_in};
ghost use Rattle.lower.specs.Faults.{length_of, memory_fault};
ghost use Rattle.house_file.specs.Format.{le16, term_bytes, terms_bytes, operand_bytes, operands_bytes, row_entry, linear_entry, entry_bytes, list_bytes, entries_of, file_of};
ghost use Rattle.house_write.specs.Sizes.{handle_size, handles_size, MAX_PAYLOAD, rows_wide, definitions_wide, Short, Ready};
ghost use Rattle.house_write.specs.Write.{MAX_WRITTEN_TERMS, wide};

use house_file::put;
use lower::LentSystem;
use operand::TermStores;

// Little-endian.
fn put16(out: &mut [u8], at: usize, v: usize)
    requires { (v < 65536) × (at < 2 ^ 63) }
    ensures { out.new ≡ sets out.old at (le16 v) }
{
    put(out, at, (v % 256) as u8);
    put(out, at + 1, (v / 256) as u8);
}

fn term(t: u64, out: &mut [u8], p: usize)
    requires { Short t × (p < 2 ^ 62) }
    ensures { out.new ≡ sets out.old p (term_bytes (term_of t)) }
{
    let wire = operand::term::wire(t);
    put16(out, p, wire.0 as usize);
    put16(out, p + 2, operand::term::inner(t) as usize);
    put16(out, p + 4, operand::term::outer(t) as usize);
}

fn terms(ts: &[u64], out: &mut [u8], p: usize)
    requires { All Short ts.now × (p + 6 * length ts.now < 2 ^ 62) }
    ensures { out.new ≡ sets out.old p (terms_bytes (map term_of ts.now)) }
{
    let mut q = p;
    for &t in ts {
        term(t, out, q);
        q += 6;
    }
}

// A term count, then the terms. The place after them.
fn counted(ts: &[u64], out: &mut [u8], p: usize) -> usize
    requires { All Short ts.now × ((length ts.now < 65536) × (p < 2 ^ 61)) }
    ensures { (result ≡ p + (2 + 6 * length ts.now)) × (out.new ≡ sets out.old p (operand_bytes (map term_of ts.now))) }
{
    let n = ts.len();
    put16(out, p, n);
    terms(ts, out, p + 2);
    p + 2 + 6 * n
}

fn operand(stores: &TermStores<'_>, h: u64, out: &mut [u8], p: usize) -> usize
    requires { Ready stores.now.old.now stores.now.new.now h × ((length_of h < 65536) × (p < 2 ^ 61)) }
    ensures { (result ≡ p + handle_size h) × (out.new ≡ sets out.old p (operand_bytes (operand_of stores.now.old.now stores.now.new.now h))) }
{
    counted(stores.terms(h), out, p)
}

// The operands, one after the other. The place after them.
fn operands(stores: &TermStores<'_>, hs: &[u64], out: &mut [u8], p: usize) -> usize
    requires place { p < 2 ^ 60 }
    requires operands_fit { All (Ready stores.now.old.now stores.now.new.now) hs.now × (handles_size hs.now ≤ MAX_PAYLOAD) }
    ensures { (result ≡ p + handles_size hs.now) × (out.new ≡ sets out.old p (operands_bytes (map (operand_of stores.now.old.now stores.now.new.now) hs.now))) }
{
    let mut q = p;
    for &h in hs {
        q = operand(stores, h, out, q);
    }
    q
}

// Tag byte, length as two bytes.
fn head(tag: usize, size: usize, out: &mut [u8], p: usize)
    requires { (tag < 256) × ((size < 65536) × (p < 2 ^ 62)) }
    ensures { out.new ≡ sets out.old p (tag ∷ le16 size) }
{
    put(out, p, tag as u8);
    put16(out, p + 1, size);
}

// The record of the operands. The place after it.
fn row(tag: usize, stores: &TermStores<'_>, hs: &[u64], out: &mut [u8], p: usize) -> usize
    requires place { (tag < 6) × ((length hs.now ≤ 6) × (p < 2 ^ 59)) }
    requires operands_fit { All (Ready stores.now.old.now stores.now.new.now) hs.now × (handles_size hs.now ≤ MAX_PAYLOAD) }
    ensures { (result ≡ p + (3 + handles_size hs.now)) × (out.new ≡ sets out.old p (entry_bytes (row_entry tag (map (operand_of stores.now.old.now stores.now.new.now) hs.now)))) }
{
    head(tag, crate::count::operands(hs), out, p);
    operands(stores, hs, out, p + 3)
}

// `n` rows of `k` operands. The place after them.
fn rows(
    tag: usize,
    stores: &TermStores<'_>,
    hs: &[u64],
    k: usize,
    n: usize,
    out: &mut [u8],
    p: usize,
) -> usize
    requires place { (tag < 6) × ((k ≤ 6) × ((n ≤ 1024) × ((k * n ≤ length hs.now) × (p < 2 ^ 58)))) }
    requires rows_fit { All (Ready stores.now.old.now stores.now.new.now) (take (k * n) hs.now) × (rows_wide k n hs.now ≡ false) }
    ensures { (result ≡ p + length (list_bytes (map (row_entry tag) (rows_of (operand_of stores.now.old.now stores.now.new.now) k n hs.now)))) × ((result ≤ p + 70000 * n) × (out.new ≡ sets out.old p (list_bytes (map (row_entry tag) (rows_of (operand_of stores.now.old.now stores.now.new.now) k n hs.now))))) }
{
    let mut rest = hs;
    let mut q = p;
    for _ in 0..n {
        let (next, after) = rest.split_at(k);
        q = row(tag, stores, next, out, q);
        rest = after;
    }
    q
}

// The record of a definition: its destination, then its right side. The place after it.
fn definition(stores: &TermStores<'_>, dst: usize, h: u64, out: &mut [u8], p: usize) -> usize
    requires { Ready stores.now.old.now stores.now.new.now h × ((dst < 65536) × ((2 + handle_size h ≤ MAX_PAYLOAD) × (p < 2 ^ 59))) }
    ensures { (result ≡ p + (5 + handle_size h)) × (out.new ≡ sets out.old p (entry_bytes (linear_entry (record { dst = dst; rhs = operand_of stores.now.old.now stores.now.new.now h })))) }
{
    let o = operand::WireOperand::from_number(h);
    head(house_file::LINEAR, 4 + 6 * o.len(), out, p);
    put16(out, p + 3, dst);
    operand(stores, h, out, p + 5)
}

// The definitions, destinations beside right sides. The place after them.
fn definitions(
    stores: &TermStores<'_>,
    dsts: &[u16],
    rhss: &[u64],
    out: &mut [u8],
    p: usize,
) -> usize
    requires place { (length dsts.now ≡ length rhss.now) × ((length rhss.now ≤ 1024) × (p < 2 ^ 58)) }
    requires definitions_fit { All (Ready stores.now.old.now stores.now.new.now) rhss.now × (definitions_wide rhss.now ≡ false) }
    ensures { (result ≡ p + length (list_bytes (map linear_entry (definitions_of (operand_of stores.now.old.now stores.now.new.now) dsts.now rhss.now)))) × ((result ≤ p + 70000 * length rhss.now) × (out.new ≡ sets out.old p (list_bytes (map linear_entry (definitions_of (operand_of stores.now.old.now stores.now.new.now) dsts.now rhss.now))))) }
{
    let mut q = p;
    for i in 0..rhss.len() {
        q = definition(stores, dsts[i] as usize, rhss[i], out, q);
    }
    q
}

// The records of the five lists, in tag order. The place after them.
fn lists(system: &LentSystem<'_>, out: &mut [u8], p: usize) -> usize
    requires { (memory_fault MAX_WRITTEN_TERMS system.now.sizes (stores_of system.now) ≡ 0) × ((wide (system_in system.now) ≡ false) × (p < 256)) }
    ensures { (result ≡ p + length (list_bytes (entries_of (system_in system.now)))) × ((result < 2 ^ 50) × (out.new ≡ sets out.old p (list_bytes (entries_of (system_in system.now))))) }
{
    let stores = &system.stores;
    let z = system.sizes;
    let n = z.linears;
    let a = rows(2, stores, system.ands, 3, z.ands, out, p);
    let b = rows(3, stores, system.imuls, 4, z.imuls, out, a);
    let c = rows(4, stores, system.bmuls, 6, z.bmuls, out, b);
    let d = rows(5, stores, system.zeros, 1, z.zeros, out, c);
    definitions(stores, &system.dsts[..n], &system.rhss[..n], out, d)
}

// The whole file. Its length.
pub(crate) fn file(system: &LentSystem<'_>, out: &mut [u8]) -> usize
    requires { (memory_fault MAX_WRITTEN_TERMS system.now.sizes (stores_of system.now) ≡ 0) × (wide (system_in system.now) ≡ false) }
    ensures { (result ≡ length (file_of (system_in system.now))) × (out.new ≡ sets out.old 0 (file_of (system_in system.now))) }
{
    head(1, 2, out, 0);
    put16(out, 3, system.sizes.wires);
    let p = lists(system, out, 5);
    head(house_file::END, 0, out, p);
    p + 3
}
