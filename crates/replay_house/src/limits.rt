// Files at the limits, made by loops, written, and read again.
ghost use Rattle.std.specs.Prelude.{◌≡◌, length};
ghost use Rattle.house_write.specs.Write.{WriteIs};
ghost use Rattle.replay_house.specs.Replay.{term_made, operand_made, wire_made, made_from, made_stores, case_of, sizes_from, cut_at};

use crate::pass;
use crate::tally::Tally;
use house_file::FileFault;
use lower::{LentSystem, Sizes};
use operand::{TermStores, Wire, WireOperand};
use refusal::Refusal;

// What has to come of a system: it is not written; or its file, with so many bytes of the first record put in once more, is over a limit, told
// so far from the file's end; or its file reads back.
#[derive(Clone, Copy)]
pub enum Outcome {
    Unwritten(Refusal),
    Over { grow: usize, back: usize },
    Fine,
}

// A system by its counts and by how many terms each operand of a row has and each right side, and what has to come of it.
#[derive(Clone, Copy)]
pub struct Case {
    sizes: Sizes,
    row: usize,
    side: usize,
    outcome: Outcome,
}

const CASES: usize = 35;

fn counts(
    wires: usize,
    ands: usize,
    imuls: usize,
    bmuls: usize,
    zeros: usize,
    linears: usize,
) -> Sizes
    ensures { result ≡ sizes_from wires ands imuls bmuls zeros linears }
{
    Sizes {
        wires: wires,
        ands: ands,
        imuls: imuls,
        bmuls: bmuls,
        zeros: zeros,
        linears: linears,
    }
}

fn refused(sizes: Sizes, row: usize, side: usize, refusal: Refusal) -> Case
    ensures { result ≡ case_of sizes row side (Outcome.Unwritten refusal) }
{
    Case {
        sizes,
        row,
        side,
        outcome: Outcome::Unwritten(refusal),
    }
}

fn over(sizes: Sizes, row: usize, side: usize, grow: usize, back: usize) -> Case
    ensures { result ≡ case_of sizes row side (Outcome.Over grow back) }
{
    Case {
        sizes,
        row,
        side,
        outcome: Outcome::Over { grow, back },
    }
}

fn fine(sizes: Sizes, row: usize, side: usize) -> Case
    ensures { result ≡ case_of sizes row side Outcome.Fine }
{
    Case {
        sizes,
        row,
        side,
        outcome: Outcome::Fine,
    }
}

fn terms_case(i: usize) -> Case {
    match i {
        // one of each
        0 => fine(counts(7, 1, 1, 1, 1, 1), 2, 3),
        // 8,192 terms
        1 => fine(counts(4096, 0, 0, 0, 0, 1024), 1, 8),
        // 8,193
        2 => over(counts(4096, 0, 0, 0, 1, 1024), 1, 8, 0, 58),
        // 24,576 terms
        3 => over(counts(4096, 0, 0, 0, 0, 1024), 1, 24, 0, 103136),
        // 24,577
        4 => refused(counts(4096, 0, 0, 0, 1, 1024), 1, 24, Refusal::Full),
        // a payload of 65,534 bytes
        5 => over(counts(7, 0, 0, 0, 1, 0), 10922, 1, 0, 65540),
        // one of 65,536
        6 => refused(counts(7, 0, 0, 0, 0, 1), 1, 10922, Refusal::Wide),
        // one of 65,530
        7 => over(counts(7, 0, 0, 0, 0, 1), 1, 10921, 0, 65536),
        // three operands in 65,526 bytes
        _ => over(counts(7, 1, 0, 0, 0, 0), 3640, 1, 0, 65532),
    }
}

fn payloads_case(i: usize) -> Case {
    match i {
        // in 65,544
        9 => refused(counts(7, 1, 0, 0, 0, 0), 3641, 1, Refusal::Wide),
        // four in 65,528
        10 => over(counts(7, 0, 1, 0, 0, 0), 2730, 1, 0, 65534),
        // in 65,552
        11 => refused(counts(7, 0, 1, 0, 0, 0), 2731, 1, Refusal::Wide),
        // six in 65,532
        12 => over(counts(7, 0, 0, 1, 0, 0), 1820, 1, 0, 65538),
        // in 65,568
        13 => refused(counts(7, 0, 0, 1, 0, 0), 1821, 1, Refusal::Wide),
        // 4,096 wires
        14 => fine(counts(4096, 0, 0, 0, 1, 0), 1, 1),
        // 4,097
        15 => refused(counts(4097, 0, 0, 0, 1, 0), 1, 1, Refusal::Full),
        // none
        16 => refused(counts(0, 0, 0, 0, 0, 0), 1, 1, Refusal::Full),
        // nothing but a wire
        _ => fine(counts(1, 0, 0, 0, 0, 0), 1, 1),
    }
}

fn kinds_case(i: usize) -> Case {
    match i {
        // 1,024 of a kind, and one more in the file
        18 => over(counts(7, 1024, 0, 0, 0, 0), 1, 1, 27, 30),
        // 1,024 of a kind
        19 => fine(counts(7, 1024, 0, 0, 0, 0), 1, 1),
        // 1,025
        20 => refused(counts(7, 1025, 0, 0, 0, 0), 1, 1, Refusal::Full),
        // 1,024 of a kind, and one more in the file
        21 => over(counts(7, 0, 1024, 0, 0, 0), 1, 1, 35, 38),
        // 1,024 of a kind
        22 => fine(counts(7, 0, 1024, 0, 0, 0), 1, 1),
        // 1,025
        23 => refused(counts(7, 0, 1025, 0, 0, 0), 1, 1, Refusal::Full),
        // 1,024 of a kind, and one more in the file
        24 => over(counts(7, 0, 0, 1024, 0, 0), 1, 1, 51, 54),
        // 1,024 of a kind
        25 => fine(counts(7, 0, 0, 1024, 0, 0), 1, 1),
        // 1,025
        _ => refused(counts(7, 0, 0, 1025, 0, 0), 1, 1, Refusal::Full),
    }
}

fn sums_case(i: usize) -> Case {
    match i {
        // 1,024 of a kind, and one more in the file
        27 => over(counts(7, 0, 0, 0, 1024, 0), 1, 1, 11, 14),
        // 1,024 of a kind
        28 => fine(counts(7, 0, 0, 0, 1024, 0), 1, 1),
        // 1,025
        29 => refused(counts(7, 0, 0, 0, 1025, 0), 1, 1, Refusal::Full),
        // 1,024 of a kind, and one more in the file
        30 => over(counts(7, 0, 0, 0, 0, 1024), 1, 1, 13, 16),
        // 1,024 of a kind
        31 => fine(counts(7, 0, 0, 0, 0, 1024), 1, 1),
        // 1,025
        32 => refused(counts(7, 0, 0, 0, 0, 1025), 1, 1, Refusal::Full),
        // 1,024 in all
        33 => fine(counts(7, 256, 256, 256, 256, 1024), 1, 1),
        // 1,025 in all
        _ => refused(counts(7, 256, 256, 256, 257, 1024), 1, 1, Refusal::Full),
    }
}

fn limit_at(i: usize) -> Case {
    match i {
        0..9 => terms_case(i),
        9..18 => payloads_case(i),
        18..27 => kinds_case(i),
        _ => sums_case(i),
    }
}

// The `i`-th term: it names a wire below the count, with shifts that there are.
fn term_at(i: usize, wires: usize) -> u64
    ensures { result ≡ term_made wires i }
{
    if wires == 0 {
        return 0;
    }
    operand::term::number(
        Wire((i % wires % 65536) as u16),
        (i % 256) as u16,
        (i / 7 % 256) as u16,
    )
}

// Kept: three functions that fill a store: one over a closure is no plainer, its clause would name what the closure gives.
fn fill_terms(store: &mut [u64], wires: usize)
    ensures { store.new ≡ made_from (term_made wires) 0 (length store.old) }
{
    for i in 0..store.len() {
        store[i] = term_at(i, wires);
    }
}

// An operand of so many terms, at the front of the terms.
fn operand_at(i: usize, len: usize) -> u64
    ensures { result ≡ operand_made len i }
{
    operand::valid::number(WireOperand {
        start: (i % 97) as u32,
        len: (len % 65536) as u32,
        new: false,
    })
}

fn fill_operands(store: &mut [u64], len: usize)
    ensures { store.new ≡ made_from (operand_made len) 0 (length store.old) }
{
    for i in 0..store.len() {
        store[i] = operand_at(i, len);
    }
}

fn wire_at(i: usize, wires: usize) -> u16
    ensures { result ≡ wire_made wires i }
{
    if wires == 0 {
        return 0;
    }
    (i % wires % 65536) as u16
}

fn fill_wires(store: &mut [u16], wires: usize)
    ensures { store.new ≡ made_from (wire_made wires) 0 (length store.old) }
{
    for i in 0..store.len() {
        store[i] = wire_at(i, wires);
    }
}

fn fill(
    c: Case,
    terms: &mut [u64],
    ands: &mut [u64],
    imuls: &mut [u64],
    bmuls: &mut [u64],
    zeros: &mut [u64],
    dsts: &mut [u16],
    rhss: &mut [u64],
)
    ensures { (terms.new ≡ made_from (term_made c.sizes.wires) 0 (length terms.old)) × ((ands.new ≡ made_from (operand_made c.row) 0 (length ands.old)) × ((imuls.new ≡ made_from (operand_made c.row) 0 (length imuls.old)) × ((bmuls.new ≡ made_from (operand_made c.row) 0 (length bmuls.old)) × ((zeros.new ≡ made_from (operand_made c.row) 0 (length zeros.old)) × ((dsts.new ≡ made_from (wire_made c.sizes.wires) 0 (length dsts.old)) × (rhss.new ≡ made_from (operand_made c.side) 0 (length rhss.old))))))) }
{
    let row = c.row;
    let side = c.side;
    let wires = c.sizes.wires;
    fill_terms(terms, wires);
    fill_operands(ands, row);
    fill_operands(imuls, row);
    fill_operands(bmuls, row);
    fill_operands(zeros, row);
    fill_wires(dsts, wires);
    fill_operands(rhss, side);
}

// The system of a case written: how many bytes, or the refusal.
fn make(c: Case, out: &mut [u8]) -> Result<usize, Refusal>
    ensures { WriteIs c.sizes (made_stores c) out.old result out.new }
{
    let mut terms = [0u64; 11264];
    let mut ands = [0u64; 3075];
    let mut imuls = [0u64; 4100];
    let mut bmuls = [0u64; 6150];
    let mut zeros = [0u64; 1025];
    let mut dsts = [0u16; 1025];
    let mut rhss = [0u64; 1025];
    fill(
        c, &mut terms, &mut ands, &mut imuls, &mut bmuls, &mut zeros, &mut dsts, &mut rhss,
    );
    let system = LentSystem {
        stores: TermStores {
            old: &terms,
            new: &[],
        },
        ands: &ands,
        imuls: &imuls,
        bmuls: &bmuls,
        zeros: &zeros,
        dsts: &dsts,
        rhss: &rhss,
        sizes: c.sizes,
    };
    house::write(&system, out)
}

// Puts the first `n` bytes of the records in once more, before the end field. The length then.
fn grow(file: &mut [u8], end: usize, n: usize) -> usize {
    if file.len() < end {
        return 0;
    }
    if file.len() - end < n {
        return 0;
    }
    if end < 8 {
        return end;
    }
    if end - 8 < n {
        return end;
    }
    for i in 0..n {
        let v = file[5 + i];
        house_file::put(&mut *file, end - 3 + i, v);
    }
    house_file::put(&mut *file, end + n - 3, 7);
    house_file::put(&mut *file, end + n - 2, 0);
    house_file::put(&mut *file, end + n - 1, 0);
    end + n
}

// Where the field starts that a file cut at `end` lacks the end of.
fn cut_field(file: &[u8], end: usize) -> usize
    ensures { result ≡ cut_at file.now end }
{
    if file.len() < end {
        return 0;
    }
    let mut at = 0;
    for _ in 0..end {
        if end < at + 3 {
            return at;
        }
        let next = at + 3 + house_file::num(file, at + 1);
        if end < next {
            return at;
        }
        at = next;
    }
    at
}

// The file cut at each byte.
fn cuts(file: &[u8], n: usize, two: &mut [u8], first: Tally) -> Tally {
    let mut t = first;
    if file.len() < n {
        return t.count(false);
    }
    for end in 0..n {
        let seen = pass::pass(&file[..end], &mut *two);
        let asked = pass::refused(FileFault {
            refusal: Refusal::Cut,
            at: cut_field(file, end),
        });
        t = t.count(pass::same(seen, asked));
    }
    t
}

// What reading gives to the file of the case, `n` bytes at the front of `one`.
fn reads(c: Case, one: &[u8], n: usize, two: &mut [u8], t: Tally) -> Tally {
    if one.len() < n {
        return t.count(false);
    }
    let seen = pass::pass(&one[..n], &mut *two);
    let told = t.answer(seen);
    match c.outcome {
        Outcome::Over { grow: _, back } => {
            if n < back {
                return told.count(false);
            }
            let asked = pass::refused(FileFault {
                refusal: Refusal::Full,
                at: n - back,
            });
            told.count(pass::same(seen, asked))
        }
        _ => pass::again(seen, one, two, told.count(seen.length == n)),
    }
}

// A byte less than the file needs is too few.
fn short(c: Case, n: usize, two: &mut [u8], t: Tally) -> Tally {
    if n == 0 {
        return t;
    }
    if two.len() < n {
        return t.count(false);
    }
    let written = make(c, &mut two[..n - 1]);
    t.count(written == Err(Refusal::Room))
}

// Whether writing came to what it has to.
fn is_written(c: Case, written: Result<usize, Refusal>) -> bool {
    match c.outcome {
        Outcome::Unwritten(refusal) => written == Err(refusal),
        _ => written.is_ok(),
    }
}

fn one_case(c: Case, one: &mut [u8], two: &mut [u8], t: Tally) -> Tally {
    let written = make(c, &mut *one);
    let told = t.count(is_written(c, written));
    let Ok(length) = written else {
        return told;
    };
    let tried = short(c, length, &mut *two, told);
    let more = match c.outcome {
        Outcome::Over { grow, back: _ } => grow,
        _ => 0,
    };
    let n = grow(&mut *one, length, more);
    reads(c, &*one, n, &mut *two, tried)
}

// The small file, cut.
fn small(one: &mut [u8], two: &mut [u8], t: Tally) -> Tally {
    let n = make(limit_at(0), &mut *one).unwrap_or(0);
    cuts(&*one, n, &mut *two, t)
}

pub fn limits(first: Tally, one: &mut [u8], two: &mut [u8]) -> Tally {
    let mut t = small(&mut *one, &mut *two, first);
    for i in 0..CASES {
        t = one_case(limit_at(i), &mut *one, &mut *two, t);
    }
    t
}
