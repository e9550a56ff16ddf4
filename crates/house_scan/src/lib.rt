// The first pass over a house file: the first fault in byte order with the offset of its field's tag, or what the file counts. It writes
// nothing.
#![tactic(auto)]

ghost use Rattle.std.specs.Prelude.{◌≡◌, ◌+◌, ◌*◌, ◌^◌, ◌<◌, ◌≤◌, length, get_or, IfOk, OnOk};
ghost use Rattle.refusal.specs.Refusals.{fault_in};
ghost use Rattle.lower.specs.Faults.{first_fault, term_fault};
ghost use Rattle.house_file.specs.Format.{arity};
ghost use Rattle.house_file.specs.Decoding.{u16_at, term_at, terms_at, operand_next, operands_next, operands_terms, field_end, operands_start};
ghost use Rattle.house_file.specs.Reading.{head_fault, operand_fault, operands_fault, destination_fault, payload_fault, one_if, counted, full_fault, Small, turn_of, read_from, none, wires_fault, read_of, sizes_of, by_number};
ghost use Rattle.house_scan.specs.Parts.{end_fault, entry_fault, PartIs, HeadIs, StartIs, TermsAre, CountsAre, WiresAre, Onward};

use house_file::{Counts, FileFault, FileRead, Place, arity_of, at_field, byte, num};
use lower::Sizes;
use refusal::Refusal;
use shift::Shift;

// A part of a field that is sound: where the next one starts, and how many terms it had.
#[derive(Clone, Copy, Debug, PartialEq, Eq)]
struct Part {
    next: usize,
    terms: usize,
}

// A field's tag, and the offset after the field.
#[derive(Clone, Copy, Debug, PartialEq, Eq)]
struct Head {
    tag: usize,
    end: usize,
}

// One term: its wire, its inner and its outer shift.
fn term(s: &[u8], wires: usize, at: usize) -> Result<(), Refusal>
    requires { at + 6 < 2 ^ 63 }
    ensures { fault_in result ≡ term_fault wires (term_at s.now at) }
{
    if wires <= num(s, at) {
        return Err(Refusal::Wire);
    }
    Shift::from_index(num(s, at + 2) as u64)?;
    Shift::from_index(num(s, at + 4) as u64)?;
    Ok(())
}

fn terms(s: &[u8], wires: usize, n: usize, at: usize) -> Result<(), Refusal>
    requires { at + 6 * n < 2 ^ 63 }
    ensures { fault_in result ≡ first_fault (term_fault wires) (terms_at s.now n at) }
{
    for i in 0..n {
        term(s, wires, at + 6 * i)?;
    }
    Ok(())
}

// An operand in the bytes below `end`.
fn operand(s: &[u8], wires: usize, end: usize, at: usize) -> Result<Part, Refusal>
    requires { (end < 2 ^ 63) × (at ≤ end) }
    ensures fault { fault_in result ≡ operand_fault s.now wires end at }
    ensures part { IfOk result (PartIs at end (operand_next s.now at) (u16_at s.now at)) }
{
    if end < at + 2 {
        return Err(Refusal::Shape);
    }
    let n = num(s, at);
    let next = at + 2 + 6 * n;
    if end < next {
        return Err(Refusal::Shape);
    }
    terms(s, wires, n, at + 2)?;
    Ok(Part { next, terms: n })
}

// `k` operands.
fn operands(s: &[u8], wires: usize, end: usize, k: usize, at: usize) -> Result<Part, Refusal>
    requires { (end < 2 ^ 63) × (at ≤ end) }
    ensures fault { fault_in result ≡ operands_fault s.now wires end k at }
    ensures part { IfOk result (PartIs at end (operands_next s.now k at) (operands_terms s.now k at)) }
{
    let mut all = Part { next: at, terms: 0 };
    for _ in 0..k {
        let one = operand(s, wires, end, all.next)?;
        all = Part {
            next: one.next,
            terms: all.terms + one.terms,
        };
    }
    Ok(all)
}

// A Linear's destination. Where its operand starts; of another tag, the start of the payload.
fn dest(s: &[u8], wires: usize, tag: usize, end: usize, at: usize) -> Result<usize, Refusal>
    requires { (end < 2 ^ 63) × (at ≤ end) }
    ensures fault { fault_in result ≡ destination_fault s.now wires tag end at }
    ensures start { IfOk result (StartIs at end (operands_start tag at)) }
{
    if tag != house_file::LINEAR {
        return Ok(at);
    }
    if end < at + 2 {
        return Err(Refusal::Shape);
    }
    if wires <= num(s, at) {
        return Err(Refusal::Wire);
    }
    Ok(at + 2)
}

// A payload from `at` to `end`: its parts in turn, and nothing left over. How many terms it has.
fn payload(s: &[u8], wires: usize, tag: usize, end: usize, at: usize) -> Result<usize, Refusal>
    requires { (end < 2 ^ 63) × (at ≤ end) }
    ensures fault { fault_in result ≡ payload_fault s.now wires tag end at }
    ensures terms { IfOk result (TermsAre at end (operands_terms s.now (arity tag) (operands_start tag at))) }
{
    let start = dest(s, wires, tag, end, at)?;
    let all = operands(s, wires, end, arity_of(tag), start)?;
    if all.next < end {
        return Err(Refusal::Shape);
    }
    Ok(all.terms)
}

// The tag part of a field, with a tag from `low` to `high`, and the end of its payload.
fn header(s: &[u8], low: usize, high: usize, at: usize) -> Result<Head, Refusal>
    requires { at ≤ length s.now }
    ensures fault { fault_in result ≡ head_fault s.now low high at }
    ensures head { IfOk result (HeadIs at (length s.now) (get_or s.now at 0) (field_end s.now at)) }
{
    if s.len() < at + 3 {
        return Err(Refusal::Cut);
    }
    let tag = byte(s, at);
    if tag < low {
        return Err(Refusal::Tag);
    }
    if high < tag {
        return Err(Refusal::Tag);
    }
    let end = at + 3 + num(s, at + 1);
    if s.len() < end {
        return Err(Refusal::Cut);
    }
    Ok(Head { tag, end })
}

fn one_if(tag: usize, kind: usize) -> usize
    ensures { (result ≡ one_if tag kind) × (result ≤ 1) }
{
    if tag == kind { 1 } else { 0 }
}

// The counts with one field more.
fn tally(c: Counts, tag: usize, terms: usize) -> Counts
    requires { Small c × (terms < 2 ^ 62) }
    ensures { (result ≡ counted c tag terms) × (result.ands + result.imuls + result.bmuls + result.zeros ≤ 1028) }
{
    Counts {
        ands: c.ands + one_if(tag, 2),
        imuls: c.imuls + one_if(tag, 3),
        bmuls: c.bmuls + one_if(tag, 4),
        zeros: c.zeros + one_if(tag, 5),
        linears: c.linears + one_if(tag, 6),
        terms: c.terms + terms,
    }
}

fn full(c: Counts) -> Result<(), Refusal>
    requires { c.ands + c.imuls + c.bmuls + c.zeros < 2 ^ 62 }
    ensures fault { fault_in result ≡ full_fault c }
    ensures small { OnOk result (Small c) }
{
    if lower::MAX_DEFINITIONS < c.linears {
        return Err(Refusal::Full);
    }
    if lower::MAX_OTHERS < c.ands + c.imuls + c.bmuls + c.zeros {
        return Err(Refusal::Full);
    }
    if lower::MAX_TERMS < c.terms as u64 {
        return Err(Refusal::Full);
    }
    Ok(())
}

fn sizes(wires: usize, c: Counts) -> Sizes
    ensures { result ≡ sizes_of wires c }
{
    Sizes {
        wires,
        ands: c.ands,
        imuls: c.imuls,
        bmuls: c.bmuls,
        zeros: c.zeros,
        linears: c.linears,
    }
}

// The end field at `at`, which has no payload, and nothing after it.
fn closing(s: &[u8], end: usize, at: usize) -> Result<(), FileFault>
    requires { (end ≡ field_end s.now at) × (end ≤ length s.now) }
    ensures { by_number result ≡ end_fault s.now at }
{
    let after = at + 3;
    if after < end {
        return Err(FileFault {
            refusal: Refusal::Shape,
            at,
        });
    }
    if after < s.len() {
        return Err(FileFault {
            refusal: Refusal::Shape,
            at: after,
        });
    }
    Ok(())
}

// A field of a tag from 2 to 6. The counts with it.
fn entry(s: &[u8], wires: usize, c: Counts, head: Head, at: usize) -> Result<Counts, Refusal>
    requires { Small c × ((at + 3 ≤ head.end) × (head.end ≤ length s.now)) }
    ensures fault { fault_in result ≡ entry_fault s.now wires c head.tag head.end at }
    ensures counts { IfOk result (CountsAre s.now c head.tag at) }
{
    let terms = payload(s, wires, head.tag, head.end, at + 3)?;
    let counts = tally(c, head.tag, terms);
    full(counts)?;
    Ok(counts)
}

// One field after the first. The place of the next, if it is not the end.
fn one_field(s: &[u8], wires: usize, place: Place) -> Result<Option<Place>, FileFault>
    requires { Small place.counts × (place.at ≤ length s.now) }
    ensures turn { by_number result ≡ turn_of s.now wires place.counts place.at }
    ensures onward { IfOk result (Onward place.at (length s.now)) }
{
    let at = place.at;
    let head = at_field(header(s, 2, house_file::END, at), at)?;
    if head.tag == house_file::END {
        closing(s, head.end, at)?;
        return Ok(None);
    }
    let counts = at_field(entry(s, wires, place.counts, head, at), at)?;
    Ok(Some(Place {
        at: head.end,
        counts,
    }))
}

// The fields after the first.
fn fields(s: &[u8], wires: usize) -> Result<FileRead, FileFault>
    requires { 5 ≤ length s.now }
    ensures { by_number result ≡ read_from s.now wires (length s.now) none 5 }
{
    let mut place = Place {
        at: 5,
        counts: Counts {
            ands: 0,
            imuls: 0,
            bmuls: 0,
            zeros: 0,
            linears: 0,
            terms: 0,
        },
    };
    while let Some(next) = one_field(s, wires, place)? {
        place = next;
    }
    let counts = place.counts;
    Ok(FileRead {
        sizes: sizes(wires, counts),
        terms: counts.terms,
    })
}

// The first field: how many wires there are.
fn wire_count(s: &[u8]) -> Result<usize, Refusal>
    ensures fault { fault_in result ≡ wires_fault s.now }
    ensures wires { IfOk result (WiresAre s.now) }
{
    let head = header(s, 1, 1, 0)?;
    if head.end != 5 {
        return Err(Refusal::Shape);
    }
    let wires = num(s, 3);
    if wires == 0 {
        return Err(Refusal::Full);
    }
    if lower::MAX_WIRES < wires {
        return Err(Refusal::Full);
    }
    Ok(wires)
}

// The whole file.
pub fn scan(s: &[u8]) -> Result<FileRead, FileFault>
    ensures { by_number result ≡ read_of s.now }
{
    let wires = at_field(wire_count(s), 0)?;
    fields(s, wires)
}
