// The house file: what its reader and its writer share.
#![tactic(auto)]

ghost use Rattle.std.specs.Prelude.{◌≡◌, ◌+◌, ◌^◌, ◌<◌, ◌≤◌, get_or, set};
ghost use Rattle.house_file.specs.Format.{arity};
ghost use Rattle.house_file.specs.Decoding.{u16_at, operands_start};
ghost use Rattle.house_file.specs.Reading.{placed};

use lower::Sizes;
use refusal::Refusal;

// The tag of a definition, and that of the end.
pub const LINEAR: usize = 6;

pub const END: usize = 7;

// How many fields of each kind were met, and terms.
#[derive(Clone, Copy, Debug, PartialEq, Eq)]
pub struct Counts {
    pub ands: usize,
    pub imuls: usize,
    pub bmuls: usize,
    pub zeros: usize,
    pub linears: usize,
    pub terms: usize,
}

// The counts of a system that was read.
#[derive(Clone, Copy)]
pub struct FileRead {
    pub sizes: Sizes,
    pub terms: usize,
}

// Why a file is refused, and the offset of the field.
#[derive(Clone, Copy, Debug, PartialEq, Eq)]
pub struct FileFault {
    pub refusal: Refusal,
    pub at: usize,
}

// Where the reading goes on, and what was met before.
#[derive(Clone, Copy, Debug, PartialEq, Eq)]
pub struct Place {
    pub at: usize,
    pub counts: Counts,
}

// An answer of a part of the field at `at`: a refusal is told with that offset.
pub fn at_field<T>(answer: Result<T, Refusal>, at: usize) -> Result<T, FileFault>
    ensures { result ≡ placed answer at }
{
    answer.map_err(|refusal| FileFault { refusal, at })
}

// A write; past the end of the list it is dropped.
pub fn put<T: Copy>(list: &mut [T], at: usize, value: T)
    ensures { list.new ≡ set list.old at value }
{
    if at < list.len() {
        list[at] = value;
    }
}

// The byte at an offset, or 0 past the end.
pub fn byte(s: &[u8], at: usize) -> usize
    ensures { (result ≡ get_or s.now at 0) × (result < 256) }
{
    if at < s.len() { s[at] as usize } else { 0 }
}

// A number of two bytes.
pub fn num(s: &[u8], at: usize) -> usize
    requires { at < 2 ^ 63 }
    ensures { (result ≡ u16_at s.now at) × (result < 65536) }
{
    let low = byte(s, at);
    let high = byte(s, at + 1);
    low + 256 * high
}

// How many operands a field of the tag has.
pub fn arity_of(tag: usize) -> usize
    ensures { (result ≡ arity tag) × (result ≤ 6) }
{
    if tag == 2 {
        return 3;
    }
    if tag == 3 {
        return 4;
    }
    if tag == 4 {
        return 6;
    }
    1
}

// Where the operands of a payload at `at` start: after the destination of a Linear.
pub fn start_of(tag: usize, at: usize) -> usize
    requires { at < 2 ^ 63 }
    ensures { (result ≡ operands_start tag at) × (result ≤ at + 2) }
{
    if tag == LINEAR { at + 2 } else { at }
}
