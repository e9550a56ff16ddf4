// What the programs that replay vectors share: numbers and parts of the input, and stores compared, counted and digested place by place.
#![tactic(auto)]

ghost use Rattle.std.specs.Prelude.{◌≡◌, ◌^◌, ◌<◌, ◌≤◌, length, ℕ};
ghost use Rattle.replaying.specs.Places.{number_at, part_of, counted_by, all_untouched_by, untouched_by, same_by, mixed, digest_by};

// A number of a store: a byte, a wire, a term.
pub trait Place: Copy {
    ghost value: { Self → ℕ };

    fn value(self) -> u64
        ensures { result ≡ value self };
}

impl Place for u8 {
    ghost value = { λ x. x };

    fn value(self) -> u64 {
        self as u64
    }
}

impl Place for u16 {
    ghost value = { λ x. x };

    fn value(self) -> u64 {
        self as u64
    }
}

impl Place for u64 {
    ghost value = { λ x. x };

    fn value(self) -> u64 {
        self
    }
}

// What stands in each store before anything is put there.
pub const UNTOUCHED: u64 = 7;

// A number of four bytes, the low one first.
pub fn number(input: &[u8], at: usize) -> usize
    requires { at < 2 ^ 62 }
    ensures { (result ≡ number_at input.now at) × (result < 4294967296) }
{
    house_file::num(input, at) + 65536 * house_file::num(input, at + 2)
}

// A part of some bytes; empty where it is none.
pub fn part<'a>(input: &'a [u8], begin: usize, end: usize) -> &'a [u8]
    ensures { result.now ≡ part_of input.now begin end }
{
    input.get(begin..end).unwrap_or(&[])
}

// How many places have the number `x`.
pub fn count<T: Place>(places: &[T], x: u64) -> usize
    ensures { (result ≡ counted_by T.value x places.now) × (result ≤ length places.now) }
{
    places.iter().filter(|place| place.value() == x).count()
}

fn all_untouched<T: Place>(places: &[T]) -> bool
    ensures { result ≡ all_untouched_by T.value places.now }
{
    places.iter().all(|place| place.value() == UNTOUCHED)
}

// Whether a store is as it was made, from `from` on.
pub fn untouched<T: Place>(places: &[T], from: usize) -> bool
    ensures { result ≡ untouched_by T.value places.now from }
{
    from <= places.len() && all_untouched(&places[from..])
}

// Whether two stores are as long, and the same from `from` on.
pub fn same<T: PartialEq>(a: &[T], b: &[T], from: usize) -> bool
    ensures { result ≡ same_by T.eq a.now b.now from }
{
    a.len() == b.len() && from <= a.len() && a[from..] == b[from..]
}

pub fn mix(digest: u64, x: u64) -> u64
    ensures { result ≡ mixed digest x }
{
    (digest % 1000000007 * 31 + x % 1000000007) % 1000000007
}

pub fn digest<T: Place>(places: &[T], start: u64) -> u64
    ensures { result ≡ digest_by T.value places.now start }
{
    places
        .iter()
        .fold(start, |digest, place| mix(digest, place.value()))
}
