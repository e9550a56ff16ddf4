// Stores, place by place: compared, digested, written.
ghost use Rattle.std.specs.Prelude.{◌≡◌, ◌==◌, ◌+◌, ◌*◌, ◌^◌, ◌<◌, ◌≤◌, slice_index_or, slice_set};
ghost use Rattle.replay_undo.specs.Places.{same_of, same_places, mixed, digest_of, row_mixed, rows_mixed, same_rows};

// What stands at place `i`, or `otherwise` past the end.
pub fn get<T: Copy>(l: &[T], i: usize, otherwise: T) -> T
    ensures { result ≡ slice_index_or l.now i otherwise }
{
    l.get(i).copied().unwrap_or(otherwise)
}

// Past the end nothing is put.
pub fn put<T: Copy>(l: &mut [T], i: usize, x: T)
    ensures { l.new ≡ slice_set l.old i x }
{
    if i < l.len() {
        l[i] = x;
    }
}

pub fn same(a: u64, b: u64) -> usize
    ensures { (result ≡ same_of a b) × (result ≤ 1) }
{
    usize::from(a == b)
}

// How many of the `n` places from `from` on are the same.
pub fn same_numbers(a: &[u64], b: &[u64], from: usize, n: usize) -> usize
    requires { from + n < 2 ^ 64 }
    ensures { (result ≡ same_places a.now b.now from n) × (result ≤ n) }
{
    let mut c = 0;
    for i in 0..n {
        c += same(get(a, from + i, 0), get(b, from + i, 0));
    }
    c
}

// Not the sum of its parts, so that rows whose sums are the same are told apart.
pub fn mix(digest: u64, x: u64) -> u64
    ensures { (result ≡ mixed digest x) × (result < 1000000007) }
{
    ((digest ^ x) % 1000000007 * 48271 + 11) % 1000000007
}

pub fn digest_of(l: &[u64], n: usize, start: u64) -> u64
    ensures { result ≡ digest_of l.now n start }
{
    let mut digest = start;
    for i in 0..n {
        digest = mix(digest, get(l, i, 0));
    }
    digest
}

// The digest of the row of `k` numbers from `at` on.
fn row_mixed(l: &[u64], at: usize, k: usize, start: u64) -> u64
    requires { at + k < 2 ^ 64 }
    ensures { result ≡ row_mixed l.now at k start }
{
    let mut digest = start;
    for i in 0..k {
        digest = mix(digest, get(l, at + i, 0));
    }
    mix(digest, start)
}

// The sum of the digests of so many rows, the same in any order of these.
fn rows_mixed(l: &[u64], at: usize, rows: usize, k: usize, start: u64) -> u64
    requires { (at < 2 ^ 32) × (rows ≤ 1024) × (k ≤ 6) }
    ensures { result ≡ rows_mixed l.now at rows k start }
{
    let mut sum: u64 = 0;
    for i in 0..rows {
        sum = sum.wrapping_add(row_mixed(l, at + i * k, k, start));
    }
    sum
}

fn same_sums(a: &[u64], b: &[u64], at: usize, rows: usize, k: usize, start: u64) -> bool
    requires { (at < 2 ^ 32) × (rows ≤ 1024) × (k ≤ 6) }
    ensures { result ≡ (rows_mixed a.now at rows k start == rows_mixed b.now at rows k start) }
{
    rows_mixed(a, at, rows, k, start) == rows_mixed(b, at, rows, k, start)
}

// All numbers of so many rows where each row of the one list has its own in the other, else 0: by two digests.
#[tactic(auto, using(crate::proofs::Turns::rows_small), unfolding(crate::specs::Places::same_rows))]
pub fn same_rows(a: &[u64], b: &[u64], at: usize, rows: usize, k: usize) -> usize
    requires { (at < 2 ^ 32) × (rows ≤ 1024) × (k ≤ 6) }
    ensures { (result ≡ same_rows a.now b.now at rows k) × (result ≤ rows * k) }
{
    if same_sums(a, b, at, rows, k, 738274635291) && same_sums(a, b, at, rows, k, 915283746102) {
        rows * k
    } else {
        0
    }
}
