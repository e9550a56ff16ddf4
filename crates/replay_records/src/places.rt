// Stores, place by place: looked at, compared.
ghost use Rattle.std.specs.Prelude.{◌≡◌, ◌≤◌, slice_index};
ghost use Rattle.replay_records.specs.Places.{same_of};

// The number at place `i`, 0 past the end.
pub fn get(l: &[u64], i: usize) -> u64
    ensures { result ≡ slice_index l.now i }
{
    l.get(i).copied().unwrap_or(0)
}

pub fn same(a: u64, b: u64) -> usize
    ensures { (result ≡ same_of a b) × (result ≤ 1) }
{
    if a == b { 1 } else { 0 }
}
