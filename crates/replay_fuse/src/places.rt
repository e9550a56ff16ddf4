// The flags at destinations, counted.
ghost use Rattle.std.specs.Prelude.{◌≡◌, ◌+◌, ◌^◌, ◌<◌, slice_index};
ghost use Rattle.replay_fuse.specs.Places.{named_from};

// The destination at place `i`, 0 past the end.
fn destination(dsts: &[u16], i: usize) -> usize
    ensures { result ≡ slice_index dsts.now i }
{
    usize::from(dsts.get(i).copied().unwrap_or(0))
}

// How many of the `n` destinations from `from` on have the flag 1.
pub fn named(flags: &[u8], dsts: &[u16], from: usize, n: usize) -> usize
    requires { from + n < 2 ^ 64 }
    ensures { result ≡ named_from flags.now dsts.now from n }
{
    let mut c = 0;
    for i in 0..n {
        let flag = house_file::byte(flags, destination(dsts, from + i));
        c += usize::from(flag == 1);
    }
    c
}
