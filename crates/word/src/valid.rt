// The eight shifts of a word, for an amount below the width. Follows core/src/word.rs.
ghost use Rattle.std.specs.Prelude.{◌≡◌, ℕ, ◌+◌, ◌*◌, ◌/◌, ◌%◌, ◌^◌, ◌<◌};
ghost use Rattle.word.specs.Word.{left, right, arith_right, turn, halves};

pub fn sll(w: u64, n: u32) -> u64
    requires { n < 64 }
    ensures { result ≡ left 64 n w }
{
    w << n
}

pub fn slr(w: u64, n: u32) -> u64
    requires { n < 64 }
    ensures { result ≡ right n w }
{
    w >> n
}

#[tactic(auto, using(crate::proofs::Turns::signed_right))]
pub fn sar(w: u64, n: u32) -> u64
    requires { n < 64 }
    ensures { result ≡ arith_right 64 n w }
{
    (w.cast_signed() >> n).cast_unsigned()
}

#[tactic(auto, using(crate::proofs::Turns::rotate_turn))]
pub fn rotr(w: u64, n: u32) -> u64
    requires { n < 64 }
    ensures { result ≡ turn 64 n w }
{
    w.rotate_right(n)
}

// What `half` does to 32 bits, done to each half of a word apart.
pub fn by_halves<F: Fn(u32) -> u32>(w: u64, half: F) -> u64
    requires { F.IsAlwaysCallable half }
    ensures { (hi : ℕ) × (lo : ℕ) × F.post half (w / 2 ^ 32) hi × F.post half (w % 2 ^ 32) lo × (result ≡ hi * 2 ^ 32 + lo) }
{
    let hi = half((w >> 32) as u32);
    let lo = half((w % 0x1_0000_0000) as u32);
    ((hi as u64) << 32) | (lo as u64)
}

#[tactic(auto, unfolding(crate::specs::Word::halves))]
pub fn sll32(w: u64, n: u32) -> u64
    requires { n < 32 }
    ensures { result ≡ halves (left 32 n) w }
{
    by_halves(w, |h| h << n)
}

#[tactic(auto, unfolding(crate::specs::Word::halves))]
pub fn srl32(w: u64, n: u32) -> u64
    requires { n < 32 }
    ensures { result ≡ halves (right n) w }
{
    by_halves(w, |h| h >> n)
}

#[tactic(auto, using(crate::proofs::Turns::signed_right), unfolding(crate::specs::Word::halves))]
pub fn sra32(w: u64, n: u32) -> u64
    requires { n < 32 }
    ensures { result ≡ halves (arith_right 32 n) w }
{
    by_halves(w, |h| (h.cast_signed() >> n).cast_unsigned())
}

#[tactic(auto, using(crate::proofs::Turns::rotate_turn), unfolding(crate::specs::Word::halves))]
pub fn rotr32(w: u64, n: u32) -> u64
    requires { n < 32 }
    ensures { result ≡ halves (turn 32 n) w }
{
    by_halves(w, |h| h.rotate_right(n))
}
