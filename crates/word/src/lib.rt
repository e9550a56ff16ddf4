// A word is 64 bits: xor and the eight shifts. Follows core/src/word.rs.
//
// Each shift stands twice: here for every amount, refused where it is not below the width, and in `valid` for an amount that the caller
// knows to be below it.
#![tactic(auto)]

ghost use Rattle.std.specs.Prelude.{◌≡◌, cond, ltb};
ghost use Rattle.std.specs.Int.Bits.{bit_xor};
ghost use Rattle.word.specs.Word.{left, right, arith_right, turn, halves};
ghost use Rattle.word.specs.Answers.{Answers};

use refusal::Refusal;

pub mod valid;

pub fn xor(a: u64, b: u64) -> u64
    ensures { result ≡ bit_xor a b }
{
    a ^ b
}

// The amount, where it is below the width.
fn below(width: u32, n: u32) -> Result<u32, Refusal>
    ensures { result ≡ cond (ltb n width) (Ok n) (Err Refusal.Shift) }
{
    if n < width {
        Ok(n)
    } else {
        Err(Refusal::Shift)
    }
}

pub fn sll(w: u64, n: u32) -> Result<u64, Refusal>
    ensures { Answers 64 n (left 64 n w) result }
{
    let amount = below(64, n)?;
    Ok(valid::sll(w, amount))
}

pub fn slr(w: u64, n: u32) -> Result<u64, Refusal>
    ensures { Answers 64 n (right n w) result }
{
    let amount = below(64, n)?;
    Ok(valid::slr(w, amount))
}

pub fn sar(w: u64, n: u32) -> Result<u64, Refusal>
    ensures { Answers 64 n (arith_right 64 n w) result }
{
    let amount = below(64, n)?;
    Ok(valid::sar(w, amount))
}

pub fn rotr(w: u64, n: u32) -> Result<u64, Refusal>
    ensures { Answers 64 n (turn 64 n w) result }
{
    let amount = below(64, n)?;
    Ok(valid::rotr(w, amount))
}

pub fn sll32(w: u64, n: u32) -> Result<u64, Refusal>
    ensures { Answers 32 n (halves (left 32 n) w) result }
{
    let amount = below(32, n)?;
    Ok(valid::sll32(w, amount))
}

pub fn srl32(w: u64, n: u32) -> Result<u64, Refusal>
    ensures { Answers 32 n (halves (right n) w) result }
{
    let amount = below(32, n)?;
    Ok(valid::srl32(w, amount))
}

pub fn sra32(w: u64, n: u32) -> Result<u64, Refusal>
    ensures { Answers 32 n (halves (arith_right 32 n) w) result }
{
    let amount = below(32, n)?;
    Ok(valid::sra32(w, amount))
}

pub fn rotr32(w: u64, n: u32) -> Result<u64, Refusal>
    ensures { Answers 32 n (halves (turn 32 n) w) result }
{
    let amount = below(32, n)?;
    Ok(valid::rotr32(w, amount))
}
