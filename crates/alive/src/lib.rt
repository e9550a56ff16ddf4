// Masks: the bits of a word that a shift moves to some bit of a mask. A word says a set of bits, so that one number a definition tells
// what expansion would find out term by term.
#![tactic(auto)]

ghost use Rattle.std.specs.Prelude.{◌≡◌, ◌<◌};
ghost use Rattle.word.specs.Word.{halves};
ghost use Rattle.shift.specs.Shifts.{Valid, width_of};
ghost use Rattle.alive.specs.Masks.{back, pulled_back, pulled};

use shift::{Shift, ShiftVariant};

// An arithmetic shift copies the top bit to where the mask may ask for it more than once.
#[tactic(auto, unfolding(crate::specs::Masks::back))]
fn sar_back(m: u64, n: u32) -> u64
    requires { n < 64 }
    ensures { result ≡ back 64 n m }
{
    let top = if m >> (63 - n) == 0 {
        0
    } else {
        0x8000_0000_0000_0000
    };
    (m << n) | top
}

// The same of a half.
// Kept: a twin, since a function over both types of number would be no plainer: it needs a trait for the two masks.
#[tactic(auto, unfolding(crate::specs::Masks::back))]
fn half_back(h: u32, n: u32) -> u32
    requires { n < 32 }
    ensures { result ≡ back 32 n h }
{
    let top = if h >> (31 - n) == 0 { 0 } else { 0x8000_0000 };
    (h << n) | top
}

#[tactic(auto, unfolding(crate::specs::Masks::pulled_back))]
fn pull_back(v: ShiftVariant, n: u32, m: u64) -> u64
    requires { n < width_of v }
    ensures { result ≡ pulled_back v n m }
{
    match v {
        ShiftVariant::Sll => word::valid::slr(m, n),
        ShiftVariant::Slr => word::valid::sll(m, n),
        ShiftVariant::Sar => sar_back(m, n),
        ShiftVariant::Rotr => word::valid::rotr(m, (64 - n) % 64),
        ShiftVariant::Sll32 => word::valid::srl32(m, n),
        ShiftVariant::Srl32 => word::valid::sll32(m, n),
        ShiftVariant::Sra32 => sra32_back(m, n),
        ShiftVariant::Rotr32 => word::valid::rotr32(m, (32 - n) % 32),
    }
}

#[tactic(auto, unfolding(word::specs::Word::halves))]
fn sra32_back(m: u64, n: u32) -> u64
    requires { n < 32 }
    ensures { result ≡ halves (back 32 n) m }
{
    word::valid::by_halves(m, |h| half_back(h, n))
}

// The bits of a word that the shift moves to some bit of the mask.
pub fn pulled(s: Shift, m: u64) -> u64
    requires { Valid s }
    ensures { result ≡ pulled s m }
{
    let v = s.variant;
    let n = s.amount;
    pull_back(v, n as u32, m)
}
