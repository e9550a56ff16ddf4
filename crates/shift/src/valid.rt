// Shifts that are known to be valid. Follows core/src/constraint_system/shift.rs.
ghost use Rattle.std.specs.Prelude.{◌≡◌, true, ◌<◌};
ghost use Rattle.shift.specs.Shifts.{width_of, Valid, shifted, apply_of, number_of, valid_number, shift_at};
ghost use Rattle.shift.specs.Compose.{NoIdentities, turned, past_width, chained_of, first_of, degenerates, chains, chain_of, makes_of, compose_valid};

use crate::{Composition, Makes, Shift, ShiftVariant};

#[tactic(auto, unfolding(crate::specs::Shifts::shifted))]
fn shift_word(v: ShiftVariant, n: u32, w: u64) -> u64
    requires { n < width_of v }
    ensures { result ≡ shifted v n w }
{
    match v {
        ShiftVariant::Sll => word::valid::sll(w, n),
        ShiftVariant::Slr => word::valid::slr(w, n),
        ShiftVariant::Sar => word::valid::sar(w, n),
        ShiftVariant::Rotr => word::valid::rotr(w, n),
        ShiftVariant::Sll32 => word::valid::sll32(w, n),
        ShiftVariant::Srl32 => word::valid::srl32(w, n),
        ShiftVariant::Sra32 => word::valid::sra32(w, n),
        ShiftVariant::Rotr32 => word::valid::rotr32(w, n),
    }
}

pub fn apply(s: Shift, w: u64) -> u64
    requires { Valid s }
    ensures { result ≡ apply_of s w }
{
    let v = s.variant;
    let n = s.amount;
    shift_word(v, n as u32, w)
}

pub fn index(s: Shift) -> u64
    requires { Valid s }
    ensures { result ≡ number_of s }
{
    let v = s.variant;
    let n = s.amount;
    64 * (v.number() as u64) + (n as u64)
}

// The shift of a number that is known to be one's.
pub fn from_index(index: u64) -> Shift
    requires { valid_number index ≡ true }
    ensures { (result ≡ shift_at index) × Valid result }
{
    Shift::spelled(index)
}

// A rotation by a whole turn is the identity, spelled one way.
fn turn(v: ShiftVariant, d: u8) -> Composition
    ensures { result ≡ turned v d }
{
    if d == 0 {
        return Composition::Single(Shift::IDENTITY);
    }
    Composition::Single(Shift {
        variant: v,
        amount: d,
    })
}

const SAR_63: Shift = Shift {
    variant: ShiftVariant::Sar,
    amount: 63,
};

const SRA32_31: Shift = Shift {
    variant: ShiftVariant::Sra32,
    amount: 31,
};

// Carried `over` past its end a word is cleared, or, arithmetically, a run of its sign; a rotation loses nothing.
fn past_width(v: ShiftVariant, over: u8) -> Composition
    ensures { result ≡ past_width v over }
{
    match v {
        ShiftVariant::Sll | ShiftVariant::Slr | ShiftVariant::Sll32 | ShiftVariant::Srl32 =>
            Composition::Zero,
        ShiftVariant::Sar => Composition::Single(SAR_63),
        ShiftVariant::Sra32 => Composition::Single(SRA32_31),
        ShiftVariant::Rotr | ShiftVariant::Rotr32 => turn(v, over),
    }
}

// What a chain comes to that goes on as `variant` and covers `distance` in all.
fn chained_composition(variant: ShiftVariant, distance: u8) -> Composition
    ensures { result ≡ chained_of variant distance }
{
    let row = variant.row();
    let width = row.width;
    if distance < width {
        return Composition::Single(Shift {
            variant,
            amount: distance,
        });
    }
    past_width(variant, distance - width)
}

// One shift has flattened the word so far that the other makes no difference: rotating a word of one repeated bit leaves it, and the top
// bit is the one that an arithmetic shift repeats.
#[tactic(auto, unfolding(crate::specs::Compose::degenerates))]
fn degenerate(inner: Shift, outer: Shift) -> Makes
    requires { NoIdentities inner outer }
    ensures { result ≡ first_of degenerates inner outer }
{
    let m = inner.amount;
    let n = outer.amount;
    match (inner.variant, outer.variant) {
        (ShiftVariant::Sar, ShiftVariant::Rotr | ShiftVariant::Rotr32) if 63 <= m => Makes::Inner,
        (ShiftVariant::Sra32, ShiftVariant::Rotr32) if 31 <= m => Makes::Inner,
        (ShiftVariant::Sar | ShiftVariant::Sra32, ShiftVariant::Slr) if 63 <= n => Makes::Outer,
        (ShiftVariant::Sra32, ShiftVariant::Srl32) if 31 <= n => Makes::Outer,
        _ => Makes::Neither,
    }
}

// The variants of two shifts that chain though they differ. A logical shift leaves an arithmetic one no sign to repeat; a full-width
// shift past the halfway point leaves each half bits of one side only, so that a half-wise shift in the same direction goes on as it.
#[tactic(auto, unfolding(crate::specs::Compose::chains))]
fn chained_apart(inner: Shift, outer: Shift) -> Makes
    requires { NoIdentities inner outer }
    ensures { result ≡ first_of chains inner outer }
{
    let m = inner.amount;
    let n = outer.amount;
    match (inner.variant, outer.variant) {
        (ShiftVariant::Slr, ShiftVariant::Sar) => Makes::Chain(ShiftVariant::Slr),
        (ShiftVariant::Srl32, ShiftVariant::Sra32) => Makes::Chain(ShiftVariant::Srl32),
        (ShiftVariant::Sll, ShiftVariant::Sll32) if 32 <= m => Makes::Chain(ShiftVariant::Sll),
        (ShiftVariant::Slr, ShiftVariant::Srl32) if 32 <= m => Makes::Chain(ShiftVariant::Slr),
        (ShiftVariant::Sar, ShiftVariant::Sra32) if 32 <= m => Makes::Chain(ShiftVariant::Sar),
        (ShiftVariant::Sll32, ShiftVariant::Sll) if 32 <= n => Makes::Chain(ShiftVariant::Sll),
        (ShiftVariant::Srl32, ShiftVariant::Slr) if 32 <= n => Makes::Chain(ShiftVariant::Slr),
        (ShiftVariant::Sra32, ShiftVariant::Sar) if 32 <= n => Makes::Chain(ShiftVariant::Sar),
        (ShiftVariant::Slr, ShiftVariant::Sra32) if 33 <= m => Makes::Chain(ShiftVariant::Slr),
        (ShiftVariant::Srl32, ShiftVariant::Sar) if 32 <= n => Makes::Chain(ShiftVariant::Slr),
        _ => Makes::Neither,
    }
}

fn chained(inner: Shift, outer: Shift) -> Makes
    requires { NoIdentities inner outer }
    ensures { result ≡ chain_of inner outer }
{
    if inner.variant == outer.variant {
        return Makes::Chain(inner.variant);
    }
    chained_apart(inner, outer)
}

fn makes(inner: Shift, outer: Shift) -> Makes
    requires { NoIdentities inner outer }
    ensures { result ≡ makes_of inner outer }
{
    match degenerate(inner, outer) {
        Makes::Neither => chained(inner, outer),
        absorbed => absorbed,
    }
}

#[tactic(auto, unfolding(crate::specs::Compose::compose_valid))]
pub fn compose(inner: Shift, outer: Shift) -> Composition
    requires { Valid inner × Valid outer }
    ensures { result ≡ compose_valid inner outer }
{
    let m = inner.amount;
    let n = outer.amount;
    if m == 0 {
        return Composition::Single(outer);
    }
    if n == 0 {
        return Composition::Single(inner);
    }
    match makes(inner, outer) {
        Makes::Inner => Composition::Single(inner),
        Makes::Outer => Composition::Single(outer),
        Makes::Chain(v) => chained_composition(v, m + n),
        Makes::Neither => Composition::Pair,
    }
}
