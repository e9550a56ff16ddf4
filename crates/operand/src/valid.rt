// push_inner of shifts that are known to be valid, and operands that are known to lie within their store. Follows
// frontend/src/lower/operand.rs.
ghost use Rattle.std.specs.Prelude.{◌≡◌, ◌<◌};
ghost use Rattle.shift.specs.Shifts.{Valid};
ghost use Rattle.operand.specs.Push.{lone_of, fold_outer, push_valid, keep_both};
ghost use Rattle.operand.specs.Numbers.{Within, terms_at, operand_number};

use crate::{PushInner, WireOperand};
use shift::{Composition, Shift};

// The canonical sequence of one shift: an identity is spelled one way.
fn lone(shift: Shift) -> PushInner
    ensures { result ≡ lone_of shift }
{
    if shift.is_identity() {
        return PushInner::Seq(Shift::IDENTITY, Shift::IDENTITY);
    }
    PushInner::Seq(shift, Shift::IDENTITY)
}

// Merging inward can bring the two slots within reach of each other: [sll 1, sll32 11] is a pair, but with sll 31 folded inside it is
// [sll 32, sll32 11], which chains into sll 43.
fn fold_outer(merged: Shift, outer: Shift) -> PushInner
    requires { Valid merged × Valid outer }
    ensures { result ≡ fold_outer merged outer }
{
    match shift::valid::compose(merged, outer) {
        Composition::Single(s) => lone(s),
        Composition::Zero => PushInner::Zero,
        Composition::Pair => PushInner::Seq(merged, outer),
    }
}

// The two need a slot each: three shifts for two slots, unless the outer slot is free.
fn keep_both(inner: Shift, outer: Shift, shift: Shift, slots: usize) -> PushInner
    ensures { result ≡ keep_both inner outer shift slots }
{
    if 2 <= slots && outer.is_identity() {
        PushInner::Seq(shift, inner)
    } else {
        PushInner::OverBudget
    }
}

#[tactic(auto, using(crate::proofs::Pushes::merged_valid), unfolding(crate::specs::Push::push_valid))]
pub fn push_inner(inner: Shift, outer: Shift, shift: Shift, slots: usize) -> PushInner
    requires { Valid inner × Valid outer × Valid shift }
    ensures { result ≡ push_valid inner outer shift slots }
{
    match shift::valid::compose(shift, inner) {
        Composition::Single(merged) => fold_outer(merged, outer),
        Composition::Zero => PushInner::Zero,
        Composition::Pair => keep_both(inner, outer, shift, slots),
    }
}

// The terms of an operand, as a part of whichever store holds them: of every operand, those too that no number stands for.
pub fn as_slice<'a>(operand: WireOperand, old: &'a [u64], new: &'a [u64]) -> &'a [u64]
    requires { Within old.now new.now operand }
    ensures { result.now ≡ terms_at old.now new.now operand }
{
    let store = if operand.new { new } else { old };
    let start = operand.start();
    &store[start..start + operand.len()]
}

// The number that stands for an operand in a list.
pub fn number(operand: WireOperand) -> u64
    requires { operand.start < 2147483648 }
    ensures { result ≡ operand_number operand }
{
    let place = operand.len as u64 + 4294967296 * operand.start as u64;
    if operand.new {
        return place + 9223372036854775808;
    }
    place
}
