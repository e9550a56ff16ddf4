// A term of an operand is a wire with two shifts, and an operand a part of a store of terms. Follows frontend/src/lower/operand.rs.
#![tactic(auto)]

ghost use Rattle.std.specs.Prelude.{◌≡◌, ◌&&◌, eqb};
ghost use Rattle.word.specs.Answers.{checked};
ghost use Rattle.shift.specs.Shifts.{valid, identity};
ghost use Rattle.operand.specs.Push.{push_valid, pushed, told_pushed, values};
ghost use Rattle.operand.specs.Terms.{sole_of, told_sole, told_one};
ghost use Rattle.operand.specs.Numbers.{operand_at, store_for, within, Within, terms_at};

use refusal::Refusal;
use shift::Shift;

pub mod term;
pub mod valid;

// The numbers of a wire, a definition and a constraint: one is not taken for another.
#[derive(Clone, Copy, Debug, PartialEq, Eq)]
pub struct Wire(pub u16);

#[derive(Clone, Copy, Debug, PartialEq, Eq)]
pub struct LinDefId(pub u16);

#[derive(Clone, Copy, Debug, PartialEq, Eq)]
pub struct ConstraintId(pub u16);

// A wire and the two shifts folded into the term, the inner one applied first.
#[derive(Clone, Copy, Debug, PartialEq, Eq)]
pub struct ShiftedWire {
    pub wire: Wire,
    pub inner: Shift,
    pub outer: Shift,
}

// The terms from `start` on, `len` of them, in the new store or in the old one.
#[derive(Clone, Copy, Debug, PartialEq, Eq)]
pub struct WireOperand {
    pub start: u32,
    pub len: u32,
    pub new: bool,
}

// The two stores that operands stand in.
#[derive(Clone, Copy)]
pub struct TermStores<'a> {
    pub old: &'a [u64],
    pub new: &'a [u64],
}

// What folding one more shift inside two shifts comes to.
#[derive(Clone, Copy, Debug, PartialEq, Eq)]
pub enum PushInner {
    Seq(Shift, Shift),
    Zero,
    OverBudget,
}

impl ShiftedWire {
    // A term of one shift, which stands in the inner slot.
    pub fn single(wire: Wire, shift: Shift) -> ShiftedWire
        ensures { (result.wire ≡ wire) × (result.inner ≡ shift) × (result.outer ≡ identity) }
    {
        ShiftedWire {
            wire,
            inner: shift,
            outer: Shift::IDENTITY,
        }
    }

    // Its one shift, if the outer slot is free.
    pub fn sole_shift(self) -> Result<Shift, Refusal>
        ensures { (result ≡ sole_of self) × (told_sole result ≡ told_one self) }
    {
        if self.outer.is_identity() {
            Ok(self.inner)
        } else {
            Err(Refusal::Double)
        }
    }
}

impl WireOperand {
    // The operand that stands in a list as the number `h`: every number stands for one.
    pub fn from_number(h: u64) -> WireOperand
        ensures { result ≡ operand_at h }
    {
        WireOperand {
            start: (h / 4294967296 % 2147483648) as u32,
            len: (h % 4294967296) as u32,
            new: 9223372036854775808 <= h,
        }
    }

    pub fn start(self) -> usize
        ensures { result ≡ self.start }
    {
        self.start as usize
    }

    pub fn len(self) -> usize
        ensures { result ≡ self.len }
    {
        self.len as usize
    }

    pub fn is_empty(self) -> bool
        ensures { result ≡ eqb self.len 0 }
    {
        self.len == 0
    }
}

impl<'a> TermStores<'a> {
    // The store that the operand stands in.
    fn store(&self, operand: WireOperand) -> &'a [u64]
        ensures { result.now ≡ store_for self.now.old.now self.now.new.now operand }
    {
        if operand.new { self.new } else { self.old }
    }

    // Whether the operand ends within its store.
    pub fn holds(&self, operand: WireOperand) -> bool
        ensures { result ≡ within self.now.old.now self.now.new.now operand }
    {
        operand.start() + operand.len() <= self.store(operand).len()
    }

    // The terms of the operand that the number `h` stands for, as a part of whichever store holds them.
    pub fn terms(&self, h: u64) -> &'a [u64]
        requires { Within self.now.old.now self.now.new.now (operand_at h) }
        ensures { result.now ≡ terms_at self.now.old.now self.now.new.now (operand_at h) }
    {
        valid::as_slice(WireOperand::from_number(h), self.old, self.new)
    }
}

// Folds `shift` into the sequence `inner`, `outer`, as the new innermost shift. Inlining a definition applies the consumer's shifts to a
// term that has one of its own, and that one lands innermost: y = sll(x, 4) in .. ^ sll(y, 3) is sll(x, 7).
pub fn push_inner(
    inner: Shift,
    outer: Shift,
    shift: Shift,
    slots: usize,
) -> Result<PushInner, Refusal>
    ensures { (result ≡ pushed inner outer shift slots) × (told_pushed result ≡ checked (valid inner && (valid outer && valid shift)) (values (push_valid inner outer shift slots))) }
{
    Ok(valid::push_inner(inner.checked()?, outer.checked()?, shift.checked()?, slots))
}
