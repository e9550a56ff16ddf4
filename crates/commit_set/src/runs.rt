// Runs of shifts, and contexts. Follows frontend/src/pass/fusion/commit_set.rs.
ghost use Rattle.std.specs.Prelude.{◌≡◌, ◌<◌};
ghost use Rattle.commit_set.specs.Runs.{bit_of, run_of, grown, absorbs, absorbed, join_run, join_runs, no_runs, plus, fresh, under, join};

use crate::{CommitSetCx, Run, ShiftSummary};
use shift::{Shift, ShiftVariant};

// The runs that are kept: no caller asks for more slots.
pub const MAX_SHIFT_SLOTS: u8 = 2;

// The count that stands for more runs than any slots hold.
pub const OVER_BUDGET: u8 = MAX_SHIFT_SLOTS + 1;

// The bit that stands for a variant in a run's set.
pub fn bit_of(variant: ShiftVariant) -> u8
    ensures { result ≡ bit_of variant }
{
    1 << variant.number()
}

impl Run {
    // The run of one shift.
    pub fn of(shift: Shift) -> Run
        ensures { result ≡ run_of shift }
    {
        Run {
            variants: bit_of(shift.variant),
            total: shift.amount,
        }
    }

    // The total with `shift` folded in; it stops at 255, so that a long run doesn't come back to a small total.
    fn grow(self, shift: Shift) -> u8
        ensures { result ≡ grown self shift }
    {
        self.total.saturating_add(shift.amount)
    }

    // Whether `shift` needs no slot of its own. A run of two variants, which a join makes, takes nothing; a rotation loses no bits, and any
    // other shift has to stay inside the width: sll 3, sll 5, sll 4 are sll 12.
    pub fn absorbs(self, shift: Shift) -> bool
        ensures { result ≡ absorbs self shift }
    {
        let row = shift.variant.row();
        self.variants == bit_of(shift.variant) && (row.cyclic || self.grow(shift) < row.width)
    }

    // The run with `shift` folded in.
    pub fn absorb(self, shift: Shift) -> Run
        ensures { result ≡ absorbed self shift }
    {
        Run {
            variants: self.variants,
            total: self.grow(shift),
        }
    }

    // The run of both: a further shift has to go with every path at once, so the path that shifts farthest binds.
    pub fn union(self, other: Run) -> Run
        ensures { result ≡ join_run self other }
    {
        Run {
            variants: self.variants | other.variants,
            total: self.total.max(other.total),
        }
    }
}

impl ShiftSummary {
    const EMPTY: ShiftSummary = ShiftSummary {
        first: Run {
            variants: 0,
            total: 0,
        },
        second: Run {
            variants: 0,
            total: 0,
        },
        len: 0,
    };

    // The runs of a path with one shift.
    pub fn of(shift: Shift) -> ShiftSummary
        ensures { result ≡ plus no_runs shift }
    {
        ShiftSummary::EMPTY.with(shift)
    }

    // The path with one more shift inside: a path is followed from its user towards what it names, so the shift meets the innermost run
    // first. Going with it takes no slot; anything else opens one.
    #[tactic(auto, unfolding(crate::specs::Runs::plus, crate::specs::Runs::meets))]
    pub fn with(self, shift: Shift) -> ShiftSummary
        ensures { result ≡ plus self shift }
    {
        if shift.amount == 0 {
            return self;
        }
        match self.len {
            0 => ShiftSummary {
                first: Run::of(shift),
                len: 1,
                ..self
            },
            1 if self.first.absorbs(shift) => ShiftSummary {
                first: self.first.absorb(shift),
                ..self
            },
            1 => ShiftSummary {
                second: Run::of(shift),
                len: 2,
                ..self
            },
            2 if self.second.absorbs(shift) => ShiftSummary {
                second: self.second.absorb(shift),
                ..self
            },
            _ => ShiftSummary {
                len: OVER_BUDGET,
                ..self
            },
        }
    }

    // The runs of both, lined up from the outside in, since that is the end that every path shares.
    pub fn union(self, other: ShiftSummary) -> ShiftSummary
        ensures { result ≡ join_runs self other }
    {
        ShiftSummary {
            first: self.first.union(other.first),
            second: self.second.union(other.second),
            len: self.len.max(other.len),
        }
    }
}

impl CommitSetCx {
    // The context of a definition that nothing uses.
    pub const EMPTY: CommitSetCx = CommitSetCx {
        shifts: ShiftSummary::EMPTY,
        depth: 0,
    };

    // The context of a use that starts afresh.
    pub fn new(shift: Shift) -> CommitSetCx
        ensures { result ≡ fresh shift }
    {
        CommitSetCx {
            shifts: ShiftSummary::of(shift),
            depth: 0,
        }
    }

    // The context of a term with `shift` below this one.
    pub fn add(self, shift: Shift) -> CommitSetCx
        requires { self.depth < 4294967296 }
        ensures { result ≡ under self shift }
    {
        CommitSetCx {
            shifts: self.shifts.with(shift),
            depth: self.depth + 1,
        }
    }

    // The context of both.
    pub fn join(self, other: CommitSetCx) -> CommitSetCx
        ensures { result ≡ join self other }
    {
        CommitSetCx {
            shifts: self.shifts.union(other.shifts),
            depth: self.depth.max(other.depth),
        }
    }
}
