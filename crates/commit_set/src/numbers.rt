// A decision as one number, so that a store of decisions is a store of numbers.
ghost use Rattle.std.specs.Prelude.{◌≡◌};
ghost use Rattle.commit_set.specs.Decision.{below};
ghost use Rattle.commit_set.specs.Numbers.{run_number, run_at, context_number, context_at, decision_number, decision_at, ContextPacks, Packs};

use crate::{CommitSetCx, Decision, Run, ShiftSummary};
use shift::Shift;

fn run_number(run: Run) -> u64
    ensures { result ≡ run_number run }
{
    run.variants as u64 + 256 * run.total as u64
}

fn run_at(n: u64) -> Run
    ensures { result ≡ run_at n }
{
    Run {
        variants: (n % 256) as u8,
        total: (n / 256 % 256) as u8,
    }
}

fn context_number(cx: CommitSetCx) -> u64
    requires { ContextPacks cx }
    ensures { result ≡ context_number cx }
{
    let runs = cx.shifts;
    runs.len as u64
        + 4 * run_number(runs.first)
        + 262144 * run_number(runs.second)
        + 17179869184 * cx.depth as u64
}

fn context_at(n: u64) -> CommitSetCx
    ensures { result ≡ context_at n }
{
    CommitSetCx {
        shifts: ShiftSummary {
            first: run_at(n / 4),
            second: run_at(n / 262144),
            len: (n % 4) as u8,
        },
        depth: (n / 17179869184) as usize,
    }
}

// The context of a term with `shift` of a definition whose decision stands in a store as the number `n`.
#[tactic(auto, unfolding(crate::specs::Numbers::decision_at))]
pub fn context_below(n: u64, shift: Shift) -> CommitSetCx
    ensures { result ≡ below (decision_at n) shift }
{
    if n == 0 {
        return CommitSetCx::new(shift);
    }
    context_at(n / 2).add(shift)
}

impl Decision {
    // The number that stands for a decision in a store.
    #[tactic(auto, unfolding(crate::specs::Numbers::decision_number))]
    pub fn number(self) -> u64
        requires { Packs self }
        ensures { result ≡ decision_number self }
    {
        match self {
            Decision::Commit => 0,
            Decision::Inline(cx) => 1 + 2 * context_number(cx),
        }
    }

    // The decision that stands in a store as the number `n`: every number stands for one.
    #[tactic(auto, unfolding(crate::specs::Numbers::decision_at))]
    pub fn from_number(n: u64) -> Decision
        ensures { result ≡ decision_at n }
    {
        if n == 0 {
            return Decision::Commit;
        }
        Decision::Inline(context_at(n / 2))
    }
}
