// The decision of one definition: its uses' contexts against its terms' shifts. Follows frontend/src/pass/fusion/commit_set.rs.
ghost use Rattle.std.specs.Prelude.{◌≡◌, map, ◌≤◌, length, get_or};
ghost use Rattle.shift.specs.Shifts.{shift_at};
ghost use Rattle.operand.specs.Numbers.{term_of};
ghost use Rattle.legraph.specs.Tables.{use_at, listed, Linked};
ghost use Rattle.commit_set.specs.Runs.{plus};
ghost use Rattle.commit_set.specs.Decision.{context_of, shifts_of, decide};
ghost use Rattle.commit_set.specs.Numbers.{state_at};

use crate::{CommitSetCx, Decision, ShiftSummary};
use operand::LinDefId;
use shift::{Shift, ShiftVariant};

// Terms and uses have valid shifts; past the eight variants a number is taken for the first one.
// Kept: the twin `shift::valid::from_index` asks for a number that is known to be valid, and nothing here is.
fn shift_at(n: u64) -> Shift
    ensures { result ≡ shift_at n }
{
    let amount = (n % 64) as u8;
    let variant = if n < 512 {
        ShiftVariant::from_u8((n / 64) as u8)
    } else {
        ShiftVariant::Sll
    };
    Shift { variant, amount }
}

fn decision_at(decisions: &[u64], d: LinDefId) -> u64
    ensures { result ≡ get_or decisions.now d.0 0 }
{
    decisions.get(d.0 as usize).copied().unwrap_or(0)
}

// The context of a use, its user being decided.
fn context_of(u: u64, decisions: &[u64]) -> CommitSetCx
    ensures { result ≡ context_of (state_at decisions.now) (use_at u) }
{
    let shift = shift_at(u % 65536);
    let user = u / 65536 % 65536;
    if user == 0 {
        return CommitSetCx::new(shift);
    }
    let d = LinDefId((user - 1) as u16);
    crate::numbers::context_below(decision_at(decisions, d), shift)
}

// How many runs the path has with the shift of number `n` more inside. An identity, as most are, adds none.
#[tactic(auto, unfolding(crate::specs::Runs::plus))]
fn len_with(path: ShiftSummary, n: u64) -> u8
    ensures { result ≡ (plus path (shift_at n)).len }
{
    if n % 64 == 0 {
        return path.len;
    }
    path.with(shift_at(n)).len
}

// Whether all uses and terms go together within the slots; left at the first sum that does not.
pub fn decide(ts: &[u64], first: usize, uses: &[u64], decisions: &[u64], slots: u8) -> Decision
    requires { (length ts.now ≤ 65536) × (first ≤ 65536) × Linked uses.now first }
    ensures { result ≡ decide slots (map (context_of (state_at decisions.now)) (listed first uses.now first)) (shifts_of (map term_of ts.now)) }
{
    let mut over = false;
    let mut many = false;
    let mut joined = CommitSetCx::EMPTY;
    let mut n = 0;
    let mut h = first;
    'out: while 0 < h {
        let u = uses[h - 1];
        let cx = context_of(u, decisions);
        joined = joined.join(cx);
        n += 1;
        for t in ts {
            let len = len_with(cx.shifts, operand::term::inner(*t));
            many |= 1 < len;
            if slots < len {
                over = true;
                break 'out;
            }
        }
        h = (u / 4294967296) as usize;
    }
    crate::grounds::conclude(over, many, joined, ts.len(), n)
}
