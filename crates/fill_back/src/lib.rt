// Filling back: the words of uncommitted defined wires by their definitions.
#![tactic(auto)]

ghost use Rattle.std.specs.Prelude.{◌≡◌};
ghost use Rattle.lower.specs.Accepted.{MAX_TERMS};
ghost use Rattle.lower.specs.Stores.{stores_of};
ghost use Rattle.lower.specs.Faults.{fault_of};
ghost use Rattle.refusal.specs.Refusals.{fault_in};
ghost use Rattle.fill_back.specs.Filling.{lengths_right, FillsIs};

use lower::{LentSystem, Sizes};
use refusal::Refusal;

mod filling;

// Whether there is one flag and one word a wire.
#[tactic(auto, unfolding(crate::specs::Filling::lengths_right))]
fn lengths_right(z: Sizes, flags: &[u8], assignment: &[u64]) -> bool
    ensures { result ≡ lengths_right z flags.now assignment.now }
{
    flags.len() == z.wires && assignment.len() == z.wires
}

// Fills back for a system that the checks have found nothing in, or refuses it for a circle or for the lengths.
fn fill_checked(
    system: &LentSystem<'_>,
    flags: &[u8],
    assignment: &mut [u64],
) -> Result<(), Refusal>
    requires { fault_of MAX_TERMS system.now.sizes (stores_of system.now) ≡ 0 }
    ensures { FillsIs system.now.sizes (stores_of system.now) flags.now assignment.old assignment.new (fault_in result) }
{
    let mut table = [0u16; lower::MAX_WIRES];
    let mut order = [0u16; lower::MAX_DEFINITIONS];
    let walked = commit_set::order_definitions(system, &mut table, &mut order);
    if walked.circle {
        return Err(Refusal::Circle);
    }
    if !lengths_right(system.sizes, flags, &*assignment) {
        return Err(Refusal::Size);
    }
    filling::fill_from(system, flags, &order[walked.left..], &mut *assignment);
    Ok(())
}

// Gives each defined wire that is not committed the value of its definition; or a refusal, and the assignment as it was. `flags` has a
// byte a wire, 0 for not committed.
pub fn fill_back(
    system: &LentSystem<'_>,
    flags: &[u8],
    assignment: &mut [u64],
) -> Result<(), Refusal>
    ensures { FillsIs system.now.sizes (stores_of system.now) flags.now assignment.old assignment.new (fault_in result) }
{
    system.check_all(lower::MAX_TERMS)?;
    fill_checked(system, flags, &mut *assignment)
}
