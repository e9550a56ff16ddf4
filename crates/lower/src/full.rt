// Whether the counts keep to the limits: 6.
ghost use Rattle.std.specs.Prelude.{◌≡◌, ◌+◌, ◌*◌, ◌≤◌, length};
ghost use Rattle.refusal.specs.Refusals.{fault_in};
ghost use Rattle.lower.specs.Accepted.{MAX_DEFINITIONS, MAX_OTHERS};
ghost use Rattle.lower.specs.Lists.{sum_of};
ghost use Rattle.lower.specs.Stores.{stores_of};
ghost use Rattle.lower.specs.Faults.{length_of, terms_in, places_fault, full_fault};

use crate::LentSystem;
use operand::WireOperand;
use refusal::Refusal;

// The terms of the operands, counted by their lengths.
fn terms_of(hs: &[u64]) -> u64
    requires { length hs.now ≤ 6144 }
    ensures { (result ≡ sum_of length_of hs.now) × (result ≤ 26388279066624) }
{
    let mut total: u64 = 0;
    for h in hs {
        total += WireOperand::from_number(*h).len as u64;
    }
    total
}

// All terms, of counts that keep to the limits.
fn all_terms(system: &LentSystem<'_>) -> u64
    requires places_sound { places_fault system.now.sizes (stores_of system.now) ≡ 0 }
    requires counts_bound { (system.now.sizes.ands + system.now.sizes.imuls + system.now.sizes.bmuls + system.now.sizes.zeros ≤ MAX_OTHERS) × (system.now.sizes.linears ≤ MAX_DEFINITIONS) }
    ensures { result ≡ terms_in system.now.sizes (stores_of system.now) }
{
    terms_of(system.and_operands())
        + terms_of(system.imul_operands())
        + terms_of(system.bmul_operands())
        + terms_of(system.zero_operands())
        + terms_of(system.right_sides())
}

#[tactic(auto, unfolding(crate::specs::Faults::full_fault))]
pub fn check_counts(system: &LentSystem<'_>, limit: u64) -> Result<(), Refusal>
    requires { places_fault system.now.sizes (stores_of system.now) ≡ 0 }
    ensures { fault_in result ≡ full_fault limit system.now.sizes (terms_in system.now.sizes (stores_of system.now)) }
{
    let z = system.sizes;
    if z.wires == 0
        || crate::MAX_WIRES < z.wires
        || crate::MAX_DEFINITIONS < z.linears
        || crate::MAX_OTHERS < z.ands + z.imuls + z.bmuls + z.zeros
        || limit < all_terms(system)
    {
        return Err(Refusal::Full);
    }
    Ok(())
}
