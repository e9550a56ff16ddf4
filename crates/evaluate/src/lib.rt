// The evaluator: the values of all operands under an assignment, in the writer's order.
#![tactic(auto)]

ghost use Rattle.std.specs.Prelude.{◌≡◌, ◌+◌, ◌≤◌, length};
ghost use Rattle.std.proofs.lemmas.List.Edits.{sets};
ghost use Rattle.refusal.specs.Refusals.{fault_in};
ghost use Rattle.lower.specs.Lists.{All};
ghost use Rattle.lower.specs.Accepted.{MAX_DEFINITIONS, MAX_OTHERS};
ghost use Rattle.lower.specs.Stores.{stores_of, handles_in};
ghost use Rattle.lower.specs.Faults.{memory_fault};
ghost use Rattle.evaluate.specs.Steps.{Ready, values_at, count_in};
ghost use Rattle.evaluate.specs.Evaluation.{MAX_WRITTEN_TERMS, evaluation_fault, EvaluateIs};

use lower::{LentSystem, Sizes};
use operand::TermStores;
use refusal::Refusal;

pub mod value;

// The values of the operands of a list, from the place `at` on. The place after them.
fn put_values(
    stores: &TermStores<'_>,
    hs: &[u64],
    words: &[u64],
    out: &mut [u64],
    at: usize,
) -> usize
    requires room { at + length hs.now ≤ length out.old }
    requires ready { All (Ready stores.now.old.now stores.now.new.now) hs.now }
    ensures place_after { result ≡ at + length hs.now }
    ensures values_put { out.new ≡ sets out.old at (values_at stores.now.old.now stores.now.new.now words.now hs.now) }
{
    for (i, h) in hs.iter().enumerate() {
        out[at + i] = value::operand_value(stores, *h, words);
    }
    at + hs.len()
}

// The five lists in the writer's order, one after the other. How many values there are.
fn put_all(system: &LentSystem<'_>, words: &[u64], out: &mut [u64]) -> usize
    requires memory_sound { memory_fault MAX_WRITTEN_TERMS system.now.sizes (stores_of system.now) ≡ 0 }
    requires room { count_in system.now.sizes ≤ length out.old }
    ensures counted { result ≡ count_in system.now.sizes }
    ensures values_put { out.new ≡ sets out.old 0 (values_at system.now.stores.old.now system.now.stores.new.now words.now (handles_in system.now.sizes (stores_of system.now))) }
{
    let stores = &system.stores;
    let at = put_values(stores, system.and_operands(), words, &mut *out, 0);
    let at = put_values(stores, system.imul_operands(), words, &mut *out, at);
    let at = put_values(stores, system.bmul_operands(), words, &mut *out, at);
    let at = put_values(stores, system.zero_operands(), words, &mut *out, at);
    put_values(stores, system.right_sides(), words, &mut *out, at)
}

// How many operands there are.
fn count(z: Sizes) -> usize
    requires { (z.ands + z.imuls + z.bmuls + z.zeros ≤ MAX_OTHERS) × (z.linears ≤ MAX_DEFINITIONS) }
    ensures { result ≡ count_in z }
{
    3 * z.ands + 4 * z.imuls + 6 * z.bmuls + z.zeros + z.linears
}

// 3 to 6, then 13 with `n` words given, then 12 with so many lent words.
fn check(system: &LentSystem<'_>, n: usize, room: usize) -> Result<(), Refusal>
    ensures { fault_in result ≡ evaluation_fault system.now.sizes (stores_of system.now) n room }
{
    let z = system.sizes;
    system.check(lower::MAX_WRITTEN_TERMS)?;
    if n != z.wires {
        return Err(Refusal::Size);
    }
    if room < count(z) {
        return Err(Refusal::Room);
    }
    Ok(())
}

// The values of all operands of the system that stands in the stores, to the front of the lent words, and how many there are. A refusal
// leaves these as they were.
pub fn evaluate(
    system: &LentSystem<'_>,
    assignment: &[u64],
    out: &mut [u64],
) -> Result<usize, Refusal>
    ensures { EvaluateIs system.now.sizes (stores_of system.now) assignment.now out.old result out.new }
{
    check(system, assignment.len(), out.len())?;
    Ok(put_all(system, assignment, &mut *out))
}
