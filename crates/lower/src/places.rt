// Whether operands lie in their stores, and their terms name wires and shifts that there are: 3, 4 and 5.
ghost use Rattle.std.specs.Prelude.{◌≡◌, map, ◌<◌, ◌≤◌};
ghost use Rattle.refusal.specs.Refusals.{fault_in};
ghost use Rattle.shift.specs.Shifts.{valid_number};
ghost use Rattle.operand.specs.Numbers.{term_of};
ghost use Rattle.lower.specs.Faults.{first_fault, term_fault, operand_fault, rows_fault, definitions_fault};

use operand::{TermStores, WireOperand};
use refusal::Refusal;
use shift::Shift;

fn is_shift(n: u64) -> bool
    ensures { result ≡ valid_number n }
{
    Shift::from_index(n).is_ok()
}

#[tactic(auto, unfolding(crate::specs::Faults::term_fault))]
fn check_term(t: u64, wires: usize) -> Result<(), Refusal>
    ensures { fault_in result ≡ term_fault wires (term_of t) }
{
    let wire = operand::term::wire(t);
    if wires <= wire.0 as usize {
        return Err(Refusal::Wire);
    }
    // No shift is spelt: both numbers are 0, and most terms are so.
    if t < 65536 {
        return Ok(());
    }
    if !is_shift(operand::term::inner(t)) || !is_shift(operand::term::outer(t)) {
        return Err(Refusal::Shift);
    }
    Ok(())
}

fn check_terms(ts: &[u64], wires: usize) -> Result<(), Refusal>
    ensures { fault_in result ≡ first_fault (term_fault wires) (map term_of ts.now) }
{
    for t in ts {
        check_term(*t, wires)?;
    }
    Ok(())
}

#[tactic(auto, unfolding(crate::specs::Faults::operand_fault))]
fn check_operand(stores: &TermStores<'_>, h: u64, wires: usize) -> Result<(), Refusal>
    ensures { fault_in result ≡ operand_fault wires stores.now.old.now stores.now.new.now h }
{
    if !stores.holds(WireOperand::from_number(h)) {
        return Err(Refusal::Shape);
    }
    check_terms(stores.terms(h), wires)
}

fn check_operands(stores: &TermStores<'_>, hs: &[u64], wires: usize) -> Result<(), Refusal>
    ensures { fault_in result ≡ first_fault (operand_fault wires stores.now.old.now stores.now.new.now) hs.now }
{
    for h in hs {
        check_operand(stores, *h, wires)?;
    }
    Ok(())
}

// `count` rows of `arity` operands. The quotient, since the product may not fit.
#[tactic(auto, using(crate::proofs::Firsts::rows_short, crate::proofs::Firsts::rows_long), unfolding(crate::specs::Faults::rows_fault))]
pub fn check_rows(
    stores: &TermStores<'_>,
    hs: &[u64],
    arity: usize,
    count: usize,
    wires: usize,
) -> Result<(), Refusal>
    requires { (0 < arity) × (arity ≤ 6) }
    ensures { fault_in result ≡ rows_fault wires stores.now.old.now stores.now.new.now arity count hs.now }
{
    if hs.len() / arity < count {
        return Err(Refusal::Shape);
    }
    check_operands(stores, &hs[..arity * count], wires)
}

// Each destination before its right side.
#[tactic(auto, unfolding(crate::specs::Faults::definitions_fault))]
pub fn check_definitions(
    stores: &TermStores<'_>,
    dsts: &[u16],
    rhss: &[u64],
    count: usize,
    wires: usize,
) -> Result<(), Refusal>
    ensures { fault_in result ≡ definitions_fault wires stores.now.old.now stores.now.new.now count dsts.now rhss.now }
{
    if dsts.len() < count || rhss.len() < count {
        return Err(Refusal::Shape);
    }
    let rhss = &rhss[..count];
    for (i, dst) in dsts[..count].iter().enumerate() {
        if wires <= *dst as usize {
            return Err(Refusal::Wire);
        }
        check_operand(stores, rhss[i], wires)?;
    }
    Ok(())
}
