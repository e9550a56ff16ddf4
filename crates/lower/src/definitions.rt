// Whether the definitions of a system whose places and counts are sound can be put in the place of their wires: 8, 9 and 10.
ghost use Rattle.std.specs.Prelude.{◌≡◌, ℕ, ◌<◌, ◌≤◌, length, eqb, map};
ghost use Rattle.std.specs.List.{list_any};
ghost use Rattle.operand.specs.Numbers.{term_of};
ghost use Rattle.lower.specs.Accepted.{MAX_WIRES};
ghost use Rattle.lower.specs.Lists.{All, some_of};
ghost use Rattle.lower.specs.Stores.{Stands, stores_of, system_in};
ghost use Rattle.lower.specs.Faults.{length_of, repeated, places_fault, double};
ghost use Rattle.lower.specs.Tables.{marks, double_in, handle_double, lists_double};

use crate::LentSystem;
use operand::{TermStores, WireOperand};

// By a table of the wires met.
pub fn is_twice(dsts: &[u16]) -> bool
    requires { All (λ (d : ℕ). d < MAX_WIRES) dsts.now }
    ensures { result ≡ repeated dsts.now }
{
    let mut met = [0u8; crate::MAX_WIRES];
    for d in dsts {
        let d = *d as usize;
        if met[d] != 0 {
            return true;
        }
        met[d] = 1;
    }
    false
}

pub fn has_empty(rhss: &[u64]) -> bool
    ensures { result ≡ list_any (λ h. eqb (length_of h) 0) rhss.now }
{
    rhss.iter().any(|h| WireOperand::from_number(*h).is_empty())
}

// Marks the wires that are defined.
fn mark(dsts: &[u16], defined: &mut [u8])
    requires { All (λ (d : ℕ). d < length defined.old) dsts.now }
    ensures { defined.new ≡ marks defined.old dsts.now }
{
    for d in dsts {
        defined[*d as usize] = 1;
    }
}

// In a definition a term may have no outer shift; elsewhere, one that names a defined wire may have none. The outer shift is looked at
// first: few terms have one.
fn term_double(t: u64, defined: &[u8], definition: bool) -> bool
    ensures { result ≡ double_in defined.now definition (term_of t) }
{
    operand::term::outer(t) % 64 != 0
        && (definition
            || defined
                .get(operand::term::wire(t).0 as usize)
                .is_some_and(|mark| *mark != 0))
}

fn operand_double(stores: &TermStores<'_>, h: u64, defined: &[u8], definition: bool) -> bool
    requires { Stands stores.now.old.now stores.now.new.now h }
    ensures { result ≡ handle_double stores.now.old.now stores.now.new.now defined.now definition h }
{
    for t in stores.terms(h) {
        if term_double(*t, defined, definition) {
            return true;
        }
    }
    false
}

fn operands_double(stores: &TermStores<'_>, hs: &[u64], defined: &[u8], definition: bool) -> bool
    requires { All (Stands stores.now.old.now stores.now.new.now) hs.now }
    ensures { result ≡ some_of (handle_double stores.now.old.now stores.now.new.now defined.now definition) hs.now }
{
    for h in hs {
        if operand_double(stores, *h, defined, definition) {
            return true;
        }
    }
    false
}

// The five lists, by the table of defined wires.
#[tactic(auto, using(crate::proofs::Doubles::lists_are))]
fn lists_double(system: &LentSystem<'_>, defined: &[u8]) -> bool
    requires { places_fault system.now.sizes (stores_of system.now) ≡ 0 }
    ensures { result ≡ lists_double system.now.sizes (stores_of system.now) defined.now }
{
    let stores = &system.stores;
    operands_double(stores, system.and_operands(), defined, false)
        || operands_double(stores, system.imul_operands(), defined, false)
        || operands_double(stores, system.bmul_operands(), defined, false)
        || operands_double(stores, system.zero_operands(), defined, false)
        || operands_double(stores, system.right_sides(), defined, true)
}

pub fn has_double(system: &LentSystem<'_>) -> bool
    requires places_sound { places_fault system.now.sizes (stores_of system.now) ≡ 0 }
    requires wires_bound { system.now.sizes.wires ≤ MAX_WIRES }
    ensures { result ≡ double (system_in system.now) }
{
    let mut defined = [0u8; crate::MAX_WIRES];
    mark(system.destinations(), &mut defined);
    lists_double(system, &defined)
}
