// The bits of each wire that get into some rebuilt operand.
ghost use Rattle.std.specs.Prelude.{◌≡◌, cond, map, ℕ, eqb, length};
ghost use Rattle.operand.specs.Numbers.{term_of, operand_of};
ghost use Rattle.alive.specs.Masks.{ones};
ghost use Rattle.lower.specs.Lists.{All};
ghost use Rattle.lower.specs.Stores.{Stands};
ghost use Rattle.reach.specs.Steps.{held_in, pull_term, pull_terms, pull_operands, reach_step, reach_from, Usable, Able};

use lower::LentSystem;
use operand::{LinDefId, TermStores};

const ALL: u64 = 0xffff_ffff_ffff_ffff;

fn pull_term(t: u64, m: u64, masks: &mut [u64])
    requires { Usable (length masks.old) (term_of t) }
    ensures { masks.new ≡ pull_term m (term_of t) masks.old }
{
    let w = operand::term::wire(t);
    let p = patch::expand::pull(operand::term::inner(t), m);
    let i = w.0 as usize;
    masks[i] = masks[i] | p;
}

// An operand of which the bits `m` get in.
fn pull_terms(ts: &[u64], m: u64, masks: &mut [u64])
    requires { All (λ (t : ℕ). Usable (length masks.old) (term_of t)) ts.now }
    ensures { masks.new ≡ pull_terms m (map term_of ts.now) masks.old }
{
    for t in ts {
        pull_term(*t, m, &mut *masks);
    }
}

// Operands that are rebuilt. One that is not names no definition, and may stand among them.
pub fn pull_operands(stores: &TermStores<'_>, hs: &[u64], masks: &mut [u64])
    requires standing { All (Stands stores.now.old.now stores.now.new.now) hs.now }
    requires usable { All (λ (h : ℕ). All (Usable (length masks.old)) (operand_of stores.now.old.now stores.now.new.now h)) hs.now }
    ensures { masks.new ≡ pull_operands stores.now.old.now stores.now.new.now hs.now masks.old }
{
    for h in hs {
        pull_terms(stores.terms(*h), ALL, &mut *masks);
    }
}

// The bits of a definition that get in: all, where it is committed.
fn taken(decision: u64, mask: u64) -> u64
    ensures { result ≡ cond (eqb decision 0) ones mask }
{
    if decision == 0 {
        return ALL;
    }
    mask
}

fn reach_one(system: &LentSystem<'_>, decisions: &[u64], masks: &mut [u64], d: LinDefId)
    requires { Able (held_in system.now decisions.now) (length masks.old) d.0 }
    ensures { masks.new ≡ reach_step (held_in system.now decisions.now) d.0 masks.old }
{
    let i = d.0 as usize;
    let w = system.dsts[i] as usize;
    let m = taken(decisions[i], masks[w]);
    let ts = system.stores.terms(system.rhss[i]);
    pull_terms(ts, m, &mut *masks);
}

// The definitions of an order, each before those that it names.
pub fn reach_from(system: &LentSystem<'_>, decisions: &[u64], order: &[u16], masks: &mut [u64])
    requires { All (Able (held_in system.now decisions.now) (length masks.old)) order.now }
    ensures { masks.new ≡ reach_from (held_in system.now decisions.now) order.now masks.old }
{
    for d in order {
        reach_one(system, decisions, &mut *masks, LinDefId(*d));
    }
}
