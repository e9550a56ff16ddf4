// The bits of each wire that an expansion goes on with.
ghost use Rattle.std.specs.Prelude.{◌≡◌, ℕ, length};
ghost use Rattle.operand.specs.Numbers.{term_of};
ghost use Rattle.lower.specs.Lists.{All};
ghost use Rattle.reach.specs.Alive.{or_all, through};
ghost use Rattle.reach.specs.Steps.{held_in, mask_at, alive_step, alive_from, Usable, Able};

use lower::LentSystem;
use operand::LinDefId;

fn term_mask(t: u64, masks: &[u64]) -> u64
    requires { Usable (length masks.now) (term_of t) }
    ensures { result ≡ through (mask_at masks.now) (term_of t) }
{
    let w = operand::term::wire(t);
    let s = shift::valid::from_index(operand::term::inner(t));
    let i = w.0 as usize;
    shift::valid::apply(s, masks[i])
}

fn operand_mask(ts: &[u64], masks: &[u64]) -> u64
    requires { All (λ (t : ℕ). Usable (length masks.now) (term_of t)) ts.now }
    ensures { result ≡ or_all (λ (t : ℕ). through (mask_at masks.now) (term_of t)) ts.now }
{
    let mut all: u64 = 0;
    for t in ts {
        all |= term_mask(*t, masks);
    }
    all
}

fn mask_one(system: &LentSystem<'_>, decisions: &[u64], masks: &mut [u64], d: LinDefId)
    requires { Able (held_in system.now decisions.now) (length masks.old) d.0 }
    ensures { masks.new ≡ alive_step (held_in system.now decisions.now) d.0 masks.old }
{
    let i = d.0 as usize;
    if decisions[i] == 0 {
        return;
    }
    let ts = system.stores.terms(system.rhss[i]);
    let m = operand_mask(ts, &*masks);
    let w = system.dsts[i] as usize;
    masks[w] = m;
}

// The definitions of an order from the last one on, each after those that it names.
pub fn mask_from(system: &LentSystem<'_>, decisions: &[u64], order: &[u16], masks: &mut [u64])
    requires { All (Able (held_in system.now decisions.now) (length masks.old)) order.now }
    ensures { masks.new ≡ alive_from (held_in system.now decisions.now) order.now masks.old }
{
    for d in order.iter().rev() {
        mask_one(system, decisions, &mut *masks, LinDefId(*d));
    }
}
