// The definitions filled one after the other.
ghost use Rattle.std.specs.Prelude.{◌≡◌, length};
ghost use Rattle.lower.specs.Lists.{All};
ghost use Rattle.fill_back.specs.Steps.{held_in, fill_step, fill_from, Able};

use lower::LentSystem;
use operand::LinDefId;

fn fill_one(system: &LentSystem<'_>, flags: &[u8], assignment: &mut [u64], d: LinDefId)
    requires { Able (held_in system.now flags.now) (length assignment.old) d.0 }
    ensures { assignment.new ≡ fill_step (held_in system.now flags.now) d.0 assignment.old }
{
    let i = d.0 as usize;
    let w = system.dsts[i] as usize;
    if flags[w] != 0 {
        return;
    }
    assignment[w] = evaluate::value::operand_value(&system.stores, system.rhss[i], &*assignment);
}

// The definitions that stand in `order`, from the last one: each after those that it names.
pub fn fill_from(system: &LentSystem<'_>, flags: &[u8], order: &[u16], assignment: &mut [u64])
    requires { All (Able (held_in system.now flags.now) (length assignment.old)) order.now }
    ensures { assignment.new ≡ fill_from (held_in system.now flags.now) order.now assignment.old }
{
    for d in order.iter().rev() {
        fill_one(system, flags, &mut *assignment, LinDefId(*d));
    }
}
