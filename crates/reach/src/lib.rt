// Which terms write something and which definitions are met, by one mask a wire.
#![tactic(auto)]

ghost use Rattle.std.specs.Prelude.{◌≡◌, ℕ, ◌*◌, ◌<◌, ◌≤◌, length};
ghost use Rattle.lower.specs.Lists.{All};
ghost use Rattle.lower.specs.Accepted.{MAX_TERMS, Once, Single};
ghost use Rattle.lower.specs.Stores.{stores_of, system_in, row_handles};
ghost use Rattle.lower.specs.Faults.{memory_fault};
ghost use Rattle.commit_set.specs.Numbers.{state_at};
ghost use Rattle.patch.specs.Patch.{commit_set};
ghost use Rattle.reach.specs.Alive.{AliveIn};
ghost use Rattle.reach.specs.Reach.{ReachIn};
ghost use Rattle.reach.specs.Steps.{pull_operands, Pullable, Gathered, Filled, OrderOf};

use lower::LentSystem;

pub mod met;
pub mod written;

// From one mask a wire to one a definition.
fn gather(dsts: &[u16], masks: &[u64], out: &mut [u64])
    requires { (length dsts.now ≤ length out.old) × All (λ (w : ℕ). w < length masks.now) dsts.now }
    ensures gathered { Gathered (length dsts.now) dsts.now masks.now out.new }
    ensures filled { Filled (length dsts.now) out.old out.new }
{
    for (i, w) in dsts.iter().enumerate() {
        out[i] = masks[*w as usize];
    }
}

// The bits of each definition that an expansion goes on with: all, where it is committed.
pub fn alive_masks(system: &LentSystem<'_>, decisions: &[u64], order: &[u16], out: &mut [u64])
    requires memory_sound { memory_fault MAX_TERMS system.now.sizes (stores_of system.now) ≡ 0 }
    requires once { Once (system_in system.now).linears }
    requires in_order { OrderOf system.now order.now }
    requires room { (system.now.sizes.linears ≤ length decisions.now) × (system.now.sizes.linears ≤ length out.old) }
    ensures alive_in { AliveIn (system_in system.now) (commit_set (system_in system.now) (state_at decisions.now)) system.now.sizes.linears system.now.dsts.now out.new }
    ensures filled { Filled system.now.sizes.linears out.old out.new }
{
    let n = system.sizes.linears;
    let mut masks = [0xffff_ffff_ffff_ffffu64; lower::MAX_WIRES];
    written::mask_from(system, decisions, order, &mut masks);
    gather(&system.dsts[..n], &masks, &mut *out);
}

// The operands of all constraints. One that is not rebuilt names no definition.
fn pull_rows(system: &LentSystem<'_>, masks: &mut [u64])
    requires ands_pullable { Pullable system.now.stores.old.now system.now.stores.new.now (length masks.old) system.now.ands.now (3 * system.now.sizes.ands) }
    requires imuls_pullable { Pullable system.now.stores.old.now system.now.stores.new.now (length masks.old) system.now.imuls.now (4 * system.now.sizes.imuls) }
    requires bmuls_pullable { Pullable system.now.stores.old.now system.now.stores.new.now (length masks.old) system.now.bmuls.now (6 * system.now.sizes.bmuls) }
    requires zeros_pullable { Pullable system.now.stores.old.now system.now.stores.new.now (length masks.old) system.now.zeros.now system.now.sizes.zeros }
    ensures { masks.new ≡ pull_operands system.now.stores.old.now system.now.stores.new.now (row_handles system.now.sizes system.now.ands.now system.now.imuls.now system.now.bmuls.now system.now.zeros.now) masks.old }
{
    let stores = &system.stores;
    let z = system.sizes;
    met::pull_operands(stores, &system.ands[..3 * z.ands], &mut *masks);
    met::pull_operands(stores, &system.imuls[..4 * z.imuls], &mut *masks);
    met::pull_operands(stores, &system.bmuls[..6 * z.bmuls], &mut *masks);
    met::pull_operands(stores, &system.zeros[..z.zeros], &mut *masks);
}

// The bits of each definition that get into some rebuilt operand: where it is not committed, it is met just where there is one.
pub fn reach_masks(system: &LentSystem<'_>, decisions: &[u64], order: &[u16], out: &mut [u64])
    requires memory_sound { memory_fault MAX_TERMS system.now.sizes (stores_of system.now) ≡ 0 }
    requires once { Once (system_in system.now).linears }
    requires single { Single (system_in system.now) }
    requires in_order { OrderOf system.now order.now }
    requires room { (system.now.sizes.linears ≤ length decisions.now) × (system.now.sizes.linears ≤ length out.old) }
    ensures reach_in { ReachIn (system_in system.now) (commit_set (system_in system.now) (state_at decisions.now)) system.now.sizes.linears system.now.dsts.now out.new }
    ensures filled { Filled system.now.sizes.linears out.old out.new }
{
    let n = system.sizes.linears;
    let mut masks = [0u64; lower::MAX_WIRES];
    pull_rows(system, &mut masks);
    met::reach_from(system, decisions, order, &mut masks);
    gather(&system.dsts[..n], &masks, &mut *out);
}

// Both masks of each definition, by an order of all definitions, each before those that it names.
pub fn masks(
    system: &LentSystem<'_>,
    decisions: &[u64],
    order: &[u16],
    alive: &mut [u64],
    reach: &mut [u64],
)
    requires memory_sound { memory_fault MAX_TERMS system.now.sizes (stores_of system.now) ≡ 0 }
    requires once { Once (system_in system.now).linears }
    requires single { Single (system_in system.now) }
    requires in_order { OrderOf system.now order.now }
    requires room { (system.now.sizes.linears ≤ length decisions.now) × (system.now.sizes.linears ≤ length alive.old) × (system.now.sizes.linears ≤ length reach.old) }
    ensures alive_in { AliveIn (system_in system.now) (commit_set (system_in system.now) (state_at decisions.now)) system.now.sizes.linears system.now.dsts.now alive.new }
    ensures reach_in { ReachIn (system_in system.now) (commit_set (system_in system.now) (state_at decisions.now)) system.now.sizes.linears system.now.dsts.now reach.new }
    ensures filled { Filled system.now.sizes.linears alive.old alive.new × Filled system.now.sizes.linears reach.old reach.new }
{
    alive_masks(system, decisions, order, &mut *alive);
    reach_masks(system, decisions, order, &mut *reach);
}
