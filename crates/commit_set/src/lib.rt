// Which definitions commit. Follows frontend/src/pass/fusion/commit_set.rs.
#![tactic(auto)]

ghost use Rattle.std.specs.Prelude.{◌≡◌, ℕ, ◌<◌, ◌≤◌, false, length, take, replicate};
ghost use mathlib.Core.List.{Memᴰ};
ghost use Rattle.lower.specs.Lists.{All};
ghost use Rattle.lower.specs.Accepted.{MAX_TERMS, Once};
ghost use Rattle.lower.specs.Stores.{stores_of, system_in};
ghost use Rattle.lower.specs.Faults.{memory_fault};
ghost use Rattle.legraph.specs.Tables.{numbered};
ghost use Rattle.legraph.specs.Walked.{walk_of, rhs_in, There, Sound};
ghost use Rattle.commit_set.specs.Orders.{InOrder};
ghost use Rattle.commit_set.specs.Answer.{slots_fault, decision_fault, Solution, Decides};
ghost use Rattle.refusal.specs.Refusals.{fault_in};

use legraph::Walk;
use lower::LentSystem;
use operand::TermStores;
use refusal::Refusal;

mod grounds;
mod numbers;
mod runs;
mod search;
mod steps;

use steps::UseLists;

// The longest chain of inlined definitions under which one of two or more terms may stand: past it operands would multiply.
pub const MAX_DEPTH: usize = 6;

// How many terms inlining may add, counted as (terms - 1) x (uses - 1), where a path needs a second slot.
pub const MAX_TERM_GROWTH: usize = 4;

// Shifts of a path that come to one slot.
#[derive(Clone, Copy, Debug, PartialEq, Eq)]
pub struct Run {
    // one bit for each variant in it
    pub variants: u8,
    pub total: u8,
}

// The shifts of a path as runs, the outermost first.
#[derive(Clone, Copy, Debug, PartialEq, Eq)]
pub struct ShiftSummary {
    pub first: Run,
    pub second: Run,
    pub len: u8,
}

#[derive(Clone, Copy, Debug, PartialEq, Eq)]
pub struct CommitSetCx {
    pub shifts: ShiftSummary,
    pub depth: usize,
}

#[derive(Clone, Copy, Debug, PartialEq, Eq)]
pub enum Decision {
    Commit,
    Inline(CommitSetCx),
}

// The walk, with marks of its own.
#[tactic(auto, using(crate::proofs::Remaining::left_low))]
fn walk(
    stores: &TermStores<'_>,
    rhss: &[u64],
    count: usize,
    table: &[u16],
    order: &mut [u16],
) -> Walk
    requires sound { Sound stores.now.old.now stores.now.new.now rhss.now table.now 1024 }
    requires all_there { (count < 65536) × ((d : ℕ) → d < count → There stores.now.old.now stores.now.new.now rhss.now 1024 d) }
    ensures left_bound { result.left ≤ length order.new }
    ensures left_value { result.left ≡ (walk_of (rhs_in stores.now.old.now stores.now.new.now rhss.now) table.now count (replicate 1024 0) order.old).left }
    ensures circle_value { result.circle ≡ (walk_of (rhs_in stores.now.old.now stores.now.new.now rhss.now) table.now count (replicate 1024 0) order.old).circle }
    ensures order_after { order.new ≡ (walk_of (rhs_in stores.now.old.now stores.now.new.now rhss.now) table.now count (replicate 1024 0) order.old).order }
{
    let mut marks = [0u8; lower::MAX_DEFINITIONS];
    legraph::post_order::walk(stores, rhss, count, table, &mut marks, order)
}

// The definition of each wire, and the walk over all definitions.
pub fn order_definitions(system: &LentSystem<'_>, table: &mut [u16], order: &mut [u16]) -> Walk
    requires in_bounds { (system.now.sizes.linears ≤ length system.now.dsts.now) × (system.now.sizes.linears < 65536) × All (λ (d : ℕ). d < length table.old) (take system.now.sizes.linears system.now.dsts.now) }
    requires sound { Sound system.now.stores.old.now system.now.stores.new.now system.now.rhss.now (numbered 0 (take system.now.sizes.linears system.now.dsts.now) table.old) 1024 }
    requires all_there { (d : ℕ) → d < system.now.sizes.linears → There system.now.stores.old.now system.now.stores.new.now system.now.rhss.now 1024 d }
    ensures table_after { table.new ≡ numbered 0 (take system.now.sizes.linears system.now.dsts.now) table.old }
    ensures left_bound { result.left ≤ length order.new }
    ensures left_value { result.left ≡ (walk_of (rhs_in system.now.stores.old.now system.now.stores.new.now system.now.rhss.now) (numbered 0 (take system.now.sizes.linears system.now.dsts.now) table.old) system.now.sizes.linears (replicate 1024 0) order.old).left }
    ensures circle_value { result.circle ≡ (walk_of (rhs_in system.now.stores.old.now system.now.stores.new.now system.now.rhss.now) (numbered 0 (take system.now.sizes.linears system.now.dsts.now) table.old) system.now.sizes.linears (replicate 1024 0) order.old).circle }
    ensures order_after { order.new ≡ (walk_of (rhs_in system.now.stores.old.now system.now.stores.new.now system.now.rhss.now) (numbered 0 (take system.now.sizes.linears system.now.dsts.now) table.old) system.now.sizes.linears (replicate 1024 0) order.old).order }
{
    let count = system.sizes.linears;
    legraph::add_lin_defs(&system.dsts[..count], &mut *table);
    walk(&system.stores, system.rhss, count, &*table, order)
}

// Decides the definitions that stand in `order`, each after all its uses.
pub fn decide_in_order(
    system: &LentSystem<'_>,
    table: &[u16],
    order: &[u16],
    slots: u8,
    decisions: &mut [u64],
)
    requires memory_sound { memory_fault MAX_TERMS system.now.sizes (stores_of system.now) ≡ 0 }
    requires once { Once (system_in system.now).linears }
    requires table_numbered { table.now ≡ numbered 0 (take system.now.sizes.linears system.now.dsts.now) (replicate 4096 0) }
    requires in_order { InOrder (system_in system.now) (λ d. false) order.now }
    requires in_bounds { ((d : ℕ) → Memᴰ d order.now → d < system.now.sizes.linears) × (length order.now < 65536) × (system.now.sizes.linears ≤ length decisions.old) }
    ensures { Solution slots (system_in system.now) decisions.old decisions.new }
{
    let mut first = [0u16; lower::MAX_DEFINITIONS];
    let mut uses = [0u64; 8192];
    legraph::uses::build_use_def(system, table, &mut first, &mut uses);
    let lists = UseLists {
        stores: system.stores,
        rhss: system.rhss,
        first: &first,
        uses: &uses,
    };
    lists.decide_from(order, slots, decisions);
}

// Decides every definition of a system that the checks have found nothing in.
fn run_decide_commit_set(
    system: &LentSystem<'_>,
    slots: u8,
    decisions: &mut [u64],
) -> Result<(), Refusal>
    requires { decision_fault slots system.now.sizes (stores_of system.now) ≡ 0 }
    ensures { Decides slots system.now.sizes (stores_of system.now) decisions.old decisions.new (fault_in result) }
{
    let mut table = [0u16; lower::MAX_WIRES];
    let mut order = [0u16; lower::MAX_DEFINITIONS];
    let walked = order_definitions(system, &mut table, &mut order);
    if walked.circle {
        return Err(Refusal::Circle);
    }
    if decisions.len() < system.sizes.linears {
        return Err(Refusal::Room);
    }
    decide_in_order(system, &table, &order[walked.left..], slots, decisions);
    Ok(())
}

fn check_slots(slots: u64) -> Result<(), Refusal>
    ensures { fault_in result ≡ slots_fault slots }
{
    match slots {
        1 | 2 => Ok(()),
        _ => Err(Refusal::Slots),
    }
}

// All that is checked before circles.
pub fn check(system: &LentSystem<'_>, slots: u64) -> Result<(), Refusal>
    ensures { fault_in result ≡ decision_fault slots system.now.sizes (stores_of system.now) }
{
    system.check(lower::MAX_TERMS)?;
    check_slots(slots)?;
    system.check_definitions()
}

// Which definitions of a system commit, with so many slots a term: one number a definition in `decisions`; after a refusal `decisions` is
// as it was.
pub fn decide(system: &LentSystem<'_>, slots: u64, decisions: &mut [u64]) -> Result<(), Refusal>
    ensures { Decides slots system.now.sizes (stores_of system.now) decisions.old decisions.new (fault_in result) }
{
    check(system, slots)?;
    run_decide_commit_set(system, slots as u8, decisions)
}
