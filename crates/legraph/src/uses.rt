// The uses of each definition, as lists linked by numbers in one store. A use is put in front of its definition's list, so the terms are
// taken from the last to the first.
ghost use Rattle.std.specs.Prelude.{◌≡◌, map, ◌<◌, ◌≤◌, length, get_or};
ghost use Rattle.operand.specs.Numbers.{term_of, operand_of};
ghost use Rattle.lower.specs.Lists.{All};
ghost use Rattle.lower.specs.Accepted.{MAX_TERMS};
ghost use Rattle.lower.specs.Stores.{stores_of, system_in, Stands};
ghost use Rattle.lower.specs.Faults.{memory_fault};
ghost use Rattle.legraph.specs.Tables.{use_number, graph, push, note, user_number, note_terms, note_from, note_all};

use crate::Node;
use lower::LentSystem;
use operand::{LinDefId, TermStores};

fn first_of(first: &[u16], d: LinDefId) -> u16
    ensures { result ≡ get_or first.now d.0 0 }
{
    first.get(d.0 as usize).copied().unwrap_or(0)
}

fn number(user: u16, shift: u16, next: u16) -> u64
    ensures { result ≡ use_number user shift next }
{
    shift as u64 + 65536 * user as u64 + 4294967296 * next as u64
}

// Kept: `uses` with how many are in it: the part that is used grows, and memory is lent.
fn add_edge(
    first: &mut [u16],
    uses: &mut [u64],
    n: usize,
    d: LinDefId,
    user: u16,
    shift: u16,
) -> usize
    requires { (n ≤ length uses.old) × (length uses.old < 65536) }
    ensures { (graph first.new uses.new result ≡ push user shift d.0 (graph first.old uses.old n)) × (result ≤ length uses.old) }
{
    if uses.len() <= n {
        return n;
    }
    let next = first_of(&*first, d);
    uses[n] = number(user, shift, next);
    crate::put(&mut *first, d.0 as usize, (n + 1) as u16);
    n + 1
}

// A term that names a defined wire is a use of its definition.
fn note_use(
    table: &[u16],
    first: &mut [u16],
    uses: &mut [u64],
    n: usize,
    user: u16,
    t: u64,
) -> usize
    requires { (n ≤ length uses.old) × (length uses.old < 65536) }
    ensures { (graph first.new uses.new result ≡ note table.now user (term_of t) (graph first.old uses.old n)) × (result ≤ length uses.old) }
{
    let node = crate::node_of(table, operand::term::wire(t));
    let Node::LinDef(d) = node else {
        return n;
    };
    add_edge(
        &mut *first,
        &mut *uses,
        n,
        d,
        user,
        operand::term::inner(t) as u16,
    )
}

fn note_operand(
    stores: &TermStores<'_>,
    h: u64,
    table: &[u16],
    first: &mut [u16],
    uses: &mut [u64],
    n: usize,
    user: u16,
) -> usize
    requires { (n ≤ length uses.old) × (length uses.old < 65536) × Stands stores.now.old.now stores.now.new.now h }
    ensures { (graph first.new uses.new result ≡ note_terms table.now user (operand_of stores.now.old.now stores.now.new.now h) (graph first.old uses.old n)) × (result ≤ length uses.old) }
{
    let ts = stores.terms(h);
    let mut k = n;
    for i in (0..ts.len()).rev() {
        k = note_use(table, &mut *first, &mut *uses, k, user, ts[i]);
    }
    k
}

fn user_at(linear: bool, i: usize) -> u16
    requires { i < 65535 }
    ensures { result ≡ user_number linear i }
{
    if linear { (i + 1) as u16 } else { 0 }
}

// The operands of a list: those of constraints, or right sides of definitions.
fn harvest_uses(
    stores: &TermStores<'_>,
    hs: &[u64],
    linear: bool,
    table: &[u16],
    first: &mut [u16],
    uses: &mut [u64],
    n: usize,
) -> usize
    requires room { (n ≤ length uses.old) × (length uses.old < 65536) }
    requires all_stand { (length hs.now < 65536) × All (Stands stores.now.old.now stores.now.new.now) hs.now }
    ensures { (graph first.new uses.new result ≡ note_from table.now linear 0 (map (operand_of stores.now.old.now stores.now.new.now) hs.now) (graph first.old uses.old n)) × (result ≤ length uses.old) }
{
    let mut k = n;
    for i in (0..hs.len()).rev() {
        let user = user_at(linear, i);
        k = note_operand(stores, hs[i], table, &mut *first, &mut *uses, k, user);
    }
    k
}

// All uses of all definitions. Answers how many there are.
pub fn build_use_def(
    system: &LentSystem<'_>,
    table: &[u16],
    first: &mut [u16],
    uses: &mut [u64],
) -> usize
    requires memory_sound { memory_fault MAX_TERMS system.now.sizes (stores_of system.now) ≡ 0 }
    requires uses_bound { length uses.old < 65536 }
    ensures { graph first.new uses.new result ≡ note_all table.now (system_in system.now) (graph first.old uses.old 0) }
{
    let stores = &system.stores;
    let rhss = system.right_sides();
    let zeros = system.zero_operands();
    let bmuls = system.bmul_operands();
    let imuls = system.imul_operands();
    let ands = system.and_operands();
    let n = harvest_uses(stores, rhss, true, table, &mut *first, &mut *uses, 0);
    let n = harvest_uses(stores, zeros, false, table, &mut *first, &mut *uses, n);
    let n = harvest_uses(stores, bmuls, false, table, &mut *first, &mut *uses, n);
    let n = harvest_uses(stores, imuls, false, table, &mut *first, &mut *uses, n);
    harvest_uses(stores, ands, false, table, &mut *first, &mut *uses, n)
}
