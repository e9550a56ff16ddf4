// Uses and definitions. Follows frontend/src/pass/fusion/legraph.rs; the walk, which also finds circles, is added.
#![tactic(auto)]

ghost use Rattle.std.specs.Prelude.{◌≡◌, ℕ, ◌<◌, length, get_or, set};
ghost use Rattle.lower.specs.Lists.{All};
ghost use Rattle.legraph.specs.Tables.{numbered, told_node};

use operand::{LinDefId, Wire};

pub mod post_order;
pub mod uses;

// What a wire is: defined by a definition, or not.
// Kept: the enum and its names are frontend's.
#[derive(Clone, Copy, Debug, PartialEq, Eq)]
pub enum Node {
    LinDef(LinDefId),
    Opaque,
}

// How much of the order is left, and whether a circle was met.
// Kept: the flag beside the value: the specs' `circled` keeps what is left.
#[derive(Clone, Copy, Debug, PartialEq, Eq)]
pub struct Walk {
    pub left: usize,
    pub circle: bool,
}

// What would stand past the end is not stored.
fn put(store: &mut [u16], i: usize, v: u16)
    ensures { store.new ≡ set store.old i v }
{
    if i < store.len() {
        store[i] = v;
    }
}

// Which definition each wire has, counted from 1: from the last one, so that the first one stands.
pub fn add_lin_defs(dsts: &[u16], table: &mut [u16])
    requires { (length dsts.now < 65536) × All (λ (d : ℕ). d < length table.old) dsts.now }
    ensures { table.new ≡ numbered 0 dsts.now table.old }
{
    for i in (0..dsts.len()).rev() {
        table[dsts[i] as usize] = (i + 1) as u16;
    }
}

pub fn node_of(table: &[u16], wire: Wire) -> Node
    ensures { told_node result ≡ get_or table.now wire.0 0 }
{
    let i = wire.0 as usize;
    if table.len() <= i {
        return Node::Opaque;
    }
    let n = table[i];
    if n == 0 {
        return Node::Opaque;
    }
    Node::LinDef(LinDefId(n - 1))
}
