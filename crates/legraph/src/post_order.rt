// A post-order walk over the definitions, by marks: 0 not met, 1 open, 2 done. An open mark met again is a circle.
ghost use Rattle.std.specs.Prelude.{◌≡◌, ℕ, suc, ◌-◌, ◌<◌, ◌≤◌, length, get_or};
ghost use Rattle.legraph.specs.Tables.{told_node};
ghost use Rattle.legraph.specs.Walked.{walked, enter, visit, closed, walk_of, unmarked, rhs_in, There, Sound};

use crate::{Node, Walk};
use operand::{LinDefId, TermStores};

// The definition is done.
fn close(marks: &mut [u8], order: &mut [u16], c: Walk, d: LinDefId) -> Walk
    requires { d.0 < length marks.old }
    ensures { walked marks.new order.new result ≡ closed (walked marks.old order.old c) d.0 }
{
    let left = c.left;
    if c.circle {
        return c;
    }
    let i = d.0 as usize;
    marks[i] = 2;
    let at = left.saturating_sub(1);
    crate::put(&mut *order, at, d.0);
    Walk {
        left: at,
        circle: false,
    }
}

// The definition `d`, not met before: what its terms name first, then itself.
#[cycle(enter_visit)]
fn visit(
    stores: &TermStores<'_>,
    rhss: &[u64],
    table: &[u16],
    marks: &mut [u8],
    order: &mut [u16],
    c: Walk,
    d: LinDefId,
) -> Walk
    requires sound { Sound stores.now.old.now stores.now.new.now rhss.now table.now (length marks.old) }
    requires there { There stores.now.old.now stores.now.new.now rhss.now (length marks.old) d.0 }
    requires not_met { get_or marks.old d.0 0 ≡ 0 }
    ensures walks { (f : ℕ) → unmarked marks.old ≤ f → walked marks.new order.new result ≡ visit f (rhs_in stores.now.old.now stores.now.new.now rhss.now) table.now (walked marks.old order.old c) d.0 }
    ensures no_mark_lost { unmarked marks.new ≤ unmarked marks.old }
{
    let i = d.0 as usize;
    let ts = stores.terms(rhss[i]);
    marks[i] = 1;
    let mut cur = c;
    for t in ts {
        let node = crate::node_of(table, operand::term::wire(*t));
        cur = enter(stores, rhss, table, &mut *marks, &mut *order, cur, node);
    }
    close(&mut *marks, &mut *order, cur, d)
}

#[cycle(enter_visit)]
fn enter(
    stores: &TermStores<'_>,
    rhss: &[u64],
    table: &[u16],
    marks: &mut [u8],
    order: &mut [u16],
    c: Walk,
    node: Node,
) -> Walk
    requires sound { Sound stores.now.old.now stores.now.new.now rhss.now table.now (length marks.old) }
    requires leads_there { (d : ℕ) → told_node node ≡ suc d → There stores.now.old.now stores.now.new.now rhss.now (length marks.old) d }
    ensures walks { (f : ℕ) → unmarked marks.old ≤ f → walked marks.new order.new result ≡ enter (visit f (rhs_in stores.now.old.now stores.now.new.now rhss.now) table.now) (walked marks.old order.old c) (told_node node) }
    ensures no_mark_lost { unmarked marks.new ≤ unmarked marks.old }
{
    let Node::LinDef(d) = node else {
        return c;
    };
    if c.circle {
        return c;
    }
    let m = marks[d.0 as usize];
    if m == 0 {
        return visit(stores, rhss, table, &mut *marks, &mut *order, c, d);
    }
    if m == 1 {
        return Walk {
            left: c.left,
            circle: true,
        };
    }
    c
}

// A definition of the list. It is entered as a term's is, by a body of its own: a call, which hands on every slice, is made for each
// definition that is opened, none for a term.
fn start(
    stores: &TermStores<'_>,
    rhss: &[u64],
    table: &[u16],
    marks: &mut [u8],
    order: &mut [u16],
    c: Walk,
    d: LinDefId,
) -> Walk
    requires sound { Sound stores.now.old.now stores.now.new.now rhss.now table.now (length marks.old) }
    requires there { There stores.now.old.now stores.now.new.now rhss.now (length marks.old) d.0 }
    ensures walks { (f : ℕ) → unmarked marks.old ≤ f → walked marks.new order.new result ≡ enter (visit f (rhs_in stores.now.old.now stores.now.new.now rhss.now) table.now) (walked marks.old order.old c) (suc d.0) }
    ensures no_mark_lost { unmarked marks.new ≤ unmarked marks.old }
{
    if c.circle {
        return c;
    }
    let m = marks[d.0 as usize];
    if m == 0 {
        return visit(stores, rhss, table, &mut *marks, &mut *order, c, d);
    }
    Walk {
        left: c.left,
        circle: m == 1,
    }
}

// Kept: `rhss` with a count: `Sound` and `rhs_in` speak of the whole list, which the visits are handed as well.
// All definitions, the first `count` of `rhss`. Where there is no circle they stand in `order` from `left` on, each before those that it
// names.
pub fn walk(
    stores: &TermStores<'_>,
    rhss: &[u64],
    count: usize,
    table: &[u16],
    marks: &mut [u8],
    order: &mut [u16],
) -> Walk
    requires sound { Sound stores.now.old.now stores.now.new.now rhss.now table.now (length marks.old) }
    requires all_there { (count < 65536) × ((d : ℕ) → d < count → There stores.now.old.now stores.now.new.now rhss.now (length marks.old) d) }
    ensures { walked marks.new order.new result ≡ walk_of (rhs_in stores.now.old.now stores.now.new.now rhss.now) table.now count marks.old order.old }
{
    let mut cur = Walk {
        left: order.len(),
        circle: false,
    };
    for k in 0..count {
        let d = LinDefId(k as u16);
        cur = start(stores, rhss, table, &mut *marks, &mut *order, cur, d);
    }
    cur
}
