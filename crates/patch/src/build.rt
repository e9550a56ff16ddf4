// All operands that are rebuilt, one after the other: the constraints that name a defined wire, then the committed definitions.
ghost use Rattle.std.specs.Prelude.{◌≡◌, false, [], map, ◌≤◌, ◌<◌, ◌/◌, length, get_or};
ghost use Rattle.operand.specs.Numbers.{operand_of};
ghost use Rattle.lower.specs.Lists.{All};
ghost use Rattle.patch.specs.Steps.{wrote};
ghost use Rattle.patch.specs.Spelling.{source_of, source_in, spell};
ghost use Rattle.patch.specs.Building.{built, built_by, handle, build_one, Builds, Rooted, row_in, rows_in, committed_at, commits_in, roots_in, operands_in, Ready, CommitsThere, Room, Buildable};

use crate::{Cursor, LentSource, Progress};
use legraph::Node;
use lower::LentSystem;
use operand::{Wire, WireOperand};

// The operand that stands in the new store from `start` up to `end`.
fn handle(start: usize, end: usize) -> u64
    requires { (start ≤ end) × (end < 2147483648) }
    ensures { result ≡ handle start end }
{
    operand::valid::number(WireOperand {
        start: start as u32,
        len: (end - start) as u32,
        new: true,
    })
}

// One operand more, and its number. Where the list is full nothing is done.
fn build_one(
    source: &LentSource<'_>,
    out: &mut [u64],
    list: &mut [u64],
    progress: Progress,
    h: u64,
    below: usize,
) -> Progress
    requires ready { Ready (source_of source.now) below }
    requires rooted { Rooted source.now.stores.old.now source.now.stores.new.now h × Room out.old progress }
    ensures { (built_by out.new list.new result ≡ build_one (spell (source_of source.now) below) (operand_of source.now.stores.old.now source.now.stores.new.now h) (built_by out.old list.old progress)) × (result.cursor.count ≤ length out.old) }
{
    let n = progress.at;
    if list.len() <= n {
        return progress;
    }
    let from = progress.cursor;
    let start = from.count;
    let c = crate::rebuild::process_operand(source, &mut *out, from, h, below);
    list[n] = handle(start, c.count);
    Progress {
        cursor: c,
        at: n + 1,
    }
}

fn build_row(
    source: &LentSource<'_>,
    row: &[u64],
    out: &mut [u64],
    list: &mut [u64],
    progress: Progress,
    below: usize,
) -> Progress
    requires ready { Ready (source_of source.now) below }
    requires rooted { All (Rooted source.now.stores.old.now source.now.stores.new.now) row.now × Room out.old progress }
    ensures { Builds (source_of source.now) below (map (operand_of source.now.stores.old.now source.now.stores.new.now) row.now) (built_by out.old list.old progress) (built_by out.new list.new result) }
{
    let mut cur = progress;
    for h in row {
        cur = build_one(source, &mut *out, &mut *list, cur, *h, below);
    }
    cur
}

// Only a constraint that names a defined wire is rebuilt.
fn build_root_patch(
    source: &LentSource<'_>,
    row: &[u64],
    out: &mut [u64],
    list: &mut [u64],
    progress: Progress,
    below: usize,
) -> Progress
    requires ready { Ready (source_of source.now) below }
    requires rooted { All (Rooted source.now.stores.old.now source.now.stores.new.now) row.now × Room out.old progress }
    ensures { Builds (source_of source.now) below (row_in (source_of source.now) (map (operand_of source.now.stores.old.now source.now.stores.new.now) row.now)) (built_by out.old list.old progress) (built_by out.new list.new result) }
{
    if !crate::rebuild::row_names(&source.stores, row, source.table) {
        return progress;
    }
    build_row(source, row, &mut *out, &mut *list, progress, below)
}

// Rows of `width` operands each.
fn build_rows(
    source: &LentSource<'_>,
    rows: &[u64],
    width: usize,
    out: &mut [u64],
    list: &mut [u64],
    progress: Progress,
    below: usize,
) -> Progress
    requires ready { Ready (source_of source.now) below }
    requires wide { 0 < width }
    requires rooted { All (Rooted source.now.stores.old.now source.now.stores.new.now) rows.now × Room out.old progress }
    ensures { Builds (source_of source.now) below (rows_in (source_of source.now) width (length rows.now / width) rows.now) (built_by out.old list.old progress) (built_by out.new list.new result) }
{
    let mut cur = progress;
    for row in rows.chunks_exact(width) {
        cur = build_root_patch(source, row, &mut *out, &mut *list, cur, below);
    }
    cur
}

// The right side as a row of one: `build_one` has one caller, so no operand costs a call.
fn build_committed(
    source: &LentSource<'_>,
    out: &mut [u64],
    list: &mut [u64],
    progress: Progress,
    wire: Wire,
    below: usize,
) -> Progress
    requires ready { Ready (source_of source.now) below }
    requires commits_there { CommitsThere (source_of source.now) × Room out.old progress }
    ensures { Builds (source_of source.now) below (committed_at (source_of source.now) (get_or source.now.table.now wire.0 0)) (built_by out.old list.old progress) (built_by out.new list.new result) }
{
    let node = legraph::node_of(source.table, wire);
    let Node::LinDef(d) = node else {
        return progress;
    };
    if !crate::expand::is_committed(source.decisions, d) {
        return progress;
    }
    let i = d.0 as usize;
    let end = i + 1;
    build_row(
        source,
        &source.rhss[i..end],
        &mut *out,
        &mut *list,
        progress,
        below,
    )
}

// By rising wire number.
fn build_commits(
    source: &LentSource<'_>,
    out: &mut [u64],
    list: &mut [u64],
    progress: Progress,
    wires: usize,
    below: usize,
) -> Progress
    requires ready { Ready (source_of source.now) below }
    requires commits_there { CommitsThere (source_of source.now) × Room out.old progress × (wires ≤ 65536) }
    ensures { Builds (source_of source.now) below (commits_in (source_of source.now) 0 wires) (built_by out.old list.old progress) (built_by out.new list.new result) }
{
    let mut cur = progress;
    for w in 0..wires {
        cur = build_committed(source, &mut *out, &mut *list, cur, Wire(w as u16), below);
    }
    cur
}

// And, Imul, Bmul and Zero, in that order.
fn build_root_patches(
    source: &LentSource<'_>,
    system: &LentSystem<'_>,
    out: &mut [u64],
    list: &mut [u64],
    progress: Progress,
) -> Progress
    requires buildable { Buildable (source_of source.now) system.now.sizes system.now.ands.now system.now.imuls.now system.now.bmuls.now system.now.zeros.now }
    requires room { Room out.old progress }
    ensures { Builds (source_of source.now) system.now.sizes.linears (roots_in (source_of source.now) system.now.sizes system.now.ands.now system.now.imuls.now system.now.bmuls.now system.now.zeros.now) (built_by out.old list.old progress) (built_by out.new list.new result) }
{
    let z = system.sizes;
    let below = z.linears;
    let ands = &system.ands[..3 * z.ands];
    let imuls = &system.imuls[..4 * z.imuls];
    let bmuls = &system.bmuls[..6 * z.bmuls];
    let zeros = &system.zeros[..z.zeros];
    let first = build_rows(source, ands, 3, &mut *out, &mut *list, progress, below);
    let second = build_rows(source, imuls, 4, &mut *out, &mut *list, first, below);
    let third = build_rows(source, bmuls, 6, &mut *out, &mut *list, second, below);
    build_rows(source, zeros, 1, &mut *out, &mut *list, third, below)
}

// Everything that is rebuilt, to an empty store and an empty list.
pub fn build(
    system: &LentSystem<'_>,
    table: &[u16],
    decisions: &[u64],
    alive: &[u64],
    out: &mut [u64],
    list: &mut [u64],
) -> Progress
    requires buildable { Buildable (source_in system.now table.now decisions.now alive.now) system.now.sizes system.now.ands.now system.now.imuls.now system.now.bmuls.now system.now.zeros.now }
    requires room { length out.old < 2147483648 }
    ensures { Builds (source_in system.now table.now decisions.now alive.now) system.now.sizes.linears (operands_in (source_in system.now table.now decisions.now alive.now) system.now.sizes system.now.ands.now system.now.imuls.now system.now.bmuls.now system.now.zeros.now) (built (wrote out.old 0 [] false) list.old 0) (built_by out.new list.new result) }
{
    let source = LentSource {
        stores: system.stores,
        rhss: system.rhss,
        table,
        decisions,
        alive,
    };
    let z = system.sizes;
    let none = Progress {
        cursor: Cursor {
            count: 0,
            full: false,
        },
        at: 0,
    };
    let roots = build_root_patches(&source, system, &mut *out, &mut *list, none);
    build_commits(&source, &mut *out, &mut *list, roots, z.wires, z.linears)
}
