// Which constraints are rebuilt, and what their operands are expanded to.
ghost use Rattle.std.specs.Prelude.{◌≡◌, map, ℕ, ◌≤◌, length};
ghost use Rattle.std.specs.List.{list_any};
ghost use Rattle.operand.specs.Numbers.{term_of, operand_of};
ghost use Rattle.lower.specs.Lists.{All};
ghost use Rattle.lower.specs.Tables.{marked};
ghost use Rattle.lower.specs.Stores.{Stands};
ghost use Rattle.patch.specs.Expansion.{Within};
ghost use Rattle.patch.specs.Steps.{write_terms};
ghost use Rattle.patch.specs.Spelling.{source_of, in_place, spelt, spell, names_one, row_names, Readable};
ghost use Rattle.patch.specs.Building.{Rooted};

use crate::{Cursor, LentSource};
use legraph::Node;
use operand::TermStores;

fn is_defined(t: u64, table: &[u16]) -> bool
    ensures { result ≡ marked table.now (term_of t).wire }
{
    match legraph::node_of(table, operand::term::wire(t)) {
        Node::LinDef(_) => true,
        Node::Opaque => false,
    }
}

fn terms_name(terms: &[u64], table: &[u16]) -> bool
    ensures { result ≡ list_any (λ (t : ℕ). marked table.now (term_of t).wire) terms.now }
{
    terms.iter().any(|t| is_defined(*t, table))
}

fn operand_names(stores: &TermStores<'_>, h: u64, table: &[u16]) -> bool
    requires { Stands stores.now.old.now stores.now.new.now h }
    ensures { result ≡ names_one table.now (operand_of stores.now.old.now stores.now.new.now h) }
{
    terms_name(stores.terms(h), table)
}

// Whether some operand of a row names a defined wire.
pub fn row_names(stores: &TermStores<'_>, row: &[u64], table: &[u16]) -> bool
    requires { All (Stands stores.now.old.now stores.now.new.now) row.now }
    ensures { result ≡ row_names table.now (map (operand_of stores.now.old.now stores.now.new.now) row.now) }
{
    // Kept: as `any` the proof did not close, since what its closure calls asks something of each operand.
    for h in row {
        if operand_names(stores, *h, table) {
            return true;
        }
    }
    false
}

// An operand of a constraint, or the right side of a committed definition.
pub fn process_operand(
    source: &LentSource<'_>,
    out: &mut [u64],
    c: Cursor,
    h: u64,
    below: usize,
) -> Cursor
    requires readable { Readable (source_of source.now) }
    requires within { (w : ℕ) → Within (in_place (source_of source.now)) below w }
    requires rooted { Rooted source.now.stores.old.now source.now.stores.new.now h × (c.count ≤ length out.old) }
    ensures { (spelt out.new result ≡ write_terms (spell (source_of source.now) below) (operand_of source.now.stores.old.now source.now.stores.new.now h) (spelt out.old c)) × (result.count ≤ length out.old) }
{
    let ts = source.stores.terms(h);
    let mut cur = c;
    for t in ts {
        cur = crate::expand::expand_term(source, &mut *out, cur, *t, below);
    }
    cur
}
