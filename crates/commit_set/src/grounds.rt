// The grounds on which a definition commits. Follows frontend/src/pass/fusion/commit_set.rs.
ghost use Rattle.std.specs.Prelude.{◌≡◌, ◌≤◌};
ghost use Rattle.commit_set.specs.Grounds.{deep, grows, concluded};

use crate::{CommitSetCx, Decision, MAX_DEPTH, MAX_TERM_GROWTH};

// A definition of one term is exempt: it puts one term in the place of one.
fn too_deep(depth: usize, terms: usize) -> bool
    ensures { result ≡ deep depth terms }
{
    MAX_DEPTH < depth && terms != 1
}

// Inlined, k terms in c places are k c terms; committed, (k + 1) + c and one word. The difference is (k - 1)(c - 1) - 2.
fn multiplies_out(many: bool, terms: usize, uses: usize) -> bool
    requires { (terms ≤ 65536) × (uses ≤ 65536) }
    ensures { result ≡ grows many terms uses }
{
    many && MAX_TERM_GROWTH < terms.saturating_sub(1) * uses.saturating_sub(1)
}

// The decision on a definition with so many terms and uses: `over`, that some use's context plus some term's shift is over the slots;
// `many`, that some such sum has more than one run; `joined`, all uses' contexts joined.
#[tactic(auto, unfolding(crate::specs::Grounds::concluded))]
pub fn conclude(over: bool, many: bool, joined: CommitSetCx, terms: usize, uses: usize) -> Decision
    requires { (terms ≤ 65536) × (uses ≤ 65536) }
    ensures { result ≡ concluded over many joined terms uses }
{
    if over || too_deep(joined.depth, terms) || multiplies_out(many, terms, uses) {
        Decision::Commit
    } else {
        Decision::Inline(joined)
    }
}
