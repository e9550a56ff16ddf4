// The values of operands: where they stand, and what is counted of them.
ghost use Rattle.std.specs.Prelude.{◌≡◌, ◌+◌, ◌*◌, ◌^◌, ◌<◌, ◌≤◌};
ghost use Rattle.replay_undo.specs.Values.{rows_of, places_of, count_of, sizes_after, holding_of, same_values, definitions_seen, compared_of};

use crate::places;
use crate::tally::Tally;
use fusion::Counts;
use lower::{LentSystem, Sizes};

// Six operands at most of each of 1,024 constraints, and one of each of 1,024 definitions.
pub const MAX_VALUES: usize = 7168;

// Where the values of each list begin, in the writer's order.
#[derive(Clone, Copy)]
pub struct Places {
    pub imuls: usize,
    pub bmuls: usize,
    pub zeros: usize,
    pub linears: usize,
}

// The words of an assignment, and the values of operands under them.
#[derive(Clone, Copy)]
pub struct Assigned<'a> {
    pub words: &'a [u64],
    pub values: &'a [u64],
}

// No more than the limits of a system, so that no product and no sum is too large.
pub fn rows(n: usize) -> usize
    ensures { (result ≡ rows_of n) × (result ≤ 1024) }
{
    n.min(lower::MAX_OTHERS)
}

#[tactic(auto, unfolding(crate::specs::Values::places_of))]
fn places_of(z: Sizes) -> Places
    ensures value { result ≡ places_of z }
    ensures bounds { (result.imuls < 2 ^ 16) × (result.bmuls < 2 ^ 16) × (result.zeros < 2 ^ 16) × (result.linears < 2 ^ 15) }
{
    let imuls = 3 * rows(z.ands);
    let bmuls = imuls + 4 * rows(z.imuls);
    let zeros = bmuls + 6 * rows(z.bmuls);
    let linears = zeros + rows(z.zeros);
    Places {
        imuls,
        bmuls,
        zeros,
        linears,
    }
}

// How many operands there are.
#[tactic(auto, unfolding(crate::specs::Values::count_of))]
pub fn count_of(z: Sizes) -> usize
    ensures { (result ≡ count_of z) × (result < 2 ^ 16) }
{
    places_of(z).linears + rows(z.linears)
}

// The sizes of the patched system.
pub fn sizes_after(z: Sizes, k: Counts) -> Sizes
    ensures { result ≡ sizes_after z k }
{
    Sizes {
        linears: rows(k.stranded) + rows(k.committed),
        ..z
    }
}

// How many of the first `n` definitions hold: the value of the right side is the destination's word.
fn holding(dsts: &[u16], assigned: &Assigned<'_>, at: usize, n: usize) -> usize
    requires { at + n < 2 ^ 64 }
    ensures { result ≡ holding_of dsts.now assigned.now.values.now at n assigned.now.words.now }
{
    let mut c = 0;
    for i in 0..n {
        let w = usize::from(places::get(dsts, i, 0));
        c += places::same(
            places::get(assigned.values, at + i, 0),
            places::get(assigned.words, w, 0),
        );
    }
    c
}

// All values go to the digest.
#[tactic(auto, unfolding(crate::specs::Values::definitions_seen))]
pub fn see_definitions(system: &LentSystem<'_>, assigned: &Assigned<'_>, t: &mut Tally)
    ensures { t.new ≡ definitions_seen system.now.dsts.now assigned.now.values.now system.now.sizes assigned.now.words.now t.old }
{
    let at = places_of(system.sizes).linears;
    let n = rows(system.sizes.linears);
    let c = holding(system.dsts, assigned, at, n);
    let digest = places::digest_of(assigned.values, at + n, t.digest);
    t.count_definitions(c, n, digest);
}

// How many values of the four lists of rows are the same, up to the order of the rows.
#[tactic(auto, unfolding(crate::specs::Values::same_values))]
fn same_values(a: &[u64], b: &[u64], z: Sizes) -> usize
    ensures { result ≡ same_values a.now b.now z }
{
    let p = places_of(z);
    places::same_rows(a, b, 0, rows(z.ands), 3)
        + places::same_rows(a, b, p.imuls, rows(z.imuls), 4)
        + places::same_rows(a, b, p.bmuls, rows(z.bmuls), 6)
        + places::same_rows(a, b, p.zeros, rows(z.zeros), 1)
}

// The values of a patched system against those before.
#[tactic(auto, unfolding(crate::specs::Values::compared_of))]
pub fn compare(system: &LentSystem<'_>, after: &[u64], before: &Assigned<'_>, t: &mut Tally)
    ensures { t.new ≡ compared_of after.now before.now.values.now system.now.sizes system.now.dsts.now before.now.words.now t.old }
{
    let z = system.sizes;
    t.count_system();
    t.count_values(same_values(after, before.values, z), places_of(z).linears);
    let assigned = Assigned {
        words: before.words,
        values: after,
    };
    see_definitions(system, &assigned, t);
}
