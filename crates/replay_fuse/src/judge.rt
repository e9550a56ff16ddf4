// What one call of `fuse` answered and left, against what was told.
ghost use Rattle.std.specs.Prelude.{◌≡◌, ◌≤◌};
ghost use Rattle.refusal.specs.Refusals.{number_of};
ghost use Rattle.lower.specs.Stores.{stores_of};
ghost use Rattle.replay_fuse.specs.Judged.{lent_by, no_starts, rows_of, linears_after, sizes_after, starts_after, counts_right, flags_right, told_right, rows_kept, lists_kept, made_kept, kept_of, refusal_seen, done_seen, file_seen, bytes_seen, Kept, Wrote, RefusalJudged, DoneJudged, Judged};

use crate::places;
use fusion::Counts;
use lower::{LentSystem, Sizes};
use operand::TermStores;
use refusal::Refusal;
use replaying::{UNTOUCHED, count, part, same, untouched};

// What a vector tells of fusing.
#[derive(Clone, Copy, Default)]
pub struct Told {
    pub refusal: usize,
    pub gone: usize,
    pub stranded: usize,
    pub committed: usize,
    pub written: usize,
    pub kept: usize,
}

// What is tried: a house file, with its slots, room for so many terms and so many flags, what is told of it, the patched lists as a house
// file, and the digest so far.
#[derive(Clone, Copy)]
pub struct Case<'a> {
    pub file: &'a [u8],
    pub slots: u64,
    pub room: usize,
    pub wires: usize,
    pub told: Told,
    pub patched: &'a [u8],
    pub digest: u64,
}

// Whether a call was answered as told, and what goes to the sums.
#[derive(Clone, Copy, Default)]
pub struct Seen {
    pub right: bool,
    pub gone: usize,
    pub stranded: usize,
    pub committed: usize,
    pub written: usize,
    pub digest: u64,
}

// From which place on each store has to be as it was.
#[derive(Clone, Copy, Default)]
pub struct Starts {
    pub new: usize,
    pub ands: usize,
    pub imuls: usize,
    pub bmuls: usize,
    pub zeros: usize,
    pub linears: usize,
    pub flags: usize,
}

// Whether the file written is the told one, and the digest with it.
#[derive(Clone, Copy)]
pub struct Bytes {
    pub right: bool,
    pub digest: u64,
}

fn no_starts() -> Starts
    ensures { result ≡ no_starts }
{
    Starts::default()
}

// No more than the limits of a system, so that no product and no sum is too large.
fn rows(n: usize) -> usize
    ensures { (result ≡ rows_of n) × (result ≤ 1024) }
{
    n.min(lower::MAX_OTHERS)
}

fn linears_after(k: Counts) -> usize
    ensures { result ≡ linears_after k }
{
    rows(k.stranded) + rows(k.committed)
}

// The sizes of the patched system.
fn sizes_after(z: Sizes, k: Counts) -> Sizes
    ensures { result ≡ sizes_after z k }
{
    Sizes {
        linears: linears_after(k),
        ..z
    }
}

fn starts_after(z: Sizes, k: Counts) -> Starts
    ensures { result ≡ starts_after z k }
{
    Starts {
        new: k.written,
        ands: 3 * rows(z.ands),
        imuls: 4 * rows(z.imuls),
        bmuls: 6 * rows(z.bmuls),
        zeros: z.zeros,
        linears: linears_after(k),
        flags: z.wires,
    }
}

#[tactic(auto, unfolding(crate::specs::Judged::counts_right))]
fn counts_right(k: Counts, told: Told) -> bool
    ensures { result ≡ counts_right k told }
{
    told.refusal == 0
        && k.gone == told.gone
        && k.stranded == told.stranded
        && k.committed == told.committed
        && k.written == told.written
        && k.kept == told.kept
}

// Each flag is 0 or 1, and 1 just at the destinations of the committed definitions, which stand behind the stranded ones.
#[tactic(auto, unfolding(crate::specs::Judged::flags_right))]
fn flags_right(flags: &[u8], wires: usize, dsts: &[u16], k: Counts) -> bool
    ensures { result ≡ flags_right flags.now wires dsts.now k }
{
    if flags.len() < wires {
        return false;
    }
    let ones = count(&flags[..wires], 1);
    ones == k.committed
        && count(&flags[..wires], 0) == wires - ones
        && places::named(flags, dsts, rows(k.stranded), rows(k.committed)) == k.committed
}

fn told_right(k: Counts, told: Told, flags: &[u8], wires: usize, dsts: &[u16]) -> bool
    ensures { result ≡ told_right k told flags.now wires dsts.now }
{
    counts_right(k, told) && flags_right(flags, wires, dsts, k)
}

// The rows' stores, after and before.
fn rows_kept(after: &LentSystem<'_>, before: &LentSystem<'_>, from: Starts) -> bool
    ensures { result ≡ rows_kept (stores_of after.now) (stores_of before.now) from }
{
    same(after.ands, before.ands, from.ands)
        && same(after.imuls, before.imuls, from.imuls)
        && same(after.bmuls, before.bmuls, from.bmuls)
        && same(after.zeros, before.zeros, from.zeros)
}

// The other stores of the lists, after and before. The store of terms is only read by fusing.
fn lists_kept(after: &LentSystem<'_>, before: &LentSystem<'_>, from: Starts) -> bool
    ensures { result ≡ lists_kept (stores_of after.now) (stores_of before.now) from }
{
    same(after.stores.old, before.stores.old, 0)
        && same(after.dsts, before.dsts, from.linears)
        && same(after.rhss, before.rhss, from.linears)
}

// The result store and the flags are made before each call.
fn made_kept(new: &[u64], flags: &[u8], from: Starts) -> bool
    ensures { result ≡ made_kept new.now flags.now from }
{
    untouched(new, from.new) && untouched(flags, from.flags)
}

// All stores, after and before, and the flags.
#[tactic(auto, unfolding(crate::specs::Judged::kept_of))]
fn all_kept(after: &LentSystem<'_>, before: &LentSystem<'_>, flags: &[u8], from: Starts) -> bool
    ensures { result ≡ kept_of (lent_by after.now flags.now) (stores_of before.now) from }
{
    rows_kept(after, before, from)
        && lists_kept(after, before, from)
        && made_kept(after.stores.new, flags, from)
}

// All that was lent against what the file says, read once more. What is left is compared, so the answer is not.
fn kept(file: &[u8], system: &LentSystem<'_>, flags: &[u8], from: Starts) -> bool
    ensures { Kept file.now (lent_by system.now flags.now) from result }
{
    let mut terms = [UNTOUCHED; 8192];
    let mut ands = [UNTOUCHED; 3072];
    let mut imuls = [UNTOUCHED; 4096];
    let mut bmuls = [UNTOUCHED; 6144];
    let mut zeros = [UNTOUCHED; 1024];
    let mut dsts = [7u16; 1024];
    let mut rhss = [UNTOUCHED; 1024];
    let _ = house_read::read(
        file, &mut terms, &mut ands, &mut imuls, &mut bmuls, &mut zeros, &mut dsts, &mut rhss,
    );
    let before = LentSystem {
        stores: TermStores {
            old: &terms,
            new: &[],
        },
        ands: &ands,
        imuls: &imuls,
        bmuls: &bmuls,
        zeros: &zeros,
        dsts: &dsts,
        rhss: &rhss,
        sizes: system.sizes,
    };
    all_kept(system, &before, flags, from)
}

fn file_seen(written: &[u8], case: &Case<'_>) -> Bytes
    ensures { result ≡ file_seen written.now case.now.patched.now case.now.digest }
{
    Bytes {
        right: same(written, case.patched, 0),
        digest: replaying::digest(written, case.digest),
    }
}

fn bytes_seen(written: Result<usize, Refusal>, out: &[u8], case: &Case<'_>) -> Bytes
    ensures { result ≡ bytes_seen written out.now case.now.patched.now case.now.digest }
{
    match written {
        Ok(length) => file_seen(part(out, 0, length), case),
        Err(_) => Bytes {
            right: false,
            digest: case.digest,
        },
    }
}

// The system that stands in the stores, written.
fn wrote(system: &LentSystem<'_>, case: &Case<'_>) -> Bytes
    ensures { Wrote system.now.sizes (stores_of system.now) case.now.patched.now case.now.digest result }
{
    let mut out = [0u8; 65536];
    let written = house_write::write(system, &mut out);
    bytes_seen(written, &out, case)
}

// A call that patches nothing.
pub fn refusal_seen(right: bool, digest: u64) -> Seen
    ensures { result ≡ refusal_seen right digest }
{
    Seen {
        right,
        digest,
        ..Seen::default()
    }
}

fn done_seen(k: Counts, told: bool, kept: bool, bytes: Bytes) -> Seen
    ensures { result ≡ done_seen k told kept bytes }
{
    Seen {
        right: told && kept && bytes.right,
        gone: k.gone,
        stranded: k.stranded,
        committed: k.committed,
        written: k.written,
        digest: bytes.digest,
    }
}

// A refusal: the told number, and all as it was.
fn judge_refused(refusal: Refusal, case: &Case<'_>, system: &LentSystem<'_>, flags: &[u8]) -> Seen
    ensures { RefusalJudged case.now.file.now case.now.told (lent_by system.now flags.now) case.now.digest (number_of refusal) result }
{
    let is_kept = kept(case.file, system, flags, no_starts());
    let number = usize::from(refusal.number());
    refusal_seen(number == case.told.refusal && is_kept, case.digest)
}

// A patched system: the told counts, the flags, the told file, and what is not filled as it was.
fn judge_done(k: Counts, case: &Case<'_>, system: &LentSystem<'_>, flags: &[u8]) -> Seen
    ensures { DoneJudged case.now.file.now case.now.told (lent_by system.now flags.now) system.now.sizes case.now.patched.now case.now.digest k result }
{
    let z = system.sizes;
    let is_told = told_right(k, case.told, flags, z.wires, system.dsts);
    let is_kept = kept(case.file, system, flags, starts_after(z, k));
    let patched = LentSystem {
        sizes: sizes_after(z, k),
        ..*system
    };
    let bytes = wrote(&patched, case);
    done_seen(k, is_told, is_kept, bytes)
}

// What `fuse` answered, with the system and the flags that it left.
pub fn judge(
    answer: Result<Counts, Refusal>,
    case: &Case<'_>,
    system: &LentSystem<'_>,
    flags: &[u8],
) -> Seen
    ensures { Judged case.now.file.now case.now.told (lent_by system.now flags.now) system.now.sizes case.now.patched.now case.now.digest answer result }
{
    match answer {
        Ok(k) => judge_done(k, case, system, flags),
        Err(refusal) => judge_refused(refusal, case, system, flags),
    }
}
