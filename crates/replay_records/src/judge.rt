// What one pass answered and left, against what was told.
ghost use Rattle.std.specs.Prelude.{◌≡◌};
ghost use Rattle.refusal.specs.Refusals.{number_of};
ghost use Rattle.replay_records.specs.Judged.{counts_right, flags_right, holding_right, file_of, refusal_seen, done_seen, refusal_right, DoneJudged, Judged};

use crate::words;
use fusion::Counts;
use refusal::Refusal;

// What a vector tells of fusing: the number of a refusal, or 0 and the counts.
#[derive(Clone, Copy)]
pub struct Told {
    pub refusal: usize,
    pub counts: Counts,
}

// What is tried: a house file, with its slots and the room of the result store, what is told of it, the patched lists as a house file, and
// the digest so far.
#[derive(Clone, Copy)]
pub struct Task<'a> {
    pub file: &'a [u8],
    pub slots: u64,
    pub room: usize,
    pub told: Told,
    pub patched: &'a [u8],
    pub digest: u64,
}

// Whether a vector was answered as told, and what goes to the sums.
#[derive(Clone, Copy)]
pub struct Seen {
    pub right: bool,
    pub gone: usize,
    pub stranded: usize,
    pub committed: usize,
    pub written: usize,
    pub holding: usize,
    pub digest: u64,
}

impl Seen {
    // A pass that patches nothing.
    pub fn refused(right: bool, digest: u64) -> Seen
        ensures { result ≡ refusal_seen right digest }
    {
        Seen {
            right,
            gone: 0,
            stranded: 0,
            committed: 0,
            written: 0,
            holding: 0,
            digest,
        }
    }

    fn done(k: Counts, right: bool, holding: usize, digest: u64) -> Seen
        ensures { result ≡ done_seen k right holding digest }
    {
        Seen {
            right,
            gone: k.gone,
            stranded: k.stranded,
            committed: k.committed,
            written: k.written,
            holding,
            digest,
        }
    }
}

impl Told {
    #[tactic(auto, unfolding(crate::specs::Judged::counts_right))]
    fn tells(self, k: Counts) -> bool
        ensures { result ≡ counts_right k self }
    {
        self.refusal == 0 && k == self.counts
    }
}

// Each flag is 0 or 1, and as many are 1 as are committed.
#[tactic(auto, unfolding(crate::specs::Judged::flags_right))]
fn flags_right(flags: &[u8], k: Counts) -> bool
    ensures { result ≡ flags_right flags.now k }
{
    let ones = replaying::count(flags, 1);
    ones == k.committed && replaying::count(flags, 0) == flags.len() - ones
}

// All definitions that are not committed hold.
fn holding_right(holding: usize, k: Counts) -> bool
    ensures { result ≡ holding_right holding k }
{
    holding == words::rows(k.gone) + words::rows(k.stranded)
}

// The file that was written, none where writing refused.
fn file_of(written: Result<usize, Refusal>, out: &[u8]) -> &[u8]
    ensures { result.now ≡ file_of written out.now }
{
    match written {
        Err(_) => &[],
        Ok(length) => replaying::part(out, 0, length),
    }
}

// A refusal leaves all as it was: what is written afterwards is the file that was read.
fn judge_refused(
    refusal: Refusal,
    task: &Task<'_>,
    new: &[u64],
    flags: &[u8],
    written: &[u8],
) -> Seen
    ensures { result ≡ refusal_seen (refusal_right task.now.told task.now.file.now new.now flags.now written.now (number_of refusal)) task.now.digest }
{
    let right = refusal.number() as usize == task.told.refusal
        && replaying::untouched(new, 0)
        && replaying::untouched(flags, 0)
        && replaying::same(written, task.file, 0);
    Seen::refused(right, task.digest)
}

// A patched system: the told counts and file, flags by which it is filled back, and the result store's rest as it was.
fn judge_done(k: Counts, task: &Task<'_>, new: &[u64], flags: &[u8], written: &[u8]) -> Seen
    ensures { DoneJudged task.now.told task.now.file.now new.now flags.now written.now task.now.patched.now task.now.digest k result }
{
    let holding = words::filled(task.file, flags);
    let right = task.told.tells(k)
        && replaying::untouched(new, k.written)
        && flags_right(flags, k)
        && replaying::same(written, task.patched, 0)
        && holding_right(holding, k);
    Seen::done(k, right, holding, replaying::digest(written, task.digest))
}

pub fn judge(
    fused: Result<Counts, Refusal>,
    written: Result<usize, Refusal>,
    task: &Task<'_>,
    new: &[u64],
    flags: &[u8],
    out: &[u8],
) -> Seen
    ensures { Judged task.now.told task.now.file.now new.now flags.now (file_of written out.now) task.now.patched.now task.now.digest fused result }
{
    let bytes = file_of(written, out);
    match fused {
        Err(refusal) => judge_refused(refusal, task, new, flags, bytes),
        Ok(k) => judge_done(k, task, new, flags, bytes),
    }
}
