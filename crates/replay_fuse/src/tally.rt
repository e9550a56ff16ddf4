// What is counted of all vectors.
ghost use Rattle.std.specs.Prelude.{◌≡◌, ◌+◌, ◌%◌, ◌^◌};
ghost use Rattle.replay_fuse.specs.Tallies.{plus_if, vector_counted, check_counted};

use crate::judge::Seen;

// Vectors, what fusing told of them, a digest of the files written, and further checks.
#[derive(Clone, Copy, Default)]
pub struct Tally {
    pub right: u64,
    pub wrong: u64,
    pub gone: u64,
    pub stranded: u64,
    pub committed: u64,
    pub written: u64,
    pub digest: u64,
    pub passed: u64,
    pub failed: u64,
}

// One more where it is so.
fn plus(n: u64, so: bool) -> u64
    ensures { result ≡ plus_if n so }
{
    if so { n.wrapping_add(1) } else { n }
}

fn sum(n: u64, m: usize) -> u64
    ensures { result ≡ (n + m) % 2 ^ 64 }
{
    n.wrapping_add(m as u64)
}

impl Tally {
    // One more vector.
    pub fn with_vector(self, seen: Seen) -> Tally
        ensures { result ≡ vector_counted self seen }
    {
        Tally {
            right: plus(self.right, seen.right),
            wrong: plus(self.wrong, !seen.right),
            gone: sum(self.gone, seen.gone),
            stranded: sum(self.stranded, seen.stranded),
            committed: sum(self.committed, seen.committed),
            written: sum(self.written, seen.written),
            digest: seen.digest,
            ..self
        }
    }

    // One more check.
    pub fn with_check(self, right: bool) -> Tally
        ensures { result ≡ check_counted self right }
    {
        Tally {
            passed: plus(self.passed, right),
            failed: plus(self.failed, !right),
            ..self
        }
    }
}
