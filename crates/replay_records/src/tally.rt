// What is counted of all vectors.
ghost use Rattle.std.specs.Prelude.{◌≡◌, ◌+◌, ◌%◌, ◌^◌};
ghost use Rattle.replay_records.specs.Tallies.{nothing_counted, vector_counted};

use crate::judge::Seen;

// Vectors, what fusing told of them, the definitions that hold once filled back, a digest of the files written.
#[derive(Clone, Copy)]
pub struct Tally {
    pub right: u64,
    pub wrong: u64,
    pub gone: u64,
    pub stranded: u64,
    pub committed: u64,
    pub written: u64,
    pub holding: u64,
    pub digest: u64,
}

fn sum(n: u64, m: usize) -> u64
    ensures { result ≡ (n + m) % 2 ^ 64 }
{
    n.wrapping_add(m as u64)
}

impl Tally {
    pub fn nothing() -> Tally
        ensures { result ≡ nothing_counted }
    {
        Tally {
            right: 0,
            wrong: 0,
            gone: 0,
            stranded: 0,
            committed: 0,
            written: 0,
            holding: 0,
            digest: 0,
        }
    }

    // One vector more.
    pub fn count(self, seen: Seen) -> Tally
        ensures { result ≡ vector_counted self seen }
    {
        let sums = Tally {
            gone: sum(self.gone, seen.gone),
            stranded: sum(self.stranded, seen.stranded),
            committed: sum(self.committed, seen.committed),
            written: sum(self.written, seen.written),
            holding: sum(self.holding, seen.holding),
            digest: seen.digest,
            ..self
        };
        if seen.right {
            Tally {
                right: sum(self.right, 1),
                ..sums
            }
        } else {
            Tally {
                wrong: sum(self.wrong, 1),
                ..sums
            }
        }
    }
}
