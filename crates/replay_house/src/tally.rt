// Checks counted, and a digest of what was read.
ghost use Rattle.std.specs.Prelude.{◌≡◌};
ghost use Rattle.replay_house.specs.Replay.{counted, with_number, with_bytes};

use crate::pass::Seen;

#[derive(Clone, Copy)]
pub struct Tally {
    pub right: u64,
    pub wrong: u64,
    pub digest: u64,
}

impl Tally {
    // One check more.
    pub fn count(self, right: bool) -> Tally
        ensures { result ≡ counted self right }
    {
        if right {
            Tally {
                right: self.right.wrapping_add(1),
                ..self
            }
        } else {
            Tally {
                wrong: self.wrong.wrapping_add(1),
                ..self
            }
        }
    }

    fn with(self, n: u64) -> Tally
        ensures { result ≡ with_number self n }
    {
        Tally {
            digest: replaying::mix(self.digest, n),
            ..self
        }
    }

    // The reader's answer.
    pub fn answer(self, seen: Seen) -> Tally
        ensures { result ≡ with_number (with_number self seen.number) seen.at }
    {
        self.with(seen.number as u64).with(seen.at as u64)
    }

    // All bytes of a file.
    pub fn bytes(self, file: &[u8]) -> Tally
        ensures { result ≡ with_bytes self file.now }
    {
        Tally {
            digest: replaying::digest(file, self.digest),
            ..self
        }
    }
}
