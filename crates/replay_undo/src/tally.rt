// What is counted of all systems.
ghost use Rattle.std.specs.Prelude.{◌≡◌, ◌+◌, ◌%◌, ◌^◌};
ghost use Rattle.replay_undo.specs.Tallies.{system_counted, words_counted, values_counted, definitions_counted, answer_counted};

// Of each kind of check how many were right and how many wrong; a digest of all values.
#[derive(Clone, Copy, Default)]
pub struct Tally {
    pub systems: u64,
    pub returned: u64,
    pub lost: u64,
    pub equal: u64,
    pub unequal: u64,
    pub hold: u64,
    pub broken: u64,
    pub right: u64,
    pub wrong: u64,
    pub digest: u64,
}

fn sum(n: u64, m: usize) -> u64
    ensures { result ≡ (n + m) % 2 ^ 64 }
{
    n.wrapping_add(m as u64)
}

impl Tally {
    pub fn count_system(&mut self)
        ensures { self.new ≡ system_counted self.old }
    {
        self.systems = sum(self.systems, 1);
    }

    // So many of `n` words returned.
    pub fn count_words(&mut self, same: usize, n: usize)
        ensures { self.new ≡ words_counted self.old same n }
    {
        self.returned = sum(self.returned, same);
        self.lost = sum(self.lost, n.saturating_sub(same));
    }

    pub fn count_values(&mut self, same: usize, n: usize)
        ensures { self.new ≡ values_counted self.old same n }
    {
        self.equal = sum(self.equal, same);
        self.unequal = sum(self.unequal, n.saturating_sub(same));
    }

    pub fn count_definitions(&mut self, same: usize, n: usize, digest: u64)
        ensures { self.new ≡ definitions_counted self.old same n digest }
    {
        self.hold = sum(self.hold, same);
        self.broken = sum(self.broken, n.saturating_sub(same));
        self.digest = digest;
    }

    // An answer that was checked.
    pub fn count_answer(&mut self, is_right: bool)
        ensures { self.new ≡ answer_counted self.old is_right }
    {
        self.right = sum(self.right, usize::from(is_right));
        self.wrong = sum(self.wrong, usize::from(!is_right));
    }
}
