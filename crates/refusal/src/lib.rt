// Why an input is refused: the reasons, each with the number that C and the programs give.
#![tactic(auto)]

ghost use Rattle.std.specs.Prelude.{◌≡◌};
ghost use Rattle.refusal.specs.Refusals.{number_of};

use std::fmt;

#[derive(Clone, Copy, Debug, PartialEq, Eq)]
pub enum Refusal {
    Cut = 1,
    Tag = 2,
    Shape = 3,
    Shift = 4,
    Wire = 5,
    Full = 6,
    Slots = 7,
    Twice = 8,
    Empty = 9,
    Double = 10,
    Circle = 11,
    Room = 12,
    Size = 13,
    Wide = 14,
}

impl Refusal {
    pub fn number(self) -> u8
        ensures { result ≡ number_of self }
    {
        self as u8
    }
}

// As the programs print it: by its number.
impl fmt::Display for Refusal {
    fn fmt<W: fmt::Write>(&self, f: &mut fmt::Formatter<W>) -> fmt::Result {
        write!(f, "{}", self.number())
    }
}
