// Shifts of a word: variants, the table of widths, numbers, what a shift does, and when two shifts are one. Follows
// core/src/constraint_system/shift.rs.
//
// What takes a shift stands twice: here for every shift, an invalid one being refused, and in `valid` for shifts that the caller knows to
// be valid.
#![tactic(auto)]

ghost use Rattle.std.specs.Prelude.{◌≡◌, cond, ◌&&◌, [], ◌∷◌, ◌<◌, eqb};
ghost use Rattle.word.specs.Answers.{checked, told};
ghost use Rattle.shift.specs.Shifts.{variant_number, variant_at, row_of, valid, apply_of, number_of, valid_number, shift_at};
ghost use Rattle.shift.specs.Compose.{compose_valid};
ghost use Rattle.shift.specs.Answers.{applied, told_number, numbered, told_found, found, told_composed, composed, values};

use refusal::Refusal;

pub mod valid;

#[derive(Clone, Copy, Debug, PartialEq, Eq)]
pub enum ShiftVariant {
    Sll = 0,
    Slr = 1,
    Sar = 2,
    Rotr = 3,
    Sll32 = 4,
    Srl32 = 5,
    Sra32 = 6,
    Rotr32 = 7,
}

// A shift that exists need not be valid: whoever is handed one looks.
#[derive(Clone, Copy, Debug, PartialEq, Eq)]
pub struct Shift {
    pub variant: ShiftVariant,
    pub amount: u8,
}

#[derive(Clone, Copy)]
pub struct Row {
    pub width: u8,
    pub cyclic: bool,
}

// What two shifts come to, one after the other.
#[derive(Clone, Copy, Debug, PartialEq, Eq)]
pub enum Composition {
    Single(Shift),
    Zero,
    Pair,
}

// What makes two shifts one: the inner or the outer absorbs the other, or they chain and go on as a variant.
#[derive(Clone, Copy)]
pub enum Makes {
    Inner,
    Outer,
    Chain(ShiftVariant),
    Neither,
}

const FULL: Row = Row {
    width: 64,
    cyclic: false,
};

const FULL_CYCLIC: Row = Row {
    width: 64,
    cyclic: true,
};

const HALF: Row = Row {
    width: 32,
    cyclic: false,
};

const HALF_CYCLIC: Row = Row {
    width: 32,
    cyclic: true,
};

// Width and cyclic kind, by the variant's number.
const ROWS: [Row; 8] = [FULL, FULL, FULL, FULL_CYCLIC, HALF, HALF, HALF, HALF_CYCLIC];

impl ShiftVariant {
    pub fn number(self) -> u8
        ensures { (result ≡ variant_number self) × (result < 8) }
    {
        self as u8
    }

    pub fn from_u8(byte: u8) -> ShiftVariant
        requires { byte < 8 }
        ensures { result ≡ variant_at byte }
    {
        match byte {
            0 => ShiftVariant::Sll,
            1 => ShiftVariant::Slr,
            2 => ShiftVariant::Sar,
            3 => ShiftVariant::Rotr,
            4 => ShiftVariant::Sll32,
            5 => ShiftVariant::Srl32,
            6 => ShiftVariant::Sra32,
            _ => ShiftVariant::Rotr32,
        }
    }

    pub fn row(self) -> Row
        ensures { result ≡ row_of self }
    {
        let i = self.number() as usize;
        ROWS[i]
    }
}

impl Shift {
    // The canonical shift that leaves a word untouched.
    pub const IDENTITY: Shift = Shift {
        variant: ShiftVariant::Sll,
        amount: 0,
    };

    pub fn is_identity(self) -> bool
        ensures { result ≡ eqb self.amount 0 }
    {
        self.amount == 0
    }

    pub fn is_valid(self) -> bool
        ensures { result ≡ valid self }
    {
        let v = self.variant;
        let r = v.row();
        self.amount < r.width
    }

    // The shift where it is valid.
    pub fn checked(self) -> Result<Shift, Refusal>
        ensures { result ≡ cond (valid self) (Ok self) (Err Refusal.Shift) }
    {
        if self.is_valid() {
            Ok(self)
        } else {
            Err(Refusal::Shift)
        }
    }

    pub fn apply(self, w: u64) -> Result<u64, Refusal>
        ensures { (result ≡ applied self w) × (told result ≡ checked (valid self) (apply_of self w ∷ [])) }
    {
        Ok(valid::apply(self.checked()?, w))
    }

    pub fn index(self) -> Result<u64, Refusal>
        ensures { (result ≡ numbered self) × (told_number result ≡ checked (valid self) (number_of self ∷ [])) }
    {
        Ok(valid::index(self.checked()?))
    }

    // The shift that a number spells, valid or not.
    pub fn spelled(index: u64) -> Shift
        requires { index < 512 }
        ensures { result ≡ shift_at index }
    {
        Shift {
            variant: ShiftVariant::from_u8((index / 64) as u8),
            amount: (index % 64) as u8,
        }
    }

    pub fn from_index(index: u64) -> Result<Shift, Refusal>
        ensures { (result ≡ found index) × (told_found result ≡ checked (valid_number index) (index ∷ [])) }
    {
        if 512 <= index {
            return Err(Refusal::Shift);
        }
        Shift::spelled(index).checked()
    }

    pub fn compose(inner: Shift, outer: Shift) -> Result<Composition, Refusal>
        ensures { (result ≡ composed inner outer) × (told_composed result ≡ checked (valid inner && valid outer) (values (compose_valid inner outer))) }
    {
        Ok(valid::compose(inner.checked()?, outer.checked()?))
    }
}
