// A term as it stands in a store: one number of 64 bits, the wire in the low 16, the number of the inner shift in the next 16, that of
// the outer shift above.
ghost use Rattle.std.specs.Prelude.{◌≡◌};
ghost use Rattle.operand.specs.Numbers.{term_of, term_number};

use crate::Wire;

pub fn number(wire: Wire, inner: u16, outer: u16) -> u64
    ensures { result ≡ term_number (record { wire = wire.0; inner = inner; outer = outer }) }
{
    wire.0 as u64 + 65536 * inner as u64 + 4294967296 * outer as u64
}

pub fn wire(t: u64) -> Wire
    ensures { result.0 ≡ (term_of t).wire }
{
    Wire((t % 65536) as u16)
}

pub fn inner(t: u64) -> u64
    ensures { result ≡ (term_of t).inner }
{
    t / 65536 % 65536
}

pub fn outer(t: u64) -> u64
    ensures { result ≡ (term_of t).outer }
{
    t / 4294967296
}
