// The writer of the house file: the checks in memory, one pass that counts the bytes, and one that writes them.
#![tactic(auto)]

ghost use Rattle.std.specs.Prelude.{◌≡◌};
ghost use Rattle.refusal.specs.Refusals.{fault_in};
ghost use Rattle.lower.specs.Stores.{stores_of};
ghost use Rattle.house_write.specs.Write.{write_fault, WriteIs};

use lower::LentSystem;
use refusal::Refusal;

mod count;
mod emit;

// 3 to 6, then 14, then 12 with so many lent bytes.
fn check(system: &LentSystem<'_>, room: usize) -> Result<(), Refusal>
    ensures { fault_in result ≡ write_fault system.now.sizes (stores_of system.now) room }
{
    system.check(lower::MAX_WRITTEN_TERMS)?;
    if count::has_wide(system) {
        return Err(Refusal::Wide);
    }
    if room < count::bytes(system) {
        return Err(Refusal::Room);
    }
    Ok(())
}

// Writes the system that stands in the stores as a house file. A refusal leaves the lent bytes as they were.
pub fn write(system: &LentSystem<'_>, out: &mut [u8]) -> Result<usize, Refusal>
    ensures { WriteIs system.now.sizes (stores_of system.now) out.old result out.new }
{
    check(system, out.len())?;
    Ok(emit::file(system, out))
}
