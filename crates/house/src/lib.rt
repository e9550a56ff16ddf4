// The house file: its reader and its writer.
#![tactic(auto)]

ghost use Rattle.lower.specs.Stores.{stores_of};
ghost use Rattle.house_read.specs.Answer.{ReadIs};
ghost use Rattle.house_write.specs.Write.{WriteIs};

use house_file::{FileFault, FileRead};
use lower::LentSystem;
use refusal::Refusal;

// Reads a house file into the lent stores. A refusal leaves them as they were.
// Kept: a parameter for each store, as C lends them.
pub fn read(
    input: &[u8],
    terms: &mut [u64],
    ands: &mut [u64],
    imuls: &mut [u64],
    bmuls: &mut [u64],
    zeros: &mut [u64],
    dsts: &mut [u16],
    rhss: &mut [u64],
) -> Result<FileRead, FileFault>
    ensures { ReadIs input.now terms.old ands.old imuls.old bmuls.old zeros.old dsts.old rhss.old result terms.new ands.new imuls.new bmuls.new zeros.new dsts.new rhss.new }
{
    house_read::read(input, terms, ands, imuls, bmuls, zeros, dsts, rhss)
}

// Writes the system that stands in the stores as a house file. A refusal leaves the lent bytes as they were.
pub fn write(system: &LentSystem<'_>, out: &mut [u8]) -> Result<usize, Refusal>
    ensures { WriteIs system.now.sizes (stores_of system.now) out.old result out.new }
{
    house_write::write(system, out)
}
