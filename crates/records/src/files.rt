// House files, where the definitions are records.
ghost use Rattle.std.specs.Prelude.{◌≤◌, length, take};
ghost use Rattle.house_write.specs.Write.{WriteIs};
ghost use Rattle.house_read.specs.Answer.{ReadIs};
ghost use Rattle.records.specs.Records.{dsts_of, rhss_of, records_in, Stand, first_of, RestKept, looked, found, WritesFirst};

use crate::{Definition, LentRecords, Numbers};
use house_file::{FileFault, FileRead};
use refusal::Refusal;

// Writing from these numbers of the first records, where there are not too many.
fn write_first(
    system: &LentRecords<'_>,
    numbers: &Numbers,
    out: &mut [u8],
) -> Result<usize, Refusal>
    requires { Stand numbers.now }
    ensures { WritesFirst (looked (length system.now.defs.now) system.now.sizes) (found system.now.sizes system.now.stores.old.now system.now.stores.new.now system.now.defs.now) system.now.sizes (first_of system.now numbers.now) out.old out.new result }
{
    system.check_crowd()?;
    house_write::write(&numbers.system(system), out)
}

// `write`, where the definitions are records.
pub fn write_records(system: &LentRecords<'_>, out: &mut [u8]) -> Result<usize, Refusal>
    ensures { WriteIs system.now.sizes (records_in system.now) out.old result out.new }
{
    let mut numbers = Numbers::none();
    numbers.unload(system.defs);
    write_first(system, &numbers, out)
}

// Reading to the first `len` numbers of each kind. The rest of the two slices is as it was.
fn read_numbers(
    input: &[u8],
    terms: &mut [u64],
    ands: &mut [u64],
    imuls: &mut [u64],
    bmuls: &mut [u64],
    zeros: &mut [u64],
    dsts: &mut [u16],
    rhss: &mut [u64],
    len: usize,
) -> Result<FileRead, FileFault>
    requires dsts_there { len ≤ length dsts.old }
    requires rhss_there { len ≤ length rhss.old }
    ensures first { ReadIs input.now terms.old ands.old imuls.old bmuls.old zeros.old (take len dsts.old) (take len rhss.old) result terms.new ands.new imuls.new bmuls.new zeros.new (take len dsts.new) (take len rhss.new) }
    ensures dsts_kept { RestKept len dsts.old dsts.new }
    ensures rhss_kept { RestKept len rhss.old rhss.new }
{
    house_read::read(
        input,
        terms,
        ands,
        imuls,
        bmuls,
        zeros,
        &mut dsts[..len],
        &mut rhss[..len],
    )
}

// `read`, where the definitions are records. Those whose numbers were unloaded are made anew, so a refusal, which leaves each number, leaves
// each record. A file has no more definitions than the arrays take, so none is read past them.
// Kept: the lists one by one, as in `fuse_records`.
pub fn read_records(
    input: &[u8],
    terms: &mut [u64],
    ands: &mut [u64],
    imuls: &mut [u64],
    bmuls: &mut [u64],
    zeros: &mut [u64],
    defs: &mut [Definition],
) -> Result<FileRead, FileFault>
    ensures { ReadIs input.now terms.old ands.old imuls.old bmuls.old zeros.old (dsts_of defs.old) (rhss_of defs.old) result terms.new ands.new imuls.new bmuls.new zeros.new (dsts_of defs.new) (rhss_of defs.new) }
{
    let mut numbers = Numbers::none();
    numbers.unload(&*defs);
    let read = read_numbers(
        input,
        terms,
        ands,
        imuls,
        bmuls,
        zeros,
        &mut numbers.dsts,
        &mut numbers.rhss,
        numbers.len,
    );
    crate::reload(
        defs,
        &numbers.dsts[..numbers.len],
        &numbers.rhss[..numbers.len],
    );
    read
}
