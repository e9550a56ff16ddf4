// The entries that change records, each lent an array of them, which goes back with the answer.
ghost use Rattle.house_read.specs.Answer.{ReadIs};
ghost use Rattle.fusion.specs.Answer.{told_fused, Fuses};
ghost use Rattle.records.specs.Records.{dsts_of, rhss_of, lent_by};
ghost use Rattle.replay_records.specs.Places.{blank_defs};

use fusion::Counts;
use house_file::{FileFault, FileRead};
use lower::Sizes;
use records::Definition;
use refusal::Refusal;
use replaying::UNTOUCHED;

// The records of a file, and the answer to it.
#[derive(Clone, Copy)]
pub struct Loaded {
    pub defs: [Definition; lower::MAX_DEFINITIONS],
    pub read: Result<FileRead, FileFault>,
}

// The records of a patched system, and the answer of fusing.
#[derive(Clone, Copy)]
pub struct Patched {
    pub defs: [Definition; lower::MAX_DEFINITIONS],
    pub fused: Result<Counts, Refusal>,
}

// The records are lent as they are made.
pub fn read(
    input: &[u8],
    terms: &mut [u64],
    ands: &mut [u64],
    imuls: &mut [u64],
    bmuls: &mut [u64],
    zeros: &mut [u64],
) -> Loaded
    ensures { ReadIs input.now terms.old ands.old imuls.old bmuls.old zeros.old (dsts_of blank_defs) (rhss_of blank_defs) result.read terms.new ands.new imuls.new bmuls.new zeros.new (dsts_of result.defs) (rhss_of result.defs) }
{
    let mut defs = [Definition {
        rhs: UNTOUCHED,
        dst: 7,
    }; lower::MAX_DEFINITIONS];
    let read = records::files::read_records(input, terms, ands, imuls, bmuls, zeros, &mut defs);
    Loaded { defs, read }
}

// Kept: the lists stay parameters: a struct of `&mut` slices wants ghost names in every contract, which is no plainer.
pub fn fuse(
    old: &[u64],
    new: &mut [u64],
    ands: &mut [u64],
    imuls: &mut [u64],
    bmuls: &mut [u64],
    zeros: &mut [u64],
    mut defs: [Definition; lower::MAX_DEFINITIONS],
    flags: &mut [u8],
    z: Sizes,
    slots: u64,
) -> Patched
    ensures { Fuses slots z (lent_by old.now new.old ands.old imuls.old bmuls.old zeros.old defs flags.old) (lent_by old.now new.new ands.new imuls.new bmuls.new zeros.new result.defs flags.new) (told_fused result.fused) }
{
    let fused = records::fuse_records(
        old, new, ands, imuls, bmuls, zeros, &mut defs, flags, z, slots,
    );
    Patched { defs, fused }
}
