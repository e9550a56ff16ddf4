// One call of `fuse` on the system of a house file, in stores that are made for it.
ghost use Rattle.std.specs.Prelude.{◌≡◌, []};
ghost use Rattle.lower.specs.Stores.{stores};
ghost use Rattle.fusion.specs.Left.{lent};
ghost use Rattle.replay_fuse.specs.Attempts.{FusedIn, InRoom, Attempt};

use crate::judge;
use crate::judge::{Case, Seen};
use lower::{LentSystem, Sizes};
use operand::TermStores;
use replaying::UNTOUCHED;

// How many terms a result store has at most.
const MAX_ROOM: usize = 16384;

// What fusing answers and leaves, judged.
// Kept: nine lists, since a struct of them that lends them to be written would want a ghost name for each in every contract.
fn fused_in(
    case: &Case<'_>,
    old: &[u64],
    new: &mut [u64],
    ands: &mut [u64],
    imuls: &mut [u64],
    bmuls: &mut [u64],
    zeros: &mut [u64],
    dsts: &mut [u16],
    rhss: &mut [u64],
    flags: &mut [u8],
    z: Sizes,
) -> Seen
    ensures { FusedIn case.now.slots z case.now.file.now case.now.told case.now.patched.now case.now.digest (lent old.now new.old ands.old imuls.old bmuls.old zeros.old dsts.old rhss.old flags.old) (lent old.now new.new ands.new imuls.new bmuls.new zeros.new dsts.new rhss.new flags.new) result }
{
    let answer = fusion::fuse(
        old,
        &mut *new,
        &mut *ands,
        &mut *imuls,
        &mut *bmuls,
        &mut *zeros,
        &mut *dsts,
        &mut *rhss,
        &mut *flags,
        z,
        case.slots,
    );
    let system = LentSystem {
        stores: TermStores { old, new: &*new },
        ands: &*ands,
        imuls: &*imuls,
        bmuls: &*bmuls,
        zeros: &*zeros,
        dsts: &*dsts,
        rhss: &*rhss,
        sizes: z,
    };
    judge::judge(answer, case, &system, &*flags)
}

// With a result store of so many terms, and so many flags.
// Kept: the lists, as above.
fn in_room(
    case: &Case<'_>,
    old: &[u64],
    ands: &mut [u64],
    imuls: &mut [u64],
    bmuls: &mut [u64],
    zeros: &mut [u64],
    dsts: &mut [u16],
    rhss: &mut [u64],
    z: Sizes,
) -> Seen
    ensures { InRoom case.now.slots case.now.room case.now.wires case.now.file.now case.now.told case.now.patched.now case.now.digest z (stores old.now [] ands.old imuls.old bmuls.old zeros.old dsts.old rhss.old) (stores old.now [] ands.new imuls.new bmuls.new zeros.new dsts.new rhss.new) result }
{
    let n = case.room.min(MAX_ROOM);
    let m = case.wires.min(lower::MAX_WIRES);
    let mut new = [UNTOUCHED; MAX_ROOM];
    let mut flags = [7u8; lower::MAX_WIRES];
    fused_in(
        case,
        old,
        &mut new[..n],
        ands,
        imuls,
        bmuls,
        zeros,
        dsts,
        rhss,
        &mut flags[..m],
        z,
    )
}

// From the bytes on. A house file that is not read is not answered as told.
pub fn attempt(case: &Case<'_>) -> Seen
    ensures { Attempt case.now.file.now case.now.slots case.now.room case.now.wires case.now.told case.now.patched.now case.now.digest result }
{
    let mut terms = [UNTOUCHED; 8192];
    let mut ands = [UNTOUCHED; 3072];
    let mut imuls = [UNTOUCHED; 4096];
    let mut bmuls = [UNTOUCHED; 6144];
    let mut zeros = [UNTOUCHED; 1024];
    let mut dsts = [7u16; 1024];
    let mut rhss = [UNTOUCHED; 1024];
    let answer = house_read::read(
        case.file, &mut terms, &mut ands, &mut imuls, &mut bmuls, &mut zeros, &mut dsts, &mut rhss,
    );
    let Ok(read) = answer else {
        return judge::refusal_seen(false, case.digest);
    };
    in_room(
        case, &terms, &mut ands, &mut imuls, &mut bmuls, &mut zeros, &mut dsts, &mut rhss,
        read.sizes,
    )
}
