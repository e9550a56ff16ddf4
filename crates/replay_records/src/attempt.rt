// One vector: its file is read, fused and written, on one array of records and in stores that are made for it.
ghost use Rattle.std.specs.Prelude.{◌≡◌};
ghost use Rattle.records.specs.Records.{lent_by};
ghost use Rattle.replay_records.specs.Attempts.{sizes_after, FusedIn, InRoom, Attempt};

use crate::judge::{Seen, Task};
use crate::{judge, lend, words};
use fusion::Counts;
use lower::Sizes;
use operand::TermStores;
use records::{Definition, LentRecords};
use refusal::Refusal;
use replaying::UNTOUCHED;

// How many terms a result store has at most.
const MAX_ROOM: usize = 16384;

// The sizes of what stands in the stores: of the patched system, or where fusing refused of the one before.
fn sizes_after(z: Sizes, fused: Result<Counts, Refusal>) -> Sizes
    ensures { result ≡ sizes_after z fused }
{
    match fused {
        Err(_) => z,
        Ok(k) => Sizes {
            linears: words::rows(k.stranded) + words::rows(k.committed),
            ..z
        },
    }
}

// Kept: the lists stay parameters: a struct of `&mut` slices wants ghost names in every contract, which is no plainer.
fn fused_in(
    task: &Task<'_>,
    old: &[u64],
    new: &mut [u64],
    ands: &mut [u64],
    imuls: &mut [u64],
    bmuls: &mut [u64],
    zeros: &mut [u64],
    defs: [Definition; lower::MAX_DEFINITIONS],
    flags: &mut [u8],
    z: Sizes,
    out: &mut [u8],
) -> Seen
    ensures { FusedIn task.now.slots task.now.file.now task.now.told task.now.patched.now task.now.digest z (lent_by old.now new.old ands.old imuls.old bmuls.old zeros.old defs flags.old) (λ ds. lent_by old.now new.new ands.new imuls.new bmuls.new zeros.new ds flags.new) out.old out.new result }
{
    let patched = lend::fuse(
        old,
        &mut *new,
        &mut *ands,
        &mut *imuls,
        &mut *bmuls,
        &mut *zeros,
        defs,
        &mut *flags,
        z,
        task.slots,
    );
    let after = patched.defs;
    let fused = patched.fused;
    let system = LentRecords {
        stores: TermStores { old, new: &*new },
        ands: &*ands,
        imuls: &*imuls,
        bmuls: &*bmuls,
        zeros: &*zeros,
        defs: &after,
        sizes: sizes_after(z, fused),
    };
    let written = records::files::write_records(&system, &mut *out);
    judge::judge(fused, written, task, &*new, &*flags, &*out)
}

// With a result store of so many terms, and as many flags as wires.
fn in_room(
    task: &Task<'_>,
    old: &[u64],
    ands: &mut [u64],
    imuls: &mut [u64],
    bmuls: &mut [u64],
    zeros: &mut [u64],
    defs: [Definition; lower::MAX_DEFINITIONS],
    z: Sizes,
) -> Seen
    ensures { InRoom task.now.slots task.now.file.now task.now.told task.now.patched.now task.now.digest task.now.room (λ new flags. lent_by old.now new ands.old imuls.old bmuls.old zeros.old defs flags) (λ new flags ds. lent_by old.now new ands.new imuls.new bmuls.new zeros.new ds flags) z result }
{
    let n = task.room.min(MAX_ROOM);
    let m = z.wires.min(lower::MAX_WIRES);
    let mut new = [UNTOUCHED; MAX_ROOM];
    let mut flags = [7u8; lower::MAX_WIRES];
    let mut out = [0u8; 65536];
    fused_in(
        task,
        old,
        &mut new[..n],
        ands,
        imuls,
        bmuls,
        zeros,
        defs,
        &mut flags[..m],
        z,
        &mut out,
    )
}

// From the bytes on. A house file that is not read is not answered as told.
pub fn attempt(task: &Task<'_>) -> Seen
    ensures { Attempt task.now.file.now task.now.slots task.now.room task.now.told task.now.patched.now task.now.digest result }
{
    let mut terms = [UNTOUCHED; 8192];
    let mut ands = [UNTOUCHED; 3072];
    let mut imuls = [UNTOUCHED; 4096];
    let mut bmuls = [UNTOUCHED; 6144];
    let mut zeros = [UNTOUCHED; 1024];
    let loaded = lend::read(
        task.file, &mut terms, &mut ands, &mut imuls, &mut bmuls, &mut zeros,
    );
    match loaded.read {
        Err(_) => Seen::refused(false, task.digest),
        Ok(read) => in_room(
            task,
            &terms,
            &mut ands,
            &mut imuls,
            &mut bmuls,
            &mut zeros,
            loaded.defs,
            read.sizes,
        ),
    }
}
