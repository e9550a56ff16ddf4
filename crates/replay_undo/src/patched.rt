// The system of a house file, read once more and fused: its values under the same words.
ghost use Rattle.lower.specs.Stores.{stores_of};
ghost use Rattle.replay_undo.specs.Patched.{PatchedValues, Patched};

use crate::attempt::Case;
use crate::tally::Tally;
use crate::values;
use crate::values::Assigned;
use lower::{LentSystem, Sizes};
use operand::TermStores;
use replaying::UNTOUCHED;

// How many terms the result store has.
const MAX_ROOM: usize = 16384;

fn compare_values(system: &LentSystem<'_>, before: &Assigned<'_>, t: &mut Tally)
    ensures { PatchedValues system.now.sizes (stores_of system.now) before.now.words.now before.now.values.now t.old t.new }
{
    let mut out = [UNTOUCHED; values::MAX_VALUES];
    let _ = evaluate::evaluate(system, before.words, &mut out);
    values::compare(system, &out, before, t);
}

// Reads the file into stores of its own, since fusing writes over them: fusing has to answer with a patched system. Leaves the flags.
pub fn patched(case: &Case<'_>, z: Sizes, before: &Assigned<'_>, flags: &mut [u8], t: &mut Tally)
    ensures { Patched case.now.file.now case.now.slots z before.now.words.now before.now.values.now flags.old flags.new t.old t.new }
{
    let mut terms = [UNTOUCHED; 8192];
    let mut new = [UNTOUCHED; MAX_ROOM];
    let mut ands = [UNTOUCHED; 3072];
    let mut imuls = [UNTOUCHED; 4096];
    let mut bmuls = [UNTOUCHED; 6144];
    let mut zeros = [UNTOUCHED; 1024];
    let mut dsts = [7u16; 1024];
    let mut rhss = [UNTOUCHED; 1024];
    let _ = house_read::read(
        case.file, &mut terms, &mut ands, &mut imuls, &mut bmuls, &mut zeros, &mut dsts, &mut rhss,
    );
    let answer = fusion::fuse(
        &terms, &mut new, &mut ands, &mut imuls, &mut bmuls, &mut zeros, &mut dsts, &mut rhss,
        flags, z, case.slots,
    );
    let Ok(counts) = answer else {
        t.count_answer(false);
        return;
    };
    let system = LentSystem {
        stores: TermStores {
            old: &terms,
            new: &new,
        },
        ands: &ands,
        imuls: &imuls,
        bmuls: &bmuls,
        zeros: &zeros,
        dsts: &dsts,
        rhss: &rhss,
        sizes: values::sizes_after(z, counts),
    };
    compare_values(&system, before, t);
}
