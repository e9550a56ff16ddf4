// Further calls on the system of a vector: slots that are refused, and stores exactly long enough and one too short.
ghost use Rattle.std.specs.Prelude.{◌≡◌, []};
ghost use Rattle.refusal.specs.Refusals.{number_of};
ghost use Rattle.house_file.specs.Reading.{read_of};
ghost use Rattle.replay_fuse.specs.Attempts.{Attempt};
ghost use Rattle.replay_fuse.specs.Further.{refusal_told, wires_in, SlotsChecked, FlagsChecked, NewChecked, FurtherChecked};

use crate::attempt;
use crate::judge::{Case, Seen, Told};
use crate::tally::Tally;
use refusal::Refusal;

// Slots that are refused: small, and what narrower numbers would take for 1 and for 0.
const WRONG_SLOTS: [u64; 4] = [0, 3, 4294967297, 1099511627776];

fn refusal_told(refusal: Refusal) -> Told
    ensures { result ≡ refusal_told (number_of refusal) }
{
    Told {
        refusal: usize::from(refusal.number()),
        ..Told::default()
    }
}

// How many wires a file has, 0 where it is not read.
fn wires_in(file: &[u8]) -> usize
    ensures { result ≡ wires_in (read_of file.now) }
{
    house_scan::scan(file).map_or(0, |read| read.sizes.wires)
}

// Once more, with nothing to add to a digest.
fn again(case: &Case<'_>) -> Seen
    ensures { Attempt case.now.file.now case.now.slots case.now.room case.now.wires case.now.told case.now.patched.now 0 result }
{
    attempt::attempt(&Case { digest: 0, ..*case })
}

// The same, where `refusal` is what has to be answered.
fn refused(case: &Case<'_>, refusal: Refusal) -> Seen
    ensures { Attempt case.now.file.now case.now.slots case.now.room case.now.wires (refusal_told (number_of refusal)) [] 0 result }
{
    again(&Case {
        told: refusal_told(refusal),
        patched: &[],
        ..*case
    })
}

// Each of the wrong slots is refused.
fn check_slots(case: &Case<'_>, mut t: Tally) -> Tally
    ensures { SlotsChecked case.now.file.now case.now.room t 4 result }
{
    for slots in &WRONG_SLOTS {
        let wrong = Case {
            slots: *slots,
            wires: lower::MAX_WIRES,
            ..*case
        };
        let seen = refused(&wrong, Refusal::Slots);
        t = t.with_check(seen.right);
    }
    t
}

// As many flags as wires are enough, one less is refused.
fn check_flags(case: &Case<'_>, wires: usize, t: Tally) -> Tally
    ensures { FlagsChecked case.now.file.now case.now.slots case.now.room case.now.told case.now.patched.now wires t result }
{
    if wires == 0 {
        return t.with_check(false);
    }
    let enough = again(&Case { wires, ..*case });
    let few = Case {
        wires: wires - 1,
        ..*case
    };
    let short = refused(&few, Refusal::Room);
    t.with_check(enough.right).with_check(short.right)
}

// A result store of as many terms as are written is enough, one less is refused.
fn check_new(case: &Case<'_>, t: Tally) -> Tally
    ensures { NewChecked case.now.file.now case.now.slots case.now.told case.now.patched.now t result }
{
    let exact = Case {
        room: case.told.written,
        wires: lower::MAX_WIRES,
        ..*case
    };
    let enough = again(&exact);
    let u = t.with_check(enough.right);
    if exact.room == 0 {
        return u;
    }
    let few = Case {
        room: exact.room - 1,
        ..exact
    };
    let short = refused(&few, Refusal::Room);
    u.with_check(short.right)
}

// Room is looked at last, so only where nothing else is refused.
pub fn check_further(case: &Case<'_>, t: Tally) -> Tally
    ensures { FurtherChecked case.now.file.now case.now.slots case.now.room case.now.told case.now.patched.now t result }
{
    let u = check_slots(case, t);
    if case.told.refusal != 0 {
        return u;
    }
    let v = check_flags(case, wires_in(case.file), u);
    check_new(case, v)
}
