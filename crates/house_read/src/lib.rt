// The reader of the house file: one pass that looks for faults and counts, and one walk for each store.
#![tactic(auto)]

ghost use Rattle.std.specs.Prelude.{◌≡◌, ◌<◌, ◌≤◌};
ghost use Rattle.house_file.specs.Reading.{total};
ghost use Rattle.house_read.specs.Answer.{Fits, room_of, ReadIs};

use house_file::{FileFault, FileRead};
use lower::Sizes;
use refusal::Refusal;

// Whether the stores have room for what was counted.
fn has_room(
    z: Sizes,
    n: usize,
    terms: usize,
    ands: usize,
    imuls: usize,
    bmuls: usize,
    zeros: usize,
    dsts: usize,
    rhss: usize,
) -> bool
    requires { Fits z }
    ensures { result ≡ room_of z n terms ands imuls bmuls zeros dsts rhss }
{
    let a = z.ands;
    let i = z.imuls;
    let b = z.bmuls;
    let o = z.zeros;
    let l = z.linears;
    if terms < n {
        return false;
    }
    if ands < 3 * a {
        return false;
    }
    if imuls < 4 * i {
        return false;
    }
    if bmuls < 6 * b {
        return false;
    }
    if zeros < o {
        return false;
    }
    if dsts < l {
        return false;
    }
    if rhss < l {
        return false;
    }
    true
}

// How many fields stand between the first and the end.
fn fields(z: Sizes) -> usize
    requires { Fits z }
    ensures { (result ≡ total z) × (result < 4096) }
{
    z.ands + z.imuls + z.bmuls + z.zeros + z.linears
}

// Reads a house file into the lent stores. A refusal leaves them as they were.
// Kept: a parameter for each store, as C lends them.
pub fn read(
    input: &[u8],
    terms: &mut [u64],
    ands: &mut [u64],
    imuls: &mut [u64],
    bmuls: &mut [u64],
    zeros: &mut [u64],
    dsts: &mut [u16],
    rhss: &mut [u64],
) -> Result<FileRead, FileFault>
    ensures { ReadIs input.now terms.old ands.old imuls.old bmuls.old zeros.old dsts.old rhss.old result terms.new ands.new imuls.new bmuls.new zeros.new dsts.new rhss.new }
{
    let seen = house_scan::scan(input)?;
    if has_room(
        seen.sizes,
        seen.terms,
        terms.len(),
        ands.len(),
        imuls.len(),
        bmuls.len(),
        zeros.len(),
        dsts.len(),
        rhss.len(),
    ) {
        let n = fields(seen.sizes);
        house_fill::fill(input, n, terms, ands, imuls, bmuls, zeros, dsts, rhss);
        Ok(seen)
    } else {
        Err(FileFault {
            refusal: Refusal::Room,
            at: input.len(),
        })
    }
}
