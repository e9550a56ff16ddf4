// A file read, and what was read written.
ghost use Rattle.std.specs.Prelude.{◌≡◌, ◌≤◌, length};
ghost use Rattle.refusal.specs.Refusals.{number_of};
ghost use Rattle.replay_house.specs.Replay.{refused_seen, done_seen, written_seen, same_seen, Passed, pass_bytes, compared_tally, state_of, again_of};

use crate::tally::Tally;
use house_file::{FileFault, FileRead};
use lower::LentSystem;
use operand::TermStores;
use refusal::Refusal;

// What reading and then writing came to: number and offset of the reader's refusal, or the counts; number of the writer's, or the length.
#[derive(Clone, Copy, Debug, PartialEq, Eq)]
pub struct Seen {
    pub number: usize,
    pub at: usize,
    pub wires: usize,
    pub ands: usize,
    pub imuls: usize,
    pub bmuls: usize,
    pub zeros: usize,
    pub linears: usize,
    pub terms: usize,
    pub written: usize,
    pub length: usize,
}

pub fn refused(fault: FileFault) -> Seen
    ensures { result ≡ refused_seen (number_of fault.refusal) fault.at }
{
    Seen {
        number: fault.refusal.number() as usize,
        at: fault.at,
        wires: 0,
        ands: 0,
        imuls: 0,
        bmuls: 0,
        zeros: 0,
        linears: 0,
        terms: 0,
        written: 0,
        length: 0,
    }
}

fn done(read: FileRead, written: usize, length: usize) -> Seen
    ensures { result ≡ done_seen read written length }
{
    let z = read.sizes;
    Seen {
        number: 0,
        at: 0,
        wires: z.wires,
        ands: z.ands,
        imuls: z.imuls,
        bmuls: z.bmuls,
        zeros: z.zeros,
        linears: z.linears,
        terms: read.terms,
        written,
        length,
    }
}

#[tactic(auto, unfolding(crate::specs::Replay::same_seen))]
pub fn same(a: Seen, b: Seen) -> bool
    ensures { result ≡ same_seen a b }
{
    a == b
}

fn written(read: FileRead, answer: Result<usize, Refusal>) -> Seen
    ensures { result ≡ written_seen read answer }
{
    match answer {
        Ok(length) => done(read, 0, length),
        Err(refusal) => done(read, refusal.number() as usize, 0),
    }
}

pub fn pass(file: &[u8], out: &mut [u8]) -> Seen
    ensures { Passed file.now out.old result out.new }
{
    let mut terms = [0u64; 8192];
    let mut ands = [0u64; 3072];
    let mut imuls = [0u64; 4096];
    let mut bmuls = [0u64; 6144];
    let mut zeros = [0u64; 1024];
    let mut dsts = [0u16; 1024];
    let mut rhss = [0u64; 1024];
    let r = house::read(
        file, &mut terms, &mut ands, &mut imuls, &mut bmuls, &mut zeros, &mut dsts, &mut rhss,
    );
    match r {
        Err(fault) => refused(fault),
        Ok(read) => {
            let system = LentSystem {
                stores: TermStores {
                    old: &terms,
                    new: &[],
                },
                ands: &ands,
                imuls: &imuls,
                bmuls: &bmuls,
                zeros: &zeros,
                dsts: &dsts,
                rhss: &rhss,
                sizes: read.sizes,
            };
            written(read, house::write(&system, out))
        }
    }
}

// Reading and writing a file once more: what was seen is seen again, and what is written is the file.
fn compared(seen: Seen, file: &[u8], two: &mut [u8], t: Tally) -> Tally
    requires { length file.now ≤ length two.old }
    ensures { (result ≡ compared_tally seen file.now two.old t) × (two.new ≡ pass_bytes file.now two.old) }
{
    let n = file.len();
    let is_same = same(seen, pass(file, &mut *two));
    let is_equal = replaying::same(file, &two[..n], 0);
    t.count(is_same).count(is_equal).bytes(file)
}

// The file at the front of `one` was written after `seen`.
pub fn again(seen: Seen, one: &[u8], two: &mut [u8], t: Tally) -> Tally
    ensures { state_of one.now two.new result ≡ again_of seen (state_of one.now two.old t) }
{
    let n = seen.length;
    if one.len() < n {
        return t.count(false);
    }
    if two.len() < n {
        return t.count(false);
    }
    compared(seen, &one[..n], two, t)
}
