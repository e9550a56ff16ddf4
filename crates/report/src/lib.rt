// A house file in, and what the programs print out: the line of `fusereport`, and the fused file with the committed wires.
#![tactic(auto)]

ghost use Rattle.std.specs.Prelude.{◌≡◌, ◌≤◌, length};
ghost use Rattle.text.specs.Text.{ok_text, Puts, Enough};
ghost use Rattle.report.specs.Outcome.{nine_of, told_outcome};
ghost use Rattle.report.specs.Steps.{Tallied, lent_in};
ghost use Rattle.report.specs.Report.{line_of, Answered, Reported};
ghost use Rattle.report.specs.File.{after, fault_text, WritesFile, FusesBytes, FusesFile};

use lower::{LentSystem, Sizes};
use operand::TermStores;
pub use outcome::{Fault, FusedSystem};
use refusal::Refusal;

mod outcome;

// The most bytes that `report` looks at, and the terms of its result store.
pub const MAX_INPUT: usize = 65536;

const RESULT_TERMS: usize = 4096;

// The most bytes that `fuse_file` looks at: no longer file is within the limits. Its result store is the largest that there is.
pub const MAX_FILE: usize = 262144;

const MAX_RESULT: usize = 16384;

// How many bytes the fused file has, and how many wires there are.
#[derive(Clone, Copy, Debug, PartialEq, Eq)]
pub struct FusedFile {
    pub length: usize,
    pub wires: usize,
}

fn fused_line(fused: FusedSystem, out: &mut [u8]) -> Result<usize, Refusal>
    requires { fused.counts.gone ≤ fused.sizes.linears }
    ensures puts { Puts (ok_text (nine_of fused.sizes fused.counts)) out.old result out.new }
    ensures enough { Enough 339 out.old result }
{
    let FusedSystem { sizes, counts } = fused;
    let values = [
        sizes.ands,
        sizes.imuls,
        sizes.bmuls,
        sizes.zeros,
        sizes.linears - counts.gone,
        counts.committed,
        counts.stranded,
        counts.written,
        counts.kept,
    ];
    text::ok_line(&values, out)
}

fn outcome_line(outcome: Result<FusedSystem, Fault>, out: &mut [u8]) -> Result<usize, Refusal>
    requires { Tallied outcome }
    ensures puts { Puts (line_of (told_outcome outcome)) out.old result out.new }
    ensures enough { Enough 339 out.old result }
{
    match outcome {
        Ok(fused) => fused_line(fused, out),
        Err(fault) => text::refused_line(fault.refusal().number(), out),
    }
}

// Two slots, and stores as long as the limits ask.
fn answer(input: &[u8]) -> Result<FusedSystem, Fault>
    ensures { Answered input.now result × Tallied result }
{
    let mut terms = [0u64; 8192];
    let mut new = [0u64; RESULT_TERMS];
    let mut ands = [0u64; 3072];
    let mut imuls = [0u64; 4096];
    let mut bmuls = [0u64; 6144];
    let mut zeros = [0u64; 1024];
    let mut dsts = [0u16; 1024];
    let mut rhss = [0u64; 1024];
    let mut flags = [0u8; 4096];
    outcome::read_and_fuse(
        input, &mut terms, &mut new, &mut ands, &mut imuls, &mut bmuls, &mut zeros, &mut dsts,
        &mut rhss, &mut flags, 2,
    )
}

// The line of `fusereport` for a house file.
pub fn report(input: &[u8], out: &mut [u8]) -> Result<usize, Refusal>
    ensures reported { Reported input.now out.old result out.new }
    ensures enough { Enough 339 out.old result }
{
    if MAX_INPUT < input.len() {
        return text::refused_line(Refusal::Full.number(), out);
    }
    outcome_line(answer(input), out)
}

// The sizes of the patched system.
#[tactic(auto, unfolding(crate::specs::File::after))]
fn sizes_after(fused: FusedSystem) -> Sizes
    requires { fused.counts.gone ≤ fused.sizes.linears }
    ensures { result ≡ after fused.sizes fused.counts }
{
    Sizes {
        linears: fused.sizes.linears - fused.counts.gone,
        ..fused.sizes
    }
}

// The flags are handed out once the file is written.
fn write_fused(
    system: &LentSystem<'_>,
    made: &[u8],
    out: &mut [u8],
    flags: &mut [u8],
) -> Result<FusedFile, Fault>
    requires { (system.now.sizes.wires ≤ 4096) × (length made.now ≡ 4096) }
    ensures { WritesFile system.now.sizes (lent_in system.now made.now) out.old flags.old result out.new flags.new }
{
    let wires = system.sizes.wires;
    if flags.len() < wires {
        return Err(Fault::Refused(Refusal::Room));
    }
    let length = house_write::write(system, out)?;
    flags[..wires].copy_from_slice(&made[..wires]);
    Ok(FusedFile { length, wires })
}

// Kept: makes its stores as `answer` does; a function that made them for both would give them back by copying.
fn fuse_bytes(
    input: &[u8],
    slots: u64,
    out: &mut [u8],
    flags: &mut [u8],
) -> Result<FusedFile, Fault>
    ensures { FusesBytes slots input.now out.old flags.old result out.new flags.new }
{
    let mut terms = [0u64; 8192];
    let mut new = [0u64; MAX_RESULT];
    let mut ands = [0u64; 3072];
    let mut imuls = [0u64; 4096];
    let mut bmuls = [0u64; 6144];
    let mut zeros = [0u64; 1024];
    let mut dsts = [0u16; 1024];
    let mut rhss = [0u64; 1024];
    let mut made = [0u8; 4096];
    let fused = outcome::read_and_fuse(
        input, &mut terms, &mut new, &mut ands, &mut imuls, &mut bmuls, &mut zeros, &mut dsts,
        &mut rhss, &mut made, slots,
    )?;
    let system = LentSystem {
        stores: TermStores {
            old: &terms,
            new: &new,
        },
        ands: &ands,
        imuls: &imuls,
        bmuls: &bmuls,
        zeros: &zeros,
        dsts: &dsts,
        rhss: &rhss,
        sizes: sizes_after(fused),
    };
    write_fused(&system, &made, out, flags)
}

// Fuses a house file with so many slots a term: the fused file goes to `out`, and a flag a wire, 1 for committed, to `flags`. A refusal
// leaves both as they were.
pub fn fuse_file(
    input: &[u8],
    slots: u64,
    out: &mut [u8],
    flags: &mut [u8],
) -> Result<FusedFile, Fault>
    ensures { FusesFile slots input.now out.old flags.old result out.new flags.new }
{
    if MAX_FILE < input.len() {
        return Err(Fault::Refused(Refusal::Full));
    }
    fuse_bytes(input, slots, out, flags)
}

// The line of `fuse` for a file that is not fused.
pub fn fault_line(fault: Fault, out: &mut [u8]) -> Result<usize, Refusal>
    ensures puts { Puts (fault_text fault) out.old result out.new }
    ensures enough { Enough 53 out.old result }
{
    match fault {
        Fault::Unread(unread) => text::refused_at_line(unread.refusal.number(), unread.at, out),
        Fault::Refused(refusal) => text::refused_line(refusal.number(), out),
    }
}
