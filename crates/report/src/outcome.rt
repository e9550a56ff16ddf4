// Reads a house file into lent stores, and fuses what was read.
ghost use Rattle.std.specs.Prelude.{◌≡◌, Some};
ghost use Rattle.refusal.specs.Refusals.{number_of};
ghost use Rattle.fusion.specs.Left.{lent};
ghost use Rattle.report.specs.declared.outcome.Fault.TheVariants.{Unread, Refused};
ghost use Rattle.report.specs.Outcome.{fault_number, display_text, Comes};

use fusion::Counts;
use house_file::FileFault;
use lower::Sizes;
use refusal::Refusal;
use std::fmt;

// The sizes of what was read, and the counts of fusing.
#[derive(Clone, Copy)]
pub struct FusedSystem {
    pub sizes: Sizes,
    pub counts: Counts,
}

// Why a file is not fused: the reader refuses it, or fusing and writing do.
#[derive(Clone, Copy, Debug, PartialEq, Eq)]
pub enum Fault {
    Unread(FileFault),
    Refused(Refusal),
}

impl Fault {
    pub fn refusal(self) -> Refusal
        ensures { number_of result ≡ fault_number self }
    {
        match self {
            Fault::Unread(fault) => fault.refusal,
            Fault::Refused(refusal) => refusal,
        }
    }
}

impl From<FileFault> for Fault {
    ghost from_gives = { λ fault f. f ≡ Unread fault };

    fn from(fault: FileFault) -> Fault {
        Fault::Unread(fault)
    }
}

impl From<Refusal> for Fault {
    ghost from_gives = { λ refusal f. f ≡ Refused refusal };

    fn from(refusal: Refusal) -> Fault {
        Fault::Refused(refusal)
    }
}

// By its number, and the offset where there is one. No program prints by it: `fault_line` gives the whole line.
impl fmt::Display for Fault {
    ghost output = { λ fault. Some (display_text fault) };

    fn fmt<W: fmt::Write>(&self, f: &mut fmt::Formatter<W>) -> fmt::Result {
        match self {
            Fault::Unread(fault) => {
                let at = fault.at;
                write!(f, "{} at {at}", fault.refusal.number())
            }
            Fault::Refused(refusal) => write!(f, "{}", refusal.number()),
        }
    }
}

// Kept: the nine lists, as `house_read::read` and `fusion::fuse` take them.
pub fn read_and_fuse(
    input: &[u8],
    terms: &mut [u64],
    new: &mut [u64],
    ands: &mut [u64],
    imuls: &mut [u64],
    bmuls: &mut [u64],
    zeros: &mut [u64],
    dsts: &mut [u16],
    rhss: &mut [u64],
    flags: &mut [u8],
    slots: u64,
) -> Result<FusedSystem, Fault>
    ensures { Comes slots input.now (lent terms.old new.old ands.old imuls.old bmuls.old zeros.old dsts.old rhss.old flags.old) result (lent terms.new new.new ands.new imuls.new bmuls.new zeros.new dsts.new rhss.new flags.new) }
{
    let read = house_read::read(input, terms, ands, imuls, bmuls, zeros, dsts, rhss)?;
    let counts = fusion::fuse(
        terms, new, ands, imuls, bmuls, zeros, dsts, rhss, flags, read.sizes, slots,
    )?;
    Ok(FusedSystem {
        sizes: read.sizes,
        counts,
    })
}

#[cfg(test)]
mod tests {
    use super::*;
    use std::fmt::InlineText;

    #[test]
    fn displays_faults(rt: HostRuntime) {
        let refusal = Refusal::Wire;
        let unread = Fault::from(FileFault { refusal, at: 16 });
        let far = Fault::from(FileFault {
            refusal,
            at: usize::MAX,
        });
        let unfused = Fault::from(Refusal::Room);
        for (fault, text) in [
            (unread, "5 at 16"),
            (far, "5 at 18446744073709551615"),
            (unfused, "12"),
        ] {
            assert_eq!(rt; InlineText::<32>::of(fault).as_str(), text);
            assert_eq!(rt;
                InlineText::<32>::of(format_args!("{fault:>30}")).as_str(),
                text,
                "options"
            );
        }
        assert_eq!(rt; InlineText::<32>::of(refusal).as_str(), "5");
    }
}
