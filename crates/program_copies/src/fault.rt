//! The reasons why a copy gives no report.
ghost use Rattle.std.specs.Prelude.{◌≡◌};
ghost use Rattle.program_copies.specs.declared.fault.CopyAskFault.TheVariants as asking;

use copy_reader::CopyFault;
use program_io::HeadFilesFault;
use program_reports::AskFault;
use std::fmt;

/// The reason why a copy gives no report, in the order of the steps. It prints as the name of the innermost variant.
#[derive(Drop, Clone, Copy)]
pub enum CopyAskFault {
    /// The copy could not be read.
    Copy(CopyFault),
    /// The checkpoints of the named files could not be read. This comes before `Ask`. It also comes before each `Copy` that is not a fault
    /// of the copy's checkpoint or of its edge.
    Heads(HeadFilesFault),
    /// There is nothing to report, or the report could not be written.
    Ask(AskFault),
}

/// Prints the name of the innermost variant. A derived one takes the checker seconds more.
impl fmt::Display for CopyAskFault {
    fn fmt<W: fmt::Write>(&self, f: &mut fmt::Formatter<W>) -> fmt::Result {
        match self {
            CopyAskFault::Copy(fault) => fmt::Display::fmt(fault, f),
            CopyAskFault::Heads(fault) => fmt::Display::fmt(fault, f),
            CopyAskFault::Ask(fault) => fmt::Display::fmt(fault, f),
        }
    }
}

/// Prints what `Display` prints.
impl fmt::Debug for CopyAskFault {
    fn fmt<W: fmt::Write>(&self, f: &mut fmt::Formatter<W>) -> fmt::Result {
        fmt::Display::fmt(self, f)
    }
}

impl std::error::Error for CopyAskFault {}

impl From<CopyFault> for CopyAskFault {
    ghost from_gives = { λ e f. f ≡ asking.Copy e };

    fn from(e: CopyFault) -> CopyAskFault {
        CopyAskFault::Copy(e)
    }
}
