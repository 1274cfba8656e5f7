//! Why there is no report.
ghost use Rattle.std.specs.Prelude.{◌≡◌};
ghost use Rattle.program_reports.specs.Reports.{of_proof};

use std::alloc::AllocError;
use std::fmt;
use tlog_proof::ProofFault;

/// Why there is no report. It prints the name of the innermost variant.
/// For example, a proof for a size that is not served prints `NoSuchSize`.
#[derive(Drop, Clone, Copy)]
pub enum ReportFault {
    /// No head is complete, so no entries are served for a proof or a comparison.
    NothingComplete,
    /// No head has that size and root.
    NoSuchHead,
    /// The proof for the served entries was refused. This never holds `OutOfMemory`.
    Proof(ProofFault),
    /// Memory was refused.
    OutOfMemory,
}

/// Prints the name of the innermost variant. A derived one takes the checker seconds more.
impl fmt::Display for ReportFault {
    fn fmt<W: fmt::Write>(&self, f: &mut fmt::Formatter<W>) -> fmt::Result {
        let name = match self {
            ReportFault::Proof(fault) => return fmt::Display::fmt(fault, f),
            ReportFault::NothingComplete => "NothingComplete",
            ReportFault::NoSuchHead => "NoSuchHead",
            ReportFault::OutOfMemory => "OutOfMemory",
        };
        f.write_str(name)
    }
}

/// Prints what `Display` prints.
impl fmt::Debug for ReportFault {
    fn fmt<W: fmt::Write>(&self, f: &mut fmt::Formatter<W>) -> fmt::Result {
        fmt::Display::fmt(self, f)
    }
}

impl std::error::Error for ReportFault {}

impl From<AllocError> for ReportFault {
    ghost use Rattle.program_reports.specs.declared.fault.ReportFault.{ReportFault};

    ghost from_gives = { λ f e. e ≡ ReportFault.OutOfMemory };

    fn from(fault: AllocError) -> ReportFault {
        ReportFault::OutOfMemory
    }
}

impl From<ProofFault> for ReportFault {
    ghost from_gives = { λ f e. e ≡ of_proof f };

    fn from(fault: ProofFault) -> ReportFault {
        match fault {
            ProofFault::OutOfMemory => ReportFault::OutOfMemory,
            _ => ReportFault::Proof(fault),
        }
    }
}

/// Why no report is printed. It prints the name of the innermost variant.
#[derive(Drop, Clone, Copy)]
pub enum AskFault {
    /// The mirror gave no report.
    Report(ReportFault),
    /// A write failed, or took no byte. A prefix of the report may have been written.
    WriteFault,
}

/// Prints the name of the innermost variant. A derived one takes the checker seconds more.
impl fmt::Display for AskFault {
    fn fmt<W: fmt::Write>(&self, f: &mut fmt::Formatter<W>) -> fmt::Result {
        let name = match self {
            AskFault::Report(fault) => return fmt::Display::fmt(fault, f),
            AskFault::WriteFault => "WriteFault",
        };
        f.write_str(name)
    }
}

/// Prints what `Display` prints.
impl fmt::Debug for AskFault {
    fn fmt<W: fmt::Write>(&self, f: &mut fmt::Formatter<W>) -> fmt::Result {
        fmt::Display::fmt(self, f)
    }
}

impl std::error::Error for AskFault {}
