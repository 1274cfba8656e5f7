//! Prints reports on a copy.
ghost use Rattle.std.specs.Prelude.{IfErr, IfOk, OnErr, OnOk};
ghost use Rattle.std.specs.Io.KnownBytes.{Appends, Keeps};
ghost use Rattle.byte_streams.specs.Streams.{AppendsPrefix};
ghost use Rattle.program_reports.specs.Reports.{printed};
ghost use Rattle.program_copies.specs.Printed.{HasStatus, IsStatus, IsWriteFault, PrintsText};

use crate::fault::CopyAskFault;
use byte_streams::{StreamFault, write_whole};
use program_reports::{AskFault, Report};
use std::io::Write;

// Writes the report's text, or a prefix of it.
fn write_report<W: Write>(output: &mut W, report: &Report) -> Result<(), StreamFault>
    ensures ok { OnOk result (Appends (W.contents output.old) (W.contents output.new)
        (printed report.now)) }
    ensures err { OnErr result (AppendsPrefix (W.contents output.old) (W.contents output.new)
        (printed report.now)) }
{
    write_whole(output, report.text.as_bytes())
}

/// Writes the report, and returns its exit status. If there is only a fault, returns that and writes nothing.
pub(crate) fn print_text<W: Write>(
    output: &mut W,
    recorded: Result<Report, CopyAskFault>,
) -> Result<u8, CopyAskFault>
    ensures prints { PrintsText (W.contents output.old) (W.contents output.new) recorded result }
    ensures quiet { IfErr result
        (λ fault. (¬ IsWriteFault fault) → Keeps (W.contents output.old) (W.contents output.new)) }
    ensures status { IfOk recorded HasStatus → IfOk result IsStatus }
{
    match recorded {
        Ok(report) => match write_report(output, &report) {
            Ok(()) => Ok(report.status),
            Err(_) => Err(CopyAskFault::Ask(AskFault::WriteFault)),
        },
        Err(fault) => Err(fault),
    }
}
