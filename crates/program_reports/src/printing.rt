//! Prints a report on a mirror.
ghost use Rattle.std.specs.Prelude.{◌≡◌, ◌≢◌, ◌⊎◌, IfErr, IfOk, OnErr, OnOk};
ghost use Rattle.std.specs.Io.KnownBytes.{Appends, Keeps};
ghost use Rattle.byte_streams.specs.Streams.{AppendsPrefix};
ghost use Rattle.program_reports.specs.Reports.{printed};
ghost use Rattle.program_reports.specs.Questions.{AnswersQuestion, IsMade};

use crate::fault::AskFault;
use crate::forks::print_forks;
use crate::missing::print_missing;
use crate::question::{Question, report_on};
use crate::reports::Report;
use byte_streams::{StreamFault, write_whole};
use std::alloc::Global;
use std::io::Write;
use tlog_hash::TreeHash;
use tlog_mirror::Mirror;

// Writes the report's text, or a prefix of it.
pub(crate) fn write_report<W: Write>(output: &mut W, report: &Report) -> Result<(), StreamFault>
    ensures ok { OnOk result (Appends (W.contents output.old) (W.contents output.new)
        (printed report.now)) }
    ensures err { OnErr result (AppendsPrefix (W.contents output.old) (W.contents output.new)
        (printed report.now)) }
{
    write_whole(output, report.text.as_bytes())
}

/// Writes the report on the question about the mirror, and returns the exit status 0 or 3. `Report` says what 3 means.
///
/// For status, forks and proofs the mirror first notes what is held of each head, so no tree is walked twice.
/// Forks and missing paths are written as they are found, so memory is needed for each head and each tree, but not for each
/// line. The other reports are made completely before they are written.
///
/// ```text
/// print_report(alloc, &mut mirror, &Question::Forks, &mut output)?
/// // 0 if there is no fork, else 3
/// ```
///
/// # Errors
///
/// The first that applies:
///
/// - `Report`, as `ReportFault` says: `NoSuchHead`, `NothingComplete`, the refusal of the proof, or `OutOfMemory`;
/// - `WriteFault`: a write failed, or took no byte. Then a prefix of the report was written.
///
/// Nothing is written before all memory was allocated.
pub fn print_report<H: TreeHash, W: Write>(
    alloc: Global,
    mirror: &mut Mirror<H>,
    question: &Question,
    output: &mut W,
) -> Result<u8, AskFault>
    ensures answer { AnswersQuestion H.digest question.now mirror.old.view (W.contents output.old)
        (W.contents output.new) result }
    ensures status { IfOk result (λ status. (status ≡ 0) ⊎ (status ≡ 3)) }
    ensures kept { mirror.new.view ≡ mirror.old.view }
    ensures quiet { IfErr result (λ e. e ≢ AskFault.WriteFault → Keeps (W.contents output.old)
        (W.contents output.new)) }
{
    match question {
        Question::Forks => print_forks(alloc, mirror, output),
        Question::Missing { size, root } => print_missing(alloc, mirror, *size, root, output),
        _ => print_made(alloc, mirror, question, output),
    }
}

// Writes the report on a question that is neither about forks nor about missing paths.
fn print_made<H: TreeHash, W: Write>(
    alloc: Global,
    mirror: &mut Mirror<H>,
    question: &Question,
    output: &mut W,
) -> Result<u8, AskFault>
    requires { IsMade question.now }
    ensures answer { AnswersQuestion H.digest question.now mirror.old.view (W.contents output.old)
        (W.contents output.new) result }
    ensures status { IfOk result (λ status. (status ≡ 0) ⊎ (status ≡ 3)) }
    ensures kept { mirror.new.view ≡ mirror.old.view }
    ensures quiet { IfErr result (λ e. e ≢ AskFault.WriteFault → Keeps (W.contents output.old)
        (W.contents output.new)) }
{
    let report = match report_on(alloc, mirror, question) {
        Ok(report) => report,
        Err(fault) => return Err(AskFault::Report(fault)),
    };
    match write_report(output, &report) {
        Ok(()) => Ok(report.status),
        Err(_) => Err(AskFault::WriteFault),
    }
}
