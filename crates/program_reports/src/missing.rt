//! Prints the missing paths of a tree head as they are found.
ghost use Rattle.std.specs.Prelude.{◌≡◌, ◌≢◌, ◌⊎◌, IfErr, IfOk};
ghost use Rattle.std.specs.Io.KnownBytes.{Keeps};
ghost use Rattle.program_reports.specs.Questions.{AnswersQuestion};

use crate::fault::{AskFault, ReportFault};
use crate::question::Question;
use byte_streams::StreamFault;
use std::alloc::Global;
use std::io::Write;
use tlog_hash::{Hash, TreeHash};
use tlog_mirror::Mirror;

// Writes a line for each missing path, and returns the exit status: 3 if there is one.
pub(crate) fn print_missing<H: TreeHash, W: Write>(
    alloc: Global,
    mirror: &Mirror<H>,
    size: u64,
    root: &Hash,
    output: &mut W,
) -> Result<u8, AskFault>
    ensures answer { AnswersQuestion H.digest (Question.Missing size root.now) mirror.now.view
        (W.contents output.old) (W.contents output.new) result }
    ensures status { IfOk result (λ status. (status ≡ 0) ⊎ (status ≡ 3)) }
    ensures quiet { IfErr result (λ e. e ≢ AskFault.WriteFault → Keeps (W.contents output.old)
        (W.contents output.new)) }
{
    match mirror.write_missing(alloc, size, root, output) {
        Ok(Some(true)) => Ok(3),
        Ok(Some(false)) => Ok(0),
        Ok(None) => Err(AskFault::Report(ReportFault::NoSuchHead)),
        Err(StreamFault::WriteFault) => Err(AskFault::WriteFault),
        Err(_) => Err(AskFault::Report(ReportFault::OutOfMemory)),
    }
}
