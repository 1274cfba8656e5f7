//! Prints the forks as they are found.
ghost use Rattle.std.specs.Prelude.{◌≡◌, ◌≢◌, ◌⊎◌, IfErr, IfOk};
ghost use Rattle.std.specs.Io.KnownBytes.{Keeps};
ghost use Rattle.program_reports.specs.Questions.{AnswersQuestion};
ghost use Rattle.tlog_mirror.specs.ForksWritten.{WritesForks};

use crate::fault::{AskFault, ReportFault};
use crate::question::Question;
use byte_streams::StreamFault;
use std::alloc::Global;
use std::io::Write;
use tlog_hash::TreeHash;
use tlog_mirror::Mirror;

// Writes a line for each fork, and returns the exit status: 3 if there is one. The mirror first notes what is held of
// each head, so no tree is walked twice.
pub(crate) fn print_forks<H: TreeHash, W: Write>(
    alloc: Global,
    mirror: &mut Mirror<H>,
    output: &mut W,
) -> Result<u8, AskFault>
    ensures answer { AnswersQuestion H.digest Question.Forks mirror.old.view (W.contents output.old)
        (W.contents output.new) result }
    ensures status { IfOk result (λ status. (status ≡ 0) ⊎ (status ≡ 3)) }
    ensures kept { mirror.new.view ≡ mirror.old.view }
    ensures quiet { IfErr result (λ e. e ≢ AskFault.WriteFault → Keeps (W.contents output.old)
        (W.contents output.new)) }
{
    match noted_forks(alloc, mirror, output) {
        Ok(true) => Ok(3),
        Ok(false) => Ok(0),
        Err(StreamFault::WriteFault) => Err(AskFault::WriteFault),
        Err(_) => Err(AskFault::Report(ReportFault::OutOfMemory)),
    }
}

// Writes a line for each fork, and returns whether there is one.
fn noted_forks<H: TreeHash, W: Write>(
    alloc: Global,
    mirror: &mut Mirror<H>,
    output: &mut W,
) -> Result<bool, StreamFault>
    ensures writes { WritesForks H.digest mirror.old.view (W.contents output.old)
        (W.contents output.new) result }
    ensures kept { mirror.new.view ≡ mirror.old.view }
{
    mirror.note_heads(alloc)?;
    mirror.write_forks(alloc, output)
}
