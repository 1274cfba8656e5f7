//! The questions to a state, and the reports that answer them.
ghost use Rattle.std.specs.Prelude.{◌≡◌, IfOk};
ghost use Rattle.program_reports.specs.Reports.{ReportsProof, IsStatusPrint, printed};
ghost use Rattle.program_reports.specs.Questions.{IsMade, ReportsOn};

use crate::fault::ReportFault;
use crate::reports::{Report, proof_report, status_report};
use std::alloc::{AllocError, Global};
use tlog_hash::{Hash, TreeHash};
use tlog_mirror::Mirror;
use tlog_proof::Ask;

/// A question to a state.
#[derive(Drop, Clone, Copy)]
pub enum Question {
    /// Its tree heads, and the served one.
    Status,
    /// The missing paths of a head's tree.
    Missing {
        /// The head's size.
        size: u64,
        /// The head's root.
        root: Hash,
    },
    /// The forks between its tree heads.
    Forks,
    /// A proof about the served entries.
    Proof(Ask),
}

// The report on the heads and on the served one. The mirror first notes what is held of each head, so no tree is walked
// twice.
fn noted_status<H: TreeHash>(alloc: Global, mirror: &mut Mirror<H>) -> Result<Report, AllocError>
    ensures tells { IfOk result (λ report. IsStatusPrint H.digest mirror.old.view (printed report)
        report.status) }
    ensures kept { mirror.new.view ≡ mirror.old.view }
{
    mirror.note_heads(alloc)?;
    status_report(alloc, mirror)
}

// A proof about the served entries, after the same notes.
fn noted_proof<H: TreeHash>(
    alloc: Global,
    mirror: &mut Mirror<H>,
    ask: Ask,
) -> Result<Report, ReportFault>
    ensures tells { ReportsProof H.digest mirror.old.view ask result }
    ensures kept { mirror.new.view ≡ mirror.old.view }
{
    match mirror.note_heads(alloc) {
        Ok(()) => proof_report(alloc, mirror, ask),
        Err(_) => Err(ReportFault::OutOfMemory),
    }
}

// The report on a question that is neither about forks nor about missing paths.
pub(crate) fn report_on<H: TreeHash>(
    alloc: Global,
    mirror: &mut Mirror<H>,
    question: &Question,
) -> Result<Report, ReportFault>
    requires { IsMade question.now }
    ensures tells { ReportsOn H.digest question.now mirror.old.view result }
    ensures kept { mirror.new.view ≡ mirror.old.view }
{
    match question {
        Question::Status => Ok(noted_status(alloc, mirror)?),
        Question::Missing { .. } => unreachable!(),
        Question::Forks => unreachable!(),
        Question::Proof(ask) => noted_proof(alloc, mirror, *ask),
    }
}
