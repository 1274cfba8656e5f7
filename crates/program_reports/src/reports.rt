//! The reports, one for each command.
ghost use Rattle.std.specs.Prelude.{IfOk};
ghost use Rattle.program_reports.specs.Reports.{ReportsProof, IsServedPrint, IsStatusPrint, printed};

use crate::fault::ReportFault;
use std::alloc::{AllocError, Global};
use tlog_hash::TreeHash;
use tlog_mirror::Mirror;
use tlog_proof::{Ask, prove, write_text};

/// The text that a command prints, and its exit status.
#[derive(Drop)]
pub struct Report {
    /// The text. Each line ends in a newline.
    pub text: String,
    /// 0, or 3: nothing is served, a path is missing, there is a fork, or a compared head is not the same.
    pub status: u8,
}

/// `status`: the origin, each head, and the served one. The exit status is 3 if nothing is served.
///
/// # Errors
///
/// Memory was refused.
pub fn status_report<H: TreeHash>(alloc: Global, mirror: &Mirror<H>) -> Result<Report, AllocError>
    ensures { IfOk result (λ report. IsStatusPrint H.digest mirror.now.view (printed report)
        report.status) }
{
    let text = mirror.status_text(alloc)?;
    let status = served_status(mirror);
    Ok(Report { text, status })
}

// 0 if something is served, else 3.
fn served_status<H: TreeHash>(mirror: &Mirror<H>) -> u8
    ensures { IsServedPrint H.digest mirror.now.view result }
{
    match mirror.top() {
        Some(_) => 0,
        None => 3,
    }
}

/// `prove`: the text of a proof about the served entries.
///
/// # Errors
///
/// The first that applies: `NothingComplete` if nothing is served; a fault of `tlog_proof::prove` for the served entries:
/// `NoSuchSize`, `NoSuchIndex`, `FirstIsZero`, `Backwards`; `OutOfMemory` if memory was refused.
pub fn proof_report<H: TreeHash>(
    alloc: Global,
    mirror: &Mirror<H>,
    ask: Ask,
) -> Result<Report, ReportFault>
    ensures { ReportsProof H.digest mirror.now.view ask result }
{
    let Some(top) = mirror.top_ranges() else {
        return Err(ReportFault::NothingComplete);
    };
    let proof = prove(alloc, &top, ask)?;
    let text = write_text(alloc, &proof)?;
    Ok(Report { text, status: 0 })
}
