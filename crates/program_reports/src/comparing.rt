//! Compares tree heads with the served one, and prints the report.
ghost use Rattle.std.specs.Prelude.{◌≡◌, ◌≢◌, ◌⊎◌, IfErr, IfOk, option_map};
ghost use Rattle.std.specs.Io.KnownBytes.{Keeps};
ghost use Rattle.std.specs.List.{list_any};
ghost use Rattle.program_reports.specs.Comparisons.{AnswersCompared, ReportsComparison, compare_status, recorded_other};

use crate::fault::{AskFault, ReportFault};
use crate::printing::write_report;
use crate::reports::Report;
use std::alloc::Global;
use std::io::Write;
use tlog_hash::{Hash, TreeHash};
use tlog_mirror::{Compared, Mirror, comparison_text};

/// `compare`: a line for each of the given heads. Without given heads, a line for each held head, by size and then by root. The
/// exit status is 3 if a head is a fork or larger.
///
/// # Errors
///
/// `NothingComplete` if nothing is served. `OutOfMemory` if memory was refused.
pub fn compare_report<H: TreeHash>(
    alloc: Global,
    mirror: &Mirror<H>,
    heads: Option<&[(u64, Hash)]>,
) -> Result<Report, ReportFault>
    ensures { ReportsComparison H.digest mirror.now.view
        (option_map (λ given. given.now) heads.entry) result }
{
    let found = match heads {
        Some(given) => mirror.compare(alloc, given)?,
        None => mirror.compare_heads(alloc)?,
    };
    let Some(compared) = found else {
        return Err(ReportFault::NothingComplete);
    };
    let text = comparison_text(alloc, compared.as_slice())?;
    let status = comparison_status(compared.as_slice());
    Ok(Report { text, status })
}

/// The exit status of a comparison: 0 if each head is the same, and 3 if one is a fork or larger.
///
/// ```text
/// comparison_status(&[Compared::Larger { size: 3, root }])   // 3
/// ```
pub fn comparison_status(compared: &[Compared]) -> u8
    ensures { result ≡ compare_status compared.now }
{
    if has_other(compared) { 3 } else { 0 }
}

fn has_other(compared: &[Compared]) -> bool
    ensures { result ≡ list_any recorded_other compared.now }
{
    compared.iter().any(|one| is_other(one))
}

fn is_other(one: &Compared) -> bool
    ensures { result ≡ recorded_other one.now }
{
    match one {
        Compared::Same { .. } => false,
        Compared::Fork { .. } => true,
        Compared::Larger { .. } => true,
    }
}

/// Writes the report of `compare` on the given heads or, without given heads, on the held ones. It returns the exit status: 0,
/// or 3 if a head is a fork or larger. First it notes what is held of each head, so no tree is walked twice.
///
/// ```text
/// print_comparison(alloc, &mut mirror, None, &mut output)?
/// // 0 if the served tree has each held head
/// ```
///
/// # Errors
///
/// The first that applies:
///
/// - `Report`, with `NothingComplete` or `OutOfMemory`, as for `compare_report`;
/// - `WriteFault`: a write failed, or took no byte. Then a prefix of the report was written.
///
/// Nothing is written before the whole report is made.
pub fn print_comparison<H: TreeHash, W: Write>(
    alloc: Global,
    mirror: &mut Mirror<H>,
    heads: Option<&[(u64, Hash)]>,
    output: &mut W,
) -> Result<u8, AskFault>
    ensures answer { AnswersCompared H.digest mirror.old.view
        (option_map (λ given. given.now) heads.entry) (W.contents output.old)
        (W.contents output.new) result }
    ensures status { IfOk result (λ status. (status ≡ 0) ⊎ (status ≡ 3)) }
    ensures kept { mirror.new.view ≡ mirror.old.view }
    ensures quiet { IfErr result (λ e. e ≢ AskFault.WriteFault → Keeps (W.contents output.old)
        (W.contents output.new)) }
{
    let report = match noted_comparison(alloc, mirror, heads) {
        Ok(report) => report,
        Err(fault) => return Err(AskFault::Report(fault)),
    };
    match write_report(output, &report) {
        Ok(()) => Ok(report.status),
        Err(_) => Err(AskFault::WriteFault),
    }
}

// The report, after the mirror noted what is held of each head.
fn noted_comparison<H: TreeHash>(
    alloc: Global,
    mirror: &mut Mirror<H>,
    heads: Option<&[(u64, Hash)]>,
) -> Result<Report, ReportFault>
    ensures tells { ReportsComparison H.digest mirror.old.view
        (option_map (λ given. given.now) heads.entry) result }
    ensures kept { mirror.new.view ≡ mirror.old.view }
{
    match mirror.note_heads(alloc) {
        Ok(()) => compare_report(alloc, mirror, heads),
        Err(_) => Err(ReportFault::OutOfMemory),
    }
}
