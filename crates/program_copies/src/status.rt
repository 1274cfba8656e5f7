//! The status of a copy.
ghost use Rattle.std.specs.Prelude.{◌≡◌, IfErr, IfOk, map, option_map};
ghost use Rattle.mirror_trees.specs.Marked.{point_of};
ghost use Rattle.std.specs.Io.KnownBytes.{Keeps};
ghost use Rattle.copy_reader.specs.Copies.{LeavesPuts};
ghost use Rattle.program_copies.specs.Printed.{CountsAsk, HasStatus, IsStatus, IsWriteFault, Prints};
ghost use Rattle.program_copies.specs.Statuses.{IsStatusOf, ReportsStatus};

use crate::fault::CopyAskFault;
use crate::opened::open_copy;
use crate::printing::print_text;
use copy_reader::{CopyFault, read_end, status_text};
use mirror_folders::NamedFolders;
use program_reports::Report;
use signed_note::Verifier;
use std::alloc::{AllocError, Global};
use std::io::Write;
use tlog_hash::{Hash, TreeHash};

// The report on a copy of that size and root, or on an empty copy.
fn status_report(
    alloc: Global,
    origin: &str,
    point: &Option<(u64, Hash)>,
) -> Result<Report, AllocError>
    ensures { IfOk result (IsStatusOf origin.now (option_map point_of point.now)) }
{
    let text = status_text(alloc, origin, point)?;
    let status = match point {
        Some(_) => 0,
        None => 3,
    };
    Ok(Report { text, status })
}

// The report on a log of that size and root, or on an empty copy.
fn report_of(
    alloc: Global,
    origin: &str,
    point: Option<(u64, Hash)>,
) -> Result<Report, CopyAskFault>
    ensures report { IfOk result (IsStatusOf origin.now (option_map point_of point)) }
    ensures status { IfOk result HasStatus }
    ensures fault { IfErr result (λ fault. fault ≡ CopyAskFault.Copy CopyFault.OutOfMemory) }
{
    match status_report(alloc, origin, &point) {
        Ok(report) => Ok(report),
        Err(_) => Err(CopyAskFault::Copy(CopyFault::OutOfMemory)),
    }
}

// The report on the copy in the folder.
#[tactic(auto, using(crate::proofs::Reading::opened_has, log_reader::proofs::Kept::kept_twice))]
fn status_of_copy<H: TreeHash, D: NamedFolders>(
    folders: &mut D,
    alloc: Global,
    origin: &str,
    keys: &[Box<dyn Verifier>],
    folder: &str,
) -> Result<Report, CopyAskFault>
    ensures answer { ReportsStatus H.digest origin.now (map (λ k. key k) keys.now)
        (D.held folders.old folder.now) result }
    ensures status { IfOk result HasStatus }
    ensures kept { LeavesPuts (D.held folders.old folder.now) (D.puts folders.old)
        (D.puts folders.new) }
    ensures counted { CountsAsk (D.failed folders.old) (D.failed folders.new) result }
{
    let opened = match open_copy::<H, D>(folders, alloc, origin, keys, folder) {
        Ok(opened) => opened,
        Err(fault) => return Err(CopyAskFault::Copy(fault)),
    };
    let Some(reader) = opened else {
        return report_of(alloc, origin, None);
    };
    let mut reader = reader;
    let point = (reader.size(), reader.root());
    match read_end::<H, D>(alloc, folders, &mut reader) {
        Ok(()) => report_of(alloc, origin, Some(point)),
        Err(fault) => Err(CopyAskFault::Copy(fault)),
    }
}

/// Prints the origin and the copy's checkpoint, as `status` does for a state with only its tree head, which is complete. It reads the
/// edge of the log, and the bundle at its end if that is partial: they have to lead to the checkpoint's root. No other file is read. For an
/// empty copy it prints `served none`. Returns the exit status: 0, or 3 if the copy is empty.
///
/// ```text
/// status_copy::<Sha256Tree, _, _>(&mut folders, alloc, "example.com/log", &keys, "log", &mut output)?;
/// // origin example.com/log
/// // head 3 rra8/idLcKFPsGel5VeCZNsPqbUa9eC6FZFY8yngbnc= complete
/// // served 3 rra8/idLcKFPsGel5VeCZNsPqbUa9eC6FZFY8yngbnc=
/// ```
///
/// # Errors
///
/// In this order: `Copy`, with the faults of `open_copy`, and with `CopyDamaged` or `ShelfFault` if the bundle at the end is missing, false or
/// unreadable; `Ask` with `WriteFault`, after a prefix of the text was written. At each other fault nothing is written.
pub fn status_copy<H: TreeHash, D: NamedFolders, W: Write>(
    folders: &mut D,
    alloc: Global,
    origin: &str,
    keys: &[Box<dyn Verifier>],
    folder: &str,
    output: &mut W,
) -> Result<u8, CopyAskFault>
    ensures answer { Prints (ReportsStatus H.digest origin.now (map (λ k. key k) keys.now)
        (D.held folders.old folder.now)) (W.contents output.old) (W.contents output.new) result }
    ensures status { IfOk result IsStatus }
    ensures quiet { IfErr result
        (λ fault. (¬ IsWriteFault fault) → Keeps (W.contents output.old) (W.contents output.new)) }
    ensures kept { LeavesPuts (D.held folders.old folder.now) (D.puts folders.old)
        (D.puts folders.new) }
    ensures counted { CountsAsk (D.failed folders.old) (D.failed folders.new) result }
{
    let recorded = status_of_copy::<H, D>(folders, alloc, origin, keys, folder);
    print_text(output, recorded)
}
