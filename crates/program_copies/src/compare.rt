//! Compares checkpoints with a copy.
ghost use Rattle.std.specs.Prelude.{◌≡◌, ◌≢◌, ◌↔◌, [], ⊤, All, IfErr, IfOk, IsTrue, map, option_map};
ghost use Rattle.tlog_text.specs.Answers.{seen};
ghost use Rattle.mirror_sources.specs.Recorded.{KeepsRecord};
ghost use Rattle.copy_reader.specs.Copies.{LeavesPuts};
ghost use Rattle.copy_reader.specs.Damage.{NamesDamage};
ghost use Rattle.copy_reader.specs.Faults.{CountsRead};
ghost use Rattle.copy_reader.specs.WholeCopies.{IsShelfFailure, ReadsCopyOf};
ghost use Rattle.tlog_mirror.specs.Compared.{IsCompared, compared_point, compared_text};
ghost use Rattle.program_reports.specs.Comparisons.{compare_status};
ghost use Rattle.program_reports.specs.Reports.{printed};
ghost use Rattle.program_copies.specs.Comparisons.{AreCompared, GivesHeads, IsComparedTo, IsComparisonOf, IsLogRead, ReportsCompared, heads_of};
ghost use Rattle.std.specs.Io.KnownBytes.{Keeps};
ghost use Rattle.program_copies.specs.Printed.{CountsAsk, HasStatus, IsStatus, IsWriteFault, Prints};

use crate::fault::CopyAskFault;
use crate::opened::open_copy;
use crate::printing::print_text;
use copy_reader::{CopyFault, read_root};
use log_reader::LogReader;
use mirror_folders::{NamedFolders, ReadableShelf};
use program_io::{NamedFiles, read_heads};
use program_reports::{AskFault, Report, ReportFault, comparison_status};
use signed_note::Verifier;
use std::alloc::{AllocError, Global};
use std::io::Write;
use tlog_hash::{Hash, TreeHash};
use tlog_mirror::{Compared, Mirror, NewFault, comparison_text};

fn is_same(first: &Hash, second: &Hash) -> bool
    ensures { IsTrue result ↔ (first.now ≡ second.now) }
{
    first == second
}

// Compares a tree head with the log.
#[tactic(auto, using(log_reader::proofs::Kept::kept_once))]
fn compare_one<H: TreeHash, D: ReadableShelf>(
    alloc: Global,
    shelf: &mut D,
    reader: &mut LogReader<H>,
    size: u64,
    root: &Hash,
) -> Result<Compared, CopyFault>
    ensures head { IfOk result
        (λ one. compared_point one ≡ record { size = size; root = root.now }) }
    ensures is { IfOk result (IsComparedTo H.digest reader.old.edge.size reader.old.root) }
    ensures edge { reader.new.edge ≡ reader.old.edge }
    ensures root { reader.new.root ≡ reader.old.root }
    ensures same { KeepsRecord (D.puts shelf.old) (D.puts shelf.new) }
    ensures counted { CountsRead (D.failed shelf.old) (D.failed shelf.new) result }
    ensures damage { IfErr result (NamesDamage H.digest (D.puts shelf.old) reader.old.edge) }
    ensures honest { ReadsCopyOf IsShelfFailure H.digest reader.old reader.new
        (D.puts shelf.old) result (IsCompared H.digest) }
{
    if size > reader.size() {
        return Ok(Compared::Larger { size, root: *root });
    }
    let own = read_root::<H, D>(alloc, shelf, reader, size)?;
    if is_same(&own, root) {
        Ok(Compared::Same { size, root: *root })
    } else {
        Ok(Compared::Fork {
            size,
            root: *root,
            own,
        })
    }
}

// Compares each of the tree heads with the log.
#[tactic(auto, using(log_reader::proofs::Kept::kept_twice, log_reader::proofs::Kept::kept_once))]
fn compare_all<H: TreeHash, D: ReadableShelf>(
    alloc: Global,
    shelf: &mut D,
    reader: &mut LogReader<H>,
    heads: &[(u64, Hash)],
) -> Result<Vec<Compared>, CopyFault>
    ensures compared { IfOk result (λ compared. AreCompared H.digest reader.old.edge.size
        reader.old.root heads.now compared.items) }
    ensures same { KeepsRecord (D.puts shelf.old) (D.puts shelf.new) }
    ensures counted { CountsRead (D.failed shelf.old) (D.failed shelf.new) result }
    ensures damage { IfErr result (NamesDamage H.digest (D.puts shelf.old) reader.old.edge) }
    ensures honest { ReadsCopyOf IsShelfFailure H.digest reader.old reader.new
        (D.puts shelf.old) result
        (λ entries compared. All (IsCompared H.digest entries) compared.items) }
{
    let mut compared = Vec::new(alloc);
    for head in heads {
        compared.push(compare_one::<H, D>(alloc, shelf, reader, head.0, &head.1)?)?;
    }
    Ok(compared)
}

// The given tree heads, or else the log's own.
fn heads_or_own<H: TreeHash>(
    alloc: Global,
    reader: &LogReader<H>,
    given: Option<Vec<(u64, Hash)>>,
) -> Result<Vec<(u64, Hash)>, AllocError>
    ensures { IfOk result (λ heads. heads.items ≡ heads_of (option_map (λ v. v.items) given)
        reader.now.edge.size reader.now.root) }
{
    match given {
        Some(heads) => Ok(heads),
        None => {
            let mut heads = Vec::new(alloc);
            heads.push((reader.size(), reader.root()))?;
            Ok(heads)
        }
    }
}

// The report on the comparisons.
fn compared_report(alloc: Global, compared: &[Compared]) -> Result<Report, AllocError>
    ensures text { IfOk result (λ report. printed report ≡ compared_text compared.now) }
    ensures status { IfOk result (λ report. report.status ≡ compare_status compared.now) }
{
    let text = comparison_text(alloc, compared)?;
    let status = comparison_status(compared);
    Ok(Report { text, status })
}

// The report on the given tree heads, or else on the log's own.
fn compare_report<H: TreeHash, D: ReadableShelf>(
    alloc: Global,
    shelf: &mut D,
    reader: &mut LogReader<H>,
    given: Option<Vec<(u64, Hash)>>,
) -> Result<Report, CopyFault>
    ensures report { IfOk result (IsComparisonOf H.digest reader.old.edge.size reader.old.root
        (option_map (λ v. v.items) given)
        (IsLogRead H.digest reader.old (D.puts shelf.old))) }
    ensures same { KeepsRecord (D.puts shelf.old) (D.puts shelf.new) }
    ensures counted { CountsRead (D.failed shelf.old) (D.failed shelf.new) result }
    ensures damage { IfErr result (NamesDamage H.digest (D.puts shelf.old) reader.old.edge) }
    ensures honest { ReadsCopyOf IsShelfFailure H.digest reader.old reader.new
        (D.puts shelf.old) result (λ _ _. ⊤) }
{
    let heads = heads_or_own::<H>(alloc, reader, given)?;
    let compared = compare_all::<H, D>(alloc, shelf, reader, &heads)?;
    Ok(compared_report(alloc, &compared)?)
}

// The tree heads of the files, of which there are some, for a mirror of the origin.
fn heads_for<H: TreeHash, F: NamedFiles>(
    files: &F,
    alloc: Global,
    mirror: &Mirror<H>,
    keys: &[Box<dyn Verifier>],
    names: &[&str],
) -> Result<Option<Vec<(u64, Hash)>>, CopyAskFault>
    requires { map (λ name. name.now) names.now ≢ [] }
    ensures { GivesHeads mirror.now.view.origin (map (λ k. key k) keys.now) (F.puts files.now)
        (map (λ name. name.now) names.now) (seen (option_map (λ heads. heads.items)) result) }
{
    match read_heads(files, alloc, mirror, keys, names) {
        Ok(heads) => Ok(Some(heads)),
        Err(fault) => Err(CopyAskFault::Heads(fault)),
    }
}

// The tree heads of the files. None: no file is named.
fn given_heads<H: TreeHash, F: NamedFiles>(
    files: &F,
    alloc: Global,
    origin: &str,
    keys: &[Box<dyn Verifier>],
    names: &[&str],
) -> Result<Option<Vec<(u64, Hash)>>, CopyAskFault>
    ensures { GivesHeads origin.now (map (λ k. key k) keys.now) (F.puts files.now)
        (map (λ name. name.now) names.now) (seen (option_map (λ heads. heads.items)) result) }
{
    if names.is_empty() {
        return Ok(None);
    }
    match Mirror::<H>::new(alloc, origin) {
        Ok(mirror) => heads_for::<H, F>(files, alloc, &mirror, keys, names),
        Err(NewFault::BadOrigin) => Err(CopyAskFault::Copy(CopyFault::BadOrigin)),
        Err(NewFault::OutOfMemory) => Err(CopyAskFault::Copy(CopyFault::OutOfMemory)),
    }
}

// The report on the copy in the folder.
fn compare_text<H: TreeHash, F: NamedFiles, D: NamedFolders>(
    files: &F,
    folders: &mut D,
    alloc: Global,
    origin: &str,
    keys: &[Box<dyn Verifier>],
    folder: &str,
    names: &[&str],
) -> Result<Report, CopyAskFault>
    ensures answer { ReportsCompared origin.now (map (λ k. key k) keys.now) (F.puts files.now)
        (map (λ name. name.now) names.now) H.digest (D.held folders.old folder.now) result }
    ensures status { IfOk result HasStatus }
    ensures kept { LeavesPuts (D.held folders.old folder.now) (D.puts folders.old)
        (D.puts folders.new) }
    ensures counted { CountsAsk (D.failed folders.old) (D.failed folders.new) result }
{
    let opened = match open_copy::<H, D>(folders, alloc, origin, keys, folder) {
        Ok(opened) => opened,
        Err(fault) => return Err(CopyAskFault::Copy(fault)),
    };
    let given = match given_heads::<H, F>(files, alloc, origin, keys, names) {
        Ok(given) => given,
        Err(fault) => return Err(fault),
    };
    let Some(reader) = opened else {
        return Err(CopyAskFault::Ask(AskFault::Report(ReportFault::NothingComplete)));
    };
    let mut reader = reader;
    let _root = reader.root();
    match compare_report::<H, D>(alloc, folders, &mut reader, given) {
        Ok(report) => Ok(report),
        Err(fault) => Err(CopyAskFault::Copy(fault)),
    }
}

/// Compares each checkpoint in the files with the copy, and prints a line for it: `same`, `fork` or `larger`. If no file is named, it
/// compares the copy's own checkpoint. The lines are those of `compare` for a state with the copy's checkpoint. Each root in a line is
/// shown by verified rows. Returns the exit status: 0, or 3 if a line is not `same`.
///
/// ```text
/// compare_copy::<Sha256Tree, _, _, _>(&files, &mut folders, alloc, "example.com/log", &keys, "log", &["seen.note"], &mut output)?
/// // larger 400 YyO3RA9T90I4DGBqDCfl1IR8gY+LHcAdHucdWirFtGc=, and 3
/// ```
///
/// # Errors
///
/// In this order:
/// - `Copy`, with the faults of `open_copy`.
/// - `Heads`, with the faults of `read_heads`.
/// - `Ask` with `NothingComplete`: the copy is empty.
/// - `Copy` with `CopyDamaged` or `ShelfFault`: a tile that a root needs is missing, false or unreadable.
/// - `Ask` with `WriteFault`: a prefix of the text was written. At each other fault nothing is written.
pub fn compare_copy<H: TreeHash, F: NamedFiles, D: NamedFolders, W: Write>(
    files: &F,
    folders: &mut D,
    alloc: Global,
    origin: &str,
    keys: &[Box<dyn Verifier>],
    folder: &str,
    names: &[&str],
    output: &mut W,
) -> Result<u8, CopyAskFault>
    ensures answer { Prints (ReportsCompared origin.now (map (λ k. key k) keys.now)
        (F.puts files.now) (map (λ name. name.now) names.now) H.digest
        (D.held folders.old folder.now)) (W.contents output.old) (W.contents output.new) result }
    ensures status { IfOk result IsStatus }
    ensures quiet { IfErr result
        (λ fault. (¬ IsWriteFault fault) → Keeps (W.contents output.old) (W.contents output.new)) }
    ensures kept { LeavesPuts (D.held folders.old folder.now) (D.puts folders.old)
        (D.puts folders.new) }
    ensures counted { CountsAsk (D.failed folders.old) (D.failed folders.new) result }
{
    let recorded = compare_text::<H, F, D>(files, folders, alloc, origin, keys, folder, names);
    print_text(output, recorded)
}
