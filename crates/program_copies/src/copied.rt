//! The command `entries` over a copy: writes entries of the log in a folder, each one verified first.
ghost use Rattle.std.specs.Prelude.{◌<◌, ◌≤◌, ℕ, List, IfErr, OnErr, OnOk, map};
ghost use Rattle.mirror_sources.specs.Recorded.{KeepsRecord};
ghost use Rattle.log_reader.specs.Ways.{HasEdgeHashes};
ghost use Rattle.copy_reader.specs.Copies.{LeavesPuts};
ghost use Rattle.copy_reader.specs.WholeCopies.{HasFilesOf};
ghost use Rattle.log_reader.specs.Holding.{IsReaderOf};
ghost use Rattle.program_copies.specs.Copied.{AnswersCopied, CountsCopy, EndsWritten, IsOfWriting, IsRangeFault, NamesFalseIn};
ghost use Rattle.program_copies.specs.Shown.{WritesShown, WritesSomeShown};

use crate::cutting::CutFault;
use crate::entries_fault::CopyEntriesFault;
use crate::entries_opening::{bundle_on, open_copy};
use crate::writing::write_from;
use log_reader::LogReader;
use mirror_folders::{NamedFolders, ReadableShelf};
use program_words::commands::entries::EntryRange;
use signed_note::Verifier;
use std::alloc::Global;
use std::io::Write;
use tlog_hash::TreeHash;

// Writes the entries, bundle after bundle.
fn write_copied<H: TreeHash, D: ReadableShelf, W: Write>(
    shelf: &mut D,
    alloc: Global,
    reader: &mut LogReader<H>,
    range: &EntryRange,
    output: &mut W,
) -> Result<(), CopyEntriesFault>
    requires rises { range.now.from ≤ range.now.to }
    requires within { range.now.to ≤ reader.old.edge.size }
    requires hashes { HasEdgeHashes reader.old.edge }
    ensures ok { OnOk result (WritesShown H.digest reader.old.edge range.now.base64 range.now.from
        range.now.to (W.contents output.old) (W.contents output.new)) }
    ensures err { OnErr result (WritesSomeShown H.digest reader.old.edge range.now.base64
        range.now.from range.now.to (W.contents output.old) (W.contents output.new)) }
    ensures fault { IfErr result IsOfWriting }
    ensures damage { IfErr result (NamesFalseIn H.digest (D.puts shelf.old) reader.old.edge) }
    ensures honest { (entries : List (List ℕ)) → IsReaderOf H.digest entries reader.old
        → HasFilesOf H.digest entries (D.puts shelf.old) → EndsWritten entries range.now.base64
        range.now.from range.now.to (W.contents output.old) (W.contents output.new) result }
    ensures same { KeepsRecord (D.puts shelf.old) (D.puts shelf.new) }
    ensures counted { CountsCopy (D.failed shelf.old) (D.failed shelf.new) result }
{
    let size = reader.size();
    let mut at = range.from;
    while at < range.to {
        let bytes = bundle_on::<H, D>(shelf, alloc, reader, at / 256)?;
        match write_from(alloc, &bytes, size, at, range, output) {
            Ok(next) => at = next,
            Err(CutFault::WriteFault) => return Err(CopyEntriesFault::WriteFault),
            Err(CutFault::OutOfMemory) => return Err(CopyEntriesFault::OutOfMemory),
        }
    }
    Ok(())
}

// The fault of a range of entries of a log of that size.
fn fault_of_range(range: &EntryRange, size: u64) -> Option<CopyEntriesFault>
    ensures { IsRangeFault range.now.from range.now.to size result }
{
    if range.to > size {
        Some(CopyEntriesFault::NoSuchSize)
    } else if range.from > range.to {
        Some(CopyEntriesFault::Backwards)
    } else {
        None
    }
}

// Writes entries of the copy on the shelf.
fn write_range<H: TreeHash, D: ReadableShelf, W: Write>(
    shelf: &mut D,
    alloc: Global,
    origin: &str,
    keys: &[Box<dyn Verifier>],
    range: &EntryRange,
    output: &mut W,
) -> Result<(), CopyEntriesFault>
    ensures answer { AnswersCopied H.digest origin.now (map (λ k. key k) keys.now)
        (D.puts shelf.old) range.now.from range.now.to range.now.base64 (W.contents output.old)
        (W.contents output.new) result }
    ensures same { KeepsRecord (D.puts shelf.old) (D.puts shelf.new) }
    ensures counted { CountsCopy (D.failed shelf.old) (D.failed shelf.new) result }
{
    let mut reader = open_copy::<H, D>(shelf, alloc, origin, keys)?;
    match fault_of_range(range, reader.size()) {
        Some(fault) => Err(fault),
        None => write_copied::<H, D, W>(shelf, alloc, &mut reader, range, output),
    }
}

/// Writes entries of the copy in the folder, in order. A copy is a log's files as the log publishes them. Before its entries are written,
/// each bundle is verified up to the root of the copy's checkpoint, which has to open under the keys. Memory holds one bundle, and one row
/// a level, for all sizes of the log.
///
/// ```text
/// let range = EntryRange { from: 599, to: 600, base64: true };
/// entries_of_copy::<Sha256Tree, _, _>(&mut folders, alloc, "example.com/log", &keys, "log", &range, &mut output)?
/// // Alc=
/// ```
///
/// # Errors
///
/// In this order, and before anything is written:
/// - `NothingComplete`: the folder has no checkpoint.
/// - `Head`: the checkpoint does not open under the keys, with the fault of `log_reader::open_head`.
/// - `CopyDamaged`: a row of the edge is missing, or the rows do not lead to the root.
/// - `NoSuchSize`: the copy has fewer than `range.to` entries.
/// - `Backwards`: `range.from` is larger than `range.to`.
///
/// While entries are written:
/// - `CopyDamaged`: a file is missing, or does not lead to the root.
/// - `WriteFault`: a write failed, or wrote no byte.
///
/// At any time:
/// - `ShelfFault`: a file cannot be read.
/// - `OutOfMemory`: memory was refused.
///
/// The entries that were written before stay, and are right.
pub fn entries_of_copy<H: TreeHash, D: NamedFolders, W: Write>(
    folders: &mut D,
    alloc: Global,
    origin: &str,
    keys: &[Box<dyn Verifier>],
    folder: &str,
    range: &EntryRange,
    output: &mut W,
) -> Result<(), CopyEntriesFault>
    ensures answer { AnswersCopied H.digest origin.now (map (λ k. key k) keys.now)
        (D.held folders.old folder.now) range.now.from range.now.to range.now.base64
        (W.contents output.old) (W.contents output.new) result }
    ensures same { LeavesPuts (D.held folders.old folder.now) (D.puts folders.old)
        (D.puts folders.new) }
    ensures counted { CountsCopy (D.failed folders.old) (D.failed folders.new) result }
{
    match folders.open(folder) {
        Ok(()) => {}
        Err(_) => return Err(CopyEntriesFault::OutOfMemory),
    }
    write_range::<H, D, W>(folders, alloc, origin, keys, range, output)
}
