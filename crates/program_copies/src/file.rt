//! A tile or a bundle of a copy.
ghost use Rattle.std.specs.Prelude.{◌≡◌, ◌↔◌, IfErr, IfNone, IfOk, IfSome, IsTrue, List, ℕ};
ghost use Rattle.tlog_tiles.specs.Tiles.{IsWithin};
ghost use Rattle.mirror_sources.specs.Recorded.{KeepsRecord};
ghost use Rattle.copy_reader.specs.Faults.{CountsRead};
ghost use Rattle.copy_reader.specs.WholeCopies.{IsShelfFailure};
ghost use Rattle.program_copies.specs.Damages.{NamesFile};
ghost use Rattle.program_copies.specs.GivenFiles.{IsEdgeTo, IsFileGiven};
ghost use Rattle.program_copies.specs.GivenProofs.{HasLogOf};

use crate::shown::read_path;
use crate::width::is_within;
use copy_reader::{CopyFault, open_reader};
use log_reader::LogReader;
use mirror_folders::ReadableShelf;
use std::alloc::Global;
use tlog_hash::{Hash, TreeHash};
use tlog_tiles::Path;

/// Whether two hashes are equal.
pub(crate) fn is_same(first: &Hash, second: &Hash) -> bool
    ensures { IsTrue result ↔ (first.now ≡ second.now) }
{
    first == second
}

// The reader that was kept, if it reads the log of that size and root.
fn take_reader<H: TreeHash>(
    kept: &mut Option<LogReader<H>>,
    size: u64,
    root: &Hash,
) -> Option<LogReader<H>>
    ensures { IfSome result (λ reader. IsEdgeTo H.digest size root.now reader.edge) }
{
    let Some(reader) = kept.take() else {
        return None;
    };
    let own = reader.root();
    if reader.size() == size && is_same(&own, root) {
        Some(reader)
    } else {
        None
    }
}

// The bytes of the path by the reader that was kept. None: there is none, or it finds a file damaged.
fn read_again<H: TreeHash, D: ReadableShelf>(
    alloc: Global,
    shelf: &mut D,
    kept: &mut Option<LogReader<H>>,
    size: u64,
    root: &Hash,
    path: &Path,
) -> Result<Option<Vec<u8>>, CopyFault>
    requires { IsWithin size path.now }
    ensures given { IfOk result (λ o. IfSome o
        (λ bytes. IsFileGiven H.digest size root.now path.now bytes.items)) }
    ensures fault { IfErr result IsShelfFailure }
    ensures same { KeepsRecord (D.puts shelf.old) (D.puts shelf.new) }
    ensures counted { CountsRead (D.failed shelf.old) (D.failed shelf.new) result }
{
    let Some(taken) = take_reader::<H>(kept, size, root) else {
        return Ok(None);
    };
    let mut reader = taken;
    match read_path::<H, D>(alloc, shelf, &mut reader, path) {
        Ok(bytes) => {
            *kept = Some(reader);
            Ok(Some(bytes))
        }
        Err(CopyFault::ShelfFault) => Err(CopyFault::ShelfFault),
        Err(CopyFault::OutOfMemory) => Err(CopyFault::OutOfMemory),
        Err(CopyFault::CopyDamaged(_)) => Ok(None),
        Err(CopyFault::Head(_)) => Ok(None),
        Err(CopyFault::BadOrigin) => Ok(None),
    }
}

// The bytes of the path by a new reader, which is kept.
fn read_anew<H: TreeHash, D: ReadableShelf>(
    alloc: Global,
    shelf: &mut D,
    kept: &mut Option<LogReader<H>>,
    size: u64,
    root: &Hash,
    path: &Path,
) -> Result<Vec<u8>, CopyFault>
    requires { IsWithin size path.now }
    ensures given { IfOk result
        (λ bytes. IsFileGiven H.digest size root.now path.now bytes.items) }
    ensures same { KeepsRecord (D.puts shelf.old) (D.puts shelf.new) }
    ensures counted { CountsRead (D.failed shelf.old) (D.failed shelf.new) result }
    ensures damage { IfErr result (NamesFile H.digest (D.puts shelf.old) size root.now) }
    ensures honest { (entries : List (List ℕ))
        → HasLogOf H.digest (D.puts shelf.old) size root.now entries
        → IfErr result IsShelfFailure }
{
    let opened = open_reader::<H, D>(alloc, shelf, size, root)?;
    let mut reader = opened;
    let _root = reader.root();
    let bytes = read_path::<H, D>(alloc, shelf, &mut reader, path)?;
    *kept = Some(reader);
    Ok(bytes)
}

/// The bytes of a tile or of a bundle, in a copy of that size and root. They lead to the root. None: the log does not have the path.
///
/// The rows that were read last are kept. Files that they find damaged are read anew, from the edge down.
///
/// # Errors
///
/// `CopyDamaged`: the file, or a tile between it and the root, is missing or false.
#[tactic(auto, using(log_reader::proofs::Kept::kept_twice))]
pub(crate) fn read_file<H: TreeHash, D: ReadableShelf>(
    alloc: Global,
    shelf: &mut D,
    kept: &mut Option<LogReader<H>>,
    size: u64,
    root: &Hash,
    path: &Path,
) -> Result<Option<Vec<u8>>, CopyFault>
    ensures given { IfOk result (λ o. IfSome o
        (λ bytes. IsFileGiven H.digest size root.now path.now bytes.items)) }
    ensures none { IfOk result (λ o. IfNone o (¬ IsWithin size path.now)) }
    ensures same { KeepsRecord (D.puts shelf.old) (D.puts shelf.new) }
    ensures counted { CountsRead (D.failed shelf.old) (D.failed shelf.new) result }
    ensures damage { IfErr result (NamesFile H.digest (D.puts shelf.old) size root.now) }
    ensures honest { (entries : List (List ℕ))
        → HasLogOf H.digest (D.puts shelf.old) size root.now entries
        → IfErr result IsShelfFailure }
{
    if !is_within(size, path) {
        return Ok(None);
    }
    match read_again::<H, D>(alloc, shelf, kept, size, root, path) {
        Ok(Some(bytes)) => Ok(Some(bytes)),
        Ok(None) => match read_anew::<H, D>(alloc, shelf, kept, size, root, path) {
            Ok(bytes) => Ok(Some(bytes)),
            Err(fault) => Err(fault),
        },
        Err(fault) => Err(fault),
    }
}
