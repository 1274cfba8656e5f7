//! The bytes of a tile or a bundle, from verified rows and bundles.
ghost use Rattle.std.specs.Prelude.{◌≡◌, ⊤, IfErr, IfOk};
ghost use Rattle.tlog_tiles.specs.Tiles.{IsTileWithin, IsWithin};
ghost use Rattle.mirror_sources.specs.Recorded.{KeepsRecord};
ghost use Rattle.copy_reader.specs.Damage.{NamesDamage};
ghost use Rattle.copy_reader.specs.Faults.{CountsRead};
ghost use Rattle.copy_reader.specs.WholeCopies.{IsShelfFailure, ReadsCopyOf};
ghost use Rattle.program_copies.specs.GivenFiles.{IsShownFile, IsShownPart, IsShownTile};

use crate::row::read_row;
use copy_reader::{CopyFault, read_bundle};
use log_reader::LogReader;
use mirror_folders::ReadableShelf;
use std::alloc::Global;
use tlog_hash::TreeHash;
use tlog_tiles::{Path, write_row};

// The first hashes of a tile.
#[tactic(auto, using(crate::proofs::Widths::index_within, crate::proofs::Widths::row_reaches))]
fn read_tile<H: TreeHash, D: ReadableShelf>(
    alloc: Global,
    shelf: &mut D,
    reader: &mut LogReader<H>,
    level: u32,
    index: u64,
    width: u32,
) -> Result<Vec<u8>, CopyFault>
    requires { IsTileWithin reader.old.edge.size level index width }
    ensures edge { reader.new.edge ≡ reader.old.edge }
    ensures root { reader.new.root ≡ reader.old.root }
    ensures shown { IfOk result (λ bytes. IsShownTile H.digest reader.old.edge level index width
        bytes.items) }
    ensures same { KeepsRecord (D.puts shelf.old) (D.puts shelf.new) }
    ensures counted { CountsRead (D.failed shelf.old) (D.failed shelf.new) result }
    ensures damage { IfErr result
        (NamesDamage H.digest (D.puts shelf.old) reader.old.edge) }
    ensures honest { ReadsCopyOf IsShelfFailure H.digest reader.old reader.new
        (D.puts shelf.old) result (λ entries _. ⊤) }
{
    let row = read_row::<H, D>(alloc, shelf, reader, level, index)?;
    let (first, _rest) = row.split_at(width as usize);
    Ok(write_row(alloc, first)?)
}

// The first entries of a bundle.
fn read_part<H: TreeHash, D: ReadableShelf>(
    alloc: Global,
    shelf: &mut D,
    reader: &mut LogReader<H>,
    index: u64,
    width: u32,
) -> Result<Vec<u8>, CopyFault>
    requires { IsTileWithin reader.old.edge.size 0 index width }
    ensures edge { reader.new.edge ≡ reader.old.edge }
    ensures root { reader.new.root ≡ reader.old.root }
    ensures shown { IfOk result (λ bytes. IsShownPart H.digest reader.old.edge index width
        bytes.items) }
    ensures same { KeepsRecord (D.puts shelf.old) (D.puts shelf.new) }
    ensures counted { CountsRead (D.failed shelf.old) (D.failed shelf.new) result }
    ensures damage { IfErr result
        (NamesDamage H.digest (D.puts shelf.old) reader.old.edge) }
    ensures honest { ReadsCopyOf IsShelfFailure H.digest reader.old reader.new
        (D.puts shelf.old) result (λ entries _. ⊤) }
{
    let bundle = read_bundle::<H, D>(alloc, shelf, reader, index)?;
    // The rows of its edge have the widths of their levels.
    let _root = reader.root();
    let wider = (reader.size() - 256 * index).min(256) as u32;
    let path = Path::Entries { index, width };
    match path.cut(wider, &bundle) {
        Some(first) => Ok(Vec::from_slice(alloc, first)?),
        None => Err(CopyFault::CopyDamaged(path)),
    }
}

/// The bytes of the tile or bundle at the path, which the reader's log has: the first hashes of a verified row, or the first entries of a
/// verified bundle.
///
/// # Errors
///
/// `CopyDamaged`: the file, or a tile between it and the root, is missing or false. `ShelfFault`: a file cannot be read; the shelf counts
/// it. `OutOfMemory`: memory was refused.
pub(crate) fn read_path<H: TreeHash, D: ReadableShelf>(
    alloc: Global,
    shelf: &mut D,
    reader: &mut LogReader<H>,
    path: &Path,
) -> Result<Vec<u8>, CopyFault>
    requires { IsWithin reader.old.edge.size path.now }
    ensures edge { reader.new.edge ≡ reader.old.edge }
    ensures root { reader.new.root ≡ reader.old.root }
    ensures shown { IfOk result
        (λ bytes. IsShownFile H.digest reader.old.edge path.now bytes.items) }
    ensures same { KeepsRecord (D.puts shelf.old) (D.puts shelf.new) }
    ensures counted { CountsRead (D.failed shelf.old) (D.failed shelf.new) result }
    ensures damage { IfErr result
        (NamesDamage H.digest (D.puts shelf.old) reader.old.edge) }
    ensures honest { ReadsCopyOf IsShelfFailure H.digest reader.old reader.new
        (D.puts shelf.old) result (λ entries _. ⊤) }
{
    match *path {
        Path::Checkpoint => Err(CopyFault::CopyDamaged(Path::Checkpoint)),
        Path::Tile {
            level,
            index,
            width,
        } => read_tile::<H, D>(alloc, shelf, reader, level, index, width),
        Path::Entries { index, width } => read_part::<H, D>(alloc, shelf, reader, index, width),
    }
}
