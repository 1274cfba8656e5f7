//! A bundle of a copy.
ghost use Rattle.std.specs.Prelude.{◌≡◌, ◌*◌, ◌<◌, IfErr, IfOk, length};
ghost use Rattle.tlog_tiles.specs.Tiles.{bundle_bytes};
ghost use Rattle.tlog_tiles.specs.declared.paths.Path.TheVariants.{Entries};
ghost use Rattle.mirror_sources.specs.Recorded.{KeepsRecord};
ghost use Rattle.mirror_folders.specs.Shelf.{RecordsRead};
ghost use Rattle.log_reader.specs.Holding.{row_width};
ghost use Rattle.log_reader.specs.Parts.{IsPartGiven};
ghost use Rattle.log_reader.specs.Ways.{IsShownBundle};
ghost use Rattle.copy_reader.specs.Damage.{NamesDamage};
ghost use Rattle.copy_reader.specs.Faults.{CountsRead};
ghost use Rattle.copy_reader.specs.WholeCopies.{IsShelfFailure, ReadsCopyOf};

use crate::fault::CopyFault;
use crate::shelf_source::ShelfSource;
use log_reader::LogReader;
use mirror_folders::ReadableShelf;
use std::alloc::Global;
use tlog_hash::TreeHash;

/// The bytes of a bundle, from the files of the shelf. They are those of `LogReader::bundle`, verified up to the root.
///
/// ```text
/// read_bundle(alloc, &mut shelf, &mut reader, 1)?   // with 257 entries: the last entry, after its length
/// ```
///
/// # Errors
///
/// `CopyDamaged`: the bundle, or a tile between it and the root, is missing or false. `ShelfFault`: a file cannot be read; the shelf
/// counts it. `OutOfMemory`: memory was refused.
#[tactic(auto, using(crate::proofs::ShelfSources::same_shelf))]
pub fn read_bundle<H: TreeHash, D: ReadableShelf>(
    alloc: Global,
    shelf: &mut D,
    reader: &mut LogReader<H>,
    index: u64,
) -> Result<Vec<u8>, CopyFault>
    requires { 256 * index < reader.old.edge.size }
    ensures edge { reader.new.edge ≡ reader.old.edge }
    ensures root { reader.new.root ≡ reader.old.root }
    ensures shown { IfOk result
        (λ bytes. IsShownBundle H.digest reader.old.edge index bytes.items) }
    ensures given { IfOk result (λ bytes. IsPartGiven (RecordsRead (D.puts shelf.old))
        (Entries index (row_width reader.old.edge.size 0 index)) bytes.items) }
    ensures same { KeepsRecord (D.puts shelf.old) (D.puts shelf.new) }
    ensures counted { CountsRead (D.failed shelf.old) (D.failed shelf.new) result }
    ensures damage { IfErr result
        (NamesDamage H.digest (D.puts shelf.old) reader.old.edge) }
    ensures honest { ReadsCopyOf IsShelfFailure H.digest reader.old reader.new
        (D.puts shelf.old) result
        (λ entries bytes. bytes.items
        ≡ bundle_bytes entries index (row_width (length entries) 0 index)) }
{
    let mut files = ShelfSource::new(shelf);
    Ok(reader.bundle(alloc, &mut files, index)?)
}
