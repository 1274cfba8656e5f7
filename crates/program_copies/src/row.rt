//! A row of a copy's tile.
ghost use Rattle.std.specs.Prelude.{◌≡◌, ◌≤◌, IfErr, IfOk, length};
ghost use Rattle.tlog_shape.specs.Edge.{edge_index_of};
ghost use Rattle.mirror_sources.specs.Recorded.{KeepsRecord};
ghost use Rattle.log_reader.specs.Holding.{row_width, true_row};
ghost use Rattle.log_reader.specs.Ways.{IsShownRow};
ghost use Rattle.copy_reader.specs.Damage.{NamesDamage};
ghost use Rattle.copy_reader.specs.Faults.{CountsRead};
ghost use Rattle.copy_reader.specs.WholeCopies.{IsShelfFailure, ReadsCopyOf};

use copy_reader::{CopyFault, ShelfSource};
use log_reader::LogReader;
use mirror_folders::ReadableShelf;
use std::alloc::Global;
use tlog_hash::{Hash, TreeHash};

/// The row of a tile, from the files of the shelf. It is that of `LogReader::row`, verified up to the root.
///
/// # Errors
///
/// `CopyDamaged`: the tile, or one between it and the root, is missing or false. `ShelfFault`: a file cannot be read; the shelf counts it.
/// `OutOfMemory`: memory was refused.
#[tactic(auto, using(copy_reader::proofs::ShelfSources::same_shelf))]
pub(crate) fn read_row<H: TreeHash, D: ReadableShelf>(
    alloc: Global,
    shelf: &mut D,
    reader: &mut LogReader<H>,
    level: u32,
    index: u64,
) -> Result<Vec<Hash>, CopyFault>
    requires level { level ≤ 7 }
    requires within { index ≤ edge_index_of reader.old.edge.size level }
    ensures edge { reader.new.edge ≡ reader.old.edge }
    ensures root { reader.new.root ≡ reader.old.root }
    ensures shown { IfOk result
        (λ row. IsShownRow H.digest reader.old.edge level index row.items) }
    ensures enough { IfOk result
        (λ row. row_width reader.old.edge.size level index ≤ length row.items) }
    ensures same { KeepsRecord (D.puts shelf.old) (D.puts shelf.new) }
    ensures counted { CountsRead (D.failed shelf.old) (D.failed shelf.new) result }
    ensures damage { IfErr result
        (NamesDamage H.digest (D.puts shelf.old) reader.old.edge) }
    ensures honest { ReadsCopyOf IsShelfFailure H.digest reader.old reader.new
        (D.puts shelf.old) result
        (λ entries row. row.items ≡ true_row H.digest entries level index) }
{
    let mut files = ShelfSource::new(shelf);
    Ok(reader.row(alloc, &mut files, level, index)?)
}
