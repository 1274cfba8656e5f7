//! The roots of a copy at smaller sizes.
ghost use Rattle.std.specs.Prelude.{◌≡◌, ◌≤◌, IfErr, IfOk, take};
ghost use Rattle.tlog_hash.specs.Tree.{mth};
ghost use Rattle.mirror_sources.specs.Source.{StaysWithin};
ghost use Rattle.mirror_sources.specs.Recorded.{KeepsRecord};
ghost use Rattle.log_reader.specs.FalseFiles.{NamesFalse};
ghost use Rattle.log_reader.specs.Faults.{CountsFailure};
ghost use Rattle.log_reader.specs.Holding.{ReadsTilesOf};
ghost use Rattle.copy_reader.specs.Damage.{NamesDamage};
ghost use Rattle.copy_reader.specs.Faults.{CountsRead};
ghost use Rattle.copy_reader.specs.Shown.{IsRootOf};
ghost use Rattle.copy_reader.specs.WholeCopies.{IsShelfFailure, ReadsCopyOf};

use crate::fault::CopyFault;
use crate::shelf_source::ShelfSource;
use log_reader::{LogReader, ReadFault};
use mirror_folders::ReadableShelf;
use mirror_sources::Source;
use std::alloc::Global;
use tlog_hash::{Hash, TreeHash};

// The root of the first entries.
#[tactic(auto, using(log_reader::proofs::Kept::kept_once))]
fn root_of<H: TreeHash, S: Source>(
    alloc: Global,
    reader: &mut LogReader<H>,
    files: &mut S,
    size: u64,
) -> Result<Hash, ReadFault>
    requires { size ≤ reader.old.edge.size }
    ensures shown { IfOk result (IsRootOf H.digest reader.old.edge.size reader.old.root size) }
    ensures edge { reader.new.edge ≡ reader.old.edge }
    ensures root { reader.new.root ≡ reader.old.root }
    ensures later { StaysWithin (S.may_answer files.old) (S.may_answer files.new) }
    ensures kept { KeepsRecord (S.files files.old) (S.files files.new) }
    ensures counted { CountsFailure (S.failed files.old) (S.failed files.new) result }
    ensures names { IfErr result (NamesFalse H.digest (S.may_answer files.old) reader.old.edge) }
    ensures honest { ReadsTilesOf H.digest reader.old reader.new (S.may_answer files.old) result
        (λ entries root. root ≡ mth H.digest (take size entries)) }
{
    let root = reader.root();
    if size == reader.size() {
        return Ok(root);
    }
    let first = reader.prefix(alloc, files, size)?;
    Ok(first.root())
}

/// The root of the first `size` entries, from verified rows of the files of the shelf.
///
/// ```text
/// read_root(alloc, &mut shelf, &mut reader, 257)?
/// ```
///
/// # Errors
///
/// `CopyDamaged`: a tile that the root needs is missing or false. `ShelfFault`: a file cannot be read; the shelf counts it. `OutOfMemory`:
/// memory was refused.
#[tactic(auto, using(crate::proofs::ShelfSources::same_shelf))]
pub fn read_root<H: TreeHash, D: ReadableShelf>(
    alloc: Global,
    shelf: &mut D,
    reader: &mut LogReader<H>,
    size: u64,
) -> Result<Hash, CopyFault>
    requires { size ≤ reader.old.edge.size }
    ensures shown { IfOk result (IsRootOf H.digest reader.old.edge.size reader.old.root size) }
    ensures edge { reader.new.edge ≡ reader.old.edge }
    ensures root { reader.new.root ≡ reader.old.root }
    ensures same { KeepsRecord (D.puts shelf.old) (D.puts shelf.new) }
    ensures counted { CountsRead (D.failed shelf.old) (D.failed shelf.new) result }
    ensures damage { IfErr result
        (NamesDamage H.digest (D.puts shelf.old) reader.old.edge) }
    ensures honest { ReadsCopyOf IsShelfFailure H.digest reader.old reader.new
        (D.puts shelf.old) result
        (λ entries root. root ≡ mth H.digest (take size entries)) }
{
    let mut files = ShelfSource::new(shelf);
    Ok(root_of(alloc, reader, &mut files, size)?)
}
