//! A copy is opened: its checkpoint, and a reader of its log.
ghost use Rattle.std.specs.Prelude.{◌≡◌, IfErr, IfOk, IfSome, map};
ghost use Rattle.mirror_sources.specs.Recorded.{KeepsRecord};
ghost use Rattle.mirror_folders.specs.Shelf.{RecordsRead};
ghost use Rattle.mirror_model.specs.Heads.{IsOpenHead};
ghost use Rattle.copy_reader.specs.Copies.{OpensCopy, RefusesNote};
ghost use Rattle.copy_reader.specs.Damage.{NamesEdgeDamage, NamesOpenDamage};
ghost use Rattle.copy_reader.specs.Faults.{CountsCopy, CountsRead};
ghost use Rattle.copy_reader.specs.WholeCopies.{IsOfShelf, OpensWhole, ReadsCopyLog};
ghost use Rattle.log_reader.specs.FalseEdges.{IsEdgeGiven};
ghost use Rattle.log_reader.specs.Holding.{IsReaderOf};

use crate::fault::CopyFault;
use crate::shelf_source::ShelfSource;
use log_reader::{LogReader, open_head};
use mirror_folders::ReadableShelf;
use mirror_model::TakeFault;
use signed_note::Verifier;
use std::alloc::Global;
use tlog_hash::{Hash, TreeHash};
use tlog_tiles::Path;

/// A reader of a log of that size and root. The edge has to be on the shelf.
///
/// ```text
/// let mut reader = open_reader::<Sha256Tree, _>(alloc, &mut shelf, 257, &root)?;   // reads tile/0/001.p/1 and tile/1/000.p/1
/// ```
///
/// # Errors
///
/// `CopyDamaged`: a partial tile of the right edge and its full tile are missing, or the rows do not lead to the root. `ShelfFault`: a file
/// cannot be read; the shelf counts it. `OutOfMemory`: memory was refused.
#[tactic(auto, using(crate::proofs::ShelfSources::same_shelf))]
pub fn open_reader<H: TreeHash, D: ReadableShelf>(
    alloc: Global,
    shelf: &mut D,
    size: u64,
    root: &Hash,
) -> Result<LogReader<H>, CopyFault>
    ensures size { IfOk result (λ reader. reader.edge.size ≡ size) }
    ensures root { IfOk result (λ reader. reader.root ≡ root.now) }
    ensures given { IfOk result
        (λ reader. IsEdgeGiven (RecordsRead (D.puts shelf.old)) size reader.edge) }
    ensures same { KeepsRecord (D.puts shelf.old) (D.puts shelf.new) }
    ensures counted { CountsRead (D.failed shelf.old) (D.failed shelf.new) result }
    ensures damage { IfErr result
        (NamesEdgeDamage H.digest (D.puts shelf.old) size root.now) }
    ensures honest { ReadsCopyLog H.digest size root.now (D.puts shelf.old) result
        (λ entries reader. IsReaderOf H.digest entries reader) }
{
    let mut files = ShelfSource::new(shelf);
    Ok(LogReader::open(alloc, &mut files, size, root)?)
}

// The size and root of the checkpoint in a note, which opens under the keys.
#[tactic(auto, using(crate::proofs::HeadNotes::opened_head))]
fn head_in(
    alloc: Global,
    origin: &str,
    keys: &[Box<dyn Verifier>],
    note: &[u8],
) -> Result<(u64, Hash), CopyFault>
    ensures opens { IfOk result
        (λ head. IsOpenHead note.now origin.now (map (λ k. key k) keys.now) head.0 head.1) }
    ensures refused { IfErr result
        (RefusesNote note.now origin.now (map (λ k. key k) keys.now)) }
{
    match open_head(alloc, origin, keys, note) {
        Ok(checkpoint) => {
            let root = checkpoint.root;
            Ok((checkpoint.size, root))
        }
        Err(TakeFault::OutOfMemory) => Err(CopyFault::OutOfMemory),
        Err(fault) => Err(CopyFault::Head(fault)),
    }
}

/// The log whose checkpoint is on the shelf. The checkpoint opens under the keys, and the rows of its edge lead to its root. None: the
/// shelf has no checkpoint, so the copy is empty.
///
/// ```text
/// let opened = open_shelf::<Sha256Tree, _>(alloc, &mut shelf, "example.com/log", &keys)?;
/// opened.map(|reader| reader.size())   // Some(257)
/// ```
///
/// # Errors
///
/// The first that applies. `ShelfFault`: a file cannot be read. `Head`, with the fault of `check_head`: the checkpoint does not open. Then
/// the faults of `open_reader`. `BadOrigin` never comes.
#[tactic(auto, using(log_reader::proofs::Kept::kept_twice, crate::proofs::HeadNotes::note_refused, crate::proofs::HeadNotes::note_counts, crate::proofs::HeadNotes::note_of_shelf, crate::proofs::Damage::note_damage))]
pub fn open_shelf<H: TreeHash, D: ReadableShelf>(
    alloc: Global,
    shelf: &mut D,
    origin: &str,
    keys: &[Box<dyn Verifier>],
) -> Result<Option<LogReader<H>>, CopyFault>
    ensures answer { OpensCopy H.digest origin.now (map (λ k. key k) keys.now)
        (D.puts shelf.old) result }
    ensures given { IfOk result (λ found. IfSome found (λ reader. IsEdgeGiven
        (RecordsRead (D.puts shelf.old)) reader.edge.size reader.edge)) }
    ensures same { KeepsRecord (D.puts shelf.old) (D.puts shelf.new) }
    ensures counted { CountsCopy (D.failed shelf.old) (D.failed shelf.new) result }
    ensures fault { IfErr result IsOfShelf }
    ensures damage { IfErr result (NamesOpenDamage H.digest (D.puts shelf.old) origin.now
        (map (λ k. key k) keys.now)) }
    ensures honest { IfOk result (OpensWhole H.digest origin.now (D.puts shelf.old)) }
{
    let Some(note) = shelf.read(&Path::Checkpoint)? else {
        return Ok(None);
    };
    let head = head_in(alloc, origin, keys, &note)?;
    let reader = open_reader::<H, D>(alloc, shelf, head.0, &head.1)?;
    Ok(Some(reader))
}
