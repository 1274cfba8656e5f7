//! The copy on the shelf, as a run finds it.
ghost use Rattle.std.specs.Prelude.{◌≡◌, ◌<◌, ℕ, IfErr, IfOk, IfSome, List, None, OnOk, Some, ⊤};
ghost use Rattle.tlog_tiles.specs.declared.paths.Path.TheVariants.{Checkpoint};
ghost use Rattle.mirror_sources.specs.Recorded.{KeepsRecord};
ghost use Rattle.mirror_folders.specs.Shelf.{RecordsRead};
ghost use Rattle.copy_reader.specs.Ends.{IsReadAtEnd};
ghost use Rattle.copy_reader.specs.Faults.{CountsRead};
ghost use Rattle.copy_reader.specs.WholeCopies.{ReadsCopyLog};
ghost use Rattle.copy_places.specs.Agreeing.{Agrees};
ghost use Rattle.copy_places.specs.Shown.{ShowsLarger};
ghost use Rattle.copy_places.specs.Candidates.{point_of};
ghost use Rattle.copy_follow.specs.Blame.{CountsFollow, by_copy};
ghost use Rattle.copy_follow.specs.Ending.{EndsRun};
ghost use Rattle.copy_follow.specs.RunStanding.{HoldsNoCopy, IsFoundCopy, IsHeadOf};

use crate::follow_fault::FollowFault;
use copy_places::{Candidate, fork_proof};
use copy_reader::{CopyFault, ShelfSource, open_reader, read_end};
use log_reader::head_of;
use mirror_folders::ReadableShelf;
use std::alloc::Global;
use std::cmp::Reverse;
use tlog_hash::{Hash, TreeHash};
use tlog_proof::Proof;
use tlog_tiles::Path;

/// The proof that the copy does not begin with a smaller candidate. None: it does, or the candidate has no entries.
pub(crate) fn read_proof<H: TreeHash, D: ReadableShelf>(
    alloc: Global,
    shelf: &mut D,
    smaller: &Candidate,
    copy: &Candidate,
) -> Result<Option<Proof>, CopyFault>
    ensures same { KeepsRecord (D.puts shelf.old) (D.puts shelf.new) }
    ensures counted { CountsRead (D.failed shelf.old) (D.failed shelf.new) result }
    ensures honest { ReadsCopyLog H.digest copy.now.size.0 copy.now.root (D.puts shelf.old) result
        (λ _ _. ⊤) }
    ensures proof { IfOk result (λ found. IfSome found
        (λ proof. ShowsLarger H.digest smaller.now copy.now (Some proof))) }
    ensures agrees { IfOk result (λ found. found ≡ None → 0 < smaller.now.size.0
        → smaller.now.size.0 < copy.now.size.0
        → Agrees H.digest (point_of smaller.now) (point_of copy.now)) }
{
    let mut files = ShelfSource::new(shelf);
    Ok(fork_proof::<H, ShelfSource<D>>(alloc, &mut files, smaller, copy)?)
}

/// The fault of a run after a fault of its copy. The shelf notes the file that is missing or false.
pub(crate) fn fault_of_copy<D: ReadableShelf>(shelf: &mut D, fault: CopyFault) -> FollowFault
    ensures puts { D.puts shelf.new ≡ D.puts shelf.old }
    ensures failed { D.failed shelf.new ≡ D.failed shelf.old }
    ensures fault { result ≡ by_copy fault }
{
    match fault {
        CopyFault::CopyDamaged(path) => {
            shelf.note_damaged(&path);
            FollowFault::CopyDamaged
        }
        // The checkpoint was read before, and no signature is verified: these two do not come.
        CopyFault::BadOrigin => FollowFault::CopyDamaged,
        CopyFault::Head(_) => FollowFault::CopyDamaged,
        CopyFault::ShelfFault => FollowFault::ShelfFault,
        CopyFault::OutOfMemory => FollowFault::OutOfMemory,
    }
}

// Reads the edge of a copy of that size and root. Its rows have to lead to the root, and the partial bundle has to have the leaf hashes of
// the lowest row.
#[tactic(auto, using(log_reader::proofs::Kept::kept_twice))]
fn judge_files<H: TreeHash, D: ReadableShelf>(
    alloc: Global,
    shelf: &mut D,
    size: u64,
    root: &Hash,
) -> Result<(), CopyFault>
    ensures same { KeepsRecord (D.puts shelf.old) (D.puts shelf.new) }
    ensures counted { CountsRead (D.failed shelf.old) (D.failed shelf.new) result }
    ensures judged { OnOk result (IsReadAtEnd H.digest (D.puts shelf.old) size root.now) }
    ensures honest { ReadsCopyLog H.digest size root.now (D.puts shelf.old) result (λ _ _. ⊤) }
{
    let mut reader = open_reader::<H, D>(alloc, shelf, size, root)?;
    let _root = reader.root();
    read_end::<H, D>(alloc, shelf, &mut reader)?;
    Ok(())
}

/// The checkpoint of the copy on the shelf, if any. Its edge rows have to lead to its root. The partial bundle at the right edge has to
/// have the leaf hashes of the lowest row. This call verifies no signature.
#[tactic(auto, using(log_reader::proofs::Kept::kept_twice))]
pub(crate) fn judge_copy<H: TreeHash, D: ReadableShelf>(
    alloc: Global,
    origin: &str,
    shelf: &mut D,
) -> Result<Option<Candidate>, FollowFault>
    ensures same { KeepsRecord (D.puts shelf.old) (D.puts shelf.new) }
    ensures counted { CountsFollow (D.failed shelf.old) (D.failed shelf.new) result }
    ensures ends { IfErr result
        (EndsRun (HoldsNoCopy H.digest origin.now (D.puts shelf.old)) ⊥) }
    ensures head { IfOk result (λ copy. IfSome copy (IsHeadOf origin.now)) }
    ensures found { IfOk result (IsFoundCopy origin.now (D.puts shelf.old)) }
    ensures judged { IfOk result (λ copy. IfSome copy
        (λ c. IsReadAtEnd H.digest (D.puts shelf.old) c.size.0 c.root)) }
    ensures some { IfErr result (λ e. e ≡ FollowFault.CopyDamaged
        → (note : List ℕ) × RecordsRead (D.puts shelf.old) Checkpoint (Some note)) }
{
    let Some(note) = shelf.read(&Path::Checkpoint)? else {
        return Ok(None);
    };
    let Some(head) = head_of(alloc, origin, &note)? else {
        shelf.note_damaged(&Path::Checkpoint);
        return Err(FollowFault::CopyDamaged);
    };
    let root = head.1;
    match judge_files::<H, D>(alloc, shelf, head.0, &root) {
        Ok(()) => {}
        Err(fault) => return Err(fault_of_copy::<D>(shelf, fault)),
    }
    Ok(Some(Candidate {
        size: Reverse(head.0),
        root,
        note,
    }))
}
