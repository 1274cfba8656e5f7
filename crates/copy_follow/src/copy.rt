//! A copy on a shelf, brought to a checkpoint.
ghost use Rattle.std.specs.Prelude.{◌≡◌, ◌≢◌, ◌↔◌, ◌⊎◌, ◌<◌, ℕ, None, Some, [], IfErr, IfOk, IfSome, IsTrue, List, OnOk, length, option_map, take, ⊤};
ghost use Rattle.tlog_hash.specs.Tree.{mth};
ghost use Rattle.tlog_tiles.specs.declared.paths.Path.TheVariants.{Checkpoint};
ghost use Rattle.mirror_model.specs.Heads.{IsHead};
ghost use Rattle.mirror_sources.specs.Recorded.{KeepsRecord};
ghost use Rattle.mirror_folders.specs.Shelf.{RecordsRead};
ghost use Rattle.mirror_folders.specs.Since.{since_paths};
ghost use Rattle.log_reader.specs.EdgeRows.{LeadsTo};
ghost use Rattle.mirror_folders.specs.Flushes.{IsFlushedFirst};
ghost use Rattle.copy_follow.specs.Secured.{FlushesNew, IsNewFileOf};
ghost use Rattle.copy_follow.specs.Compared.{IsOverFound};
ghost use Rattle.copy_follow.specs.Conflicts.{HasConflict, IsConflict, IsFalseEmpty, IsNoConflict};
ghost use Rattle.copy_places.specs.Asked.{IsEdgeTile};
ghost use Rattle.copy_follow.specs.Asked.{MayBeAsked};
ghost use Rattle.copy_follow.specs.AskedForCopy.{AsksForCopy, BlamesFailed, IsInUse, RefusesNote};
ghost use Rattle.copy_follow.specs.Faults.{BlamesFrom, BlamesPlaces, BlamesRun, CountsShelf, IsOfNoPlace, IsOtherFound, IsOtherThen};
ghost use Rattle.copy_places.specs.AskedOnce.{AsksEachOnce, AsksOnce};
ghost use Rattle.copy_follow.specs.AskedForCopy.{AreEnds};
ghost use Rattle.copy_places.specs.Answered.{AreAnswered};
ghost use Rattle.copy_places.specs.EndTiles.{IsKept};
ghost use Rattle.copy_places.specs.PlaceGets.{AsksPlaces};
ghost use Rattle.copy_follow.specs.Damaged.{IsDamaged};
ghost use Rattle.copy_follow.specs.Found.{BringsFromTip};
ghost use Rattle.copy_follow.specs.Pruned.{HadPruned, HadSize, LeavesPruned};
ghost use Rattle.copy_follow.specs.OneHonest.{IsHonestFor, IsHonestNote, IsShelfOrMemory};
ghost use Rattle.copy_places.specs.TruePlaces.{HasTruePlace};
ghost use Rattle.copy_follow.specs.Suffices.{IsNoLack, IsSpared, IsTipOf};
ghost use Rattle.copy_places.specs.Giving.{IsEdgeFrom};
ghost use Rattle.copy_follow.specs.Taken.{MayTake};
ghost use Rattle.copy_places.specs.TrueAnswers.{IsRootOf};
ghost use Rattle.copy_follow.specs.declared.bring_fault.BringFault.TheVariants.{Contradiction, CopyDamaged, CopyInUse};
ghost use Rattle.copy_follow.specs.Differing.{IsConflictOf, IsExplained};
ghost use Rattle.copy_follow.specs.Growing.{IsKnown};
ghost use Rattle.copy_follow.specs.Told.{AreSizesIn, IsOfFiles};
ghost use Rattle.copy_follow.specs.Moments.{CopyStays, IsBroughtTo, KeepsCopy};

use crate::bring_fault::BringFault;
use crate::find_edge::find_edge;
use crate::found::read_found;
use crate::last::put_last;
use crate::tip::CopyTip;
use crate::to_edge::bring_to_edge;
use copy_places::Places;
use log_reader::{EdgeRows, head_of};
use mirror_folders::{ReadableShelf, files_to_put};
use mirror_sources::Source;
use std::alloc::Global;
use tlog_hash::{Hash, TreeHash};

// A checkpoint for the copy: a note, and the size and root in its text.
#[derive(Drop)]
struct Candidate<'a> {
    note: &'a [u8],
    size: u64,
    root: Hash,
}

/// Whether the root is the hash of the empty list.
pub(crate) fn is_empty_root<H: TreeHash>(root: &Hash) -> bool
    ensures { IsTrue result ↔ (root.now ≡ H.digest []) }
{
    *root == H::empty()
}

// Passes to the shelf the number of files that the copy lacks. The checkpoint counts as one.
fn expect_new<D: ReadableShelf>(shelf: &mut D, old_size: u64, size: u64)
    ensures same { KeepsRecord (D.puts shelf.old) (D.puts shelf.new) }
    ensures still { D.flushes shelf.new ≡ D.flushes shelf.old }
    ensures failed { D.failed shelf.new ≡ D.failed shelf.old }
    ensures expected { IfSome (D.expected shelf.new)
        (λ all. all ≡ length (since_paths old_size size)) }
{
    shelf.expect(files_to_put(size, old_size));
}

// Finds the edge rows of a larger tree. Then passes to the shelf the number of files that will be put.
fn find_new_edge<H: TreeHash, D: ReadableShelf, S: Source + Drop>(
    alloc: Global,
    shelf: &mut D,
    places: &mut Places<S>,
    tip: &CopyTip,
    candidate: &Candidate<'_>,
) -> Result<EdgeRows, BringFault>
    ensures fault { IfErr result IsNoConflict }
    ensures same { KeepsRecord (D.puts shelf.old) (D.puts shelf.new) }
    ensures still { D.flushes shelf.new ≡ D.flushes shelf.old }
    ensures counted { CountsShelf (D.failed shelf.old) (D.failed shelf.new) result }
    ensures asks { AsksPlaces S.may_answer S.failed S.asked (IsEdgeTile candidate.now.size)
        places.old places.new }
    ensures once { AsksOnce S.asked (λ k. IsEdgeTile candidate.now.size) places.old places.new }
    ensures blames { IfErr result (BlamesPlaces places.new) }
    ensures leads { IfOk result
        (λ edge. LeadsTo H.digest candidate.now.size candidate.now.root edge) }
    ensures taken { IfOk result (λ edge. IsEdgeFrom
        (MayTake S.may_answer places.old (D.puts shelf.old)) candidate.now.size edge) }
    ensures suffices { IfErr result (λ e. (entries : List (List ℕ))
        → IsRootOf H.digest entries candidate.now.size candidate.now.root
        → HasTruePlace H.digest entries S.may_answer places.old places.new → IsNoLack e) }
    ensures expected { OnOk result (IfSome (D.expected shelf.new)
        (λ all. all ≡ length (since_paths tip.now.size candidate.now.size))) }
{
    match find_edge::<H, D, S>(alloc, shelf, places, candidate.size, &candidate.root) {
        Ok(edge) => {
            expect_new(shelf, tip.size(), candidate.size);
            Ok(edge)
        }
        Err(fault) => Err(fault),
    }
}

// Puts the checkpoint of an empty log onto a shelf without a checkpoint.
fn put_empty<H: TreeHash, D: ReadableShelf>(
    shelf: &mut D,
    origin: &str,
    tip: &CopyTip,
    candidate: &Candidate<'_>,
) -> Result<(), BringFault>
    requires head { IsHead candidate.now.note.now origin.now candidate.now.size candidate.now.root }
    requires empty { candidate.now.size ≡ 0 }
    requires none { tip.now.checkpoint ≡ None }
    ensures counted { CountsShelf (D.failed shelf.old) (D.failed shelf.new) result }
    ensures blames { IfErr result (λ e. ((e ≡ CopyInUse) × IsOtherThen H.digest tip.now
        (D.puts shelf.old)) ⊎ IsOfNoPlace e) }
    ensures conflict { IfErr result (λ e. IsConflict e → KeepsRecord (D.puts shelf.old)
        (D.puts shelf.new)) }
    ensures honest { IfErr result (λ e. candidate.now.root ≡ mth H.digest [] → IsSpared e) }
    ensures differs { IfErr result (λ e. IsConflict e → (e ≡ Contradiction)
        × (candidate.now.root ≢ H.digest [])) }
    ensures brings { BringsFromTip H.digest origin.now candidate.now.note.now tip.now
        (D.puts shelf.old) (D.puts shelf.new) result }
    ensures flushed { OnOk result (IsFlushedFirst
        (IsNewFileOf tip.now.size candidate.now.size) (D.flushes shelf.old)
        (D.flushes shelf.new)) }
{
    if !is_empty_root::<H>(&candidate.root) {
        return Err(BringFault::Contradiction);
    }
    expect_new(shelf, 0, 0);
    put_last(shelf, tip, candidate.note)
}

// Brings the copy with that tip to a larger checkpoint.
fn bring_larger<H: TreeHash, D: ReadableShelf, S: Source + Drop>(
    alloc: Global,
    origin: &str,
    shelf: &mut D,
    places: &mut Places<S>,
    tip: &CopyTip,
    candidate: &Candidate<'_>,
) -> Result<(), BringFault>
    requires head { IsHead candidate.now.note.now origin.now candidate.now.size candidate.now.root }
    requires larger { tip.now.size < candidate.now.size }
    ensures counted { CountsShelf (D.failed shelf.old) (D.failed shelf.new) result }
    ensures asks { AsksPlaces S.may_answer S.failed S.asked
        (MayBeAsked tip.now.size candidate.now.size) places.old places.new }
    ensures once { AsksOnce S.asked (λ k path. ⊤) places.old places.new }
    ensures blames { IfErr result (BlamesRun H.digest places.new tip.now (D.puts shelf.old)) }
    ensures conflict { IfErr result (λ e. IsConflict e → KeepsRecord (D.puts shelf.old)
        (D.puts shelf.new)) }
    ensures honest { IfErr result (λ e. (entries : List (List ℕ))
        → IsHonestFor H.digest S.may_answer (D.puts shelf.old) places.old places.new entries
        candidate.now.size candidate.now.root
        → IsTipOf H.digest tip.now (take candidate.now.size entries) → IsSpared e) }
    ensures empty { IfErr result (λ e. IsKnown H.digest tip.now 0 [] → IsNoConflict e) }
    ensures differs { IfErr result (λ e. IsConflict e
        → IsConflictOf H.digest tip.now candidate.now.size candidate.now.root e) }
    ensures brings { BringsFromTip H.digest origin.now candidate.now.note.now tip.now
        (D.puts shelf.old) (D.puts shelf.new) result }
    ensures flushed { OnOk result (IsFlushedFirst
        (IsNewFileOf tip.now.size candidate.now.size) (D.flushes shelf.old)
        (D.flushes shelf.new)) }
{
    let edge = match find_new_edge::<H, D, S>(alloc, shelf, places, tip, candidate) {
        Ok(edge) => edge,
        Err(fault) => return Err(fault),
    };
    let done = bring_to_edge::<H, D, S>(alloc, shelf, places, tip, &edge, candidate.note);
    drop(edge);
    done
}

// Brings the copy with that tip to a checkpoint, if it is larger.
fn bring_from<H: TreeHash, D: ReadableShelf, S: Source + Drop>(
    alloc: Global,
    origin: &str,
    shelf: &mut D,
    places: &mut Places<S>,
    tip: &CopyTip,
    candidate: &Candidate<'_>,
) -> Result<(), BringFault>
    requires head { IsHead candidate.now.note.now origin.now candidate.now.size candidate.now.root }
    ensures counted { CountsShelf (D.failed shelf.old) (D.failed shelf.new) result }
    ensures asks { AsksPlaces S.may_answer S.failed S.asked
        (MayBeAsked tip.now.size candidate.now.size) places.old places.new }
    ensures once { AsksOnce S.asked (λ k path. ⊤) places.old places.new }
    ensures blames { IfErr result (BlamesFrom H.digest places.new candidate.now.size tip.now
        (D.puts shelf.old)) }
    ensures conflict { IfErr result (λ e. IsConflict e → KeepsRecord (D.puts shelf.old)
        (D.puts shelf.new)) }
    ensures honest { IfErr result (λ e. (entries : List (List ℕ))
        → IsHonestFor H.digest S.may_answer (D.puts shelf.old) places.old places.new entries
        candidate.now.size candidate.now.root
        → IsTipOf H.digest tip.now (take candidate.now.size entries) → IsSpared e) }
    ensures empty { IfErr result (λ e. IsKnown H.digest tip.now 0 [] → IsConflict e
        → IsFalseEmpty H.digest candidate.now.size candidate.now.root) }
    ensures differs { IfErr result (λ e. IsConflict e
        → IsConflictOf H.digest tip.now candidate.now.size candidate.now.root e) }
    ensures brings { BringsFromTip H.digest origin.now candidate.now.note.now tip.now
        (D.puts shelf.old) (D.puts shelf.new) result }
    ensures flushed { OnOk result (IsFlushedFirst
        (IsNewFileOf tip.now.size candidate.now.size) (D.flushes shelf.old)
        (D.flushes shelf.new)) }
{
    if tip.size() < candidate.size {
        return bring_larger::<H, D, S>(alloc, origin, shelf, places, tip, candidate);
    }
    if candidate.size == 0 && tip.checkpoint().is_none() {
        return put_empty::<H, D>(shelf, origin, tip, candidate);
    }
    Err(BringFault::NotLarger)
}

/// Brings the copy on a shelf to a larger checkpoint. The answer is the copy's old number of entries.
///
/// The note's text has to be a checkpoint of the origin. This call verifies no signature: the caller has opened the note under the
/// log's keys. The call looks for each file of the larger tree that the copy lacks: first on the shelf, then at the place whose bytes
/// verified last, then at the other places in order. A file is used only if it verifies. The edge rows have to lead to the checkpoint's
/// root. A full tile has to fold to its hash in the row above. The leaf hashes of a bundle have to fold to their hash.
///
/// A tile is put after the files below it, and the checkpoint last. So the shelf has a whole copy at each moment, for all answers of the
/// places. No file is removed. A file is put again only if its bytes are false. If they are true, the file is flushed before the
/// checkpoint is put.
///
/// No place is asked twice for a path. Its answers for the tiles in which the old and the larger tree end are kept: `places.end_tile`.
///
/// If the shelf or a place lacks a partial file at the right edge, it is cut from the full file.
///
/// A shelf without a checkpoint is an empty copy. Only an empty copy may be brought to a checkpoint without entries.
///
/// `found` is the shelf's checkpoint as the caller read it before, None if there was none. Another one there now is that of another run:
/// the call ends before it asks a place or puts a file.
///
/// Once the edge rows are found, `expect` passes to the shelf the number of files that the copy lacks. The checkpoint counts as one.
///
/// ```text
/// bring_copy::<Sha256Tree, MemShelf, ListSource<Sha256Tree>>(alloc, "ex", &mut shelf, &mut places, Some(old), note)? // 257
/// ```
///
/// # Errors
///
/// - `BadCheckpoint`: the bytes are not a note whose text is a checkpoint of the origin.
/// - `CopyDamaged`: the shelf's checkpoint is not such a note, or the shelf lacks its edge rows or its partial bundle.
/// - `NotLarger`: the copy has at least as many entries as the checkpoint.
/// - `Contradiction`: the larger tree does not have the old rows. `Collision`: it has them, but not the old bundle. Nothing was put.
///   `Contradiction` also comes if the copy is empty, and the note has no entries and a root that is not the empty list's hash.
/// - `NoFile`: neither the shelf nor a place has a file that verifies. `Source`: the same, and a place failed in this call. The file's
///   path is then `places.lacked()`.
/// - `CopyInUse`: another run changed the shelf's checkpoint. The call saw it at its start, or after it had put all other files.
/// - `ShelfFault`: the shelf failed. `OutOfMemory`: memory was refused.
pub fn bring_copy<H: TreeHash, D: ReadableShelf, S: Source + Drop>(
    alloc: Global,
    origin: &str,
    shelf: &mut D,
    places: &mut Places<S>,
    found: Option<&[u8]>,
    note: &[u8],
) -> Result<u64, BringFault>
    ensures counted { CountsShelf (D.failed shelf.old) (D.failed shelf.new) result }
    ensures asks { AsksForCopy H.digest S.may_answer S.failed S.asked origin.now note.now
        (D.puts shelf.old) places.old places.new }
    ensures once { AsksEachOnce S.asked (IsKept places.new) places.old places.new }
    ensures blames { IfErr result (BlamesFailed S.may_answer S.failed S.asked
        places.old places.new) }
    ensures refuses { IfErr result (RefusesNote H.digest origin.now note.now (D.puts shelf.old)) }
    ensures in_use { IfErr result (λ e. e ≡ CopyInUse
        → IsInUse H.digest origin.now (D.puts shelf.old)
        ⊎ IsOtherFound (option_map (λ b. b.now) found.entry) (D.puts shelf.old)) }
    ensures compared { IsOverFound (D.puts shelf.old) (option_map (λ b. b.now) found.entry) result }
    ensures damaged { IfErr result (λ e. e ≡ CopyDamaged
        → IsDamaged H.digest origin.now (D.puts shelf.old)) }
    ensures suffices { RecordsRead (D.puts shelf.old) Checkpoint
        (option_map (λ b. b.now) found.entry)
        → IsHonestNote H.digest S.may_answer (D.puts shelf.old) places.old places.new
        origin.now note.now → IfErr result IsShelfOrMemory }
    ensures had { IfOk result (λ size. HadSize H.digest origin.now (D.puts shelf.old) size) }
    ensures conflict { IfErr result (λ e. IsConflict e → KeepsRecord (D.puts shelf.old)
        (D.puts shelf.new)) }
    ensures conflicts { IfErr result (λ e. IsConflict e
        → HasConflict H.digest origin.now note.now (D.puts shelf.old)) }
    ensures explained { IfErr result (λ e. IsConflict e
        → IsExplained H.digest origin.now note.now (D.puts shelf.old) e) }
    ensures ends { IfErr result (λ e. IsConflict e
        → AreEnds H.digest origin.now note.now (D.puts shelf.old) places.new.ends.sizes) }
    ensures sizes { IfErr result (λ e. IsOfFiles e → AreSizesIn origin.now
        (option_map (λ b. b.now) found.entry) note.now places.new.ends.sizes) }
    ensures answered { IfErr result (λ e. IsOfFiles e
        → AreAnswered S.may_answer places.old places.new) }
    ensures whole { KeepsCopy H.digest origin.now note.now (D.puts shelf.old) (D.puts shelf.new) }
    ensures stays { IfErr result
        (λ _. CopyStays H.digest origin.now (D.puts shelf.old) (D.puts shelf.new)) }
    ensures brought { OnOk result (IsBroughtTo H.digest origin.now note.now
        (D.puts shelf.old) (D.puts shelf.new)) }
    ensures pruned { LeavesPruned H.digest origin.now note.now (D.puts shelf.old)
        (D.puts shelf.new) result }
    ensures had_pruned { IfOk result (HadPruned H.digest origin.now (D.puts shelf.old)) }
    ensures flushed { IfOk result (λ size. FlushesNew origin.now note.now size
        (D.flushes shelf.old) (D.flushes shelf.new)) }
{
    places.begin();
    let Some(head) = head_of(alloc, origin, note)? else {
        return Err(BringFault::BadCheckpoint);
    };
    let root = head.1;
    let candidate = Candidate {
        note,
        size: head.0,
        root,
    };
    let tip = match read_found::<H, D>(alloc, origin, shelf, found) {
        Ok(tip) => tip,
        Err(fault) => return Err(fault),
    };
    let had = tip.size();
    places.keep_ends(had, candidate.size, &candidate.root);
    let done = bring_from::<H, D, S>(alloc, origin, shelf, places, &tip, &candidate);
    drop(tip);
    match done {
        Ok(()) => Ok(had),
        Err(fault) => Err(fault),
    }
}
