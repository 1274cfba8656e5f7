//! A full file that verifies, from the shelf or from a place.
ghost use Rattle.std.specs.Prelude.{◌≡◌, ℕ, List, IfErr, IfNone, IfOk, IfSome};
ghost use Rattle.mirror_sources.specs.Recorded.{KeepsRecord};
ghost use Rattle.mirror_model.specs.TrueLaws.{AreShort};
ghost use Rattle.log_reader.specs.Verified.{Verifies};
ghost use Rattle.copy_places.specs.AskedOnce.{AsksOnce};
ghost use Rattle.copy_places.specs.PlaceGets.{AsksPlaces};
ghost use Rattle.copy_places.specs.TruePlaces.{HasTruePlace, IsFileUnder};
ghost use Rattle.copy_follow.specs.Conflicts.{IsNoConflict};
ghost use Rattle.copy_follow.specs.Faults.{BlamesPlaces, CountsShelf, IsOfNoPlace};
ghost use Rattle.copy_follow.specs.Lacked.{IsFoundNowhere, IsRecorded};
ghost use Rattle.copy_follow.specs.Suffices.{IsNoLack, IsSpared};
ghost use Rattle.copy_follow.specs.Taken.{MayTake, WasPut};

use crate::bring_fault::{BringFault, fault_of};
use copy_places::{Found, Places, accept_file, file_at_places};
use log_reader::FullFile;
use mirror_folders::ReadableShelf;
use mirror_sources::Source;
use std::alloc::Global;
use tlog_hash::{Hash, TreeHash};
use tlog_tiles::Path;

// The file from the shelf, if it verifies. The shelf notes one that does not.
fn file_on_shelf<H: TreeHash, D: ReadableShelf>(
    alloc: Global,
    shelf: &mut D,
    kind: FullFile,
    path: &Path,
    hash: &Hash,
) -> Result<Option<Found>, BringFault>
    ensures found { IfOk result (λ found. IfSome found
        (λ f. Verifies H.digest kind hash.now f.bytes.items f.row.items)) }
    ensures fault { IfErr result IsNoConflict }
    ensures places { IfErr result IsOfNoPlace }
    ensures same { KeepsRecord (D.puts shelf.old) (D.puts shelf.new) }
    ensures still { D.flushes shelf.new ≡ D.flushes shelf.old }
    ensures counted { CountsShelf (D.failed shelf.old) (D.failed shelf.new) result }
    ensures taken { IfOk result (λ found. IfSome found
        (λ f. WasPut (D.puts shelf.old) path.now f.bytes.items)) }
    ensures none { IfOk result (λ found. IfNone found ((bytes : List ℕ)
        → IsRecorded (D.puts shelf.old) path.now bytes → (row : List (List ℕ))
        → ¬ Verifies H.digest kind hash.now bytes row)) }
{
    let Some(bytes) = shelf.read(path)? else {
        return Ok(None);
    };
    match accept_file::<H>(alloc, kind, hash, bytes)? {
        Some(found) => Ok(Some(found)),
        None => {
            shelf.note_damaged(path);
            Ok(None)
        }
    }
}

/// The file from the shelf, or else from a place. The tree has `bundles` full bundles: a hint names none after them.
pub(crate) fn find<H: TreeHash, D: ReadableShelf, S: Source + Drop>(
    alloc: Global,
    shelf: &mut D,
    places: &mut Places<S>,
    kind: FullFile,
    path: &Path,
    hash: &Hash,
    bundles: u64,
) -> Result<Found, BringFault>
    ensures found { IfOk result (λ f. Verifies H.digest kind hash.now f.bytes.items f.row.items) }
    ensures fault { IfErr result IsNoConflict }
    ensures same { KeepsRecord (D.puts shelf.old) (D.puts shelf.new) }
    ensures still { D.flushes shelf.new ≡ D.flushes shelf.old }
    ensures counted { CountsShelf (D.failed shelf.old) (D.failed shelf.new) result }
    ensures asks { AsksPlaces S.may_answer S.failed S.asked (λ p. p ≡ path.now)
        places.old places.new }
    ensures once { AsksOnce S.asked (λ k p. p ≡ path.now) places.old places.new }
    ensures blames { IfErr result (BlamesPlaces places.new) }
    ensures taken { IfOk result
        (λ f. MayTake S.may_answer places.old (D.puts shelf.old) path.now f.bytes.items) }
    ensures suffices { IfErr result (λ e. (entries : List (List ℕ)) → AreShort entries
        → IsFileUnder H.digest entries kind path.now hash.now
        → HasTruePlace H.digest entries S.may_answer places.old places.new → IsNoLack e) }
{
    if let Some(found) = file_on_shelf::<H, D>(alloc, shelf, kind, path, hash)? {
        return Ok(found);
    }
    match file_at_places::<H, S>(alloc, places, kind, path, hash, bundles)? {
        Some(found) => Ok(found),
        None => Err(fault_of(places)),
    }
}

/// The same. None: neither the shelf nor a place has the file.
pub(crate) fn look_for<H: TreeHash, D: ReadableShelf, S: Source + Drop>(
    alloc: Global,
    shelf: &mut D,
    places: &mut Places<S>,
    kind: FullFile,
    path: &Path,
    hash: &Hash,
    bundles: u64,
) -> Result<Option<Found>, BringFault>
    ensures found { IfOk result (λ found. IfSome found
        (λ f. Verifies H.digest kind hash.now f.bytes.items f.row.items)) }
    ensures same { KeepsRecord (D.puts shelf.old) (D.puts shelf.new) }
    ensures spared { IfErr result IsSpared }
    ensures counted { CountsShelf (D.failed shelf.old) (D.failed shelf.new) result }
    ensures asks { AsksPlaces S.may_answer S.failed S.asked (λ p. p ≡ path.now)
        places.old places.new }
    ensures taken { IfOk result (λ found. IfSome found
        (λ f. MayTake S.may_answer places.old (D.puts shelf.old) path.now f.bytes.items)) }
    ensures none { IfOk result (λ found. IfNone found (IsFoundNowhere H.digest S.may_answer
        places.old places.new (D.puts shelf.old) kind path.now hash.now)) }
{
    match file_on_shelf::<H, D>(alloc, shelf, kind, path, hash) {
        Ok(Some(found)) => return Ok(Some(found)),
        Ok(None) => {}
        Err(fault) => return Err(fault),
    }
    match file_at_places::<H, S>(alloc, places, kind, path, hash, bundles) {
        Ok(found) => Ok(found),
        Err(_) => Err(BringFault::OutOfMemory),
    }
}
