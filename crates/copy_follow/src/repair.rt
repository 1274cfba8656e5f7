//! A copy whose missing and false files are put anew.
ghost use Rattle.std.specs.Prelude.{◌≡◌, ◌^◌, ◌<◌, [], ℕ, List, Some, IfErr, IfOk, IsTrue, OnOk, length};
ghost use Rattle.tlog_hash.specs.Tree.{mth};
ghost use Rattle.tlog_tiles.specs.declared.paths.Path.TheVariants.{Checkpoint};
ghost use Rattle.mirror_model.specs.Heads.{IsHead};
ghost use Rattle.mirror_model.specs.TrueLaws.{AreShort};
ghost use Rattle.mirror_folders.specs.Shelf.{RecordsRead};
ghost use Rattle.copy_places.specs.PlaceGets.{AsksPlaces};
ghost use Rattle.mirror_sources.specs.Recorded.{KeepsRecord};
ghost use Rattle.copy_follow.specs.Faults.{CountsFault, CountsShelf};
ghost use Rattle.copy_follow.specs.Lacked.{AtOkOrLack, GoesOverAll};
ghost use Rattle.copy_follow.specs.Named.{NamesDamaged};
ghost use Rattle.copy_follow.specs.Repaired.{AsksToRepair, CountsPuts, HasLog, IsClearLog, IsLack, IsRepaired, MayBeAskedToRepair, PutsTrue};
ghost use Rattle.copy_follow.specs.Suffices.{IsSpared};
ghost use Rattle.copy_follow.specs.Taken.{MayTake};

use crate::bring_fault::BringFault;
use crate::copy::is_empty_root;
use crate::mend_edge::{look_for_edge, mend_all};
use crate::repaired::Repaired;
use crate::same::is_same;
use copy_places::{Places, lowest_edge_path};
use log_reader::head_of;
use mirror_folders::ReadableShelf;
use mirror_sources::Source;
use std::alloc::Global;
use tlog_hash::{Hash, TreeHash};
use tlog_tiles::Path;

// Goes on if the shelf's checkpoint is that note.
fn check_note<D: ReadableShelf>(shelf: &mut D, note: &[u8]) -> Result<(), BringFault>
    ensures spared { IfErr result IsSpared }
    ensures counted { CountsShelf (D.failed shelf.old) (D.failed shelf.new) result }
    ensures same { KeepsRecord (D.puts shelf.old) (D.puts shelf.new) }
    ensures read { OnOk result (RecordsRead (D.puts shelf.old) Checkpoint (Some note.now)) }
{
    match shelf.read(&Path::Checkpoint)? {
        Some(there) => {
            if is_same(&there, note) {
                Ok(())
            } else {
                Err(BringFault::CopyInUse)
            }
        }
        None => Err(BringFault::CopyInUse),
    }
}

// The fault after nobody had a file.
fn lack_of<S: Source + Drop>(places: &Places<S>) -> BringFault
    ensures is { IsLack places.now result }
    ensures counted { (n : ℕ) → CountsFault n n result }
{
    if places.has_failed() {
        BringFault::Source
    } else {
        BringFault::NoFile
    }
}

// A copy without entries has no file but its checkpoint.
fn mend_empty<H: TreeHash>(root: &Hash) -> Result<bool, BringFault>
    ensures spared { IfErr result IsSpared }
    ensures counted { (n : ℕ) → CountsShelf n n result }
    ensures empty { IfOk result (λ all. root.now ≡ H.digest []) }
{
    if is_empty_root::<H>(root) {
        Ok(true)
    } else {
        Err(BringFault::CopyDamaged)
    }
}

// Mends each file of the copy of a tree of that size and root. False: nobody has one of them.
fn mend_copy<H: TreeHash, D: ReadableShelf, S: Source + Drop>(
    alloc: Global,
    origin: &str,
    shelf: &mut D,
    places: &mut Places<S>,
    size: u64,
    root: &Hash,
    repaired: &mut Repaired,
) -> Result<bool, BringFault>
    requires { size < 2 ^ 63 }
    ensures spared { IfErr result IsSpared }
    ensures counted { CountsShelf (D.failed shelf.old) (D.failed shelf.new) result }
    ensures asks { AsksPlaces S.may_answer S.failed S.asked (MayBeAskedToRepair size)
        places.old places.new }
    ensures counts { CountsPuts repaired.old.put repaired.new.put
        (D.puts shelf.old) (D.puts shelf.new) }
    ensures keeps { (log : List (List ℕ)) → length log ≡ size → mth H.digest log ≡ root.now
        → IsClearLog H.digest log (MayTake S.may_answer places.old (D.puts shelf.old))
        → PutsTrue H.digest log (D.puts shelf.old) (D.puts shelf.new) }
    ensures goes_on { IfOk result (λ all. (log : List (List ℕ)) → AreShort log
        → length log ≡ size → mth H.digest log ≡ root.now
        → IsClearLog H.digest log (MayTake S.may_answer places.old (D.puts shelf.old))
        → GoesOverAll H.digest log S.may_answer places.old places.new (D.puts shelf.old)
        (D.puts shelf.new)) }
    ensures names { IfOk result (λ all. (log : List (List ℕ)) → AreShort log
        → length log ≡ size → mth H.digest log ≡ root.now
        → IsClearLog H.digest log (MayTake S.may_answer places.old (D.puts shelf.old))
        → NamesDamaged H.digest log (D.puts shelf.old) repaired.old.damaged.items
        repaired.new.damaged.items) }
    ensures whole { IfOk result (λ all. IsTrue all
        → HasLog H.digest size root.now (D.puts shelf.old) (D.puts shelf.new)) }
{
    if size == 0 {
        return mend_empty::<H>(root);
    }
    let edge = match look_for_edge::<H, D, S>(alloc, origin, shelf, places, size, root) {
        Ok(Some(edge)) => edge,
        Ok(None) => {
            repaired.note_lacked(&lowest_edge_path(size));
            return Ok(false);
        }
        Err(fault) => return Err(fault),
    };
    mend_all::<H, D, S>(alloc, origin, shelf, places, &edge, repaired)
}

// Mends each file of the copy under the note, a checkpoint of that size and root. The note stands before and after it.
fn mend_noted<H: TreeHash, D: ReadableShelf, S: Source + Drop>(
    alloc: Global,
    origin: &str,
    shelf: &mut D,
    places: &mut Places<S>,
    note: &[u8],
    size: u64,
    root: &Hash,
    repaired: &mut Repaired,
) -> Result<bool, BringFault>
    requires { IsHead note.now origin.now size root.now }
    ensures spared { IfErr result IsSpared }
    ensures counted { CountsShelf (D.failed shelf.old) (D.failed shelf.new) result }
    ensures asks { AsksPlaces S.may_answer S.failed S.asked (MayBeAskedToRepair size)
        places.old places.new }
    ensures counts { CountsPuts repaired.old.put repaired.new.put
        (D.puts shelf.old) (D.puts shelf.new) }
    ensures keeps { (log : List (List ℕ)) → length log ≡ size → mth H.digest log ≡ root.now
        → IsClearLog H.digest log (MayTake S.may_answer places.old (D.puts shelf.old))
        → PutsTrue H.digest log (D.puts shelf.old) (D.puts shelf.new) }
    ensures goes_on { IfOk result (λ all. (log : List (List ℕ)) → AreShort log
        → length log ≡ size → mth H.digest log ≡ root.now
        → IsClearLog H.digest log (MayTake S.may_answer places.old (D.puts shelf.old))
        → GoesOverAll H.digest log S.may_answer places.old places.new (D.puts shelf.old)
        (D.puts shelf.new)) }
    ensures names { IfOk result (λ all. (log : List (List ℕ)) → AreShort log
        → length log ≡ size → mth H.digest log ≡ root.now
        → IsClearLog H.digest log (MayTake S.may_answer places.old (D.puts shelf.old))
        → NamesDamaged H.digest log (D.puts shelf.old) repaired.old.damaged.items
        repaired.new.damaged.items) }
    ensures whole { IfOk result (λ all. IsTrue all
        → IsRepaired H.digest origin.now note.now (D.puts shelf.old) (D.puts shelf.new)) }
{
    match check_note(shelf, note) {
        Ok(()) => {}
        Err(fault) => return Err(fault),
    }
    let all = match mend_copy::<H, D, S>(alloc, origin, shelf, places, size, root, repaired) {
        Ok(all) => all,
        Err(fault) => return Err(fault),
    };
    match check_note(shelf, note) {
        Ok(()) => Ok(all),
        Err(fault) => Err(fault),
    }
}

/// Repairs the copy on a shelf: each file that is missing or false is put anew. `repaired` counts the files that were put.
///
/// `note` is the shelf's checkpoint as the caller has opened it under the log's keys. Nothing else on the shelf is taken as known. The
/// call reads each file of a log of that checkpoint. It looks for one that is missing or false at the places, verifies it against the rows
/// above it, and puts it in the place of what stood. So at each moment each file of the copy that was true is true, for all answers of
/// the places. The checkpoint is not put.
///
/// A file of the right edge is also cut from the full file, of the shelf or of a place, and from the wider file of a place whose checkpoint
/// has a larger size. The rows of the edge have to lead to the checkpoint's root. A partial file is not missing where its full file stands
/// and begins with its bytes. A false one is replaced there too.
///
/// A file that nobody has stays as it is, and so does all below a tile that nobody has. The rest is repaired. A full tile of level 0 is made of its bundle.
/// Where nobody has that, the tile is looked for too.
///
/// ```text
/// let mut repaired = Repaired::new(alloc);
/// repair_copy::<Sha256Tree, MemShelf, ListSource<Sha256Tree>>(alloc, "ex", &mut shelf, &mut places, &note, &mut repaired)?;
/// repaired.put() // 1
/// ```
///
/// # Errors
///
/// - `BadCheckpoint`: the bytes are not a note whose text is a checkpoint of the origin.
/// - `CopyDamaged`: the checkpoint has no entries, and a root that is not the empty list's hash.
/// - `NoFile`: neither the shelf nor a place has a file that verifies. `Source`: the same, and a place failed in this call. Then
///   `repaired.lacked()` is the path of the first such file.
/// - `CopyInUse`: the shelf's checkpoint is not `note`, before the repair or after it.
/// - `ShelfFault`: the shelf failed. `OutOfMemory`: memory was refused.
pub fn repair_copy<H: TreeHash, D: ReadableShelf, S: Source + Drop>(
    alloc: Global,
    origin: &str,
    shelf: &mut D,
    places: &mut Places<S>,
    note: &[u8],
    repaired: &mut Repaired,
) -> Result<(), BringFault>
    ensures counted { CountsShelf (D.failed shelf.old) (D.failed shelf.new) result }
    ensures asks { AsksToRepair S.may_answer S.failed S.asked origin.now note.now
        places.old places.new }
    ensures counts { CountsPuts repaired.old.put repaired.new.put
        (D.puts shelf.old) (D.puts shelf.new) }
    ensures keeps { (log : List (List ℕ))
        → IsHead note.now origin.now (length log) (mth H.digest log)
        → IsClearLog H.digest log (MayTake S.may_answer places.old (D.puts shelf.old))
        → PutsTrue H.digest log (D.puts shelf.old) (D.puts shelf.new) }
    ensures goes_on { AtOkOrLack result ((log : List (List ℕ)) → AreShort log
        → IsHead note.now origin.now (length log) (mth H.digest log)
        → IsClearLog H.digest log (MayTake S.may_answer places.old (D.puts shelf.old))
        → GoesOverAll H.digest log S.may_answer places.old places.new (D.puts shelf.old)
        (D.puts shelf.new)) }
    ensures names { AtOkOrLack result ((log : List (List ℕ)) → AreShort log
        → IsHead note.now origin.now (length log) (mth H.digest log)
        → IsClearLog H.digest log (MayTake S.may_answer places.old (D.puts shelf.old))
        → NamesDamaged H.digest log (D.puts shelf.old) repaired.old.damaged.items
        repaired.new.damaged.items) }
    ensures whole { OnOk result
        (IsRepaired H.digest origin.now note.now (D.puts shelf.old) (D.puts shelf.new)) }
{
    places.begin();
    let head = match head_of(alloc, origin, note) {
        Ok(Some(head)) => head,
        Ok(None) => return Err(BringFault::BadCheckpoint),
        Err(_) => return Err(BringFault::OutOfMemory),
    };
    let root = head.1;
    let all = match mend_noted::<H, D, S>(
        alloc, origin, shelf, places, note, head.0, &root, repaired,
    ) {
        Ok(all) => all,
        Err(fault) => return Err(fault),
    };
    if all { Ok(()) } else { Err(lack_of(places)) }
}
