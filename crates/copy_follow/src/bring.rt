//! Tiles brought from places, with all files below them.
ghost use Rattle.std.specs.Prelude.{◌≡◌, ◌+◌, ◌*◌, ◌^◌, ◌<◌, ◌≤◌, [], ℕ, List, IfErr, OnOk, length, take};
ghost use Rattle.tlog_tiles.specs.declared.paths.Path.TheVariants.{Entries};
ghost use Rattle.mirror_sources.specs.Recorded.{KeepsRecord};
ghost use Rattle.mirror_folders.specs.Flushes.{Secures};
ghost use Rattle.copy_follow.specs.Secured.{IsNewBelow, IsNewInRow};
ghost use Rattle.copy_follow.specs.Asked.{IsNewFull};
ghost use Rattle.copy_follow.specs.Faults.{BlamesPlaces, CountsShelf};
ghost use Rattle.copy_places.specs.AskedOnce.{AsksOnce};
ghost use Rattle.copy_follow.specs.Asked.{IsFullBetween};
ghost use Rattle.copy_places.specs.PlaceGets.{AsksPlaces};
ghost use Rattle.copy_follow.specs.Conflicts.{ConflictPutsNothing, IsNoConflict};
ghost use Rattle.copy_follow.specs.Suffices.{IsSpared, IsTileHash, IsTileRow, IsTipOf, OneIsHonest};
ghost use Rattle.copy_follow.specs.Taken.{PutsTaken};
ghost use Rattle.copy_follow.specs.Growing.{IsKnown, BringsRow, BringsTile};
ghost use Rattle.copy_follow.specs.Differing.{DiffersBy, IsShownHash};
ghost use Rattle.log_reader.specs.EdgeRows.{Edge};
ghost use Rattle.log_reader.specs.Ways.{IsShownRow};

use crate::bring_fault::BringFault;
use crate::find::find;
use crate::keep::keep;
use crate::tip::CopyTip;
use copy_places::Places;
use log_reader::FullFile;
use mirror_folders::ReadableShelf;
use mirror_sources::Source;
use std::alloc::Global;
use tlog_hash::{Hash, TreeHash};
use tlog_tiles::{Path, write_row};

// Brings a full bundle, and its tile of level 0. The tree has `bundles` full bundles.
fn bring_bundle<H: TreeHash, D: ReadableShelf, S: Source + Drop>(
    alloc: Global,
    shelf: &mut D,
    places: &mut Places<S>,
    tip: &CopyTip,
    index: u64,
    hash: &Hash,
    bundles: u64,
) -> Result<(), BringFault>
    requires fits { (index + 1) * 256 ≤ 2 ^ 63 }
    requires beyond { tip.now.size < (index + 1) * 256 }
    ensures counted { CountsShelf (D.failed shelf.old) (D.failed shelf.new) result }
    ensures asks { AsksPlaces S.may_answer S.failed S.asked (IsNewFull tip.now.size)
        places.old places.new }
    ensures once { AsksOnce S.asked (λ k p. p ≡ Entries index 256) places.old places.new }
    ensures blames { IfErr result (BlamesPlaces places.new) }
    ensures taken { PutsTaken S.may_answer places.old (D.puts shelf.old) (D.puts shelf.new) }
    ensures honest { IfErr result (λ e. (entries : List (List ℕ)) (size : ℕ)
        → OneIsHonest H.digest entries size S.may_answer (D.puts shelf.old) places.old places.new
        → IsTipOf H.digest tip.now (take size entries)
        → IsTileHash H.digest (take size entries) 0 index hash.now → IsSpared e) }
    ensures early { ConflictPutsNothing (index * 256) tip.now.size (D.puts shelf.old)
        (D.puts shelf.new) result }
    ensures empty { IfErr result (λ e. IsKnown H.digest tip.now 0 [] → IsNoConflict e) }
    ensures differs { IfErr result (λ e. (larger : Edge)
        → IsShownHash H.digest larger 0 index hash.now → DiffersBy H.digest larger tip.now e) }
    ensures brings { (known : List (List ℕ)) → IsKnown H.digest tip.now (index * 256) known
        → BringsTile H.digest tip.now 0 index hash.now known (D.puts shelf.old)
        (D.puts shelf.new) result }
    ensures secured { OnOk result (Secures (IsNewBelow tip.now.size 0 index) (D.flushes shelf.old)
        (D.flushes shelf.new)) }
{
    let path = Path::Entries { index, width: 256 };
    let found = match find::<H, D, S>(
        alloc,
        shelf,
        places,
        FullFile::Bundle,
        &path,
        hash,
        bundles,
    ) {
        Ok(found) => found,
        Err(fault) => return Err(fault),
    };
    let Some(_first) = tip.first_new(0, index, &found.row) else {
        return Err(BringFault::Contradiction);
    };
    if !tip.goes_on(index, &found.bytes) {
        return Err(BringFault::Collision);
    }
    let bytes = match write_row(alloc, &found.row) {
        Ok(bytes) => bytes,
        Err(_) => return Err(BringFault::OutOfMemory),
    };
    match keep(shelf, &path, &found.bytes) {
        Ok(()) => {}
        Err(fault) => return Err(fault),
    }
    keep(
        shelf,
        &Path::Tile {
            level: 0,
            index,
            width: 256,
        },
        &bytes,
    )
}

/// Brings a full tile: finds its row, brings all files below it from left to right, and then puts it. The tree has `bundles` full
/// bundles.
#[cycle(tiles)]
fn bring_tile<H: TreeHash, D: ReadableShelf, S: Source + Drop>(
    alloc: Global,
    shelf: &mut D,
    places: &mut Places<S>,
    tip: &CopyTip,
    level: u32,
    index: u64,
    hash: &Hash,
    bundles: u64,
) -> Result<(), BringFault>
    requires level { level ≤ 6 }
    requires fits { (index + 1) * 256 ^ (level + 1) ≤ 2 ^ 63 }
    requires beyond { tip.now.size < (index + 1) * 256 ^ (level + 1) }
    ensures counted { CountsShelf (D.failed shelf.old) (D.failed shelf.new) result }
    ensures asks { AsksPlaces S.may_answer S.failed S.asked (IsNewFull tip.now.size)
        places.old places.new }
    ensures once { AsksOnce S.asked (λ k. IsFullBetween (level + 1) (index * 256 ^ (level + 1))
        ((index + 1) * 256 ^ (level + 1))) places.old places.new }
    ensures blames { IfErr result (BlamesPlaces places.new) }
    ensures taken { PutsTaken S.may_answer places.old (D.puts shelf.old) (D.puts shelf.new) }
    ensures honest { IfErr result (λ e. (entries : List (List ℕ)) (size : ℕ)
        → OneIsHonest H.digest entries size S.may_answer (D.puts shelf.old) places.old places.new
        → IsTipOf H.digest tip.now (take size entries)
        → IsTileHash H.digest (take size entries) level index hash.now → IsSpared e) }
    ensures early { ConflictPutsNothing (index * 256 ^ (level + 1)) tip.now.size (D.puts shelf.old)
        (D.puts shelf.new) result }
    ensures empty { IfErr result (λ e. IsKnown H.digest tip.now 0 [] → IsNoConflict e) }
    ensures differs { IfErr result (λ e. (larger : Edge)
        → IsShownHash H.digest larger level index hash.now
        → DiffersBy H.digest larger tip.now e) }
    ensures brings { (known : List (List ℕ))
        → IsKnown H.digest tip.now (index * 256 ^ (level + 1)) known
        → BringsTile H.digest tip.now level index hash.now known (D.puts shelf.old)
        (D.puts shelf.new) result }
    ensures secured { OnOk result (Secures (IsNewBelow tip.now.size level index)
        (D.flushes shelf.old) (D.flushes shelf.new)) }
{
    if level == 0 {
        return bring_bundle::<H, D, S>(alloc, shelf, places, tip, index, hash, bundles);
    }
    let path = Path::Tile {
        level,
        index,
        width: 256,
    };
    let found = find::<H, D, S>(alloc, shelf, places, FullFile::Tile, &path, hash, bundles)?;
    bring_row::<H, D, S>(alloc, shelf, places, tip, level, index, &found.row, bundles)?;
    keep(shelf, &path, &found.bytes)
}

/// Brings all files below a row, from left to right. The row is that of a full tile or of the right edge. The tree has `bundles` full
/// bundles.
#[cycle(tiles)]
pub(crate) fn bring_row<H: TreeHash, D: ReadableShelf, S: Source + Drop>(
    alloc: Global,
    shelf: &mut D,
    places: &mut Places<S>,
    tip: &CopyTip,
    level: u32,
    index: u64,
    row: &[Hash],
    bundles: u64,
) -> Result<(), BringFault>
    requires above { 1 ≤ level }
    requires level { level ≤ 7 }
    requires width { length row.now ≤ 256 }
    requires fits { (256 * index + length row.now) * 256 ^ level ≤ 2 ^ 63 }
    requires beyond { tip.now.size < (index + 1) * 256 ^ (level + 1) }
    ensures none { (256 * index + length row.now) * 256 ^ level ≤ tip.now.size
        → OnOk result (KeepsRecord (D.puts shelf.old) (D.puts shelf.new)) }
    ensures counted { CountsShelf (D.failed shelf.old) (D.failed shelf.new) result }
    ensures asks { AsksPlaces S.may_answer S.failed S.asked (IsNewFull tip.now.size)
        places.old places.new }
    ensures once { AsksOnce S.asked (λ k. IsFullBetween level (index * 256 ^ (level + 1))
        ((256 * index + length row.now) * 256 ^ level)) places.old places.new }
    ensures blames { IfErr result (BlamesPlaces places.new) }
    ensures taken { PutsTaken S.may_answer places.old (D.puts shelf.old) (D.puts shelf.new) }
    ensures honest { IfErr result (λ e. (entries : List (List ℕ)) (size : ℕ)
        → OneIsHonest H.digest entries size S.may_answer (D.puts shelf.old) places.old places.new
        → IsTipOf H.digest tip.now (take size entries)
        → IsTileRow H.digest (take size entries) level index row.now → IsSpared e) }
    ensures early { ConflictPutsNothing (index * 256 ^ (level + 1)) tip.now.size (D.puts shelf.old)
        (D.puts shelf.new) result }
    ensures empty { IfErr result (λ e. IsKnown H.digest tip.now 0 [] → IsNoConflict e) }
    ensures differs { IfErr result (λ e. (larger : Edge)
        → IsShownRow H.digest larger level index row.now
        → DiffersBy H.digest larger tip.now e) }
    ensures brings { (known : List (List ℕ))
        → IsKnown H.digest tip.now (index * 256 ^ (level + 1)) known
        → BringsRow H.digest tip.now level index row.now known (D.puts shelf.old)
        (D.puts shelf.new) result }
    ensures secured { OnOk result (Secures (IsNewInRow tip.now.size level index (length row.now))
        (D.flushes shelf.old) (D.flushes shelf.new)) }
{
    let Some(first) = tip.first_new(level, index, row) else {
        return Err(BringFault::Contradiction);
    };
    for i in first..row.len() as u64 {
        bring_tile::<H, D, S>(
            alloc,
            shelf,
            places,
            tip,
            level - 1,
            256 * index + i,
            &row[i as usize],
            bundles,
        )?;
    }
    Ok(())
}
