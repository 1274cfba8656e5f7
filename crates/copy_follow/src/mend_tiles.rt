//! Full tiles mended, with all files below them. A file that nobody has does not end the walk.
ghost use Rattle.std.specs.Prelude.{◌≡◌, ◌+◌, ◌*◌, ◌^◌, ◌<◌, ◌≤◌, ℕ, List, IfErr, IfOk, IsTrue, OnOk, length};
ghost use Rattle.tlog_tiles.specs.declared.paths.Path.TheVariants.{Tile};
ghost use Rattle.mirror_model.specs.TrueLaws.{AreShort};
ghost use Rattle.copy_follow.specs.Faults.{CountsShelf};
ghost use Rattle.copy_follow.specs.Growing.{IsBrought, IsKnown, IsRowBrought, empty_tip};
ghost use Rattle.copy_follow.specs.Lacked.{GoesAlong, GoesBelow, StandsOrNobodys};
ghost use Rattle.copy_follow.specs.Named.{NamesDamaged};
ghost use Rattle.copy_follow.specs.Repaired.{AreFullsClear, IsFullFile, Mends, PutsTrue};
ghost use Rattle.copy_follow.specs.Suffices.{IsSpared, IsTileHash, IsTileRow};
ghost use Rattle.copy_follow.specs.Taken.{MayTake};

use crate::bring_fault::BringFault;
use crate::find::look_for;
use crate::mend::{mend, note_lack};
use crate::repaired::Repaired;
use copy_places::Places;
use log_reader::FullFile;
use mirror_folders::ReadableShelf;
use mirror_sources::Source;
use std::alloc::Global;
use tlog_hash::{Hash, TreeHash};
use tlog_tiles::{Path, write_row};

/// Whether both are true.
pub(crate) fn both(first: bool, second: bool) -> bool
    ensures { IsTrue result → IsTrue first × IsTrue second }
{
    first && second
}

// Mends a full tile of level 0 whose bundle nobody has.
fn mend_leaf_tile<H: TreeHash, D: ReadableShelf, S: Source + Drop>(
    alloc: Global,
    shelf: &mut D,
    places: &mut Places<S>,
    index: u64,
    hash: &Hash,
    bundles: u64,
    repaired: &mut Repaired,
) -> Result<(), BringFault>
    ensures spared { IfErr result IsSpared }
    ensures counted { CountsShelf (D.failed shelf.old) (D.failed shelf.new) result }
    ensures mends { Mends S.may_answer S.failed S.asked IsFullFile places.old places.new
        (D.puts shelf.old) (D.puts shelf.new) repaired.old.put repaired.new.put }
    ensures keeps { (log : List (List ℕ))
        → AreFullsClear H.digest log (MayTake S.may_answer places.old (D.puts shelf.old))
        → IsTileHash H.digest log 0 index hash.now
        → PutsTrue H.digest log (D.puts shelf.old) (D.puts shelf.new) }
    ensures goes_on { OnOk result ((log : List (List ℕ)) → AreShort log
        → AreFullsClear H.digest log (MayTake S.may_answer places.old (D.puts shelf.old))
        → IsTileHash H.digest log 0 index hash.now
        → StandsOrNobodys H.digest log S.may_answer places.old places.new (D.puts shelf.old)
        (D.puts shelf.new) (Tile 0 index 256)) }
    ensures names { OnOk result ((log : List (List ℕ)) → AreShort log
        → AreFullsClear H.digest log (MayTake S.may_answer places.old (D.puts shelf.old))
        → IsTileHash H.digest log 0 index hash.now
        → NamesDamaged H.digest log (D.puts shelf.old) repaired.old.damaged.items
        repaired.new.damaged.items) }
{
    let tile = Path::Tile {
        level: 0,
        index,
        width: 256,
    };
    match look_for::<H, D, S>(alloc, shelf, places, FullFile::Tile, &tile, hash, bundles) {
        Ok(Some(found)) => mend(shelf, &tile, &found.bytes, repaired),
        Ok(None) => note_lack(shelf, &tile, repaired),
        Err(fault) => Err(fault),
    }
}

// Mends a full bundle, and its tile of level 0, which is made of it, or is looked for where nobody has the bundle. False: nobody has the
// bundle. The tree has `bundles` full bundles.
fn mend_bundle<H: TreeHash, D: ReadableShelf, S: Source + Drop>(
    alloc: Global,
    shelf: &mut D,
    places: &mut Places<S>,
    index: u64,
    hash: &Hash,
    bundles: u64,
    repaired: &mut Repaired,
) -> Result<bool, BringFault>
    requires { (index + 1) * 256 ≤ 2 ^ 63 }
    ensures spared { IfErr result IsSpared }
    ensures counted { CountsShelf (D.failed shelf.old) (D.failed shelf.new) result }
    ensures mends { Mends S.may_answer S.failed S.asked IsFullFile places.old places.new
        (D.puts shelf.old) (D.puts shelf.new) repaired.old.put repaired.new.put }
    ensures keeps { (log : List (List ℕ))
        → AreFullsClear H.digest log (MayTake S.may_answer places.old (D.puts shelf.old))
        → IsTileHash H.digest log 0 index hash.now
        → PutsTrue H.digest log (D.puts shelf.old) (D.puts shelf.new) }
    ensures goes_on { IfOk result (λ all. (log : List (List ℕ)) → AreShort log
        → AreFullsClear H.digest log (MayTake S.may_answer places.old (D.puts shelf.old))
        → IsTileHash H.digest log 0 index hash.now
        → GoesBelow H.digest log S.may_answer places.old places.new (D.puts shelf.old)
        (D.puts shelf.new) 0 index) }
    ensures names { IfOk result (λ all. (log : List (List ℕ)) → AreShort log
        → AreFullsClear H.digest log (MayTake S.may_answer places.old (D.puts shelf.old))
        → IsTileHash H.digest log 0 index hash.now
        → NamesDamaged H.digest log (D.puts shelf.old) repaired.old.damaged.items
        repaired.new.damaged.items) }
    ensures whole { IfOk result (λ all. IsTrue all → (known : List (List ℕ))
        → IsKnown H.digest empty_tip (index * 256) known
        → IsBrought H.digest empty_tip 0 index hash.now known (D.puts shelf.old)
        (D.puts shelf.new)) }
{
    let path = Path::Entries { index, width: 256 };
    let found = match look_for::<H, D, S>(
        alloc,
        shelf,
        places,
        FullFile::Bundle,
        &path,
        hash,
        bundles,
    ) {
        Ok(Some(found)) => found,
        Ok(None) => {
            match note_lack(shelf, &path, repaired) {
                Ok(()) => {}
                Err(fault) => return Err(fault),
            }
            match mend_leaf_tile::<H, D, S>(alloc, shelf, places, index, hash, bundles, repaired) {
                Ok(()) => return Ok(false),
                Err(fault) => return Err(fault),
            }
        }
        Err(fault) => return Err(fault),
    };
    let bytes = match write_row(alloc, &found.row) {
        Ok(bytes) => bytes,
        Err(_) => return Err(BringFault::OutOfMemory),
    };
    match mend(shelf, &path, &found.bytes, repaired) {
        Ok(()) => {}
        Err(fault) => return Err(fault),
    }
    let tile = Path::Tile {
        level: 0,
        index,
        width: 256,
    };
    match mend(shelf, &tile, &bytes, repaired) {
        Ok(()) => Ok(true),
        Err(fault) => Err(fault),
    }
}

// Mends a full tile: finds its row, mends all files below it from left to right, and then it. False: nobody has one of these files.
#[cycle(mending)]
fn mend_tile<H: TreeHash, D: ReadableShelf, S: Source + Drop>(
    alloc: Global,
    shelf: &mut D,
    places: &mut Places<S>,
    level: u32,
    index: u64,
    hash: &Hash,
    bundles: u64,
    repaired: &mut Repaired,
) -> Result<bool, BringFault>
    requires level { level ≤ 6 }
    requires fits { (index + 1) * 256 ^ (level + 1) ≤ 2 ^ 63 }
    ensures spared { IfErr result IsSpared }
    ensures counted { CountsShelf (D.failed shelf.old) (D.failed shelf.new) result }
    ensures mends { Mends S.may_answer S.failed S.asked IsFullFile places.old places.new
        (D.puts shelf.old) (D.puts shelf.new) repaired.old.put repaired.new.put }
    ensures keeps { (log : List (List ℕ))
        → AreFullsClear H.digest log (MayTake S.may_answer places.old (D.puts shelf.old))
        → IsTileHash H.digest log level index hash.now
        → PutsTrue H.digest log (D.puts shelf.old) (D.puts shelf.new) }
    ensures goes_on { IfOk result (λ all. (log : List (List ℕ)) → AreShort log
        → AreFullsClear H.digest log (MayTake S.may_answer places.old (D.puts shelf.old))
        → IsTileHash H.digest log level index hash.now
        → GoesBelow H.digest log S.may_answer places.old places.new (D.puts shelf.old)
        (D.puts shelf.new) level index) }
    ensures names { IfOk result (λ all. (log : List (List ℕ)) → AreShort log
        → AreFullsClear H.digest log (MayTake S.may_answer places.old (D.puts shelf.old))
        → IsTileHash H.digest log level index hash.now
        → NamesDamaged H.digest log (D.puts shelf.old) repaired.old.damaged.items
        repaired.new.damaged.items) }
    ensures whole { IfOk result (λ all. IsTrue all → (known : List (List ℕ))
        → IsKnown H.digest empty_tip (index * 256 ^ (level + 1)) known
        → IsBrought H.digest empty_tip level index hash.now known (D.puts shelf.old)
        (D.puts shelf.new)) }
{
    if level == 0 {
        return mend_bundle::<H, D, S>(alloc, shelf, places, index, hash, bundles, repaired);
    }
    let path = Path::Tile {
        level,
        index,
        width: 256,
    };
    let found = match look_for::<H, D, S>(
        alloc,
        shelf,
        places,
        FullFile::Tile,
        &path,
        hash,
        bundles,
    ) {
        Ok(Some(found)) => found,
        Ok(None) => match note_lack(shelf, &path, repaired) {
            Ok(()) => return Ok(false),
            Err(fault) => return Err(fault),
        },
        Err(fault) => return Err(fault),
    };
    let all = match mend_row::<H, D, S>(
        alloc, shelf, places, level, index, &found.row, bundles, repaired,
    ) {
        Ok(all) => all,
        Err(fault) => return Err(fault),
    };
    match mend(shelf, &path, &found.bytes, repaired) {
        Ok(()) => Ok(all),
        Err(fault) => Err(fault),
    }
}

/// Mends all files below a row, from left to right. The row is that of a full tile or of the right edge. False: nobody has one of them.
#[cycle(mending)]
pub(crate) fn mend_row<H: TreeHash, D: ReadableShelf, S: Source + Drop>(
    alloc: Global,
    shelf: &mut D,
    places: &mut Places<S>,
    level: u32,
    index: u64,
    row: &[Hash],
    bundles: u64,
    repaired: &mut Repaired,
) -> Result<bool, BringFault>
    requires above { 1 ≤ level }
    requires level { level ≤ 7 }
    requires width { length row.now ≤ 256 }
    requires fits { (256 * index + length row.now) * 256 ^ level ≤ 2 ^ 63 }
    ensures spared { IfErr result IsSpared }
    ensures counted { CountsShelf (D.failed shelf.old) (D.failed shelf.new) result }
    ensures mends { Mends S.may_answer S.failed S.asked IsFullFile places.old places.new
        (D.puts shelf.old) (D.puts shelf.new) repaired.old.put repaired.new.put }
    ensures keeps { (log : List (List ℕ))
        → AreFullsClear H.digest log (MayTake S.may_answer places.old (D.puts shelf.old))
        → IsTileRow H.digest log level index row.now
        → PutsTrue H.digest log (D.puts shelf.old) (D.puts shelf.new) }
    ensures goes_on { IfOk result (λ all. (log : List (List ℕ)) → AreShort log
        → AreFullsClear H.digest log (MayTake S.may_answer places.old (D.puts shelf.old))
        → IsTileRow H.digest log level index row.now
        → GoesAlong H.digest log S.may_answer places.old places.new (D.puts shelf.old)
        (D.puts shelf.new) level index (length row.now)) }
    ensures names { IfOk result (λ all. (log : List (List ℕ)) → AreShort log
        → AreFullsClear H.digest log (MayTake S.may_answer places.old (D.puts shelf.old))
        → IsTileRow H.digest log level index row.now
        → NamesDamaged H.digest log (D.puts shelf.old) repaired.old.damaged.items
        repaired.new.damaged.items) }
    ensures whole { IfOk result (λ all. IsTrue all → (known : List (List ℕ))
        → IsKnown H.digest empty_tip (index * 256 ^ (level + 1)) known
        → IsRowBrought H.digest empty_tip level index row.now known (D.puts shelf.old)
        (D.puts shelf.new) (length row.now)) }
{
    let mut all = true;
    for i in 0..row.len() as u64 {
        match mend_tile::<H, D, S>(
            alloc,
            shelf,
            places,
            level - 1,
            256 * index + i,
            &row[i as usize],
            bundles,
            repaired,
        ) {
            Ok(there) => {
                all = both(all, there);
            }
            Err(fault) => return Err(fault),
        }
    }
    Ok(all)
}
