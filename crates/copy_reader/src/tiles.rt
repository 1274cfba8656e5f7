//! Full tiles, with all files below them.
ghost use Rattle.std.specs.Prelude.{◌≡◌, ◌+◌, ◌*◌, ◌^◌, ◌<◌, ◌≤◌, ◌∷◌, [], ℕ, IfErr, IfOk, List, OnOk, length};
ghost use Rattle.tlog_hash.specs.Rows.{level_row};
ghost use Rattle.tlog_tiles.specs.declared.paths.Path.TheVariants.{Tile};
ghost use Rattle.log_reader.specs.Holding.{IsSourceOf, IsTileHash};
ghost use Rattle.mirror_sources.specs.Files.{full_of};
ghost use Rattle.copy_reader.specs.Covering.{CoversRow, CoversTile, IsRowFound};
ghost use Rattle.copy_reader.specs.AuditFaults.{BlamesPlace, GivesTrue, IsFailure, IsForAbsence};
ghost use Rattle.copy_reader.specs.Order.{row_order, tile_order};
ghost use Rattle.copy_reader.specs.Stops.{AreRead, HasRow, HasTile, StopsIn};
ghost use Rattle.copy_reader.specs.WholeLogs.{IsTrueRow};

use crate::ahead::expect_from;
use crate::ask::get_file;
use crate::audit_bundle::audit_bundle;
use crate::audit_fault::AuditFault;
use log_reader::{FullFile, verified};
use mirror_sources::Source;
use std::alloc::Global;
use tlog_hash::{Hash, TreeHash};
use tlog_tiles::Path;

// The row of a full tile of level 1 or above, which has to fold to the hash.
fn row_of<H: TreeHash, S: Source>(
    alloc: Global,
    source: &mut S,
    path: Path,
    hash: &Hash,
) -> Result<Vec<Hash>, AuditFault>
    requires { full_of path ≡ path }
    ensures counted { BlamesPlace (S.failed source.old) (S.failed source.new) result }
    ensures absent { IfErr result (IsForAbsence (S.may_answer source.old)) }
    ensures found { IfOk result (λ row. IsRowFound H.digest path hash.now row.items
        (S.may_answer source.old) (S.may_answer source.new) (S.asked source.old)
        (S.asked source.new)) }
    ensures first { (level index : ℕ) → path ≡ Tile level index 256 → IfErr result
        (StopsIn H.digest (path ∷ []) (HasTile H.digest level index hash.now)
        (S.may_answer source.old) (S.may_answer source.new) (S.asked source.old)
        (S.asked source.new)) }
    ensures honest { (entries : List (List ℕ)) (level index : ℕ) → path ≡ Tile level index 256
        → IsSourceOf H.digest entries (S.may_answer source.old)
        → IsTileHash H.digest entries level index hash.now → GivesTrue result
        (λ row. row.items ≡ level_row H.digest entries level (256 * index) 256) }
{
    let bytes = get_file(source, path)?;
    match verified::<H>(alloc, FullFile::Tile, hash, &bytes)? {
        Some(row) => Ok(row),
        None => Err(AuditFault::FalseFile(path)),
    }
}

/// Reads a full tile, and then all files below it, from left to right. The tree has `bundles` full bundles.
#[cycle(tiles)]
fn audit_tile<H: TreeHash, S: Source>(
    alloc: Global,
    source: &mut S,
    level: u32,
    index: u64,
    hash: &Hash,
    bundles: u64,
) -> Result<(), AuditFault>
    requires level { level ≤ 6 }
    requires fits { (index + 1) * 256 ^ (level + 1) < 2 ^ 64 }
    ensures counted { BlamesPlace (S.failed source.old) (S.failed source.new) result }
    ensures absent { IfErr result (IsForAbsence (S.may_answer source.old)) }
    ensures covers { OnOk result (CoversTile H.digest level index hash.now (S.may_answer source.old)
        (S.may_answer source.new) (S.asked source.old) (S.asked source.new)) }
    ensures read { OnOk result (AreRead H.digest (HasTile H.digest level index hash.now)
        (tile_order level index) (S.may_answer source.old) (S.may_answer source.new) (S.asked source.old) (S.asked source.new)) }
    ensures first { IfErr result (StopsIn H.digest (tile_order level index)
        (HasTile H.digest level index hash.now) (S.may_answer source.old) (S.may_answer source.new)
        (S.asked source.old) (S.asked source.new)) }
    ensures honest { (entries : List (List ℕ))
        → IsSourceOf H.digest entries (S.may_answer source.old)
        → IsTileHash H.digest entries level index hash.now → IfErr result IsFailure }
{
    if level == 0 {
        return audit_bundle::<H, S>(alloc, source, index, hash);
    }
    let path = Path::Tile {
        level,
        index,
        width: 256,
    };
    let row = row_of::<H, S>(alloc, source, path, hash)?;
    audit_row::<H, S>(alloc, source, level, index, &row, bundles)
}

/// Reads all files below a row, from left to right. The row is that of a full tile or of the right edge. The tree has `bundles` full
/// bundles.
#[cycle(tiles)]
pub(crate) fn audit_row<H: TreeHash, S: Source>(
    alloc: Global,
    source: &mut S,
    level: u32,
    index: u64,
    row: &[Hash],
    bundles: u64,
) -> Result<(), AuditFault>
    requires above { 1 ≤ level }
    requires level { level ≤ 7 }
    requires fits { (256 * index + length row.now) * 256 ^ level < 2 ^ 64 }
    ensures counted { BlamesPlace (S.failed source.old) (S.failed source.new) result }
    ensures absent { IfErr result (IsForAbsence (S.may_answer source.old)) }
    ensures covers { OnOk result (CoversRow H.digest level index row.now (length row.now)
        (S.may_answer source.old)
        (S.may_answer source.new) (S.asked source.old) (S.asked source.new)) }
    ensures read { OnOk result (AreRead H.digest (HasRow H.digest level index row.now)
        (row_order level index (length row.now)) (S.may_answer source.old) (S.may_answer source.new) (S.asked source.old)
        (S.asked source.new)) }
    ensures first { IfErr result (StopsIn H.digest (row_order level index (length row.now))
        (HasRow H.digest level index row.now) (S.may_answer source.old) (S.may_answer source.new)
        (S.asked source.old) (S.asked source.new)) }
    ensures honest { (entries : List (List ℕ))
        → IsSourceOf H.digest entries (S.may_answer source.old)
        → IsTrueRow H.digest entries level index row.now → IfErr result IsFailure }
{
    for i in 0..row.len() as u64 {
        let child = 256 * index + i;
        expect_from::<S>(alloc, source, level, child, bundles);
        audit_tile::<H, S>(alloc, source, level - 1, child, &row[i as usize], bundles)?;
    }
    Ok(())
}
