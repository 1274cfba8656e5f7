//! Reads a full bundle, and its tile of level 0.
ghost use Rattle.std.specs.Prelude.{◌≡◌, ◌↔◌, ◌∷◌, [], ◌+◌, ◌*◌, ◌≤◌, ℕ, IfErr, IsTrue, List, OnOk, Some, length};
ghost use Rattle.tlog_hash.specs.Rows.{level_row};
ghost use Rattle.log_reader.specs.Holding.{IsSourceOf, IsTileHash};
ghost use Rattle.mirror_sources.specs.Replies.{reply};
ghost use Rattle.tlog_tiles.specs.Row.{row_text};
ghost use Rattle.tlog_tiles.specs.declared.paths.Path.TheVariants.{Tile};
ghost use Rattle.copy_reader.specs.Answering.{AreGiven};
ghost use Rattle.copy_reader.specs.Covering.{CoversTile};
ghost use Rattle.copy_reader.specs.AuditFaults.{BlamesPlace, IsFailure, IsForAbsence};
ghost use Rattle.copy_reader.specs.Order.{tile_order};
ghost use Rattle.copy_reader.specs.Stops.{AreRead, HasLeavesOf, HasTile, StopsIn};

use crate::ask::get_file;
use crate::audit_fault::AuditFault;
use log_reader::{FullFile, verified};
use mirror_sources::Source;
use std::alloc::Global;
use tlog_hash::{Hash, TreeHash};
use tlog_tiles::Path;

// Whether the bytes are those of the row.
fn is_text_of(row: &[Hash], bytes: &[u8]) -> bool
    ensures { IsTrue result ↔ (bytes.now ≡ row_text row.now) }
{
    let mut rest = bytes;
    for hash in row {
        match rest.strip_prefix(hash.as_slice()) {
            Some(after) => rest = after,
            None => return false,
        }
    }
    rest.is_empty()
}

// Reads the full tile of level 0 with these leaf hashes.
fn audit_leaves<S: Source>(source: &mut S, index: u64, row: &[Hash]) -> Result<(), AuditFault>
    ensures counted { BlamesPlace (S.failed source.old) (S.failed source.new) result }
    ensures absent { IfErr result (IsForAbsence (S.may_answer source.old)) }
    ensures given { OnOk result (AreGiven (S.may_answer source.old)
        (S.may_answer source.new) (S.asked source.old) (S.asked source.new)
        (reply (Tile 0 index 256) (Some (row_text row.now)) ∷ [])) }
    ensures first { (digest : List ℕ → List ℕ) → IfErr result (StopsIn digest
        (Tile 0 index 256 ∷ []) (HasLeavesOf digest index row.now) (S.may_answer source.old)
        (S.may_answer source.new) (S.asked source.old) (S.asked source.new)) }
    ensures honest { (digest : List ℕ → List ℕ) (entries : List (List ℕ))
        → IsSourceOf digest entries (S.may_answer source.old) → (index + 1) * 256 ≤ length entries
        → row.now ≡ level_row digest entries 0 (256 * index) 256 → IfErr result IsFailure }
{
    let path = Path::Tile {
        level: 0,
        index,
        width: 256,
    };
    let bytes = get_file(source, path)?;
    if is_text_of(row, &bytes) {
        Ok(())
    } else {
        Err(AuditFault::FalseFile(path))
    }
}

/// Reads a full bundle, whose leaf hashes have to fold to the hash, and its tile of level 0.
pub(crate) fn audit_bundle<H: TreeHash, S: Source>(
    alloc: Global,
    source: &mut S,
    index: u64,
    hash: &Hash,
) -> Result<(), AuditFault>
    ensures counted { BlamesPlace (S.failed source.old) (S.failed source.new) result }
    ensures absent { IfErr result (IsForAbsence (S.may_answer source.old)) }
    ensures covers { OnOk result (CoversTile H.digest 0 index hash.now (S.may_answer source.old)
        (S.may_answer source.new) (S.asked source.old) (S.asked source.new)) }
    ensures read { OnOk result (AreRead H.digest (HasTile H.digest 0 index hash.now)
        (tile_order 0 index) (S.may_answer source.old) (S.may_answer source.new) (S.asked source.old) (S.asked source.new)) }
    ensures first { IfErr result (StopsIn H.digest (tile_order 0 index)
        (HasTile H.digest 0 index hash.now) (S.may_answer source.old) (S.may_answer source.new)
        (S.asked source.old) (S.asked source.new)) }
    ensures honest { (entries : List (List ℕ))
        → IsSourceOf H.digest entries (S.may_answer source.old)
        → IsTileHash H.digest entries 0 index hash.now → IfErr result IsFailure }
{
    let path = Path::Entries { index, width: 256 };
    let bytes = get_file(source, path)?;
    let Some(row) = verified::<H>(alloc, FullFile::Bundle, hash, &bytes)? else {
        return Err(AuditFault::FalseFile(path));
    };
    drop(bytes);
    audit_leaves(source, index, &row)
}
