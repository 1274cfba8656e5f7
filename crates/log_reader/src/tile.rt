//! The row of a full tile, from a source.
ghost use Rattle.std.specs.Prelude.{◌≡◌, ◌*◌, ℕ, IfErr, IfNone, IfOk, IfSome, List};
ghost use Rattle.tlog_hash.specs.Rows.{level_row};
ghost use Rattle.mirror_sources.specs.Source.{StaysWithin};
ghost use Rattle.mirror_sources.specs.Recorded.{KeepsRecord};
ghost use Rattle.log_reader.specs.Faults.{CountsFailure};
ghost use Rattle.log_reader.specs.FalseFiles.{NamesFull};
ghost use Rattle.log_reader.specs.Holding.{HasFullTiles, IsTileHash, ReadsTrue};
ghost use Rattle.log_reader.specs.Requested.{RequestsOnly};
ghost use Rattle.log_reader.specs.Verified.{IsVerifiedRow, Verifies};
ghost use Rattle.log_reader.specs.declared.verify.FullFile.TheVariants.{Tile};

use crate::fault::ReadFault;
use crate::found::{get_file, or_false};
use crate::full_row::FullRow;
use crate::verify::{is_same, row_in};
use mirror_sources::Source;
use std::alloc::{AllocError, Global};
use tlog_hash::{Hash, TreeHash};
use tlog_tiles::Path;

// The row of a full tile whose fold is the hash. None: the bytes are not such a tile.
fn verified_row<H: TreeHash>(
    alloc: Global,
    hash: &Hash,
    bytes: &[u8],
) -> Result<Option<FullRow<H>>, AllocError>
    ensures found { IfOk result
        (λ found. IfSome found (λ row. Verifies H.digest Tile hash.now bytes.now row)) }
    ensures none { IfOk result (λ found. IfNone found ((row : List (List ℕ))
        → ¬ Verifies H.digest Tile hash.now bytes.now row)) }
{
    let Some(hashes) = row_in(alloc, 256, bytes)? else {
        return Ok(None);
    };
    let row = FullRow::new(hashes)?;
    if is_same(&row.fold(), hash) {
        Ok(Some(row))
    } else {
        Ok(None)
    }
}

/// The row of a full tile, which has to fold to the hash.
pub(crate) fn read_tile<H: TreeHash, S: Source>(
    alloc: Global,
    source: &mut S,
    level: u32,
    index: u64,
    hash: &Hash,
) -> Result<FullRow<H>, ReadFault>
    ensures row { IfOk result (λ row. IsVerifiedRow H.digest hash.now row) }
    ensures later { StaysWithin (S.may_answer source.old) (S.may_answer source.new) }
    ensures kept { KeepsRecord (S.files source.old) (S.files source.new) }
    ensures asks { RequestsOnly (S.asked source.old) (S.asked source.new)
        (λ p. p ≡ Path.Tile level index 256) }
    ensures counted { CountsFailure (S.failed source.old) (S.failed source.new) result }
    ensures names { IfErr result (NamesFull H.digest (S.may_answer source.old) Tile hash.now
        (Path.Tile level index 256)) }
    ensures honest { (entries : List (List ℕ)) → IsTileHash H.digest entries level index hash.now
        → HasFullTiles H.digest entries (S.may_answer source.old) → ReadsTrue result
        (λ row. row ≡ level_row H.digest entries level (256 * index) 256) }
{
    let path = Path::Tile {
        level,
        index,
        width: 256,
    };
    let bytes = get_file(source, &path)?;
    or_false(verified_row::<H>(alloc, hash, &bytes), path)
}
