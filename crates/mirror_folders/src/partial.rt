//! Partial files on a shelf. A log may replace one by its full file (C2SP tlog-tiles, "Partial Tiles").
ghost use Rattle.std.specs.Prelude.{◌≡◌, IfOk, option_map};
ghost use Rattle.mirror_sources.specs.Recorded.{KeepsRecord};
ghost use Rattle.mirror_folders.specs.Partial.{IsReadCut, IsReadPartial};
ghost use Rattle.mirror_folders.specs.Shelf.{CountsFailures};

use crate::shelf::{ReadableShelf, ShelfError};
use tlog_tiles::Path;

/// What the full file of a partial one begins with. None: the shelf lacks the full file, or that has no such part.
///
/// ```text
/// let path = Path::Tile { level: 0, index: 0, width: 3 };
/// cut_on_shelf(&mut shelf, &path)? // the first 96 bytes of tile/0/000, if that has 8,192
/// ```
///
/// # Errors
///
/// Those of `read`. All that was put stays.
pub fn cut_on_shelf<D: ReadableShelf>(
    shelf: &mut D,
    path: &Path,
) -> Result<Option<Vec<u8>>, ShelfError>
    ensures answer { IfOk result (λ found. IsReadCut (D.puts shelf.old) path.now
        (option_map (λ v. v.items) found)) }
    ensures same { KeepsRecord (D.puts shelf.old) (D.puts shelf.new) }
    ensures still { D.flushes shelf.new ≡ D.flushes shelf.old }
    ensures counted { CountsFailures (D.failed shelf.old) (D.failed shelf.new) result }
{
    let Some(mut full) = shelf.read(&path.full())? else {
        return Ok(None);
    };
    let Some(part) = path.cut(256, &full) else {
        return Ok(None);
    };
    let len = part.len();
    full.truncate(len);
    Ok(Some(full))
}

/// The bytes of a partial file, or else those that its full file begins with. None: the shelf has neither.
///
/// ```text
/// partial_on_shelf(&mut shelf, &path)? // the bytes of tile/0/000.p/3, or the first 96 of tile/0/000
/// ```
///
/// # Errors
///
/// Those of `read`. All that was put stays.
pub fn partial_on_shelf<D: ReadableShelf>(
    shelf: &mut D,
    path: &Path,
) -> Result<Option<Vec<u8>>, ShelfError>
    ensures answer { IfOk result (λ found. IsReadPartial (D.puts shelf.old) path.now
        (option_map (λ v. v.items) found)) }
    ensures same { KeepsRecord (D.puts shelf.old) (D.puts shelf.new) }
    ensures still { D.flushes shelf.new ≡ D.flushes shelf.old }
    ensures counted { CountsFailures (D.failed shelf.old) (D.failed shelf.new) result }
{
    match shelf.read(path)? {
        Some(bytes) => Ok(Some(bytes)),
        None => cut_on_shelf(shelf, path),
    }
}
