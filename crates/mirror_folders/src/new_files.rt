//! The files of a log that its first entries did not have.
ghost use Rattle.std.specs.Prelude.{◌≡◌, ◌≤◌, ℕ};
ghost use Rattle.tlog_tiles.specs.Tiles.{IsWithin};
ghost use Rattle.mirror_folders.specs.Since.{is_new, width_at};

use tlog_shape::width_in;
use tlog_tiles::Path;

// The width of the tile with that level and index in a tree of that size; 0 if there is none.
#[tactic(auto, using(crate::proofs::PlaceWidths::width_found))]
pub(crate) fn place_width(size: u64, level: u32, index: u64) -> u32
    requires { level ≤ 7 }
    ensures { result ≡ width_at size level index }
{
    width_in(size, level, index).unwrap_or(0)
}

/// Whether a log of the first `since` entries lacks the file, or it is the checkpoint, which is put each time.
///
/// ```text
/// lacks(300, &Path::Entries { index: 0, width: 256 })  // false
/// lacks(300, &Path::Entries { index: 1, width: 45 })   // true: it has 44 entries there
/// ```
pub fn lacks(since: u64, path: &Path) -> bool
    requires { (n : ℕ) × IsWithin n path.now }
    ensures { result ≡ is_new since path.now }
{
    match path {
        Path::Checkpoint => true,
        Path::Tile {
            level,
            index,
            width,
        } => *width != place_width(since, *level, *index),
        Path::Entries { index, width } => *width != place_width(since, 0, *index),
    }
}
