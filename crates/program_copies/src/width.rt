//! The tiles and bundles of a log of some size.
ghost use Rattle.std.specs.Prelude.{◌↔◌, IsTrue};
ghost use Rattle.tlog_tiles.specs.Tiles.{IsTileWithin, IsWithin};

use tlog_shape::width_in;
use tlog_tiles::Path;

// Whether a log of that size has a tile of that width at a level and index.
#[tactic(auto, using(crate::proofs::Widths::widest_found, crate::proofs::Widths::within_upto, crate::proofs::Widths::within_from))]
fn is_tile_within(size: u64, level: u32, index: u64, width: u32) -> bool
    ensures { IsTrue result ↔ IsTileWithin size level index width }
{
    if level > 7 || width == 0 {
        return false;
    }
    let widest = width_in(size, level, index).unwrap_or(0);
    width <= widest
}

/// Whether a log of that size has the tile or bundle at the path.
pub(crate) fn is_within(size: u64, path: &Path) -> bool
    ensures { IsTrue result ↔ IsWithin size path.now }
{
    match *path {
        Path::Checkpoint => false,
        Path::Tile {
            level,
            index,
            width,
        } => is_tile_within(size, level, index, width),
        Path::Entries { index, width } => is_tile_within(size, 0, index, width),
    }
}
