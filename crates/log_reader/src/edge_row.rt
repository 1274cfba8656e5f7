//! The path of the row of one level of an edge.
ghost use Rattle.std.specs.Prelude.{◌≡◌, ◌≤◌};
ghost use Rattle.tlog_shape.specs.Edge.{edge_index_of, width_of};

use tlog_shape::{edge_index, edge_width};
use tlog_tiles::Path;

/// The path of the partial tile of a level (C2SP tlog-tiles, "Partial Tiles").
///
/// ```text
/// edge_path(70000, 1)   // tile/1/001.p/17
/// ```
pub fn edge_path(size: u64, level: u32) -> Path
    requires { level ≤ 7 }
    ensures { result ≡ Path.Tile level (edge_index_of size level) (width_of size level) }
{
    Path::Tile {
        level,
        index: edge_index(size, level),
        width: edge_width(size, level),
    }
}
