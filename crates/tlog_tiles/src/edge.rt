//! The right edge of a tree (C2SP tlog-tiles, "Merkle Tree").
ghost use Rattle.std.specs.Prelude.{◌≡◌, IfOk};
ghost use Rattle.tlog_tiles.specs.Edge.{edge_of};

use crate::paths::Path;
use std::alloc::{AllocError, Global};
use tlog_shape::{edge_index, edge_width};

/// The paths of the partial tiles of a tree of `size` entries, lowest level first. These tiles are the right edge of the
/// tree: the root hash is computed from their rows. A level with only full tiles adds no path, and an empty tree has no
/// path.
///
/// # Errors
///
/// Memory was refused.
pub fn edge_paths(alloc: Global, size: u64) -> Result<Vec<Path>, AllocError>
    ensures { IfOk result (λ paths. paths.items ≡ edge_of size) }
{
    let mut paths = Vec::new(alloc);
    for level in 0..8u32 {
        let width = edge_width(size, level);
        if width > 0 {
            let index = edge_index(size, level);
            paths.push(Path::Tile {
                level,
                index,
                width,
            })?;
        }
    }
    Ok(paths)
}
