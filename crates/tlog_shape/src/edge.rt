//! The tiles of a tree.
ghost use Rattle.std.specs.Prelude.{◌≡◌, ◌/◌, ◌%◌, ◌^◌, ◌≤◌, IfSome, IfNone, ℕ};
ghost use Rattle.tlog_shape.specs.Split.{IsPowerOfTwo};
ghost use Rattle.tlog_shape.specs.Edge.{width_of, edge_index_of, IsTop, IsTile, IsTileOfNode, RangeHasNode};

// The number of whole blocks of 256^level entries among n entries.
fn blocks(n: u64, level: u32) -> u64
    requires { level ≤ 8 }
    ensures { result ≡ n / 256 ^ level }
{
    if level == 8 {
        return 0;
    }
    n >> (8 * level)
}

/// The width of the partial tile of a level in a tree of `n` entries. It is 1 to 255 hashes, or 0 if the level has no
/// partial tile (C2SP tlog-tiles, "Merkle Tree").
pub fn edge_width(n: u64, level: u32) -> u32
    requires { level ≤ 7 }
    ensures { result ≡ width_of n level }
{
    (blocks(n, level) % 256) as u32
}

/// The index of the partial tile of a level in a tree of `n` entries, which is also the number of full tiles of that level.
pub fn edge_index(n: u64, level: u32) -> u64
    requires { level ≤ 7 }
    ensures { result ≡ edge_index_of n level }
{
    blocks(n, level + 1)
}

/// The greatest level that has a partial tile in a tree of `n` entries; 0 for an empty tree.
pub fn top_level(n: u64) -> u32
    ensures { IsTop n result }
{
    let mut level = 7;
    while level > 0 && edge_width(n, level) == 0 {
        level -= 1;
    }
    level
}

/// The number of hashes of a tile in a tree of `n` entries: 256 for a full tile, 1 to 255 for the partial tile of its level.
/// The result is None if the tree has no such tile.
pub fn width_in(n: u64, level: u32, index: u64) -> Option<u32>
    requires { level ≤ 7 }
    ensures some { IfSome result (λ width. IsTile n level index width) }
    ensures none { IfNone result ((width : ℕ) → ¬ IsTile n level index width) }
{
    let full = edge_index(n, level);
    if index < full {
        return Some(256);
    }
    let width = edge_width(n, level);
    if index == full && width > 0 {
        Some(width)
    } else {
        None
    }
}

/// The level and the index of the tile whose hashes join to the two children of a node.
///
/// The node has `size` entries from the entry `start` on. The tile has the greatest level at which each hash covers fewer
/// entries than the node. So a range of the tile's hashes folds to each of the node's two children. The tile covers the
/// whole node if the node's size is a power of two and its start is a multiple of that size. This holds for each node except
/// those on the right edge of the tree.
pub fn tile_of_node(start: u64, size: u64) -> (u32, u64)
    requires { 2 ≤ size }
    ensures level { result.0 ≤ 7 }
    ensures tile { IsTileOfNode start size result.0 result.1 }
    ensures range { IsPowerOfTwo size → start % size ≡ 0 → RangeHasNode result.0 result.1 start
        size }
{
    let mut level = 0;
    let mut rest = (size - 1) >> 8;
    while rest > 0 {
        level += 1;
        rest >>= 8;
    }
    (level, blocks(start, level + 1))
}
