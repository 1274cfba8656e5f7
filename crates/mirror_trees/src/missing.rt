//! The missing paths of a tree.
ghost use Rattle.std.specs.Prelude.{◌≡◌, ◌↔◌, ◌⊎◌, ◌+◌, ◌≤◌, ◌<◌, ◌^◌, IfOk, OnOk, IsTrue};
ghost use Rattle.std.specs.List.{Contains};
ghost use Rattle.std.specs.List.Sorted.{IsStrictlySortedBy};
ghost use Rattle.tlog_tiles.specs.declared.paths.Path.{Path as AnyPath};
ghost use Rattle.mirror_model.specs.Front.{path_cmp, IsPathOf};
ghost use Rattle.mirror_model.specs.Walk.{IsMissing};
ghost use Rattle.node_store.specs.Strings.{NoClash};
ghost use Rattle.mirror_model.specs.Complete.{IsBuilt};
ghost use Rattle.mirror_trees.specs.HeldTrees.{AreBuilt, AreKnown};
ghost use Rattle.mirror_trees.specs.Lost.{IsLost};

use crate::counting::{Counts, count_lost};
use crate::known::{HeldTrees, is_noted, note_built};
use crate::marks::Marks;
use crate::unit::unit_of;
use node_store::Store;
use std::alloc::{AllocError, Global};
use std::cmp::Ordering;
use tlog_hash::{Hash, TreeHash};
use tlog_shape::{edge_index, split};
use tlog_tiles::Path;

/// The paths (C2SP tlog-tiles) of the nodes where the walk from the root of that size fails, each once. Full tiles come
/// by falling level and rising index, then bundles by rising index. The list is empty exactly if the tree is held.
///
/// At a node of two or more entries, the walk goes on to both parts if the pair of its hash is held; else it fails
/// there. At one entry it fails if no entry with the hash is held. It enters no known tree, all of which have to be
/// held, and enters no tree of many entries again that it found held.
///
/// A tree of equal entries may occur at so many places that the paths exceed all memory. So it counts them first, and
/// requests the memory of the list at once.
///
/// # Errors
///
/// `AllocError` only if a growth was refused. If the list is too long for the memory, the fault comes before a path is
/// made.
pub fn missing_of<H: TreeHash>(
    alloc: Global,
    store: &Store<H>,
    known: &HeldTrees,
    size: u64,
    root: &Hash,
) -> Result<Vec<Path>, AllocError>
    requires known { AreKnown H.digest store.now known.now }
    requires clean { NoClash H.digest store.now }
    ensures sorted { IfOk result (λ paths. IsStrictlySortedBy path_cmp paths.items) }
    ensures exact { IfOk result (λ paths. (path : AnyPath) → Contains paths.items path
        ↔ IsMissing H.digest store.now size root.now path) }
{
    let mut paths = all_lost(alloc, store, known, size, root)?;
    put_in_order(&mut paths);
    Ok(paths)
}

// The missing paths of a tree, in the order of the walk, and some more than once.
fn all_lost<H: TreeHash>(
    alloc: Global,
    store: &Store<H>,
    known: &HeldTrees,
    size: u64,
    root: &Hash,
) -> Result<Vec<Path>, AllocError>
    requires known { AreKnown H.digest store.now known.now }
    requires clean { NoClash H.digest store.now }
    ensures { IfOk result (λ paths. (path : AnyPath) → Contains paths.items path
        ↔ IsMissing H.digest store.now size root.now path) }
{
    if size == 0 {
        return Ok(Vec::new(alloc));
    }
    let mut found = Marks::new(alloc);
    let mut counts = Counts::new(alloc);
    let count = count_lost(store, known, &mut found, &mut counts, size, root)?;
    let mut paths = Vec::with_capacity(alloc, count as usize)?;
    push_lost(store, known, &mut found, size, 0, size, root, &mut paths)?;
    Ok(paths)
}

// Sorts paths, and removes duplicates.
fn put_in_order(paths: &mut Vec<Path>)
    ensures sorted { IsStrictlySortedBy path_cmp paths.new.items }
    ensures same { (path : AnyPath) → Contains paths.new.items path
        ↔ Contains paths.old.items path }
{
    paths.sort_unstable_by(|a, b| order(a, b));
    paths.dedup();
}

// Tiles by falling level and rising index, then bundles by rising index.
fn order(a: &Path, b: &Path) -> Ordering
    ensures { result ≡ path_cmp a.now b.now }
{
    match (*a, *b) {
        (
            Path::Tile {
                level,
                index,
                width,
            },
            Path::Tile {
                level: l,
                index: i,
                width: w,
            },
        ) => { l.cmp(&level).then(index.cmp(&i)).then(width.cmp(&w)) }
        (Path::Tile { .. }, _) => Ordering::Less,
        (_, Path::Tile { .. }) => Ordering::Greater,
        (Path::Entries { index, width }, Path::Entries { index: i, width: w }) => {
            index.cmp(&i).then(width.cmp(&w))
        }
        (Path::Entries { .. }, Path::Checkpoint) => Ordering::Less,
        (Path::Checkpoint, Path::Entries { .. }) => Ordering::Greater,
        (Path::Checkpoint, Path::Checkpoint) => Ordering::Equal,
    }
}

// Adds the paths of the nodes where the walk fails, for the subtree of `size` entries from `start` on in a tree of
// `total`. True if there are none. It notes the trees that it finds held.
fn push_lost<H: TreeHash>(
    store: &Store<H>,
    known: &HeldTrees,
    found: &mut Marks,
    total: u64,
    start: u64,
    size: u64,
    root: &Hash,
    paths: &mut Vec<Path>,
) -> Result<bool, AllocError>
    requires known { AreKnown H.digest store.now known.now }
    requires found { AreBuilt H.digest store.now found.old }
    requires clean { NoClash H.digest store.now }
    requires some { 1 ≤ size }
    requires within { start + size ≤ total }
    ensures adds { IfOk result (λ whole. (path : AnyPath) → Contains paths.new.items path
        ↔ (Contains paths.old.items path ⊎ IsLost H.digest store.now total start size root.now
        path)) }
    ensures whole { IfOk result (λ whole. IsTrue whole → IsBuilt H.digest store.now size root.now) }
    ensures found { AreBuilt H.digest store.now found.new }
{
    if known.contains(size, root) {
        return Ok(true);
    }
    if is_noted(found, size, root) {
        return Ok(true);
    }
    if size == 1 {
        let Some(_) = store.entry_of(root) else {
            push_path(paths, path_of(total, start, size))?;
            return Ok(false);
        };
        return Ok(true);
    }
    let Some(pair) = store.pair_of(root) else {
        push_path(paths, path_of(total, start, size))?;
        return Ok(false);
    };
    let left = pair.0;
    let right = pair.1;
    let k = split(size);
    let first = push_lost(store, known, found, total, start, k, &left, paths)?;
    let second = push_lost(
        store,
        known,
        found,
        total,
        start + k,
        size - k,
        &right,
        paths,
    )?;
    if !first {
        return Ok(false);
    }
    if !second {
        return Ok(false);
    }
    note_built(found, size, root)?;
    Ok(true)
}

// Adds a path, unless it is the last one already.
fn push_path(paths: &mut Vec<Path>, path: Path) -> Result<(), AllocError>
    ensures { OnOk result ((other : AnyPath) → Contains paths.new.items other
        ↔ (Contains paths.old.items other ⊎ (other ≡ path))) }
{
    if let Some(last) = paths.last() {
        if *last == path {
            return Ok(());
        }
    }
    paths.push(path)?;
    Ok(())
}

// The path of a node of `size` entries from `start` on, in a tree of `total`.
fn path_of(total: u64, start: u64, size: u64) -> Path
    requires some { 1 ≤ size }
    requires within { start + size ≤ total }
    ensures { IsPathOf total start size result }
{
    if size <= 256 {
        let index = start / 256;
        let width = 256u64.min(total - 256 * index) as u32;
        return Path::Entries { index, width };
    }
    let level = level_of(size);
    Path::Tile {
        level,
        index: edge_index(start, level),
        width: 256,
    }
}

// The level of the tile that has the pair of a node of `size` entries.
fn level_of(size: u64) -> u32
    requires { 256 < size }
    ensures fits { result ≤ 7 }
    ensures above { 256 ^ result < size }
    ensures upto { size ≤ 256 ^ (result + 1) }
{
    let mut level = 7;
    while level > 0 && unit_of(level) >= size {
        level -= 1;
    }
    level
}
