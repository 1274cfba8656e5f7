//! The missing files of a tree, level by level.
ghost use Rattle.std.specs.Prelude.{◌≡◌, ◌+◌, ◌*◌, ◌^◌, ◌≤◌, ◌<◌, ℕ, List, IfOk, IfSome, IsTrue, ◌↔◌};
ghost use Rattle.node_store.specs.Strings.{NoClash};
ghost use Rattle.tlog_hash.specs.Shape.{shape};
ghost use Rattle.mirror_trees.specs.HeldTrees.{AreKnown};
ghost use Rattle.mirror_trees.specs.Levels.{AreClear, IsClear, IsOfLevel, ListsLost, ListsNode, first_from};

use crate::known::{HeldTrees, is_noted, note_built};
use crate::marks::Marks;
use crate::unit::unit_of;
use node_store::Store;
use std::alloc::{AllocError, Global};
use tlog_hash::{Hash, TreeHash};
use tlog_shape::{edge_index, split};

/// The clear trees of that level: among the trees of many entries that the walk from the root meets, those without
/// missing files of that level. `next_missing` does not enter them. The files of level 0 are the bundles, and those of
/// a level from 1 on are its tiles.
///
/// It enters each tree of many entries once, for all its places.
///
/// ```text
/// let clear = clear_of(alloc, &store, &known, 0, size, &root)?;
/// next_missing(&store, &known, &clear, 0, 0, size, &root)  // the number of the first bundle that is missing
/// ```
///
/// # Errors
///
/// `AllocError` only if a growth was refused.
pub fn clear_of<H: TreeHash>(
    alloc: Global,
    store: &Store<H>,
    known: &HeldTrees,
    level: u32,
    size: u64,
    root: &Hash,
) -> Result<Marks, AllocError>
    requires known { AreKnown H.digest store.now known.now }
    requires clean { NoClash H.digest store.now }
    requires level { level ≤ 7 }
    ensures { IfOk result (λ clear. AreClear H.digest store.now level clear) }
{
    let mut seen = Marks::new(alloc);
    let mut clear = Marks::new(alloc);
    if size > 0 {
        note_clear(store, known, &mut seen, &mut clear, level, size, root)?;
    }
    Ok(clear)
}

// True only if no file of that level is missing in the tree. It notes each such tree of many entries as clear, and each
// other one as seen.
fn note_clear<H: TreeHash>(
    store: &Store<H>,
    known: &HeldTrees,
    seen: &mut Marks,
    clear: &mut Marks,
    level: u32,
    size: u64,
    root: &Hash,
) -> Result<bool, AllocError>
    requires known { AreKnown H.digest store.now known.now }
    requires clean { NoClash H.digest store.now }
    requires level { level ≤ 7 }
    requires some { 1 ≤ size }
    requires clear { AreClear H.digest store.now level clear.old }
    ensures whole { IfOk result (λ whole. IsTrue whole → IsClear H.digest store.now level size
        root.now) }
    ensures clear { AreClear H.digest store.now level clear.new }
{
    if known.contains(size, root) {
        return Ok(true);
    }
    if is_below(level, size) {
        return Ok(true);
    }
    if is_noted(clear, size, root) {
        return Ok(true);
    }
    if is_noted(seen, size, root) {
        return Ok(false);
    }
    if size == 1 {
        let Some(_) = store.entry_of(root) else {
            return Ok(false);
        };
        return Ok(true);
    }
    let Some(pair) = store.pair_of(root) else {
        return Ok(!is_of_level(level, size));
    };
    let left = pair.0;
    let right = pair.1;
    let k = split(size);
    let first = note_clear(store, known, seen, clear, level, k, &left)?;
    let second = note_clear(store, known, seen, clear, level, size - k, &right)?;
    if first && second {
        note_built(clear, size, root)?;
        return Ok(true);
    }
    note_built(seen, size, root)?;
    Ok(false)
}

/// The number of the first missing file of that level, from the number `from` on, in the tree with that size and root.
/// `None` exactly if no such file is missing. The files of level 0 are the bundles, and those of a level from 1 on are
/// its tiles.
///
/// It goes down to that file, and enters no clear tree. It takes no memory.
pub fn next_missing<H: TreeHash>(
    store: &Store<H>,
    known: &HeldTrees,
    clear: &Marks,
    level: u32,
    from: u64,
    size: u64,
    root: &Hash,
) -> Option<u64>
    requires known { AreKnown H.digest store.now known.now }
    requires clean { NoClash H.digest store.now }
    requires clear { AreClear H.digest store.now level clear.now }
    requires level { level ≤ 7 }
    ensures first { (numbers : List ℕ) → ListsLost H.digest store.now level (shape size) 0 root.now
        numbers → result ≡ first_from from numbers }
    ensures fits { IfSome result (λ number. (from ≤ number) × (256 * number < size)) }
{
    if size == 0 {
        return None;
    }
    next_lost(store, known, clear, level, from, 0, size, root)
}

// The same for the subtree of `size` entries from `start` on.
fn next_lost<H: TreeHash>(
    store: &Store<H>,
    known: &HeldTrees,
    clear: &Marks,
    level: u32,
    from: u64,
    start: u64,
    size: u64,
    root: &Hash,
) -> Option<u64>
    requires known { AreKnown H.digest store.now known.now }
    requires clean { NoClash H.digest store.now }
    requires clear { AreClear H.digest store.now level clear.now }
    requires level { level ≤ 7 }
    requires some { 1 ≤ size }
    requires within { start + size < 2 ^ 64 }
    ensures { (numbers : List ℕ) → ListsLost H.digest store.now level (shape size) start root.now
        numbers → result ≡ first_from from numbers }
{
    if edge_index(start + (size - 1), level) < from {
        return None;
    }
    if known.contains(size, root) {
        return None;
    }
    if is_below(level, size) {
        return None;
    }
    if is_noted(clear, size, root) {
        return None;
    }
    if size == 1 {
        return match store.entry_of(root) {
            Some(_) => None,
            None => number_from(level, from, start, size),
        };
    }
    let Some(pair) = store.pair_of(root) else {
        return number_from(level, from, start, size);
    };
    let left = pair.0;
    let right = pair.1;
    let k = split(size);
    match next_lost(store, known, clear, level, from, start, k, &left) {
        Some(number) => Some(number),
        None => next_lost(
            store,
            known,
            clear,
            level,
            from,
            start + k,
            size - k,
            &right,
        ),
    }
}

// The number of the file of that level that has the node, if there is one and its number is not below `from`.
fn number_from(level: u32, from: u64, start: u64, size: u64) -> Option<u64>
    requires level { level ≤ 7 }
    ensures { (numbers : List ℕ) → ListsNode level start size numbers → result ≡ first_from from
        numbers }
{
    if !is_of_level(level, size) {
        return None;
    }
    let number = edge_index(start, level);
    if number < from {
        return None;
    }
    Some(number)
}

// Whether a file of that level has a node of that size.
fn is_of_level(level: u32, size: u64) -> bool
    requires { level ≤ 7 }
    ensures { IsTrue result ↔ IsOfLevel level size }
{
    !is_below(level, size) && (level == 7 || size <= unit_of(level + 1))
}

// Whether no file of that level has a node of that size or less.
fn is_below(level: u32, size: u64) -> bool
    requires { level ≤ 7 }
    ensures { IsTrue result ↔ ((1 ≤ level) × (size ≤ 256 ^ level)) }
{
    level >= 1 && size <= unit_of(level)
}
