//! The edge rows of a tree head: the partial tiles at the right end of its tree (C2SP tlog-tiles, "Merkle Tree").
ghost use Rattle.std.specs.Prelude.{◌≡◌, ◌<◌, length, map, All, IfOk, OnOk};
ghost use Rattle.std.specs.FinSet as set;
ghost use Rattle.mirror_model.specs.Edge.{edge_root, edge_strings, edge_widths, root_from};
ghost use Rattle.mirror_model.specs.Item.{row_of};
ghost use Rattle.mirror_model.specs.Strings.{HasClash};
ghost use Rattle.node_store.specs.Strings.{NoClash};
ghost use Rattle.tlog_text.specs.Answers.{seen};
ghost use Rattle.mirror_trees.specs.Edges.{JudgesEdge, ReadsEdge, ReadsRows};

use crate::{add_above, add_row};
use mirror_model::TakeFault;
use node_store::{AddFault, Store};
use std::alloc::{AllocError, Global};
use tlog_hash::{Hash, TreeHash, fold};
use tlog_shape::edge_width;
use tlog_tiles::{RowFault, read_row};

/// Adds the strings of edge rows that lead to the root of a tree of that size, lowest level first (C2SP tlog-tiles,
/// "Merkle Tree").
///
/// ```text
/// let root = add_entries(alloc, &mut held, &[b"a"])?;
/// let edge: &[&[u8]] = &[&root];
/// take_edge(alloc, &mut store, 1, &root, edge)?;   // one row of one hash
/// ```
///
/// # Errors
///
/// The first that applies: `EdgeCount`, if the number of rows is not the number of partial tiles of the size;
/// `EdgeLength`, if a row does not have 32 bytes for each hash of its tile; `EdgeMismatch`, if the rows do not lead to
/// the root; `Collision`, if two different strings, held ones or the rows' own, have one digest. `OutOfMemory` if
/// memory was refused. After a fault some of the strings may have been added.
pub fn take_edge<H: TreeHash>(
    alloc: Global,
    store: &mut Store<H>,
    size: u64,
    root: &Hash,
    edge: &[&[u8]],
) -> Result<(), TakeFault>
    requires { NoClash H.digest store.old }
    ensures judged { JudgesEdge H.digest size root.now (map (λ row. row.now) edge.now) result }
    ensures ok { OnOk result (store.new
        ≡ set.union store.old (set.from_list
        (edge_strings H.digest (map row_of (map (λ row. row.now) edge.now))))) }
    ensures collision { result ≡ Err TakeFault.Collision
        → HasClash H.digest (set.union store.old
        (set.from_list (edge_strings H.digest (map row_of (map (λ row. row.now) edge.now))))) }
    ensures no_clash { NoClash H.digest store.new }
{
    let rows = match read_edge(alloc, size, edge) {
        Ok(rows) => rows,
        Err(fault) => return Err(fault),
    };
    match add_edge(store, rows) {
        Ok(found) => {
            if found == *root {
                Ok(())
            } else {
                Err(TakeFault::EdgeMismatch)
            }
        }
        Err(AddFault::Collision) => Err(clash_of::<H>(alloc, size, root, edge)),
        Err(AddFault::OutOfMemory) => Err(TakeFault::OutOfMemory),
    }
}

// The answer if the strings of the rows collide. Rows that do not lead to the root are refused for that.
fn clash_of<H: TreeHash>(alloc: Global, size: u64, root: &Hash, edge: &[&[u8]]) -> TakeFault
    ensures { JudgesEdge H.digest size root.now (map (λ row. row.now) edge.now) (Err result) }
{
    let rows = match read_edge(alloc, size, edge) {
        Ok(rows) => rows,
        Err(fault) => return fault,
    };
    match root_of::<H>(rows) {
        Ok(found) => {
            if found == *root {
                TakeFault::Collision
            } else {
                TakeFault::EdgeMismatch
            }
        }
        Err(AllocError) => TakeFault::OutOfMemory,
    }
}

// Adds the strings of edge rows, lowest level first, and gives the hash to which they lead.
fn add_edge<H: TreeHash>(store: &mut Store<H>, mut rows: Vec<Vec<Hash>>) -> Result<Hash, AddFault>
    requires some { All (λ row. 0 < length row.items) rows.items }
    requires no_clash { NoClash H.digest store.old }
    ensures hash { IfOk result (λ hash. hash
        ≡ edge_root H.digest (map (λ row. row.items) rows.items)) }
    ensures ok { OnOk result (store.new
        ≡ set.union store.old (set.from_list
        (edge_strings H.digest (map (λ row. row.items) rows.items)))) }
    ensures collision { result ≡ Err AddFault.Collision
        → HasClash H.digest (set.union store.old
        (set.from_list (edge_strings H.digest (map (λ row. row.items) rows.items)))) }
    ensures no_clash { NoClash H.digest store.new }
{
    if rows.is_empty() {
        return Ok(H::empty());
    }
    let lowest = rows.remove(0);
    match add_row(store, lowest.as_slice()) {
        Ok(start) => add_above(store, start, rows),
        Err(fault) => Err(fault),
    }
}

// The hash to which edge rows lead, lowest level first.
fn root_of<H: TreeHash>(mut rows: Vec<Vec<Hash>>) -> Result<Hash, AllocError>
    requires { All (λ row. 0 < length row.items) rows.items }
    ensures { IfOk result (λ hash. hash ≡ edge_root H.digest (map (λ row. row.items) rows.items)) }
{
    if rows.is_empty() {
        return Ok(H::empty());
    }
    let lowest = rows.remove(0);
    root_above::<H>(fold::<H>(lowest.as_slice()), rows)
}

// The hash to which a value and the rows above it lead.
fn root_above<H: TreeHash>(start: Hash, rows: Vec<Vec<Hash>>) -> Result<Hash, AllocError>
    ensures { IfOk result (λ hash. hash
        ≡ root_from H.digest start (map (λ row. row.items) rows.items)) }
{
    let mut value = start;
    for mut row in rows {
        row.push(value)?;
        value = fold::<H>(row.as_slice());
    }
    Ok(value)
}

// The edge rows of a tree of that size, each as its hashes.
fn read_edge(alloc: Global, size: u64, edge: &[&[u8]]) -> Result<Vec<Vec<Hash>>, TakeFault>
    ensures reads { ReadsEdge size (map (λ row. row.now) edge.now)
        (seen (λ rows. map (λ row. row.items) rows.items) result) }
    ensures some { IfOk result (λ rows. All (λ row. 0 < length row.items) rows.items) }
{
    let Ok(widths) = partial_widths(alloc, size) else {
        return Err(TakeFault::OutOfMemory);
    };
    if edge.len() != widths.len() {
        return Err(TakeFault::EdgeCount);
    }
    read_rows(alloc, widths.as_slice(), edge)
}

// Rows of these widths, each as its hashes.
fn read_rows(alloc: Global, widths: &[u32], edge: &[&[u8]]) -> Result<Vec<Vec<Hash>>, TakeFault>
    requires { length edge.now ≡ length widths.now }
    ensures { ReadsRows widths.now (map (λ row. row.now) edge.now)
        (seen (λ rows. map (λ row. row.items) rows.items) result) }
{
    let mut rows = Vec::new(alloc);
    for i in 0..widths.len() {
        let row = match read_row(alloc, widths[i], edge[i]) {
            Ok(row) => row,
            Err(RowFault::RowLength) => return Err(TakeFault::EdgeLength),
            Err(RowFault::OutOfMemory) => return Err(TakeFault::OutOfMemory),
        };
        let Ok(()) = rows.push(row) else {
            return Err(TakeFault::OutOfMemory);
        };
    }
    Ok(rows)
}

// The widths of the partial tiles of a tree of that size, lowest level first.
fn partial_widths(alloc: Global, size: u64) -> Result<Vec<u32>, AllocError>
    ensures { IfOk result (λ widths. widths.items ≡ edge_widths size) }
{
    let mut widths = Vec::new(alloc);
    for level in 0..8u32 {
        let width = edge_width(size, level);
        if width > 0 {
            widths.push(width)?;
        }
    }
    Ok(widths)
}
