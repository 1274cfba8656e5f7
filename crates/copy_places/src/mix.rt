//! The edge rows of places, and mixes of those of two places. No row can be verified alone: only all levels lead to the root.
ghost use Rattle.std.specs.Prelude.{◌≡◌, ◌↔◌, ◌∷◌, ◌<◌, ◌≤◌, [], ℕ, All, IfNone, IfOk, IfSome, IsTrue, List, None, Option, get_or, length, map, option_map};
ghost use Rattle.log_reader.specs.EdgeRows.{LeadsTo};
ghost use Rattle.log_reader.specs.Nodes.{hash_on_top};
ghost use Rattle.copy_places.specs.Mixes.{AreTwoAt, HaveNoMix, HaveWidths, IsMixAmong, IsMixOf, IsMixTo, given_at, value_of};

use crate::bundle::is_same_row;
use log_reader::EdgeRows;
use std::alloc::{AllocError, Global};
use tlog_hash::{Hash, TreeHash, fold};

/// The rows that a place gave for the edge of a tree, by level. None: the place lacks the row, or failed. A level without hashes has an
/// empty row.
#[derive(Drop)]
pub struct GivenRows {
    rows: Vec<Option<Vec<Hash>>>,
}

/// The rows of two places for one level.
#[derive(Drop)]
pub(crate) struct TwoRows {
    first: Vec<Hash>,
    second: Vec<Hash>,
}

impl GivenRows {
    /// These rows, the lowest level first.
    pub fn new(rows: Vec<Option<Vec<Hash>>>) -> GivenRows
        ensures { result ≡ record { rows = rows } }
    {
        GivenRows { rows }
    }

    // The row of a level.
    fn row(&self, level: u32) -> Option<&[Hash]>
        ensures { option_map (λ row. row.now) result ≡ given_at self.now level }
    {
        match self.rows.get(level as usize) {
            Some(Some(row)) => Some(row.as_slice()),
            Some(None) => None,
            None => None,
        }
    }
}

// The hash of the levels so far with one more row above them, which may be empty.
fn on_top<H: TreeHash>(
    alloc: Global,
    below: Option<Hash>,
    row: &[Hash],
) -> Result<Option<Hash>, AllocError>
    ensures { IfOk result (λ hash. hash ≡ hash_on_top H.digest below row.now) }
{
    if row.is_empty() {
        return Ok(below);
    }
    let Some(value) = below else {
        return Ok(Some(fold::<H>(row)));
    };
    let mut whole = Vec::from_slice(alloc, row)?;
    whole.push(value)?;
    Ok(Some(fold::<H>(whole.as_slice())))
}

fn is_same(first: &Hash, second: &Hash) -> bool
    ensures { IsTrue result ↔ (first.now ≡ second.now) }
{
    first == second
}

// Whether the rows lead to the root, by the hash of all levels.
fn is_root<H: TreeHash>(hash: Option<Hash>, root: &Hash) -> bool
    ensures { IsTrue result ↔ (value_of H.digest hash ≡ root.now) }
{
    match hash {
        Some(value) => is_same(&value, root),
        None => is_same(&H::empty(), root),
    }
}

// The rows with one more below them.
fn with_row(alloc: Global, rows: Vec<Vec<Hash>>, row: &[Hash]) -> Result<Vec<Vec<Hash>>, AllocError>
    ensures { IfOk result (λ all. map (λ v. v.items) all.items
        ≡ row.now ∷ map (λ v. v.items) rows.items) }
{
    let mut all = rows;
    let copy = Vec::from_slice(alloc, row)?;
    all.insert(0, copy)?;
    Ok(all)
}

// A mix of the rows that leads from the hash of the levels below to the root. The lowest level is first. For n levels it folds at most
// 2^(n + 1) - 2 rows.
fn find_mix<H: TreeHash>(
    alloc: Global,
    levels: &[TwoRows],
    below: Option<Hash>,
    root: &Hash,
) -> Result<Option<Vec<Vec<Hash>>>, AllocError>
    ensures some { IfOk result (λ found. IfSome found
        (λ rows. IsMixTo H.digest levels.now below root.now (map (λ v. v.items) rows.items))) }
    ensures none { IfOk result (λ found. IfNone found ((rows : List (List (List ℕ)))
        → ¬ IsMixTo H.digest levels.now below root.now rows)) }
{
    let Some((level, rest)) = levels.split_first() else {
        if is_root::<H>(below, root) {
            return Ok(Some(Vec::new(alloc)));
        }
        return Ok(None);
    };
    let first = on_top::<H>(alloc, below, &level.first)?;
    if let Some(rows) = find_mix::<H>(alloc, rest, first, root)? {
        let all = with_row(alloc, rows, &level.first)?;
        return Ok(Some(all));
    }
    if is_same_row(&level.first, &level.second) {
        return Ok(None);
    }
    let second = on_top::<H>(alloc, below, &level.second)?;
    if let Some(rows) = find_mix::<H>(alloc, rest, second, root)? {
        let all = with_row(alloc, rows, &level.second)?;
        return Ok(Some(all));
    }
    Ok(None)
}

// Two copies of rows.
fn copies(alloc: Global, first: &[Hash], second: &[Hash]) -> Result<TwoRows, AllocError>
    ensures { IfOk result (λ two. (two.first.items ≡ first.now) × (two.second.items ≡ second.now)) }
{
    Ok(TwoRows {
        first: Vec::from_slice(alloc, first)?,
        second: Vec::from_slice(alloc, second)?,
    })
}

// The rows of two places for one level. None: neither has one.
fn rows_at(
    alloc: Global,
    first: &GivenRows,
    second: &GivenRows,
    level: u32,
) -> Result<Option<TwoRows>, AllocError>
    ensures some { IfOk result (λ found. IfSome found (AreTwoAt first.now second.now level)) }
    ensures none { IfOk result (λ found. IfNone found
        ((given_at first.now level ≡ None) × (given_at second.now level ≡ None))) }
{
    match first.row(level) {
        Some(one) => match second.row(level) {
            Some(other) => Ok(Some(copies(alloc, one, other)?)),
            None => Ok(Some(copies(alloc, one, one)?)),
        },
        None => match second.row(level) {
            Some(other) => Ok(Some(copies(alloc, other, other)?)),
            None => Ok(None),
        },
    }
}

// The rows of two places, level by level. None: neither has a row of some level.
fn rows_of_two(
    alloc: Global,
    first: &GivenRows,
    second: &GivenRows,
) -> Result<Option<Vec<TwoRows>>, AllocError>
    ensures long { IfOk result (λ found. IfSome found (λ levels. length levels.items ≡ 8)) }
    ensures each { IfOk result (λ found. IfSome found (λ levels. (level : ℕ) (d : TwoRows)
        → level ≤ 7 → AreTwoAt first.now second.now level (get_or levels.items level d))) }
    ensures none { IfOk result (λ found. IfNone found ((level : ℕ) × (level ≤ 7)
        × (given_at first.now level ≡ None) × (given_at second.now level ≡ None))) }
{
    let mut levels = Vec::new(alloc);
    for level in 0..8u32 {
        match rows_at(alloc, first, second, level)? {
            Some(two) => levels.push(two)?,
            None => return Ok(None),
        }
    }
    Ok(Some(levels))
}

/// The edge rows of a tree of that size and root, each from the one place or from the other. It folds at most 510 rows. None: no mix of
/// the rows leads to the root.
///
/// # Errors
///
/// `AllocError`: memory was refused.
pub fn edge_of_two<H: TreeHash>(
    alloc: Global,
    size: u64,
    root: &Hash,
    first: &GivenRows,
    second: &GivenRows,
) -> Result<Option<EdgeRows>, AllocError>
    requires first { HaveWidths size first.now }
    requires second { HaveWidths size second.now }
    ensures leads { IfOk result (λ found. IfSome found
        (λ edge. LeadsTo H.digest size root.now edge)) }
    ensures mix { IfOk result (λ found. IfSome found
        (λ edge. IsMixOf first.now second.now edge)) }
    ensures none { IfOk result (λ found. IfNone found
        (HaveNoMix H.digest size root.now first.now second.now)) }
{
    let Some(levels) = rows_of_two(alloc, first, second)? else {
        return Ok(None);
    };
    match find_mix::<H>(alloc, &levels, None, root)? {
        Some(rows) => Ok(Some(EdgeRows::new(size, rows))),
        None => Ok(None),
    }
}

// The edge rows of one of some places and of another one, mixed.
fn edge_with_one<H: TreeHash>(
    alloc: Global,
    size: u64,
    root: &Hash,
    given: &[GivenRows],
    j: usize,
) -> Result<Option<EdgeRows>, AllocError>
    requires listed { j < length given.now }
    requires widths { All (HaveWidths size) given.now }
    ensures leads { IfOk result (λ found. IfSome found
        (λ edge. LeadsTo H.digest size root.now edge)) }
    ensures mix { IfOk result (λ found. IfSome found (IsMixAmong given.now)) }
    ensures none { IfOk result (λ found. IfNone found ((i : ℕ) (d : GivenRows) → i < j
        → HaveNoMix H.digest size root.now (get_or given.now i d) (get_or given.now j d))) }
{
    for i in 0..j {
        match edge_of_two::<H>(alloc, size, root, &given[i], &given[j])? {
            Some(edge) => return Ok(Some(edge)),
            None => {}
        }
    }
    Ok(None)
}

/// The edge rows of a tree of that size and root, from two of the places, whichever two have them. The rows of more than two places are
/// not mixed.
pub(crate) fn edge_of_pairs<H: TreeHash>(
    alloc: Global,
    size: u64,
    root: &Hash,
    given: &[GivenRows],
) -> Result<Option<EdgeRows>, AllocError>
    requires widths { All (HaveWidths size) given.now }
    ensures leads { IfOk result (λ found. IfSome found
        (λ edge. LeadsTo H.digest size root.now edge)) }
    ensures mix { IfOk result (λ found. IfSome found (IsMixAmong given.now)) }
    ensures none { IfOk result (λ found. IfNone found ((i j : ℕ) (d : GivenRows) → i < j
        → j < length given.now
        → HaveNoMix H.digest size root.now (get_or given.now i d) (get_or given.now j d))) }
{
    for j in 0..given.len() {
        match edge_with_one::<H>(alloc, size, root, given, j)? {
            Some(edge) => return Ok(Some(edge)),
            None => {}
        }
    }
    Ok(None)
}
