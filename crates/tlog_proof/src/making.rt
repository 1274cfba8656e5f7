//! Makes paths from hashes of ranges, where a call for a hash may fail.
ghost use Rattle.std.specs.Prelude.{◌≡◌, ◌+◌, ◌<◌, ◌≤◌, ◌^◌, ◌∷◌, [], ℕ, List, IfErr, IfOk, OnOk, length, take};
ghost use Rattle.tlog_hash.specs.Tree.{mth};
ghost use Rattle.tlog_proof.specs.Consistency.{proof_of, subproof_of};
ghost use Rattle.tlog_proof.specs.Inclusion.{path_of};
ghost use Rattle.tlog_proof.specs.Making.{IsWhy};
ghost use Rattle.tlog_proof.specs.Ranges.{AddsHashes};

use crate::may_ranges::MayRanges;
use std::alloc::Global;
use tlog_hash::Hash;
use tlog_shape::split;

/// Why `try_inclusion` or `try_consistency` made no path. For example, `MakeFault::Ranges(fault)` has the fault of a file
/// that could not be read.
#[derive(Drop)]
pub enum MakeFault<E> {
    /// There was no hash of a range.
    Ranges(E),
    /// Memory was refused.
    OutOfMemory,
}

/// The path of `inclusion`, where a call for a hash may fail: the one that shows the entry with that index in the tree of the
/// first `size` entries. It is PATH of RFC 6962, section 2.1.1. The hash nearest to the root is requested last.
///
/// ```text
/// try_inclusion(alloc, &mut ranges, 3, 2)?   // one hash: that of the first two entries
/// ```
///
/// # Errors
///
/// `Ranges`: the fault of the first hash that is lacking. `OutOfMemory`: memory was refused.
pub fn try_inclusion<R: MayRanges>(
    alloc: Global,
    ranges: &mut R,
    size: u64,
    index: u64,
) -> Result<Vec<Hash>, MakeFault<R::Fault>>
    requires within { index < size }
    requires node { R.node ranges.old 0 size }
    ensures path { IfOk result (λ path. (entries : List (List ℕ)) → R.lists ranges.old entries
        → size ≤ length entries → path.items ≡ path_of R.digest index (take size entries)) }
    ensures steps { OnOk result (R.steps ranges.old ranges.new) }
    ensures why { IfErr result (IsWhy R.steps R.why 0 size ranges.old ranges.new) }
{
    let mut path = Vec::new(alloc);
    match add_path(ranges, 0, size, index, &mut path) {
        Ok(()) => Ok(path),
        Err(fault) => Err(fault),
    }
}

/// The path of `consistency`, where a call for a hash may fail: the one from the tree of the first `first` entries to that of
/// the first `second`. It is PROOF of RFC 6962, section 2.1.2, or the empty path for equal sizes.
///
/// ```text
/// try_consistency(alloc, &mut ranges, 3, 4)?   // the hashes of entries 2 and 3, and that of the first two
/// ```
///
/// # Errors
///
/// `Ranges`: the fault of the first hash that is lacking. `OutOfMemory`: memory was refused.
pub fn try_consistency<R: MayRanges>(
    alloc: Global,
    ranges: &mut R,
    first: u64,
    second: u64,
) -> Result<Vec<Hash>, MakeFault<R::Fault>>
    requires some { 0 < first }
    requires within { first ≤ second }
    requires node { R.node ranges.old 0 second }
    ensures path { IfOk result (λ path. (entries : List (List ℕ)) → R.lists ranges.old entries
        → second ≤ length entries → path.items ≡ proof_of R.digest first (take second entries)) }
    ensures steps { OnOk result (R.steps ranges.old ranges.new) }
    ensures why { IfErr result (IsWhy R.steps R.why 0 second ranges.old ranges.new) }
{
    let mut path = Vec::new(alloc);
    match add_subproof(ranges, 0, second, first, true, &mut path) {
        Ok(()) => Ok(path),
        Err(fault) => Err(fault),
    }
}

// Appends the hash of a range to a path.
fn add_hash<R: MayRanges>(
    ranges: &mut R,
    start: u64,
    len: u64,
    path: &mut Vec<Hash>,
) -> Result<(), MakeFault<R::Fault>>
    requires { R.node ranges.old start len }
    ensures ok { OnOk result (AddsHashes (R.lists ranges.old) start len
        (λ es. mth R.digest es ∷ []) path.old.items path.new.items) }
    ensures steps { OnOk result (R.steps ranges.old ranges.new) }
    ensures why { IfErr result (IsWhy R.steps R.why start len ranges.old ranges.new) }
{
    match ranges.hash(start, len) {
        Ok(hash) => match path.push(hash) {
            Ok(()) => Ok(()),
            Err(_) => Err(MakeFault::OutOfMemory),
        },
        Err(fault) => Err(MakeFault::Ranges(fault)),
    }
}

// Appends the path for an index within a range. The index is counted from the start of the range.
fn add_path<R: MayRanges>(
    ranges: &mut R,
    start: u64,
    len: u64,
    index: u64,
    path: &mut Vec<Hash>,
) -> Result<(), MakeFault<R::Fault>>
    requires inside { index < len }
    requires fits { start + len < 2 ^ 64 }
    requires node { R.node ranges.old start len }
    ensures ok { OnOk result (AddsHashes (R.lists ranges.old) start len (path_of R.digest index)
        path.old.items path.new.items) }
    ensures steps { OnOk result (R.steps ranges.old ranges.new) }
    ensures why { IfErr result (IsWhy R.steps R.why start len ranges.old ranges.new) }
{
    if len == 1 {
        return Ok(());
    }
    let k = split(len);
    if index < k {
        add_path(ranges, start, k, index, path)?;
        add_hash(ranges, start + k, len - k, path)
    } else {
        add_path(ranges, start + k, len - k, index - k, path)?;
        add_hash(ranges, start, k, path)
    }
}

// Appends the path from the first entries of a range to the whole range. `held` says that the checker knows the root of the
// first entries.
fn add_subproof<R: MayRanges>(
    ranges: &mut R,
    start: u64,
    len: u64,
    first: u64,
    held: bool,
    path: &mut Vec<Hash>,
) -> Result<(), MakeFault<R::Fault>>
    requires some { 0 < first }
    requires within { first ≤ len }
    requires fits { start + len < 2 ^ 64 }
    requires node { R.node ranges.old start len }
    ensures ok { OnOk result (AddsHashes (R.lists ranges.old) start len
        (λ es. subproof_of R.digest first es held) path.old.items path.new.items) }
    ensures steps { OnOk result (R.steps ranges.old ranges.new) }
    ensures why { IfErr result (IsWhy R.steps R.why start len ranges.old ranges.new) }
{
    if first == len {
        if held {
            return Ok(());
        }
        return add_hash(ranges, start, len, path);
    }
    let k = split(len);
    if first <= k {
        add_subproof(ranges, start, k, first, held, path)?;
        add_hash(ranges, start + k, len - k, path)
    } else {
        add_subproof(ranges, start + k, len - k, first - k, false, path)?;
        add_hash(ranges, start, k, path)
    }
}
