//! The right edge of the old copy.
ghost use Rattle.std.specs.Prelude.{◌≡◌, ◌≢◌, ◌↔◌, ◌≤◌, ◌⊎◌, [], IfNone, IfSome, IsFalse, IsTrue, Some, get_or, length, option_map, take};
ghost use Rattle.tlog_shape.specs.Edge.{width_of, edge_index_of};
ghost use Rattle.copy_follow.specs.Growing.{empty_tip};

use crate::same::is_same;
use log_reader::EdgeRows;
use std::alloc::Global;
use std::marker::Model;
use tlog_hash::Hash;
use tlog_shape::{edge_index, edge_width};

/// The tip of a copy: its edge rows, the bytes of its partial bundle, and its checkpoint at the time of the reading. The checkpoint is None
/// if there was none.
#[derive(Drop)]
pub(crate) struct CopyTip {
    edge: EdgeRows,
    bundle: Vec<u8>,
    checkpoint: Option<Vec<u8>>,
}

impl Model for CopyTip {
    ghost use Rattle.std.specs.Prelude.{option_map};
    ghost use Rattle.copy_follow.specs.Growing.{Tip};

    ghost Value = { Tip };

    ghost view = { λ a. record {
      size = a.edge.size;
      rows = a.edge.rows;
      bundle = a.bundle.items;
      checkpoint = option_map (λ v. v.items) a.checkpoint;
    } };
}

fn is_same_row(first: &[Hash], second: &[Hash]) -> bool
    ensures { IsTrue result ↔ (first.now ≡ second.now) }
{
    first == second
}

// Whether the row begins with the old hashes.
fn begins_with(row: &[Hash], old: &[Hash]) -> bool
    ensures { IsTrue result ↔ ((length old.now ≤ length row.now)
        × (take (length old.now) row.now ≡ old.now)) }
{
    old.len() <= row.len() && is_same_row(&row[..old.len()], old)
}

// Whether the bytes begin with the old ones.
pub(crate) fn goes_on_from(bytes: &[u8], old: &[u8]) -> bool
    ensures { IsTrue result ↔ ((length old.now ≤ length bytes.now)
        × (take (length old.now) bytes.now ≡ old.now)) }
{
    old.len() <= bytes.len() && is_same(&bytes[..old.len()], old)
}

impl CopyTip {
    /// The tip of a copy with that edge, partial bundle and checkpoint.
    pub(crate) fn new(edge: EdgeRows, bundle: Vec<u8>, checkpoint: Vec<u8>) -> CopyTip
        ensures size { result.size ≡ edge.size }
        ensures rows { result.rows ≡ edge.rows }
        ensures bundle { result.bundle ≡ bundle.items }
        ensures checkpoint { result.checkpoint ≡ Some checkpoint.items }
    {
        CopyTip {
            edge,
            bundle,
            checkpoint: Some(checkpoint),
        }
    }

    /// The tip of a shelf without a checkpoint.
    pub(crate) fn empty(alloc: Global) -> CopyTip
        ensures { result ≡ empty_tip }
    {
        CopyTip {
            edge: EdgeRows::new(0, Vec::new(alloc)),
            bundle: Vec::new(alloc),
            checkpoint: None,
        }
    }

    /// The checkpoint that was read.
    pub(crate) fn checkpoint(&self) -> Option<&[u8]>
        ensures { option_map (λ b. b.now) result ≡ self.now.checkpoint }
    {
        match &self.checkpoint {
            Some(bytes) => Some(bytes.as_slice()),
            None => None,
        }
    }

    pub(crate) fn size(&self) -> u64
        ensures { result ≡ self.now.size }
    {
        self.edge.size()
    }

    fn row(&self, level: u32) -> &[Hash]
        ensures { result.now ≡ get_or self.now.rows level [] }
    {
        self.edge.row(level)
    }

    /// The number of hashes of a tile that cover only entries of the copy. None: these hashes differ from the copy's.
    pub(crate) fn first_new(&self, level: u32, index: u64, row: &[Hash]) -> Option<u64>
        requires level { level ≤ 7 }
        ensures first { IfSome result (λ first. ((index ≡ edge_index_of self.now.size level)
            × (first ≡ width_of self.now.size level) × (take first row.now ≡ get_or self.now.rows level []))
            ⊎ ((index ≢ edge_index_of self.now.size level) × (first ≡ 0))) }
        ensures none { IfNone result (index ≡ edge_index_of self.now.size level) }
        ensures within { IfSome result (λ first. first ≤ length row.now) }
        ensures differs { IfNone result (
            length (get_or self.now.rows level []) ≡ width_of self.now.size level
            → length (get_or self.now.rows level []) ≤ length row.now
            → ¬ (take (length (get_or self.now.rows level [])) row.now ≡ get_or self.now.rows level [])) }
    {
        if index != edge_index(self.size(), level) {
            return Some(0);
        }
        let width = edge_width(self.size(), level);
        let old = self.row(level);
        if old.len() as u64 == u64::from(width) && begins_with(row, old) {
            Some(u64::from(width))
        } else {
            None
        }
    }

    /// Whether a bundle begins with the bytes of the copy's partial bundle. True if the copy has no partial bundle at that index.
    pub(crate) fn goes_on(&self, index: u64, bytes: &[u8]) -> bool
        ensures other { IsFalse result → index ≡ edge_index_of self.now.size 0 }
        ensures same { IsTrue result → index ≡ edge_index_of self.now.size 0
            → take (length self.now.bundle) bytes.now ≡ self.now.bundle }
        ensures differs { IsFalse result → length self.now.bundle ≤ length bytes.now
            → ¬ (take (length self.now.bundle) bytes.now ≡ self.now.bundle) }
    {
        index != edge_index(self.size(), 0) || goes_on_from(bytes, &self.bundle)
    }
}
