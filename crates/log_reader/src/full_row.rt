//! The row of a full tile with the hashes of its nodes.
ghost use Rattle.std.specs.Prelude.{◌≡◌, ◌+◌, ◌%◌, ◌≤◌, IfOk, drop, length, take};
ghost use Rattle.tlog_shape.specs.Split.{IsPowerOfTwo};
ghost use Rattle.tlog_hash.specs.Tree.{fold_of};

use std::alloc::AllocError;
use std::marker::{Model, PhantomData};
use tlog_hash::{Hash, TreeHash};

/// The 256 hashes of a full tile, and the hashes of the nodes above them up to the fold of the row. They are joined once, so that a node
/// of a proof costs no hash.
#[derive(Drop)]
pub(crate) struct FullRow<H: TreeHash> {
    // The row, the 128 nodes above it, the 64 above these, and so on. The fold is the last.
    hashes: Vec<Hash>,
    by: PhantomData<H>,
}

impl<H: TreeHash> Model for FullRow<H> {
    ghost use Rattle.std.specs.Prelude.{ℕ, List, take};
    ghost use Rattle.log_reader.specs.FullRows.{HasNodes};

    ghost Value = { List (List ℕ) };

    ghost view = { λ a. take 256 a.hashes.items };

    ghost invariant = { λ a. HasNodes H.digest 511 a.hashes.items };
}

impl<H: TreeHash> FullRow<H> {
    /// Joins the nodes of a row.
    pub(crate) fn new(row: Vec<Hash>) -> Result<FullRow<H>, AllocError>
        requires { length row.items ≡ 256 }
        ensures { IfOk result (λ full. full ≡ row.items) }
    {
        let mut hashes = row;
        for k in 0..255usize {
            let node = H::node(&hashes[2 * k], &hashes[2 * k + 1]);
            hashes.push(node)?;
        }
        Ok(FullRow {
            hashes,
            by: PhantomData,
        })
    }

    /// The row.
    pub(crate) fn row(&self) -> &[Hash]
        ensures { result.now ≡ self.now }
    {
        &self.hashes[..256]
    }

    /// Its fold.
    pub(crate) fn fold(&self) -> Hash
        ensures { result ≡ fold_of H.digest self.now }
    {
        self.hashes[510]
    }

    /// The fold of `count` hashes of the row, from hash `first` on.
    pub(crate) fn node(&self, first: u32, count: u32) -> Hash
        requires power { IsPowerOfTwo count }
        requires aligned { first % count ≡ 0 }
        requires fits { first + count ≤ 256 }
        ensures { result ≡ fold_of H.digest (take count (drop first self.now)) }
    {
        self.hashes[(512 - 512 / count + first / count) as usize]
    }
}
