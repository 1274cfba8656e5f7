//! The edge of a log with the hashes of its rows.
ghost use Rattle.std.specs.Prelude.{◌≡◌, ◌≤◌, IfOk};
ghost use Rattle.log_reader.specs.EdgeRows.{HasWidths, hash_of_edge};
ghost use Rattle.log_reader.specs.Nodes.{hash_below};

use crate::edge_root::{hashes_below, root_of};
use crate::edge_rows::EdgeRows;
use std::alloc::{AllocError, Global};
use std::marker::{Model, PhantomData};
use tlog_hash::{Hash, TreeHash};

/// The edge of a log, and for each level the hash that the rows below it lead to. They are folded once, so that the last node of a
/// proof costs only the hashes of its own level.
#[derive(Drop)]
pub(crate) struct HashedEdge<H: TreeHash> {
    rows: EdgeRows,
    below: Vec<Option<Hash>>,
    by: PhantomData<H>,
}

impl<H: TreeHash> Model for HashedEdge<H> {
    ghost use Rattle.log_reader.specs.EdgeRows.{Edge};
    ghost use Rattle.log_reader.specs.Nodes.{AreBelow};

    ghost Value = { Edge };

    ghost view = { λ a. a.rows };

    ghost invariant = { λ a. AreBelow H.digest a.rows 9 a.below.items };
}

impl<H: TreeHash> HashedEdge<H> {
    /// Folds the rows of an edge.
    pub(crate) fn new(alloc: Global, rows: EdgeRows) -> Result<HashedEdge<H>, AllocError>
        ensures { IfOk result (λ edge. edge ≡ rows) }
    {
        let below = hashes_below::<H>(alloc, &rows)?;
        Ok(HashedEdge {
            rows,
            below,
            by: PhantomData,
        })
    }

    /// The rows.
    pub(crate) fn rows(&self) -> &EdgeRows
        ensures { result.now ≡ self.now }
    {
        &self.rows
    }

    /// The hash that the rows lead to.
    pub(crate) fn root(&self) -> Hash
        requires { HasWidths self.now }
        ensures { result ≡ hash_of_edge H.digest self.now }
    {
        root_of::<H>(self.below[8])
    }

    /// The hash that the rows below a level lead to. None if there are none.
    pub(crate) fn below(&self, level: u32) -> Option<Hash>
        requires { level ≤ 8 }
        ensures { result ≡ hash_below H.digest self.now level }
    {
        self.below[level as usize]
    }
}
