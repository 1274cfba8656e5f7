//! Candidates: notes that open, with their checkpoints.
ghost use Rattle.std.specs.Prelude.{◌↔◌, IfOk, IsTrue, map};
ghost use Rattle.copy_places.specs.Candidates.{IsOnePoint, IsSame, JudgesNote};

use log_reader::open_head;
use mirror_model::TakeFault;
use signed_note::Verifier;
use std::alloc::{AllocError, Global};
use std::cmp::Reverse;
use tlog_hash::Hash;

/// A note that opens under the keys and whose text is a checkpoint of the origin. Candidates rise in the order of their turns: the
/// greatest size first, then the least root, then the least note.
#[derive(Drop, PartialEq, Eq, PartialOrd, Ord)]
pub struct Candidate {
    /// The log's number of entries.
    pub size: Reverse<u64>,
    /// The hash of its tree.
    pub root: Hash,
    /// The note.
    pub note: Vec<u8>,
}

impl Candidate {
    /// A copy of the candidate.
    ///
    /// # Errors
    ///
    /// `AllocError`: memory was refused.
    pub fn copy(&self, alloc: Global) -> Result<Candidate, AllocError>
        ensures { IfOk result (IsSame self.now) }
    {
        let root = self.root;
        Ok(Candidate {
            size: Reverse(self.size.0),
            root,
            note: Vec::from_slice(alloc, &self.note)?,
        })
    }

    /// Whether two candidates have the same size and root.
    pub fn is_same_point(&self, other: &Candidate) -> bool
        ensures { IsTrue result ↔ IsOnePoint self.now other.now }
    {
        self.size.0 == other.size.0 && self.root == other.root
    }
}

/// The candidate of a note.
pub(crate) fn candidate_of(
    alloc: Global,
    origin: &str,
    keys: &[Box<dyn Verifier>],
    note: Vec<u8>,
) -> Result<Candidate, TakeFault>
    ensures { JudgesNote note.items origin.now (map (λ k. key k) keys.now) result }
{
    let checkpoint = open_head(alloc, origin, keys, &note)?;
    let root = checkpoint.root;
    Ok(Candidate {
        size: Reverse(checkpoint.size),
        root,
        note,
    })
}
