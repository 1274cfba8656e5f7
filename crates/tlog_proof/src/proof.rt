//! Whole proofs: the request, and the answer with everything that a check needs.
ghost use Rattle.std.specs.Prelude.{◌↔◌, ◌≤◌, ℕ, List, length, IsTrue, IfOk};
ghost use Rattle.tlog_proof.specs.Answers.{AnswersAs};
ghost use Rattle.tlog_shape.specs.declared.TheConstants.{MAX_SIZE};
ghost use Rattle.tlog_proof.specs.Made.{asked_proof, Holds};
ghost use Rattle.tlog_proof.specs.Text.{IsWritableProof};

use crate::check::{check_consistency, check_inclusion};
use crate::make::{ProofFault, consistency, hash_of, inclusion};
use crate::path::HashPath;
use crate::ranges::Ranges;
use std::alloc::Global;
use tlog_hash::{Hash, TreeHash};

/// A request for a proof. `Ask::Inclusion { size: 3, index: 2 }` is for the last of three entries.
#[derive(Debug, Drop, PartialEq, Eq, Clone, Copy)]
pub enum Ask {
    /// A proof that the entry with the index is in the tree of that size.
    Inclusion { size: u64, index: u64 },
    /// A proof that the tree of the first size is a prefix of the tree of the second.
    Consistency { first: u64, second: u64 },
}

/// A proof with everything that a check needs. `examples/inclusion-2-of-3.proof` has the text of one.
///
/// A caller who relies on the check must also compare the roots with those of a checkpoint.
#[derive(Drop)]
pub enum Proof {
    /// The entry with that leaf hash has that index in the tree of that size and root.
    Inclusion {
        size: u64,
        index: u64,
        root: Hash,
        leaf: Hash,
        path: HashPath,
    },
    /// The tree of the first size and root is a prefix of that of the second.
    Consistency {
        first: u64,
        first_root: Hash,
        second: u64,
        second_root: Hash,
        path: HashPath,
    },
}

/// Makes the requested proof. If the list has at most 9223372036854775807 entries, the proof can be written as text.
///
/// # Errors
///
/// The faults of `inclusion` or `consistency`, in their order.
pub fn prove<R: Ranges>(alloc: Global, ranges: &R, ask: Ask) -> Result<Proof, ProofFault>
    ensures answer { (entries : List (List ℕ)) → R.lists ranges.now entries
        → AnswersAs ProofFault.OutOfMemory (λ proof. proof) result
        (asked_proof R.digest entries ask) }
    ensures writable { IfOk result (λ proof. (entries : List (List ℕ))
        → R.lists ranges.now entries → length entries ≤ MAX_SIZE → IsWritableProof proof) }
{
    match ask {
        Ask::Inclusion { size, index } => {
            let path = inclusion(alloc, ranges, size, index)?;
            let root = hash_of(ranges, 0, size)?;
            let leaf = hash_of(ranges, index, 1)?;
            Ok(Proof::Inclusion {
                size,
                index,
                root,
                leaf,
                path: HashPath::new(path),
            })
        }
        Ask::Consistency { first, second } => {
            let path = consistency(alloc, ranges, first, second)?;
            let first_root = hash_of(ranges, 0, first)?;
            let second_root = hash_of(ranges, 0, second)?;
            Ok(Proof::Consistency {
                first,
                first_root,
                second,
                second_root,
                path: HashPath::new(path),
            })
        }
    }
}

/// Whether the proof is right for its own sizes and roots, by `check_inclusion` or `check_consistency`. The call allocates
/// no memory.
pub fn holds<H: TreeHash>(proof: &Proof) -> bool
    ensures { IsTrue result ↔ Holds H.digest proof.now }
{
    match proof {
        Proof::Inclusion {
            size,
            index,
            root,
            leaf,
            path,
        } => check_inclusion::<H>(leaf, *index, *size, path.as_slice(), root),
        Proof::Consistency {
            first,
            first_root,
            second,
            second_root,
            path,
        } => { check_consistency::<H>(*first, first_root, *second, second_root, path.as_slice()) }
    }
}
