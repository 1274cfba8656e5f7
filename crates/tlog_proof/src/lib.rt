//! Inclusion and consistency proofs of a transparency log (RFC 6962, sections 2.1.1 and 2.1.2; RFC
//! 9162, sections 2.1.3 and 2.1.4).
//!
//! An inclusion proof shows that an entry has its index in a tree of some size and root. A consistency proof shows that a
//! tree is a prefix of a larger one. Both are lists of hashes of parts of the tree. Such a list is called a path here, and
//! the hash nearest to the root is last.
//!
//! `inclusion` and `consistency` make a path from the hashes of ranges of a list, which come from any `Ranges`. `prove`
//! makes a whole proof. `check_inclusion` and `check_consistency` check a path, and `holds` checks a whole proof.
//! `write_text` and `read_text` write a proof as text and read it back.
//!
//! ```text
//! let proof = prove(alloc, &ranges, Ask::Inclusion { size: 3, index: 2 })?;
//! let text = write_text(alloc, &proof)?;
//! read_text(alloc, &text)?         // the same proof
//! holds::<Sha256Tree>(&proof)      // true
//! ```
#![tactic(auto)]

mod check;
mod fault;
mod laws;
mod limits;
mod make;
mod making;
mod may_ranges;
mod path;
mod proof;
mod ranges;
mod read;
mod sure;
mod write;

pub use check::{check_consistency, check_inclusion};
pub use fault::TextFault;
pub use laws::{
    accepted_consistency_law, accepted_inclusion_law, cons_law, incl_law, limits_law,
    made_consistency_law, made_inclusion_law, path_law, path_length_law, proof_law, text_law,
};
pub use limits::MAX_TEXT_LEN;
pub use make::{ProofFault, consistency, inclusion};
pub use making::{MakeFault, try_consistency, try_inclusion};
pub use may_ranges::MayRanges;
pub use path::HashPath;
pub use proof::{Ask, Proof, holds, prove};
pub use ranges::Ranges;
pub use read::read_text;
pub use write::write_text;
