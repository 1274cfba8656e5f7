//! Laws of the definitions that the contracts cite.
//!
//! A law is the contract of a function with an empty body: it consists of its proof.
ghost use Rattle.mirror_trees.specs.Tops.{ProofsAreServed, TopHasServed};

/// The result of `top_ranges` has exactly the served entries. A proof that `tlog_proof::prove` makes over it is a proof
/// for these entries.
pub fn served_list_law()
    ensures list { TopHasServed }
    ensures proofs { ProofsAreServed }
{}
