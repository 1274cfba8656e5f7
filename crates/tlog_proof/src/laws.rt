//! Laws of the standards for proofs, for the definitions that the contracts cite.
//!
//! A law is a function with an empty body: only its contract counts.
ghost use Rattle.tlog_proof.specs.Laws.{PathEquations, ProofEquations, InclEquations, ConsEquations, PathsAreShort, MadeInclusionHolds, MadeConsistencyHolds, AcceptedInclusionShows, AcceptedConsistencyShows};
ghost use Rattle.tlog_proof.specs.Text.{HasOneSpelling, HasProofLimits};

/// `path_of` meets the equations of PATH (RFC 6962, section 2.1.1), and any other such function agrees with it for each
/// entry of a list.
pub fn path_law()
    ensures { PathEquations }
{}

/// `proof_of` is PROOF of RFC 6962, section 2.1.2. `subproof_of` meets the equations of SUBPROOF, and any other such
/// function agrees with it for `0 < m <= n`.
pub fn proof_law()
    ensures { ProofEquations }
{}

/// For at most 2^j entries, an inclusion proof has at most j hashes, and a consistency proof at most j + 1.
pub fn path_length_law()
    ensures { PathsAreShort }
{}

/// `incl` meets the equations that reverse PATH, from the root down, and it is the only such function.
pub fn incl_law()
    ensures { InclEquations }
{}

/// `cons` meets the equations that reverse SUBPROOF, from the root down, and it is the only such function.
pub fn cons_law()
    ensures { ConsEquations }
{}

/// An inclusion proof that was made from a list is accepted.
pub fn made_inclusion_law()
    ensures { MadeInclusionHolds }
{}

/// A consistency proof that was made from a list is accepted.
pub fn made_consistency_law()
    ensures { MadeConsistencyHolds }
{}

/// An accepted inclusion proof for an index of a list shows the entry with that index, unless two of the hashed strings
/// collide.
pub fn accepted_inclusion_law()
    ensures { AcceptedInclusionShows }
{}

/// An accepted consistency proof for the sizes and roots of two lists shows that the first is a prefix of the second, unless
/// two of the hashed strings collide.
pub fn accepted_consistency_law()
    ensures { AcceptedConsistencyShows }
{}

/// A text is at most one proof, a proof has one text, and each text has at most 8,192 bytes.
pub fn text_law()
    ensures { HasOneSpelling }
{}

/// The path in a proof's text has at most 64 hashes, and `MAX_TEXT_LEN` is 8,192 bytes.
pub fn limits_law()
    ensures { HasProofLimits }
{}
