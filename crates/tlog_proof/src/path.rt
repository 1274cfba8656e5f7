//! The hashes of a proof.
ghost use Rattle.std.specs.Prelude.{◌≡◌};

use std::marker::Model;
use tlog_hash::Hash;

/// The hashes of a proof, with the hash nearest to the root last. Contracts see it as a list. For example, the path of the
/// last of three entries is one hash: the tree hash of the first two.
#[derive(Drop)]
pub struct HashPath {
    hashes: Vec<Hash>,
}

impl Model for HashPath {
    ghost use Rattle.std.specs.Prelude.{ℕ, List};

    ghost Value = { List (List ℕ) };

    ghost view = { λ p. p.hashes.items };
}

impl HashPath {
    /// A path of these hashes.
    pub fn new(hashes: Vec<Hash>) -> HashPath
        ensures { result ≡ hashes.items }
    {
        Self { hashes }
    }

    /// The hashes.
    pub fn as_slice(&self) -> &[Hash]
        ensures { result.now ≡ self.now }
    {
        self.hashes.as_slice()
    }

    /// The hashes, without a copy.
    ///
    /// ```text
    /// match proof { Proof::Inclusion { path, .. } => path.into_vec(), .. }   // the hashes, as a `Vec`
    /// ```
    pub fn into_vec(self) -> Vec<Hash>
        ensures { result.items ≡ self }
    {
        let HashPath { hashes } = self;
        hashes
    }
}
