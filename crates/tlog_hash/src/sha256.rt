//! SHA-256, the digest of RFC 6962.
ghost use Rattle.sha2.specs.Sha256.{sha256};
ghost use Rattle.sha2.proofs.Facts256.{length-sha256};

use crate::{Hash, TreeHash};
use sha2::{Digest, Sha256};

/// Tree hashes by SHA-256 (RFC 9162, section 2.1.1).
pub struct Sha256Tree;

impl TreeHash for Sha256Tree {
    ghost digest = { sha256 };

    ghost digest_length = { length-sha256 };

    fn empty() -> Hash {
        Sha256::new().finalize()
    }

    fn leaf(entry: &[u8]) -> Hash {
        let mut hasher = Sha256::new();
        hasher.update(&[0u8]);
        hasher.update(entry);
        hasher.finalize()
    }

    fn node(left: &Hash, right: &Hash) -> Hash {
        let mut hasher = Sha256::new();
        hasher.update(&[1u8]);
        hasher.update(left.as_slice());
        hasher.update(right.as_slice());
        hasher.finalize()
    }
}
