//! A digest for tests.
ghost use Rattle.std.specs.Prelude.{◌≡◌, ◌∷◌, ◌+◌, ◌%◌, replicate, sum};
ghost use Rattle.tlog_hash.specs.Sum.{sum_digest};
ghost use Rattle.tlog_hash.specs.Sum.{length-sum_digest};

use crate::{Hash, TreeHash};

/// Tree hashes by a sum: the first byte of a digest is the sum of the string's bytes modulo 256, and all others are zero. It
/// is a lawful `TreeHash` with collisions that are easy to find. Tests use it to show how a mirror handles them.
pub struct SumTree;

impl TreeHash for SumTree {
    ghost digest = { sum_digest };

    ghost digest_length = { length-sum_digest };

    fn empty() -> Hash {
        digest_of(0)
    }

    fn leaf(entry: &[u8]) -> Hash {
        digest_of(sum_from(0, entry))
    }

    fn node(left: &Hash, right: &Hash) -> Hash {
        digest_of(sum_from(sum_from(1, left), right))
    }
}

// The digest of each string with that sum.
fn digest_of(sum: u8) -> Hash
    ensures { result ≡ sum ∷ replicate 31 0 }
{
    let mut digest = [0; 32];
    digest[0] = sum;
    digest
}

// The sum of `before` and the bytes, modulo 256.
fn sum_from(before: u8, bytes: &[u8]) -> u8
    ensures { result ≡ (before + sum bytes.now) % 256 }
{
    let mut total = before;
    for byte in bytes {
        total = total.wrapping_add(*byte);
    }
    total
}
