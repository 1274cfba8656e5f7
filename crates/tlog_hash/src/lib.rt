//! Tree hashes of a transparency log (RFC 6962, section 2.1; RFC 9162, section 2.1.1).
//!
//! `TreeHash` is the digest function of a tree. `Sha256Tree` is SHA-256, for the product; `SumTree`
//! is a digest for tests, with collisions that are easy to find. `tree_hash` is the hash of a list
//! of entries, and `fold` the hash of a row of hashes. `pairs` returns the pairs of hashes that
//! `fold` joins.
//!
//! ```text
//! let root = tree_hash::<Sha256Tree>(&[b"", b"\x00", b"\x10"]);
//! let row = [Sha256Tree::leaf(b""), Sha256Tree::leaf(b"\x00"), Sha256Tree::leaf(b"\x10")];
//! fold::<Sha256Tree>(&row) == root
//! ```
#![tactic(auto)]

mod laws;
mod sha256;
mod sum;
mod tree;

ghost use Rattle.std.specs.Prelude.{◌≡◌, ℕ, List, [], ◌∷◌, ◌++◌, length};

pub use laws::{blocks_law, fold_law, nodes_law, strings_law, tree_hash_law};
pub use sha256::Sha256Tree;
pub use sum::SumTree;
pub use tree::{fold, pairs, tree_hash};

/// A digest of 32 bytes.
pub type Hash = [u8; 32];

/// The hashes of a tree, with one digest function.
pub trait TreeHash {
    /// The digest of a byte string.
    ghost digest: { List ℕ → List ℕ };

    /// The hash of the empty list of entries: the digest of the empty string.
    fn empty() -> Hash
        ensures { result ≡ digest [] };

    /// The leaf hash of an entry: the digest of `0x00 || entry`.
    fn leaf(entry: &[u8]) -> Hash
        ensures { result ≡ digest (0 ∷ entry.now) };

    /// The hash of a node: the digest of `0x01 || left || right`.
    fn node(left: &Hash, right: &Hash) -> Hash
        ensures { result ≡ digest (1 ∷ left.now ++ right.now) };

    /// A digest has 32 bytes.
    ghost digest_length: { (s : List ℕ) → length (digest s) ≡ 32 };
}
