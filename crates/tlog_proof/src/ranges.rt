//! Sources of the hashes of a proof.
ghost use Rattle.std.specs.Prelude.{◌≡◌, ℕ, List, length, IfSome, IfNone};
ghost use Rattle.tlog_proof.specs.Ranges.{HashesRange, LacksRange};

use tlog_hash::Hash;

/// The tree hashes of the ranges of one list of entries. For example, a list in memory can hash the entries of each range.
///
/// A value need not hold the entries: a mirror finds the hashes in tiles. A contract about a list holds for each list that
/// the value may represent.
pub trait Ranges {
    /// The lists that the value may represent: one list in practice.
    ghost lists: { Self → List (List ℕ) → Type 0 };

    /// The digest function of the hashes.
    ghost digest: { List ℕ → List ℕ };

    /// The number of entries of the list.
    fn size(&self) -> u64
        ensures { (entries : List (List ℕ)) → lists self.now entries → result ≡ length entries };

    /// The tree hash of the `len` entries from the entry `start` on, or None if the range is not within the list. An empty
    /// range within the list has the hash of the empty list.
    fn hash(&self, start: u64, len: u64) -> Option<Hash>
        ensures some { IfSome result (HashesRange (lists self.now) start len digest) }
        ensures none { IfNone result (LacksRange (lists self.now) start len) };
}
