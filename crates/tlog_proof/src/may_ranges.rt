//! Sources of the hashes of a proof that may fail.
ghost use Rattle.std.specs.Prelude.{IfErr, IfOk, OnOk};
ghost use Rattle.tlog_proof.specs.Ranges.{HashesRange};

use tlog_hash::Hash;

/// The tree hashes of the ranges of one list of entries, where a call may fail: for example, files of a log are read for it.
///
/// The relations say what calls do. A contract that is generic in the ranges cites `steps` for a run of calls that all
/// succeeded, and `why` for one whose last call failed. What is behind the value, as the files, is in these relations.
pub trait MayRanges {
    ghost use Rattle.std.specs.Prelude.{◌≡◌, ◌+◌, ◌-◌, ◌≤◌, ℕ, List};
    ghost use Rattle.tlog_shape.specs.Split.{split_of};

    /// Why there is no hash.
    type Fault: Drop;

    /// The lists that the value may represent: one list in practice.
    ghost lists: { Self → List (List ℕ) → Type 0 };

    /// The digest function of the hashes.
    ghost digest: { List ℕ → List ℕ };

    /// The hash of the range may be requested, by its first entry and its number of entries.
    ghost node: { Self → ℕ → ℕ → Type 0 };

    /// What calls that succeeded may do, to the value and to what is behind it.
    ghost steps: { Self → Self → Type 0 };

    /// Why there was no hash of the range, and what the calls did up to the one that failed.
    ghost why: { Self → Self → ℕ → ℕ → Self.Fault → Type 0 };

    /// The tree hash of the `len` entries from the entry `start` on.
    ///
    /// # Errors
    ///
    /// Those of the implementation, as `why` says.
    fn hash(&mut self, start: u64, len: u64) -> Result<Hash, Self::Fault>
        requires { node self.old start len }
        ensures hash { IfOk result (HashesRange (lists self.old) start len digest) }
        ensures steps { OnOk result (steps self.old self.new) }
        ensures why { IfErr result (why self.old self.new start len) };

    /// No call does nothing.
    ghost once: { (x : Self) → steps x x };

    /// Two runs make one.
    ghost twice: { (x y z : Self) → steps x y → steps y z → steps x z };

    /// The value still represents the lists that it represented.
    ghost stays: { (x y : Self) (entries : List (List ℕ)) → steps x y → lists x entries
        → lists y entries };

    /// A range that may be requested stays one.
    ghost node_stays: { (x y : Self) (start len : ℕ) → steps x y → node x start len
        → node y start len };

    /// The left part of a range, at the split of RFC 6962, may be requested where the range may be.
    ghost left: { (x : Self) (start len k : ℕ) → 2 ≤ len → k ≡ split_of len → node x start len
        → node x start k };

    /// So may the right part.
    ghost right: { (x : Self) (start len k : ℕ) → 2 ≤ len → k ≡ split_of len → node x start len
        → node x (start + k) (len - k) };

    /// The reason holds of a run that began earlier too.
    ghost why_longer: { (x y z : Self) (start len : ℕ) (fault : Self.Fault) → steps x y
        → why y z start len fault → why x z start len fault };
}
