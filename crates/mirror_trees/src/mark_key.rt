//! Sizes with hashes, as keys of a set.
ghost use Rattle.std.specs.Prelude.{◌≡◌, ◌&&◌, nat_eq, ◌∷◌, ◌++◌, []};
ghost use Rattle.std.specs.Cmp.Lexicographic.{pointwise};
ghost use Rattle.std.specs.Cmp.Rules.{comparing, hashing};
ghost use Rattle.std.specs.Hash as fed;
ghost use Rattle.std.proofs.Common.{rules};

use std::hash::{Hash, Hasher};
use std::marker::Model;

// A size with a hash, as a key of the set. Contracts see the two.
//
// The hash's bytes go to the set's hasher in one piece; the bytes of an array would go one by one.
#[derive(Drop)]
pub(crate) struct MarkKey {
    size: u64,
    root: tlog_hash::Hash,
}

impl Model for MarkKey {
    ghost use Rattle.std.specs.Prelude.{ℕ, List};

    ghost Value = { ℕ × List ℕ };

    ghost view = { λ a. (a.size, a.root) };

    ghost inverse = { λ p. record { size = p.0; root = p.1 } };
}

impl MarkKey {
    pub(crate) fn new(size: u64, root: &tlog_hash::Hash) -> Self
        ensures { result ≡ (size, root.now) }
    {
        let root = *root;
        MarkKey { size, root }
    }
}

impl PartialEq for MarkKey {
    ghost eq = { λ a b. nat_eq a.0 b.0 && pointwise nat_eq a.1 b.1 };

    ghost laws = { Prim.search (comparing, rules) };

    fn eq(&self, other: &MarkKey) -> bool {
        self.size == other.size && self.root == other.root
    }
}

impl Eq for MarkKey {
    ghost laws = { Prim.search (comparing, rules) };
}

impl Hash for MarkKey {
    ghost hash_input = { λ a. fed.u64 a.0 ++ a.1 ∷ [] };

    ghost respects_eq = { Prim.search (hashing, rules) };

    fn hash<H: Hasher>(&self, state: &mut H) {
        state.write_u64(self.size);
        state.write(self.root.as_slice());
    }
}
