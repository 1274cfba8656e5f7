//! Digests as keys of a map.
ghost use Rattle.std.specs.Prelude.{◌≡◌, nat_eq, ◌∷◌, []};
ghost use Rattle.std.specs.Cmp.{partial_equiv_from_equiv};
ghost use Rattle.std.specs.Cmp.Lexicographic.{pointwise, nat_list_eq_equiv};
ghost use Rattle.std.specs.Cmp.Rules.{hashing};
ghost use Rattle.std.proofs.Common.{rules};

use std::hash::{Hash, Hasher};
use std::marker::Model;

// A digest, as a key of the map. Contracts see its bytes.
//
// The bytes go to the map's hasher in one piece; the bytes of an array would go one by one.
#[derive(Drop)]
pub(crate) struct DigestKey {
    bytes: tlog_hash::Hash,
}

impl Model for DigestKey {
    ghost use Rattle.std.specs.Prelude.{ℕ, List};

    ghost Value = { List ℕ };

    ghost view = { λ a. a.bytes };

    ghost inverse = { λ bytes. record { bytes = bytes } };
}

impl DigestKey {
    pub(crate) fn new(digest: &tlog_hash::Hash) -> Self
        ensures { result ≡ digest.now }
    {
        DigestKey { bytes: *digest }
    }

    pub(crate) fn digest(&self) -> &tlog_hash::Hash
        ensures { result.now ≡ self.now }
    {
        &self.bytes
    }
}

impl PartialEq for DigestKey {
    ghost eq = { pointwise nat_eq };

    ghost laws = { partial_equiv_from_equiv nat_list_eq_equiv };

    fn eq(&self, other: &DigestKey) -> bool {
        self.bytes == other.bytes
    }
}

impl Eq for DigestKey {
    ghost laws = { nat_list_eq_equiv };
}

impl Hash for DigestKey {
    ghost hash_input = { λ bytes. bytes ∷ [] };

    ghost respects_eq = { Prim.search (hashing, rules) };

    fn hash<H: Hasher>(&self, state: &mut H) {
        state.write(self.bytes.as_slice());
    }
}
