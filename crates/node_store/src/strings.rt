//! The strings that trees hash.
ghost use Rattle.std.specs.Prelude.{◌≡◌, ◌↔◌, ◌∷◌, ◌++◌, IsTrue};
ghost use Rattle.node_store.specs.Strings.{string_of};

use tlog_hash::{Hash, TreeHash};

/// A string that a tree hashes (RFC 6962, section 2.1), borrowed.
#[derive(Clone, Copy)]
pub enum Tagged<'a> {
    /// `0x00 || entry`.
    Leaf(&'a [u8]),
    /// `0x01 || left || right`.
    Pair(&'a Hash, &'a Hash),
}

pub(crate) fn digest_of<H: TreeHash>(string: Tagged) -> Hash
    ensures { result ≡ H.digest (string_of string.entry) }
{
    match string {
        Tagged::Leaf(entry) => H::leaf(entry),
        Tagged::Pair(left, right) => H::node(left, right),
    }
}

pub(crate) fn is_same(first: Tagged, second: Tagged) -> bool
    ensures { IsTrue result ↔ (string_of first.entry ≡ string_of second.entry) }
{
    match (first, second) {
        (Tagged::Leaf(entry), Tagged::Leaf(other)) => entry == other,
        (Tagged::Pair(l, r), Tagged::Pair(left, right)) => is_same_pair(l, r, left, right),
        _ => false,
    }
}

fn is_same_pair(l: &Hash, r: &Hash, left: &Hash, right: &Hash) -> bool
    ensures { IsTrue result ↔ (1 ∷ l.now ++ r.now ≡ 1 ∷ left.now ++ right.now) }
{
    l == left && r == right
}
