//! Hashes that were computed elsewhere, for the tests of several crates.

use std::process::Abort;
use tlog_hash::Hash;
use tlog_text::read_hash;

// The leaf hashes of three entries: the empty one, `00` and `10`. The first is also the tree hash of that entry alone.
pub(crate) const LEAF_OF_NO_BYTES: &str = "bjQLnP+zepicpUTmu3gKLHiQHT+zNzh2hRGjBhevoB0=";

pub(crate) const LEAF_OF_00: &str = "lqKW0iTyhcZ77pPDD4owkVfw2qNdxbh+QQt4YwoJz8c=";

pub(crate) const LEAF_OF_10: &str = "ApjRIpBtz8EIkstTpzmS/FufST6kybrbJ7eRtBJ6f+c=";

// The tree hashes of the first two entries, and of all three.
pub(crate) const ROOT_OF_TWO: &str = "+sVCA+fMaWzw38tCySodnbr3CtnmIfS9jZhmLwDjwSU=";

pub(crate) const ROOT_OF_THREE: &str = "rra8/idLcKFPsGel5VeCZNsPqbUa9eC6FZFY8yngbnc=";

// The hash that a text of base64 spells.
pub(crate) fn hash(rt: &impl Abort, text: &str) -> Hash {
    let Some(hash) = read_hash(text) else {
        panic!(rt; "no hash: {text}");
    };
    hash
}
