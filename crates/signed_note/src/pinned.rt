//! Texts that were verified elsewhere.

ghost use Rattle.std.specs.Prelude.{◌≡◌, string_bytes};
ghost use Rattle.std.specs.Cmp.Lexicographic.{slice_cmp};
ghost use Rattle.std.specs.List.{list_any};
ghost use Rattle.std.specs.List.Sorted.{IsSorted};
ghost use Rattle.std.specs.Ordering.{nat_cmp};
ghost use Rattle.std.specs.Str.{bytes_eq};
ghost use Rattle.signed_note.specs.KeyKinds.{ArePins, pinned_key};
ghost use Rattle.signed_note.specs.KeyKinds.{IsOwnName};
ghost use Rattle.signed_note.specs.KeyKinds.{MakesPins};

use crate::key_fault::KeyFault;
use crate::own_name::is_own_name;
use crate::verifier::Verifier;
use sha2::{Digest, Sha256};
use std::alloc::Global;
use std::marker::Model;

/// The SHA-256 digests of texts that the operator verified elsewhere. A pinned text is accepted under any signature. So a
/// note opens even if this crate cannot check the signatures of its key, such as Ed25519.
///
/// # Examples
///
/// If `digests` has the SHA-256 of a text, `PinnedTexts::new(alloc, "ex", 1, digests)?` accepts that text under any
/// signature.
///
/// The digests are sorted. A text is hashed once, for any number of pins.
#[derive(Drop)]
pub struct PinnedTexts {
    pub(crate) name: String,
    pub(crate) id: u32,
    pub(crate) digests: Vec<[u8; 32]>,
}

impl Model for PinnedTexts {
    ghost use Rattle.std.specs.Prelude.{string_bytes};
    ghost use Rattle.std.specs.Cmp.Lexicographic.{slice_cmp};
    ghost use Rattle.std.specs.List.Sorted.{IsSorted};
    ghost use Rattle.std.specs.Ordering.{nat_cmp};
    ghost use Rattle.signed_note.specs.KeyKinds.{Pins};
    ghost use Rattle.signed_note.specs.KeyKinds.{IsOwnName};

    ghost Value = { Pins };

    ghost view = { λ k. record { name = string_bytes k.name; id = k.id; digests = k.digests.items } };

    ghost invariant = { λ k. IsOwnName (string_bytes k.name) × IsSorted (slice_cmp nat_cmp) k.digests.items };
}

/// Whether the digest is one of the sorted digests.
fn lists(digests: &[[u8; 32]], digest: &[u8; 32]) -> bool
    requires { IsSorted (slice_cmp nat_cmp) digests.now }
    ensures { result ≡ list_any (λ d. bytes_eq d digest.now) digests.now }
{
    digests.binary_search(digest).is_ok()
}

impl PinnedTexts {
    // The pins of a name that a key may have. Sorting allocates no memory.
    pub(crate) fn of_parts(name: String, id: u32, digests: Vec<[u8; 32]>) -> PinnedTexts
        requires { IsOwnName (string_bytes name) }
        ensures { ArePins (string_bytes name) id digests.items result }
    {
        let mut digests = digests;
        digests.sort_unstable();
        PinnedTexts { name, id, digests }
    }

    /// Pins with that name and id.
    ///
    /// # Errors
    ///
    /// `BadName` if the name is empty, has over 255 bytes, or has Unicode white space, a plus or a character below U+0020.
    /// `OutOfMemory` if memory was refused. `BadSecret` is never returned.
    pub fn new(
        alloc: Global,
        name: &str,
        id: u32,
        digests: Vec<[u8; 32]>,
    ) -> Result<PinnedTexts, KeyFault>
        ensures { MakesPins name.now id digests.items result }
    {
        if !is_own_name(name) {
            return Err(KeyFault::BadName);
        }
        let name = String::from_str(alloc, name)?;
        Ok(PinnedTexts::of_parts(name, id, digests))
    }
}

impl Verifier for PinnedTexts {
    ghost key = { pinned_key };

    fn name(&self) -> &str {
        &self.name
    }

    fn id(&self) -> u32 {
        self.id
    }

    fn accepts(&self, text: &[u8], _signature: &[u8]) -> bool {
        lists(&self.digests, &Sha256::digest(text))
    }
}
