//! Keys with a shared secret.

ghost use Rattle.std.specs.Prelude.{◌≡◌};
ghost use Rattle.signed_note.specs.KeyKinds.{secret_key};
ghost use Rattle.signed_note.specs.Hmac.{hmac};
ghost use Rattle.signed_note.specs.KeyKinds.{IsOwnName};
ghost use Rattle.signed_note.specs.KeyKinds.{MakesSecret};

use crate::hmac::hmac_of;
use crate::key_fault::KeyFault;
use crate::key_limits::MAX_SECRET_LEN;
use crate::own_name::is_own_name;
use crate::verifier::Verifier;
use std::alloc::Global;
use std::fmt;
use std::marker::Model;

/// A key with a shared secret of 1 to 64 bytes. Its signature is the HMAC-SHA-256 of the text (RFC 2104).
///
/// # Examples
///
/// `HmacKey::new(alloc, "ex", 1, b"Jefe")?` prints as `HmacKey { name: ex, id: 1, .. }`. It accepts its `mac` of a text as
/// the signature over that text.
#[derive(Drop)]
pub struct HmacKey {
    name: String,
    id: u32,
    secret: Vec<u8>,
}

impl Model for HmacKey {
    ghost use Rattle.std.specs.Prelude.{string_bytes};
    ghost use Rattle.signed_note.specs.KeyKinds.{Secret};
    ghost use Rattle.signed_note.specs.KeyKinds.{IsOwnName, IsSecret};

    ghost Value = { Secret };

    ghost view = { λ k. record { name = string_bytes k.name; id = k.id; secret = k.secret.items } };

    ghost invariant = { λ k. IsOwnName (string_bytes k.name) × IsSecret k.secret.items };
}

impl HmacKey {
    /// A key with that name, id and secret.
    ///
    /// # Errors
    ///
    /// In this order: `BadName` if the name is empty, has over 255 bytes, or has Unicode white space, a plus or a character
    /// below U+0020; `BadSecret` if the secret is empty or has over 64 bytes; `OutOfMemory`.
    pub fn new(alloc: Global, name: &str, id: u32, secret: &[u8]) -> Result<HmacKey, KeyFault>
        ensures { MakesSecret name.now id secret.now result }
    {
        if !is_own_name(name) {
            return Err(KeyFault::BadName);
        }
        if secret.is_empty() || secret.len() > MAX_SECRET_LEN {
            return Err(KeyFault::BadSecret);
        }
        Ok(HmacKey {
            name: String::from_str(alloc, name)?,
            id,
            secret: Vec::from_slice(alloc, secret)?,
        })
    }

    /// The name of the key, which may occur in a note.
    pub(crate) fn own_name(&self) -> &str
        ensures name { result.now ≡ self.now.name }
        ensures own { IsOwnName self.now.name }
    {
        &self.name
    }

    /// The HMAC-SHA-256 of the message under the secret (RFC 2104, section 2). The call allocates no memory.
    pub fn mac(&self, message: &[u8]) -> [u8; 32]
        ensures { result ≡ hmac self.now.secret message.now }
    {
        hmac_of(&self.secret, message)
    }
}

/// Prints the name and the id, but not the secret.
impl fmt::Debug for HmacKey {
    ghost use Rattle.std.specs.Prelude.{codes, ◌++◌, Some};
    ghost use Rattle.std.specs.Fmt.{decimal};

    ghost debug_output = { λ k. Some (codes "HmacKey { name: " ++ k.name ++ codes ", id: " ++ decimal k.id ++ codes ", .. }") };

    fn fmt<W: fmt::Write>(&self, f: &mut fmt::Formatter<W>) -> fmt::Result {
        let name = self.name.as_str();
        let id = self.id;
        write!(f, "HmacKey {{ name: {name}, id: {id}, .. }}")
    }
}

impl Verifier for HmacKey {
    ghost key = { secret_key };

    fn name(&self) -> &str {
        &self.name
    }

    fn id(&self) -> u32 {
        self.id
    }

    fn accepts(&self, text: &[u8], signature: &[u8]) -> bool {
        self.mac(text).as_slice() == signature
    }
}
