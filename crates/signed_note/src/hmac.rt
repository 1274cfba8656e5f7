//! HMAC-SHA-256 (RFC 2104, section 2), for keys of at most 64 bytes.

ghost use Rattle.std.specs.Prelude.{◌≡◌, ◌≤◌, ◌++◌, length};
ghost use Rattle.sha2.specs.Sha256.{sha256};
ghost use Rattle.signed_note.specs.Hmac.{hmac, masked};

use sha2::{Digest, Sha256};

/// The key with zeros up to 64 bytes, and each byte xor the mask.
fn masked_block(key: &[u8], mask: u8) -> [u8; 64]
    requires { length key.now ≤ 64 }
    ensures { result ≡ masked mask key.now }
{
    let mut block = [mask; 64];
    for (i, b) in key.iter().enumerate() {
        block[i] = *b ^ mask;
    }
    block
}

/// The SHA-256 digest of two pieces as one message.
fn digest_of_parts(first: &[u8], second: &[u8]) -> [u8; 32]
    ensures { result ≡ sha256 (first.now ++ second.now) }
{
    let mut hasher = Sha256::new();
    hasher.update(first);
    hasher.update(second);
    hasher.finalize()
}

/// The HMAC-SHA-256 of a message.
#[tactic(auto, unfolding(crate::specs::Hmac::hmac))]
pub fn hmac_of(key: &[u8], message: &[u8]) -> [u8; 32]
    requires { length key.now ≤ 64 }
    ensures { result ≡ hmac key.now message.now }
{
    let inner = digest_of_parts(&masked_block(key, 0x36), message);
    digest_of_parts(&masked_block(key, 0x5c), &inner)
}
