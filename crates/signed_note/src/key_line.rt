//! The keys of a key file.

use crate::mac_key::HmacKey;
use crate::pinned::PinnedTexts;

/// The key of a line of a key file.
#[derive(Drop)]
pub enum KeyLine {
    /// `hmac NAME ID SECRET`: a key with a shared secret.
    Hmac(HmacKey),
    /// `pin NAME ID DIGEST`: the SHA-256 digest of a text that was verified elsewhere.
    Pin(PinnedTexts),
}
