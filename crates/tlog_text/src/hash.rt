//! Hashes as base64.
ghost use Rattle.std.specs.Prelude.{◌≡◌, ◌++◌, ℕ, List, IfNone, IfSome, OnErr, OnOk, string_bytes, take};
ghost use Rattle.tlog_text.specs.Hash.{base64_of, IsHashText};

use base64::engine::general_purpose::STANDARD;
use std::alloc::AllocError;

// The length of 32 bytes in base64, with one symbol of padding.
const SYMBOLS: usize = 44;

// The first 32 bytes.
fn drop_last(bytes: &[u8; 33]) -> [u8; 32]
    ensures { result ≡ take 32 bytes.now }
{
    let mut hash = [0u8; 32];
    hash.copy_from_slice(&bytes[..32]);
    hash
}

/// The 32 bytes that the text spells in standard base64, canonical and with padding. The result is None for any other text.
/// The call allocates no memory.
///
/// # Examples
///
/// `read_hash("AAAAAAAAAAAAAAAAAAAAAAAAAAAAAAAAAAAAAAAAAAA=")` is 32 zeros. Without its last symbol, or with another symbol
/// before it, the text spells no hash.
pub fn read_hash(text: &str) -> Option<[u8; 32]>
    ensures some { IfSome result (λ hash. IsHashText text.now hash) }
    ensures none { IfNone result ((hash : List ℕ) → ¬ IsHashText text.now hash) }
{
    if text.len() != SYMBOLS {
        return None;
    }
    // Eleven groups of four symbols may decode to 33 bytes.
    let mut bytes = [0u8; 33];
    let Ok(len) = STANDARD.decode_slice(text.as_bytes(), &mut bytes) else {
        return None;
    };
    if len != 32 {
        return None;
    }
    Some(drop_last(&bytes))
}

/// Appends the text of the hash.
///
/// # Errors
///
/// Memory was refused. The text is then unchanged.
pub fn push_hash(text: &mut String, hash: &[u8; 32]) -> Result<(), AllocError>
    ensures ok { OnOk result (string_bytes text.new ≡ string_bytes text.old ++ base64_of hash.now) }
    ensures err { OnErr result (string_bytes text.new ≡ string_bytes text.old) }
    ensures spelled { IsHashText (base64_of hash.now) hash.now }
{
    STANDARD.encode_string(hash, text)
}
