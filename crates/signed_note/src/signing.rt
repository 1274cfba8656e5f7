//! Makes signed notes.

ghost use Rattle.std.specs.Prelude.{◌≡◌, [], ◌∷◌, ◌++◌, IfOk, OnOk, string_bytes};
ghost use Rattle.tlog_text.specs.Hash.{base64_of};
ghost use Rattle.byteorder.specs.Endian.{big_bytes};
ghost use Rattle.signed_note.specs.KeyKinds.{secret_key};
ghost use Rattle.signed_note.specs.Names.{newline};
ghost use Rattle.signed_note.specs.Notes.{IsNote, Opens, line_text};
ghost use Rattle.signed_note.specs.Signing.{IsLawfulText, signed_line};
ghost use Rattle.signed_note.specs.Signing.{note_of_line};

use crate::mac_key::HmacKey;
use crate::verifier::Verifier;
use base64::engine::general_purpose::STANDARD;
use byteorder::{BigEndian, ByteOrder};
use std::alloc::{AllocError, Global};

/// The key id in four bytes, big-endian, and the signature.
fn payload_of(id: u32, signature: &[u8; 32]) -> [u8; 36]
    ensures { result ≡ big_bytes 4 id ++ signature.now }
{
    let mut payload = [0u8; 36];
    BigEndian::write_u32(&mut payload, id);
    payload[4..].copy_from_slice(signature);
    payload
}

/// The standard base64 of the bytes.
#[tactic(auto, unfolding(tlog_text::specs::Hash::base64_of))]
fn encoded_of(alloc: Global, bytes: &[u8]) -> Result<String, AllocError>
    ensures { IfOk result (λ t. string_bytes t ≡ base64_of bytes.now) }
{
    STANDARD.encode(alloc, bytes)
}

/// A text, a blank line, and a signature line with that name and base64.
fn note_of(alloc: Global, text: &str, name: &str, encoded: &str) -> Result<String, AllocError>
    ensures { IfOk result (λ t. string_bytes t ≡ note_of_line text.now name.now encoded.now) }
{
    format!(in alloc; "{text}\n\u{2014} {name} {encoded}\n")
}

/// Signs a text. The note has the text and one signature line: the name of the key, its id and its MAC of the text. The note
/// opens under the key.
///
/// The text must have at most 900,000 bytes, end in a newline and have no character below U+0020 other than newline.
///
/// # Errors
///
/// Memory was refused.
pub fn sign(alloc: Global, text: &str, key: &HmacKey) -> Result<Vec<u8>, AllocError>
    requires { IsLawfulText text.now }
    ensures bytes { IfOk result (λ v. v.items
        ≡ text.now ++ newline ∷ line_text (signed_line text.now key.now)) }
    ensures note { IfOk result (λ v. IsNote v.items text.now (signed_line text.now key.now ∷ [])) }
    ensures opens { OnOk result (Opens text.now (signed_line text.now key.now ∷ [])
        (secret_key key.now ∷ [])) }
{
    let payload = payload_of(key.id(), &key.mac(text.as_bytes()));
    let encoded = encoded_of(alloc, &payload)?;
    let note = note_of(alloc, text, key.own_name(), &encoded)?;
    Ok(note.into_bytes())
}
