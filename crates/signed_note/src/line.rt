//! Signature lines.

ghost use Rattle.std.specs.Prelude.{◌≡◌, ◌≢◌, ℕ, ◌<◌, List, ◌∷◌, ◌++◌, length, IfSome, IfNone, IfOk, slice_index};
ghost use Rattle.tlog_text.specs.Answers.{seen};
ghost use Rattle.signed_note.specs.Names.{space};
ghost use Rattle.signed_note.specs.Notes.{em_dash};
ghost use Rattle.signed_note.specs.Reading.{ReadsBase64, ReadsLine};

use crate::fault::NoteFault;
use crate::name::is_key_name;
use base64::DecodeAllocError;
use base64::engine::general_purpose::STANDARD;
use byteorder::{BigEndian, ByteOrder};
use std::alloc::{AllocError, Global};
use std::marker::Model;

/// One line of the signature part of a note: the name and id of a key, and its signature (C2SP signed-note, "Format").
#[derive(Drop)]
pub struct SignatureLine {
    name: String,
    id: u32,
    signature: Vec<u8>,
}

impl Model for SignatureLine {
    ghost use Rattle.std.specs.Prelude.{string_bytes};
    ghost use Rattle.signed_note.specs.Notes.{SignatureParts};

    ghost Value = { SignatureParts };

    ghost view = { λ l. record { name = string_bytes l.name; id = l.id; signature = l.signature.items } };
}

impl SignatureLine {
    /// The name of the key.
    pub fn name(&self) -> &str
        ensures { result.now ≡ self.now.name }
    {
        &self.name
    }

    /// The key id.
    pub fn id(&self) -> u32
        ensures { result ≡ self.now.id }
    {
        self.id
    }

    /// The signature, which is not empty.
    pub fn signature(&self) -> &[u8]
        ensures { result.now ≡ self.now.signature }
    {
        &self.signature
    }

    /// A copy of the line.
    pub(crate) fn copy(&self, alloc: Global) -> Result<SignatureLine, AllocError>
        ensures { IfOk result (λ l. l ≡ self.now) }
    {
        Ok(SignatureLine {
            name: String::from_str(alloc, &self.name)?,
            id: self.id,
            signature: Vec::from_slice(alloc, &self.signature)?,
        })
    }
}

/// The name and the base64 of a line: the texts around the first space after the em dash.
fn words_of(line: &str) -> Option<(&str, &str)>
    ensures found { IfSome result (λ x. line.now
        ≡ em_dash ++ space ∷ (x.0.now ++ space ∷ x.1.now)) }
    ensures first { IfSome result (λ x. (i : ℕ) → i < length x.0.now
        → slice_index x.0.now i ≢ space) }
    ensures none { IfNone result ((name rest : List ℕ)
        → line.now ≢ em_dash ++ space ∷ (name ++ space ∷ rest)) }
{
    line.strip_prefix("\u{2014} ")?.split_once(' ')
}

/// The bytes that the text encodes in base64.
fn decoded_of(alloc: Global, text: &str) -> Result<Vec<u8>, NoteFault>
    ensures { ReadsBase64 text.now (seen (λ v. v.items) result) }
{
    match STANDARD.decode(alloc, text.as_bytes()) {
        Ok(payload) => Ok(payload),
        Err(DecodeAllocError::OutOfMemory) => Err(NoteFault::OutOfMemory),
        Err(DecodeAllocError::DecodeError(_)) => Err(NoteFault::BadSignatureLine),
    }
}

/// Reads a signature line without its newline.
///
/// # Errors
///
/// `BadSignatureLine` if the line is not an em dash, the name of a key and base64 of at least five bytes, with single spaces
/// between them. `OutOfMemory` if memory was refused.
pub fn read_line(alloc: Global, line: &str) -> Result<SignatureLine, NoteFault>
    ensures { ReadsLine line.now result }
{
    let Some((name, encoded)) = words_of(line) else {
        return Err(NoteFault::BadSignatureLine);
    };
    if !is_key_name(name) {
        return Err(NoteFault::BadSignatureLine);
    }
    let payload = decoded_of(alloc, encoded)?;
    if payload.len() < 5 {
        return Err(NoteFault::BadSignatureLine);
    }
    let (id, signature) = payload.split_at(4);
    Ok(SignatureLine {
        name: String::from_str(alloc, name)?,
        id: BigEndian::read_u32(id),
        signature: Vec::from_slice(alloc, signature)?,
    })
}
