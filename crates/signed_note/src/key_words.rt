//! The words of a line of a key file.

ghost use Rattle.tlog_text.specs.Answers.{seen};
ghost use Rattle.std.specs.Prelude.{◌≡◌, ◌≢◌, ℕ, ◌<◌, ◌^◌, ◌∷◌, ◌++◌, List, length, slice_index, IfSome, IfNone};
ghost use Rattle.byteorder.specs.Endian.{big_bytes};
ghost use Rattle.signed_note.specs.Names.{newline, space};
ghost use Rattle.signed_note.specs.KeyKinds.{IsOwnName};
ghost use Rattle.signed_note.specs.KeyFiles.{IsHexOf, AreWords, ReadsAs};

use crate::key_fault::KeyFileFault;
use byteorder::{BigEndian, ByteOrder};
use hex::{FromHex, FromHexError};
use std::alloc::Global;

/// The first line, without its newline, and the bytes after it.
pub fn first_line(bytes: &[u8]) -> Option<(&[u8], &[u8])>
    ensures found { IfSome result (λ x. bytes.now ≡ x.0.now ++ newline ∷ x.1.now) }
    ensures first { IfSome result (λ x. (i : ℕ) → i < length x.0.now
        → slice_index x.0.now i ≢ newline) }
    ensures none { IfNone result ((i : ℕ) → i < length bytes.now
        → slice_index bytes.now i ≢ newline) }
{
    let at = bytes.iter().position(|b| *b == b'\n')?;
    Some((&bytes[..at], &bytes[at + 1..]))
}

/// The id that eight hexadecimal digits give.
fn id_of(digits: &str) -> Option<u32>
    ensures found { IfSome result (λ id. (id < 2 ^ 32) × IsHexOf digits.now (big_bytes 4 id)) }
    ensures none { IfNone result ((id : ℕ) → ¬ IsHexOf digits.now (big_bytes 4 id)) }
{
    let bytes = <[u8; 4]>::from_hex(digits).ok()?;
    Some(BigEndian::read_u32(&bytes))
}

/// The name, the id and the last digits of a line, from the text after its first word.
pub fn words_of(text: &str) -> Option<(&str, u32, &str)>
    ensures found { IfSome result (λ x. AreWords text.now x.0.now x.1 x.2.now) }
    ensures first { IfSome result (λ x. (i : ℕ) → i < length x.0.now
        → slice_index x.0.now i ≢ space) }
    ensures none { IfNone result ((name digits : List ℕ) (id : ℕ) → IsOwnName name
        → ¬ AreWords text.now name id digits) }
{
    let (name, rest) = text.split_once(' ')?;
    let (id_digits, digits) = rest.split_once(' ')?;
    let id = id_of(id_digits)?;
    Some((name, id, digits))
}

/// The bytes that the hexadecimal digits give, on the line with that number.
pub fn bytes_of(alloc: Global, number: usize, digits: &str) -> Result<Vec<u8>, KeyFileFault>
    ensures { ReadsAs (IsHexOf digits.now) number (seen (λ v. v.items) result) }
{
    match hex::decode(alloc, digits) {
        Ok(bytes) => Ok(bytes),
        Err(FromHexError::OutOfMemory) => Err(KeyFileFault::OutOfMemory),
        Err(_) => Err(KeyFileFault::BadKeyLine(number)),
    }
}
