//! Reads key files.

ghost use Rattle.tlog_text.specs.Answers.{seen};
ghost use Rattle.signed_note.specs.KeyFiles.{IsSecretText, IsPinText, IsKeyLine, ReadsAs, ReadsKeys};

use crate::key_fault::{KeyFault, KeyFileFault};
use crate::key_line::KeyLine;
use crate::key_words::{bytes_of, first_line, words_of};
use crate::mac_key::HmacKey;
use crate::pinned::PinnedTexts;
use hex::FromHex;
use std::alloc::Global;

/// The shared key of a line, from the text after its first word.
fn secret_of(alloc: Global, number: usize, text: &str) -> Result<KeyLine, KeyFileFault>
    ensures { ReadsAs (IsSecretText text.now) number result }
{
    let Some((name, id, digits)) = words_of(text) else {
        return Err(KeyFileFault::BadKeyLine(number));
    };
    let secret = bytes_of(alloc, number, digits)?;
    match HmacKey::new(alloc, name, id, &secret) {
        Ok(key) => Ok(KeyLine::Hmac(key)),
        Err(KeyFault::OutOfMemory) => Err(KeyFileFault::OutOfMemory),
        Err(KeyFault::BadName) => Err(KeyFileFault::BadKeyLine(number)),
        Err(KeyFault::BadSecret) => Err(KeyFileFault::BadKeyLine(number)),
    }
}

/// The pinned text of a line, from the text after its first word.
fn pin_of(alloc: Global, number: usize, text: &str) -> Result<KeyLine, KeyFileFault>
    ensures { ReadsAs (IsPinText text.now) number result }
{
    let Some((name, id, digits)) = words_of(text) else {
        return Err(KeyFileFault::BadKeyLine(number));
    };
    let Ok(digest) = <[u8; 32]>::from_hex(digits) else {
        return Err(KeyFileFault::BadKeyLine(number));
    };
    let mut digests = Vec::new(alloc);
    digests.push(digest)?;
    match PinnedTexts::new(alloc, name, id, digests) {
        Ok(pins) => Ok(KeyLine::Pin(pins)),
        Err(KeyFault::OutOfMemory) => Err(KeyFileFault::OutOfMemory),
        Err(KeyFault::BadName) => Err(KeyFileFault::BadKeyLine(number)),
        Err(KeyFault::BadSecret) => Err(KeyFileFault::BadKeyLine(number)),
    }
}

/// The key of the line with that number.
fn key_of(alloc: Global, number: usize, line: &[u8]) -> Result<KeyLine, KeyFileFault>
    ensures { ReadsAs (IsKeyLine line.now) number result }
{
    let Ok(text) = str::from_utf8(line) else {
        return Err(KeyFileFault::BadKeyLine(number));
    };
    if let Some(rest) = text.strip_prefix("hmac ") {
        return secret_of(alloc, number, rest);
    }
    if let Some(rest) = text.strip_prefix("pin ") {
        return pin_of(alloc, number, rest);
    }
    Err(KeyFileFault::BadKeyLine(number))
}

/// Reads a key file: the keys of its lines, in order.
///
/// Each line is `hmac NAME ID SECRET` or `pin NAME ID DIGEST`, with single spaces and a newline at its end. `HmacKey::new`
/// must accept NAME. ID has 8 hexadecimal digits, DIGEST 64, and SECRET an even number from 2 to 128, in upper or lower
/// case. An empty file has no keys.
///
/// # Errors
///
/// `BadKeyLine` with the number, counted from 1, of the first line that gives no key. Examples are an empty line, a last
/// line without its newline, and a line that is not UTF-8. `OutOfMemory` if memory was refused.
pub fn read_keys(alloc: Global, bytes: &[u8]) -> Result<Vec<KeyLine>, KeyFileFault>
    ensures { ReadsKeys bytes.now (seen (λ v. v.items) result) }
{
    let mut keys = Vec::new(alloc);
    let mut rest = bytes;
    while !rest.is_empty() {
        let number = keys.len() + 1;
        let Some((line, after)) = first_line(rest) else {
            return Err(KeyFileFault::BadKeyLine(number));
        };
        keys.push(key_of(alloc, number, line)?)?;
        rest = after;
    }
    Ok(keys)
}
