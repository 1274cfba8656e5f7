//! Notes.

ghost use Rattle.std.specs.Prelude.{◌≡◌, ◌↔◌, IsTrue, IfOk};
ghost use Rattle.std.specs.Str.{bytes_eq};
ghost use Rattle.std.proofs.Common.{rules};
ghost use Rattle.std.specs.Cmp.Rules.{comparing};
ghost use Rattle.std.specs.Ordering.{on};
ghost use Rattle.signed_note.specs.Notes.{IsNote};
ghost use Rattle.signed_note.specs.Reading.{ReadsNote};

use crate::fault::NoteFault;
use crate::limits::{MAX_LINES, MAX_NOTE_LEN};
use crate::line::SignatureLine;
use crate::name::is_note_text;
use crate::parts::{count_lines, parts_of, read_lines};
use std::alloc::{AllocError, Global};
use std::marker::Model;

/// A signed note: a text, and the signature lines after it (C2SP signed-note, "Format").
///
/// # Examples
///
/// A note is the line `a`, an empty line, and a line of an em dash, `x` and `AQIDBAU=`. Its text is `a\n`. Its only
/// signature line has the name `x`, the id 16909060 and the signature of one byte 5.
#[derive(Drop)]
pub struct Note {
    whole: String,
    // The length of the text, which begins the note, in bytes.
    text_len: usize,
    lines: Vec<SignatureLine>,
}

impl Model for Note {
    ghost use Rattle.std.specs.Prelude.{string_bytes, take};
    ghost use Rattle.signed_note.specs.Notes.{NoteParts, IsNote};

    ghost Value = { NoteParts };

    ghost view = { λ n. record { bytes = string_bytes n.whole; text = take n.text_len (string_bytes n.whole); lines = n.lines.items } };

    ghost invariant = { λ n. IsNote (string_bytes n.whole) (take n.text_len (string_bytes n.whole)) n.lines.items };
}

impl Note {
    /// Reads a note.
    ///
    /// The text is UTF-8 and ends in a newline. The last blank line separates it from the signature part. Each line of that
    /// part is an em dash, a space, the name of the key, a space, base64 and a newline. The base64 is standard, padded and
    /// canonical. It encodes the key id in four bytes, big-endian, and a signature that is not empty.
    ///
    /// # Errors
    ///
    /// The first that applies, in this order:
    /// - `NoteTooLong`: more than 1,000,000 bytes.
    /// - `NotText`: not UTF-8, or a character below U+0020 other than newline.
    /// - `NoSignatures`: no blank line, or nothing after the last one.
    /// - `TooManySignatures`: more than 100 lines after it; a last line without its newline counts.
    /// - `BadSignatureLine`: one of these lines has another form, or no newline.
    ///
    /// `OutOfMemory` if memory was refused, before any of them or after.
    pub fn read(alloc: Global, bytes: &[u8]) -> Result<Note, NoteFault>
        ensures { ReadsNote bytes.now result }
    {
        if bytes.len() > MAX_NOTE_LEN {
            return Err(NoteFault::NoteTooLong);
        }
        let Ok(whole) = str::from_utf8(bytes) else {
            return Err(NoteFault::NotText);
        };
        if !is_note_text(whole) {
            return Err(NoteFault::NotText);
        }
        let Some((text, signed)) = parts_of(whole) else {
            return Err(NoteFault::NoSignatures);
        };
        if signed.is_empty() {
            return Err(NoteFault::NoSignatures);
        }
        if count_lines(signed.as_bytes()) > MAX_LINES {
            return Err(NoteFault::TooManySignatures);
        }
        let lines = read_lines(alloc, signed)?;
        Ok(Note {
            whole: String::from_str(alloc, whole)?,
            text_len: text.len(),
            lines,
        })
    }

    /// A copy of the note.
    ///
    /// # Errors
    ///
    /// Memory was refused.
    pub fn copy(&self, alloc: Global) -> Result<Note, AllocError>
        ensures { IfOk result (λ n. n ≡ self.now) }
    {
        let mut lines = Vec::new(alloc);
        for line in &self.lines {
            lines.push(line.copy(alloc)?)?;
        }
        Ok(Note {
            whole: String::from_str(alloc, &self.whole)?,
            text_len: self.text_len,
            lines,
        })
    }

    /// All bytes of the note.
    pub fn bytes(&self) -> &[u8]
        ensures bytes { result.now ≡ self.now.bytes }
        ensures is_note { IsNote self.now.bytes self.now.text self.now.lines }
    {
        self.whole.as_bytes()
    }

    /// The signed text, with its last newline.
    pub fn text(&self) -> &str
        ensures { result.now ≡ self.now.text }
    {
        &self.whole[..self.text_len]
    }

    /// The signature lines, in order.
    pub fn lines(&self) -> &[SignatureLine]
        ensures { result.now ≡ self.now.lines }
    {
        &self.lines
    }
}

/// Notes are equal if their bytes are: the bytes determine the text and the lines.
impl PartialEq for Note {
    ghost eq = { on (λ n. n.bytes) bytes_eq };

    ghost laws = { Prim.search (comparing, rules) };

    fn eq(&self, other: &Note) -> bool
        ensures bytes { result ≡ bytes_eq self.now.bytes other.now.bytes }
        ensures same { IsTrue result ↔ (self.now ≡ other.now) }
    {
        self.whole == other.whole
    }
}

impl Eq for Note {
    ghost laws = { Prim.search (comparing, rules) };
}
