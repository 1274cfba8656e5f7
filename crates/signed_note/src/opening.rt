//! The check whether a note is trusted.

ghost use Rattle.std.specs.Prelude.{◌≡◌, ◌↔◌, IsOk, map};
ghost use Rattle.std.specs.List.{list_any};
ghost use Rattle.signed_note.specs.Notes.{Opens, is_accepted_by};

use crate::fault::OpenFault;
use crate::line::SignatureLine;
use crate::note::Note;
use crate::verifier::Verifier;

/// Whether the key accepts the line as its signature over the text.
fn is_accepted(text: &str, line: &SignatureLine, one: &Box<dyn Verifier>) -> bool
    ensures { result ≡ is_accepted_by text.now line.now (key one.now) }
{
    one.name() == line.name()
        && one.id() == line.id()
        && one.accepts(text.as_bytes(), line.signature())
}

/// Whether one of the keys accepts the line.
fn is_trusted(text: &str, line: &SignatureLine, keys: &[Box<dyn Verifier>]) -> bool
    ensures { result ≡ list_any (λ k. is_accepted_by text.now line.now (key k)) keys.now }
{
    for one in keys {
        if is_accepted(text, line, one) {
            return true;
        }
    }
    false
}

/// Whether one of the keys accepts one of the lines.
fn opens(text: &str, lines: &[SignatureLine], keys: &[Box<dyn Verifier>]) -> bool
    ensures { result ≡ list_any (λ line.
        list_any (λ k. is_accepted_by text.now line (key k)) keys.now) lines.now }
{
    for line in lines {
        if is_trusted(text, line, keys) {
            return true;
        }
    }
    false
}

/// Whether the note is trusted (C2SP signed-note, "Signatures"). The result is `Ok` exactly if some line and some key have
/// the same name and id, and the key accepts the line's signature over the text. Lines of unknown keys are ignored, and so
/// are lines that their key does not accept. The keys may be of different kinds. The call allocates no memory.
///
/// # Errors
///
/// `NoTrustedSignature` if no key accepts a line.
pub fn open_note(note: &Note, keys: &[Box<dyn Verifier>]) -> Result<(), OpenFault>
    ensures { IsOk result ↔ Opens note.now.text note.now.lines (map (λ k. key k) keys.now) }
{
    if opens(note.text(), note.lines(), keys) {
        Ok(())
    } else {
        Err(OpenFault::NoTrustedSignature)
    }
}
