//! Laws of the grammars, for the definitions that the contracts cite.
//!
//! A law is a function with an empty body: only its contract counts.
ghost use Rattle.signed_note.specs.Laws.{NoteHasOneReading, OneNoteAnswer, HasNoteLimits};

/// Bytes are a note with at most one text and one list of signature lines.
pub fn notes_law()
    ensures { NoteHasOneReading }
{}

/// `Note::read` has one answer for bytes, apart from `OutOfMemory`. So it returns `Ok` exactly if the bytes are a note, and
/// a refusal exactly if it is the first that applies.
pub fn one_answer_law()
    ensures { OneNoteAnswer }
{}

/// A note has at most 1,000,000 bytes and 100 signature lines.
pub fn limits_law()
    ensures { HasNoteLimits }
{}
