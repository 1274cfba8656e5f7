//! The size and the origin of a checkpoint, by its note.
ghost use Rattle.std.specs.Prelude.{IfSome, List, ℕ, string_bytes};
ghost use Rattle.mirror_model.specs.Heads.{IsHead};

use signed_note::Note;
use std::alloc::Global;
use tlog_checkpoint::read;

/// The size of a checkpoint in its note. It verifies no signature. None if the bytes are not the note of a checkpoint, or if
/// memory was refused.
///
/// ```text
/// checkpoint_size(alloc, note) // Some(3)
/// ```
pub fn checkpoint_size(alloc: Global, note: &[u8]) -> Option<u64>
    ensures { IfSome result (λ size. (origin : List ℕ) × (root : List ℕ)
        × IsHead note.now origin size root) }
{
    let Ok(note) = Note::read(alloc, note) else {
        return None;
    };
    match read(alloc, note.text()) {
        Ok(checkpoint) => Some(checkpoint.size),
        Err(_) => None,
    }
}

/// The origin of a checkpoint in its note. It verifies no signature. None if the bytes are not the note of a checkpoint, or if
/// memory was refused.
///
/// ```text
/// checkpoint_origin(alloc, note) // Some("example.com/log")
/// ```
pub fn checkpoint_origin(alloc: Global, note: &[u8]) -> Option<String>
    ensures { IfSome result (λ origin. (size : ℕ) × (root : List ℕ)
        × IsHead note.now (string_bytes origin) size root) }
{
    let Ok(note) = Note::read(alloc, note) else {
        return None;
    };
    match read(alloc, note.text()) {
        Ok(checkpoint) => Some(checkpoint.origin.into_string()),
        Err(_) => None,
    }
}
