//! The note of a tree head: reads it and checks its signatures.
ghost use Rattle.std.specs.Prelude.{◌≡◌, ℕ, List, map, IfNone, IfOk, IfSome};
ghost use Rattle.mirror_model.specs.Heads.{IsHead};
ghost use Rattle.mirror_model.specs.Refusals.{ReadsHead};
ghost use Rattle.signed_note.specs.Notes.{IsNote};
ghost use Rattle.tlog_text.specs.Answers.{seen};

use crate::fault::TakeFault;
use signed_note::{Note, NoteFault, Verifier, open_note};
use std::alloc::{AllocError, Global};
use tlog_checkpoint::{Checkpoint, CheckpointFault, read};

/// A note whose text is a checkpoint, with that checkpoint.
#[derive(Drop)]
pub struct HeadNote {
    /// The note.
    pub note: Note,
    /// The checkpoint in its text.
    pub checkpoint: Checkpoint,
}

/// Reads a note and its checkpoint, which must have that origin, and checks that the note opens under the keys (C2SP
/// signed-note and tlog-checkpoint). Each key that may have signed a line is tried once.
///
/// ```text
/// open_head(alloc, "example.com/log", &keys, &bytes)?.checkpoint.size   // 257
/// ```
///
/// # Errors
///
/// The first that applies: `Note` if the bytes are not a note; `Checkpoint` if its text is not a checkpoint; `OtherOrigin`;
/// `NoTrustedSignature` if no key accepts a line of it. `OutOfMemory` if memory was refused, before any of them or after.
pub fn open_head(
    alloc: Global,
    origin: &str,
    keys: &[Box<dyn Verifier>],
    bytes: &[u8],
) -> Result<HeadNote, TakeFault>
    ensures reads { ReadsHead bytes.now origin.now (map (λ k. key k) keys.now)
        (seen (λ head. head.checkpoint) result) }
    ensures note { IfOk result (λ head. head.note.bytes ≡ bytes.now) }
{
    let note = match Note::read(alloc, bytes) {
        Ok(note) => note,
        Err(NoteFault::OutOfMemory) => return Err(TakeFault::OutOfMemory),
        Err(fault) => return Err(TakeFault::Note(fault)),
    };
    match open_checkpoint(alloc, origin, keys, &note) {
        Ok(checkpoint) => Ok(HeadNote { note, checkpoint }),
        Err(fault) => Err(fault),
    }
}

// The checkpoint in the text of a note, if it has that origin and the note opens under the keys.
fn open_checkpoint(
    alloc: Global,
    origin: &str,
    keys: &[Box<dyn Verifier>],
    note: &Note,
) -> Result<Checkpoint, TakeFault>
    requires { IsNote note.now.bytes note.now.text note.now.lines }
    ensures { ReadsHead note.now.bytes origin.now (map (λ k. key k) keys.now) result }
{
    let checkpoint = match read(alloc, note.text()) {
        Ok(checkpoint) => checkpoint,
        Err(CheckpointFault::OutOfMemory) => return Err(TakeFault::OutOfMemory),
        Err(fault) => return Err(TakeFault::Checkpoint(fault)),
    };
    if checkpoint.origin.as_str() != origin {
        return Err(TakeFault::OtherOrigin);
    }
    match open_note(note, keys) {
        Ok(()) => Ok(checkpoint),
        Err(_) => Err(TakeFault::NoTrustedSignature),
    }
}

/// The checkpoint in the text of a note, with any origin, or None if the bytes are not such a note. No signature is checked.
///
/// ```text
/// checkpoint_of(alloc, &bytes)?   // Some checkpoint of size 257 with its root
/// ```
///
/// # Errors
///
/// Memory was refused.
pub fn checkpoint_of(alloc: Global, bytes: &[u8]) -> Result<Option<Checkpoint>, AllocError>
    ensures found { IfOk result (λ o. IfSome o (λ c. IsHead bytes.now c.origin c.size c.root)) }
    ensures none { IfOk result (λ o. IfNone o ((origin : List ℕ) (size : ℕ) (root : List ℕ)
        → ¬ IsHead bytes.now origin size root)) }
{
    let note = match Note::read(alloc, bytes) {
        Ok(note) => note,
        Err(NoteFault::OutOfMemory) => return Err(AllocError),
        Err(_) => return Ok(None),
    };
    match read(alloc, note.text()) {
        Ok(checkpoint) => Ok(Some(checkpoint)),
        Err(CheckpointFault::OutOfMemory) => Err(AllocError),
        Err(_) => Ok(None),
    }
}
