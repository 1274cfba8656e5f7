//! Saving the state of a mirror.
ghost use Rattle.std.specs.Prelude.{map, IfOk};
ghost use Rattle.mirror_model.specs.Listed.{ListsNotes};
ghost use Rattle.mirror_files.specs.Saving.{Saves};
ghost use Rattle.mirror_files.specs.Listing.{ListsStrings};

use crate::save_fault::SaveFault;
use crate::{Sorted, sort_strings, write_text};
use std::alloc::{AllocError, Global};
use std::io::Write;
use tlog_hash::TreeHash;
use tlog_mirror::Mirror;

/// Writes the state text of a mirror in version 2. It buffers the bytes, so the writer needs no buffer. It does not
/// flush.
///
/// ```text
/// save(alloc, &mirror, &mut file)?;
/// ```
///
/// # Errors
///
/// `OutOfMemory` if memory was refused: nothing was written. `WriteFault` if a write failed or took no byte: a prefix
/// of the text was written.
pub fn save<H: TreeHash, W: Write>(
    alloc: Global,
    mirror: &Mirror<H>,
    writer: &mut W,
) -> Result<(), SaveFault>
    ensures { Saves mirror.now.view (W.contents writer.old) (W.contents writer.new) result }
{
    match notes_of(alloc, mirror) {
        Ok(notes) => save_notes(alloc, mirror, &notes, writer),
        Err(AllocError) => Err(SaveFault::OutOfMemory),
    }
}

// Writes the text of a mirror with these notes.
fn save_notes<H: TreeHash, W: Write>(
    alloc: Global,
    mirror: &Mirror<H>,
    notes: &Vec<&[u8]>,
    writer: &mut W,
) -> Result<(), SaveFault>
    requires { ListsNotes mirror.now.view (map (λ n. n.now) notes.now.items) }
    ensures { Saves mirror.now.view (W.contents writer.old) (W.contents writer.new) result }
{
    match sort_strings(alloc, mirror.strings()) {
        Ok(held) => save_sorted(alloc, mirror, notes, &held, writer),
        Err(AllocError) => Err(SaveFault::OutOfMemory),
    }
}

// Writes the text of a mirror with these sorted lists.
fn save_sorted<H: TreeHash, W: Write>(
    alloc: Global,
    mirror: &Mirror<H>,
    notes: &Vec<&[u8]>,
    held: &Sorted,
    writer: &mut W,
) -> Result<(), SaveFault>
    requires notes { ListsNotes mirror.now.view (map (λ n. n.now) notes.now.items) }
    requires strings { ListsStrings mirror.now.view.strings held.now }
    ensures { Saves mirror.now.view (W.contents writer.old) (W.contents writer.new) result }
{
    // The state of a mirror is sound, so each item has a length that can be written.
    let _sound = mirror.strings();
    let origin = mirror.origin().as_bytes();
    match write_text(alloc, writer, origin, notes.as_slice(), held) {
        Ok(()) => Ok(()),
        Err(_) => Err(SaveFault::WriteFault),
    }
}

// The held notes.
fn notes_of<H: TreeHash>(alloc: Global, mirror: &Mirror<H>) -> Result<Vec<&[u8]>, AllocError>
    ensures { IfOk result (λ notes. ListsNotes mirror.now.view (map (λ n. n.now) notes.items)) }
{
    let mut notes = Vec::new(alloc);
    for i in 0..usize::MAX {
        match mirror.note_at(i) {
            Some(note) => notes.push(note)?,
            None => return Ok(notes),
        }
    }
    // No memory holds that number of notes.
    Err(AllocError)
}
