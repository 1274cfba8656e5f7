//! The number of entries of a folder's checkpoint, if the served log extends it.
ghost use Rattle.std.specs.Prelude.{◌≡◌, IsTrue, ◌↔◌, option_map};
ghost use Rattle.mirror_files.specs.Beginnings.{FindsSince, FindsSize, ReadsPoint, of_note, of_text};

use crate::export_fault::UpdateFault;
use mirror_trees::TopRanges;
use signed_note::{Note, NoteFault};
use std::alloc::Global;
use tlog_checkpoint::{Checkpoint, CheckpointFault, read};
use tlog_hash::{Hash, TreeHash};
use tlog_proof::Ranges;

// The fault for bytes that are no note, and so no checkpoint of the log.
fn note_fault(fault: &NoteFault) -> UpdateFault
    ensures { result ≡ of_note fault.now }
{
    match fault {
        NoteFault::OutOfMemory => UpdateFault::OutOfMemory,
        _ => UpdateFault::OtherLog,
    }
}

// The fault for a text that is no checkpoint, and so no checkpoint of the log.
fn text_fault(fault: &CheckpointFault) -> UpdateFault
    ensures { result ≡ of_text fault.now }
{
    match fault {
        CheckpointFault::OutOfMemory => UpdateFault::OutOfMemory,
        _ => UpdateFault::OtherLog,
    }
}

fn is_of(checkpoint: &Checkpoint, origin: &str) -> bool
    ensures { IsTrue result ↔ (checkpoint.now.origin ≡ origin.now) }
{
    checkpoint.origin.as_str() == origin
}

// The size and root of a checkpoint's note. `OtherLog` if the bytes are no note, or its text is no checkpoint of the
// origin.
fn read_point(alloc: Global, origin: &str, bytes: &[u8]) -> Result<(u64, Hash), UpdateFault>
    ensures { ReadsPoint bytes.now origin.now result }
{
    let note = match Note::read(alloc, bytes) {
        Ok(note) => note,
        Err(fault) => return Err(note_fault(&fault)),
    };
    let read = read(alloc, note.text());
    drop(note);
    let checkpoint = match read {
        Ok(checkpoint) => checkpoint,
        Err(fault) => return Err(text_fault(&fault)),
    };
    let is_of_log = is_of(&checkpoint, origin);
    let point = (checkpoint.size, checkpoint.root);
    drop(checkpoint);
    if is_of_log {
        Ok(point)
    } else {
        Err(UpdateFault::OtherLog)
    }
}

fn is_same(first: &Hash, second: &Hash) -> bool
    ensures { IsTrue result ↔ (first.now ≡ second.now) }
{
    first == second
}

// The size of the checkpoint, if it is a note of the origin, and its root is that of the first `size` served entries.
fn size_before<H: TreeHash>(
    alloc: Global,
    origin: &str,
    top: &TopRanges<'_, H>,
    checkpoint: &[u8],
) -> Result<u64, UpdateFault>
    ensures { FindsSize H.digest top.now origin.now checkpoint.now result }
{
    let (size, root) = read_point(alloc, origin, checkpoint)?;
    match top.hash(0, size) {
        Some(hash) => {
            if is_same(&hash, &root) {
                Ok(size)
            } else {
                Err(UpdateFault::OtherLog)
            }
        }
        None => Err(UpdateFault::OtherLog),
    }
}

// The size of the checkpoint that was found; 0 if none was found.
pub(crate) fn size_found<H: TreeHash>(
    alloc: Global,
    origin: &str,
    top: &TopRanges<'_, H>,
    found: &Option<Vec<u8>>,
) -> Result<u64, UpdateFault>
    ensures { FindsSince H.digest top.now origin.now (option_map (λ v. v.items) found.now) result }
{
    match found {
        Some(checkpoint) => size_before(alloc, origin, top, checkpoint),
        None => Ok(0),
    }
}
