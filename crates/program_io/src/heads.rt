//! The checkpoints for `compare`: files that each hold a signed note.
ghost use Rattle.std.specs.Prelude.{map};
ghost use Rattle.tlog_text.specs.Answers.{seen};
ghost use Rattle.program_io.specs.HeadFiles.{ChecksHeads, ReadsHeads};

use crate::note::checkpoint_origin;
use crate::state_fault::HeadFilesFault;
use crate::{NamedFiles, read_files};
use signed_note::Verifier;
use std::alloc::Global;
use tlog_hash::{Hash, TreeHash};
use tlog_mirror::{Mirror, TakeFault};

/// The sizes and roots of the checkpoints in these files, in order. Each file holds a signed note, which must open under the
/// keys and must have the mirror's origin. It needs no right edge, and the mirror takes nothing.
///
/// ```text
/// read_heads(&files, alloc, &mirror, &keys, &["other.note"])?   // [(400, root)]
/// ```
///
/// # Errors
///
/// In this order: `File` if one of the files is not read; `Head` with the fault of `Mirror::check_head` for the first note
/// that has one. The name of that file is kept in the files, with the origin for `OtherOrigin`.
pub fn read_heads<H: TreeHash, F: NamedFiles>(
    files: &F,
    alloc: Global,
    mirror: &Mirror<H>,
    keys: &[Box<dyn Verifier>],
    names: &[&str],
) -> Result<Vec<(u64, Hash)>, HeadFilesFault>
    ensures { ReadsHeads mirror.now.view.origin (map (λ k. key k) keys.now) (F.puts files.now)
        (map (λ name. name.now) names.now) (seen (λ heads. heads.items) result) }
{
    let notes = match read_files(files, alloc, names) {
        Ok(notes) => notes,
        Err(fault) => return Err(HeadFilesFault::File(fault)),
    };
    match check_notes(alloc, mirror, keys, notes.as_slice()) {
        Ok(heads) => Ok(heads),
        Err(fault) => {
            keep_name(files, alloc, mirror, keys, names, notes.as_slice());
            Err(HeadFilesFault::Head(fault))
        }
    }
}

// Keeps the name of the first file whose note is refused. If the note has another origin, the reason says which.
fn keep_name<H: TreeHash, F: NamedFiles>(
    files: &F,
    alloc: Global,
    mirror: &Mirror<H>,
    keys: &[Box<dyn Verifier>],
    names: &[&str],
    notes: &[Vec<u8>],
) {
    for (name, note) in names.iter().zip(notes) {
        if let Err(fault) = mirror.check_head(alloc, keys, note.as_slice()) {
            match origin_reason(alloc, note.as_slice(), fault) {
                Some(reason) => files.keep_reason(name, reason),
                None => files.keep_reason(name, String::new(alloc)),
            }
            return;
        }
    }
}

// The reason for a note of another origin: it says which origin. None for another fault.
fn origin_reason(alloc: Global, note: &[u8], fault: TakeFault) -> Option<String> {
    if fault != TakeFault::OtherOrigin {
        return None;
    }
    let origin = checkpoint_origin(alloc, note)?;
    format!(in alloc; "its origin is {origin}").ok()
}

// The sizes and roots of the notes.
fn check_notes<H: TreeHash>(
    alloc: Global,
    mirror: &Mirror<H>,
    keys: &[Box<dyn Verifier>],
    notes: &[Vec<u8>],
) -> Result<Vec<(u64, Hash)>, TakeFault>
    ensures { ChecksHeads mirror.now.view.origin (map (λ k. key k) keys.now)
        (map (λ note. note.items) notes.now) (seen (λ heads. heads.items) result) }
{
    let mut heads = Vec::new(alloc);
    for note in notes {
        let checkpoint = mirror.check_head(alloc, keys, note.as_slice())?;
        let size = checkpoint.size;
        let root = checkpoint.root;
        match heads.push((size, root)) {
            Ok(()) => {}
            Err(_) => return Err(TakeFault::OutOfMemory),
        }
    }
    Ok(heads)
}
