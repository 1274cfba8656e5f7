//! The command `notes`: it writes each note of a state file's mirror to a file of its own.
ghost use Rattle.std.specs.Prelude.{◌≡◌, ◌≢◌, ◌↔◌, ◌<◌, ◌≤◌, ◌+◌, ℕ, IfNone, IfOk, IfSome, IsTrue, List, OnOk, length, map, string_bytes};
ghost use Rattle.signed_note.specs.Keys.{Key};
ghost use Rattle.state_commands.specs.NoteFiles.{HeadNote as HeadValue, head_note, is_alike, note_file};
ghost use Rattle.state_commands.specs.Ordered.{AreHeads, IsNoteWith, IsOrdered};
ghost use Rattle.state_commands.specs.NoteTexts.{PutsHeads, PutsNotes, PutsOne, Reorders, WritesNotes, in_folder, note_place};
ghost use Rattle.program_io.specs.States.{OpensFile};

use crate::note_list::{HeadNote, NoteFile, file_at, files_of, head_notes};
use crate::work_fault::NotesFault;
use program_io::{NamedFault, NamedFiles, open_state};
use signed_note::Verifier;
use std::alloc::{AllocError, Global};
use tlog_hash::TreeHash;
use tlog_mirror::Mirror;

/// Writes each note of the mirror in the state file to the folder, under the name that `note_files` gives it. It makes the
/// folder if it is missing.
///
/// A note that is already there, under any number that `note_files` gives to its size and root, is left. If `note_files` gives
/// that number to another note, this one gets another number of the same size and root. The folder has no note of the mirror
/// under that number, unless it has one twice. In the end all files are flushed to the device.
///
/// ```text
/// run_notes::<Sha256Tree, _>(&mut files, alloc, "example.com/log", &keys, "log.state", "notes")?;
/// ```
///
/// # Errors
///
/// In this order: `State`, those of `open_state`; `OutOfMemory` if there is no memory for the list; `Folder` if the folder is
/// not made; `Note`; `Flush` if all notes are written, but not flushed.
///
/// `Note` has `FileFault` if a note is not written, or if its name is of something else than a plain file with its bytes. Then
/// the notes before it are written.
pub fn run_notes<H: TreeHash, F: NamedFiles>(
    files: &mut F,
    alloc: Global,
    origin: &str,
    keys: &[Box<dyn Verifier>],
    state: &str,
    folder: &str,
) -> Result<(), NotesFault>
    ensures { WritesNotes H.digest origin.now (map (λ k. key k) keys.now) (F.puts files.old)
        state.now folder.now (F.puts files.new) result }
{
    match open_state::<H, F>(files, alloc, origin, keys, state) {
        Ok(mirror) => {
            let done = write_notes(files, alloc, &mirror, folder);
            drop(mirror);
            done
        }
        Err(fault) => Err(NotesFault::State(fault)),
    }
}

// Writes each note of the mirror of a state file to the folder.
fn write_notes<H: TreeHash, F: NamedFiles>(
    files: &mut F,
    alloc: Global,
    mirror: &Mirror<H>,
    folder: &str,
) -> Result<(), NotesFault>
    ensures { (origin : List ℕ) (keys : List Key) (state : List ℕ) → OpensFile H.digest origin keys
        (F.puts files.old) state (Ok mirror.now.view) → WritesNotes H.digest origin keys
        (F.puts files.old) state folder.now (F.puts files.new) result }
{
    let Ok(mut heads) = head_notes(alloc, mirror) else {
        return Err(NotesFault::OutOfMemory);
    };
    match files.make_folder(folder) {
        Ok(()) => {}
        Err(fault) => return Err(NotesFault::Folder(fault)),
    }
    match order_as_found(files, alloc, folder, &mut heads) {
        Ok(()) => put_heads(files, alloc, folder, &heads),
        Err(AllocError) => Err(NotesFault::OutOfMemory),
    }
}

// Orders the notes so that each gets the name of the file that already has it. A note that is in the folder under another
// number keeps that number, and the note of that number gets its number.
fn order_as_found<F: NamedFiles>(
    files: &F,
    alloc: Global,
    folder: &str,
    heads: &mut [HeadNote],
) -> Result<(), AllocError>
    ensures { OnOk result (AreHeads (map head_note heads.old)
        → Reorders (F.puts files.now) folder.now (map head_note heads.old)
        (map head_note heads.new)) }
{
    for i in 0..heads.len() {
        exchange_found(files, alloc, folder, heads, i)?;
    }
    Ok(())
}

// If the file with the note's name has the bytes of another note, exchanges the two notes.
fn exchange_found<F: NamedFiles>(
    files: &F,
    alloc: Global,
    folder: &str,
    heads: &mut [HeadNote],
    i: usize,
) -> Result<(), AllocError>
    requires { i < length heads.old }
    ensures { OnOk result ((first : List HeadValue)
        → IsOrdered (F.puts files.now) folder.now first (map head_note heads.old) i
        → IsOrdered (F.puts files.now) folder.now first (map head_note heads.new) (i + 1)) }
{
    let file = file_at(alloc, heads, i)?;
    let place = note_path(alloc, folder, &file.name)?;
    match files.find(&place) {
        Ok(Some(there)) => {
            if there.as_slice() != file.bytes {
                match index_of(heads, i, &there) {
                    Some(j) => heads.swap(i, j),
                    None => {}
                }
            }
        }
        Ok(None) => {}
        // Putting the note will fail later.
        Err(NamedFault::FileFault) => {}
        Err(NamedFault::OutOfMemory) => return Err(AllocError),
    }
    Ok(())
}

// The index of another note with these bytes, and with the size and root of the note at index `i`. It looks after `i` first:
// if only one note was added before all others, the wanted note is there.
fn index_of(heads: &[HeadNote], i: usize, bytes: &[u8]) -> Option<usize>
    requires { i < length heads.now }
    ensures within { IfSome result (λ j. j < length heads.now) }
    ensures found { IfSome result (IsNoteWith (map head_note heads.now) i bytes.now) }
    ensures none { IfNone result ((j : ℕ) → j ≢ i → ¬ IsNoteWith (map head_note heads.now) i
        bytes.now j) }
{
    match index_within(heads, i, bytes, i + 1, heads.len()) {
        Some(j) => Some(j),
        None => index_within(heads, i, bytes, 0, i),
    }
}

// The first such index from `start` on and below `end`.
fn index_within(
    heads: &[HeadNote],
    i: usize,
    bytes: &[u8],
    start: usize,
    end: usize,
) -> Option<usize>
    requires within { i < length heads.now }
    requires end { end ≤ length heads.now }
    ensures within { IfSome result (λ j. j < length heads.now) }
    ensures found { IfSome result (IsNoteWith (map head_note heads.now) i bytes.now) }
    ensures none { IfNone result ((j : ℕ) → start ≤ j → j < end
        → ¬ IsNoteWith (map head_note heads.now) i bytes.now j) }
{
    for j in start..end {
        if is_head(&heads[j], &heads[i], bytes) {
            return Some(j);
        }
    }
    None
}

// Whether a note has these bytes, and the size and root of the other note.
fn is_head(other: &HeadNote, head: &HeadNote, bytes: &[u8]) -> bool
    ensures { IsTrue result ↔ (IsTrue (is_alike (head_note other.now) (head_note head.now))
        × (other.now.bytes.now ≡ bytes.now)) }
{
    other.size == head.size && other.root == head.root && other.bytes == bytes
}

// Puts each of the notes into the folder, and flushes the folder.
fn put_heads<F: NamedFiles>(
    files: &mut F,
    alloc: Global,
    folder: &str,
    heads: &[HeadNote],
) -> Result<(), NotesFault>
    ensures { PutsHeads folder.now (map head_note heads.now) (F.puts files.old) (F.puts files.new)
        result }
{
    let Ok(notes) = files_of(alloc, heads) else {
        return Err(NotesFault::OutOfMemory);
    };
    match put_notes(files, alloc, folder, &notes) {
        Ok(()) => match files.flush(folder) {
            Ok(()) => Ok(()),
            Err(fault) => Err(NotesFault::Flush(fault)),
        },
        Err(fault) => {
            // The files that were put remain. The first fault is reported.
            let _flushed = files.flush(folder);
            Err(NotesFault::Note(fault))
        }
    }
}

// Puts each of the notes into the folder.
fn put_notes<F: NamedFiles>(
    files: &mut F,
    alloc: Global,
    folder: &str,
    notes: &[NoteFile],
) -> Result<(), NamedFault>
    ensures { PutsNotes folder.now (map note_file notes.now) (F.puts files.old) (F.puts files.new)
        result }
{
    for note in notes {
        put_note(files, alloc, folder, note)?;
    }
    Ok(())
}

// Puts a note into the folder.
fn put_note<F: NamedFiles>(
    files: &mut F,
    alloc: Global,
    folder: &str,
    note: &NoteFile<'_>,
) -> Result<(), NamedFault>
    ensures { PutsOne (F.puts files.old) (F.puts files.new)
        (in_folder folder.now (note_file note.now)) result }
{
    let Ok(place) = note_path(alloc, folder, &note.name) else {
        return Err(NamedFault::OutOfMemory);
    };
    put_once(files, alloc, &place, note.bytes)
}

// The path of the note with that name.
fn note_path(alloc: Global, folder: &str, name: &str) -> Result<String, AllocError>
    ensures { IfOk result (λ place. string_bytes place ≡ note_place folder.now name.now) }
{
    format!(in alloc; "{folder}/{name}")
}

// Puts a file that is missing. If it is there with these bytes, it is left.
fn put_once<F: NamedFiles>(
    files: &mut F,
    alloc: Global,
    name: &str,
    bytes: &[u8],
) -> Result<(), NamedFault>
    ensures { PutsOne (F.puts files.old) (F.puts files.new) (name.now, bytes.now) result }
{
    match files.find(name) {
        Ok(None) => files.put(name, bytes),
        Ok(Some(there)) => {
            if there.as_slice() == bytes {
                Ok(())
            } else {
                keep_other(files, alloc, name);
                Err(NamedFault::FileFault)
            }
        }
        Err(fault) => Err(fault),
    }
}

// Keeps the name of a file that has other bytes, with the reason.
fn keep_other<F: NamedFiles>(files: &F, alloc: Global, name: &str) {
    if let Ok(reason) = String::from_str(alloc, "it has other bytes") {
        files.keep_reason(name, reason);
    }
}
