//! The notes of a mirror as files.
ghost use Rattle.std.specs.Prelude.{◌≡◌, ◌<◌, IfOk, count_by, length, map, string_bytes};
ghost use Rattle.state_commands.specs.NoteFiles.{HasHeads, IsFileAt, IsHeadNote, ListsNoteFiles, file_after, files_of, head_note, is_alike, note_file, note_file_name};

use signed_note::Note;
use std::alloc::{AllocError, Global};
use tlog_checkpoint::read;
use tlog_hash::{Hash, TreeHash};
use tlog_mirror::Mirror;

/// A note as a file.
#[derive(Drop)]
pub struct NoteFile<'a> {
    /// `SIZE-ROOT-NUMBER.note`: the size and the root of the note, and its number. The root has 64 hexadecimal digits in lower
    /// case. The notes of one size and root are numbered from 0.
    pub name: String,
    /// The bytes of the note, as they were received.
    pub bytes: &'a [u8],
}

// A note with its size and root.
#[derive(Drop)]
pub(crate) struct HeadNote<'a> {
    pub(crate) bytes: &'a [u8],
    pub(crate) size: u64,
    pub(crate) root: Hash,
}

// The note with those bytes. A mirror holds only checkpoints, so the only fault is `OutOfMemory`.
fn read_head_note(alloc: Global, bytes: &[u8]) -> Result<HeadNote<'_>, AllocError>
    ensures note { IfOk result (λ head. head.bytes.now ≡ bytes.now) }
    ensures head { IfOk result (λ head. IsHeadNote (head_note head)) }
{
    let Ok(note) = Note::read(alloc, bytes) else {
        return Err(AllocError);
    };
    let Ok(checkpoint) = read(alloc, note.text()) else {
        return Err(AllocError);
    };
    let root = checkpoint.root;
    Ok(HeadNote {
        bytes,
        size: checkpoint.size,
        root,
    })
}

// The number of these notes with that size and root.
fn count_alike(others: &[HeadNote], head: &HeadNote) -> usize
    ensures { result ≡ count_by (λ other. is_alike (head_note other) (head_note head.now))
        others.now }
{
    others
        .iter()
        .filter(|other| other.size == head.size && other.root == head.root)
        .count()
}

// `SIZE-ROOT-NUMBER.note`.
fn name_of(alloc: Global, size: u64, root: &Hash, number: usize) -> Result<String, AllocError>
    ensures { IfOk result (λ name. string_bytes name ≡ note_file_name size root.now number) }
{
    let root = hex::encode(alloc, root.as_slice())?;
    format!(in alloc; "{size}-{root}-{number}.note")
}

// The file of a note after these notes.
fn file_of<'a>(
    alloc: Global,
    before: &[HeadNote<'a>],
    head: &HeadNote<'a>,
) -> Result<NoteFile<'a>, AllocError>
    ensures { IfOk result (λ file. note_file file ≡ file_after (map head_note before.now)
        (head_note head.now)) }
{
    let number = count_alike(before, head);
    let name = name_of(alloc, head.size, &head.root, number)?;
    Ok(NoteFile {
        name,
        bytes: head.bytes,
    })
}

// The file of the note at that index.
pub(crate) fn file_at<'a>(
    alloc: Global,
    heads: &[HeadNote<'a>],
    i: usize,
) -> Result<NoteFile<'a>, AllocError>
    requires { i < length heads.now }
    ensures { IfOk result (λ file. IsFileAt (map head_note heads.now) i (note_file file)) }
{
    file_of(alloc, &heads[..i], &heads[i])
}

// The files of the notes, in order.
pub(crate) fn files_of<'a>(
    alloc: Global,
    heads: &[HeadNote<'a>],
) -> Result<Vec<NoteFile<'a>>, AllocError>
    ensures { IfOk result (λ files. map note_file files.items
        ≡ files_of (map head_note heads.now)) }
{
    let mut files = Vec::new(alloc);
    for i in 0..heads.len() {
        files.push(file_at(alloc, heads, i)?)?;
    }
    Ok(files)
}

// The notes that a mirror holds, in order.
pub(crate) fn head_notes<H: TreeHash>(
    alloc: Global,
    mirror: &Mirror<H>,
) -> Result<Vec<HeadNote<'_>>, AllocError>
    ensures { IfOk result (λ heads. HasHeads mirror.now.view (map head_note heads.items)) }
{
    let mut heads = Vec::new(alloc);
    for i in 0..usize::MAX {
        let Some(bytes) = mirror.note_at(i) else {
            return Ok(heads);
        };
        heads.push(read_head_note(alloc, bytes)?)?;
    }
    // No memory can hold that many.
    Err(AllocError)
}

/// The notes that a mirror holds, as files. Each note is there once, sorted by its bytes and with its bytes unchanged.
///
/// ```text
/// for file in &note_files(alloc, &mirror)? {
///     file.name    // 3-aeb6bcfe274b70a14fb067a5e5578264db0fa9b51af5e0ba159158f329e06e77-0.note
///     file.bytes   // the note
/// }
/// ```
///
/// # Errors
///
/// Memory was refused.
pub fn note_files<H: TreeHash>(
    alloc: Global,
    mirror: &Mirror<H>,
) -> Result<Vec<NoteFile<'_>>, AllocError>
    ensures { IfOk result (λ files. ListsNoteFiles mirror.now.view (map note_file files.items)) }
{
    let heads = head_notes(alloc, mirror)?;
    files_of(alloc, &heads)
}
