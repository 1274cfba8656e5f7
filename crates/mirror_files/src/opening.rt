//! Opens the notes of a state text.
ghost use Rattle.std.specs.Prelude.{◌≡◌, ◌↔◌, map, All, IfNone, IfOk, IfSome, IsTrue};
ghost use Rattle.tlog_text.specs.Answers.{seen};
ghost use Rattle.mirror_files.specs.Opening.{note_fault_of, IsFirstNot, OpensAsHead, OpensNote, OpensNotes};

use crate::load_fault::LoadFault;
use mirror_model::{HeadNote, TakeFault, open_head};
use signed_note::Verifier;
use std::alloc::{AllocError, Global};

/// The tree heads of the notes, if all open as checkpoints of that origin.
///
/// # Errors
///
/// `StateHead` if a note does not open, `OutOfMemory` if memory was refused.
pub fn open_all(
    alloc: Global,
    origin: &str,
    keys: &[Box<dyn Verifier>],
    notes: &[&[u8]],
) -> Result<Vec<HeadNote>, LoadFault>
    ensures { OpensNotes origin.now (map (λ k. key k) keys.now) (map (λ n. n.now) notes.now)
        (seen (λ heads. heads.items) result) }
{
    let mut heads = Vec::new(alloc);
    for note in notes {
        let head = open_one(alloc, origin, keys, note)?;
        let Ok(()) = heads.push(head) else {
            return Err(LoadFault::OutOfMemory);
        };
    }
    Ok(heads)
}

// The tree head of a note, if it opens as a checkpoint of that origin.
fn open_one(
    alloc: Global,
    origin: &str,
    keys: &[Box<dyn Verifier>],
    note: &[u8],
) -> Result<HeadNote, LoadFault>
    ensures { OpensNote origin.now (map (λ k. key k) keys.now) note.now result }
{
    match open_head(alloc, origin, keys, note) {
        Ok(head) => Ok(head),
        Err(fault) => Err(note_fault(fault)),
    }
}

// The fault of loading, for a fault of reading a note.
fn note_fault(fault: TakeFault) -> LoadFault
    ensures { result ≡ note_fault_of fault }
{
    match fault {
        TakeFault::OutOfMemory => LoadFault::OutOfMemory,
        _ => LoadFault::StateHead,
    }
}

/// The first note that does not open as a checkpoint of that origin, and its index.
///
/// # Errors
///
/// Memory was refused.
pub fn first_closed<'n>(
    alloc: Global,
    origin: &str,
    keys: &[Box<dyn Verifier>],
    notes: &[&'n [u8]],
) -> Result<Option<(usize, &'n [u8])>, AllocError>
    ensures found { IfOk result (λ o. IfSome o
        (λ x. IsFirstNot (OpensAsHead origin.now (map (λ k. key k) keys.now))
        (map (λ n. n.now) notes.now) x.0 x.1.now)) }
    ensures none { IfOk result (λ o. IfNone o
        (All (OpensAsHead origin.now (map (λ k. key k) keys.now)) (map (λ n. n.now) notes.now))) }
{
    for i in 0..notes.len() {
        if !is_open(alloc, origin, keys, notes[i])? {
            return Ok(Some((i, notes[i])));
        }
    }
    Ok(None)
}

// Whether a note opens as a checkpoint of that origin.
fn is_open(
    alloc: Global,
    origin: &str,
    keys: &[Box<dyn Verifier>],
    note: &[u8],
) -> Result<bool, AllocError>
    ensures { IfOk result (λ opens. IsTrue opens ↔ OpensAsHead origin.now
        (map (λ k. key k) keys.now) note.now) }
{
    match open_head(alloc, origin, keys, note) {
        Ok(_) => {}
        Err(TakeFault::OutOfMemory) => return Err(AllocError),
        Err(_) => return Ok(false),
    }
    Ok(true)
}
