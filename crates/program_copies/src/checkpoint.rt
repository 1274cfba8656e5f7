//! The checkpoint of a copy.
ghost use Rattle.std.specs.Prelude.{◌≡◌, ◌↔◌, ℕ, List, IfErr, IfOk, IsTrue, OnOk, Some, option_map};
ghost use Rattle.mirror_folders.specs.Shelf.{RecordsRead};
ghost use Rattle.mirror_model.specs.Heads.{IsHead};
ghost use Rattle.mirror_http.specs.declared.request.Request.TheVariants as Request;
ghost use Rattle.mirror_http.specs.declared.resource.Resource.{Resource};
ghost use Rattle.mirror_sources.specs.Recorded.{KeepsRecord};
ghost use Rattle.tlog_tiles.specs.declared.paths.Path.TheVariants.{Checkpoint};
ghost use Rattle.program_copies.specs.CopyAnswers.{BlamesAnswer, CountsMade, IsReadFailure};
ghost use Rattle.program_copies.specs.CopyHeads.{HasOpened, IsCopyHead, LacksKeys, OpensNow, copy_head};
ghost use Rattle.program_copies.specs.NewHeads.{IsNewUnread, RefusesHead};

use crate::keys::CopyKeys;
use crate::opening::open_under;
use crate::reply_fault::CopyAnswerFault;
use log_reader::head_of;
use mirror_folders::{ReadableShelf, ShelfError};
use mirror_http::HttpFault;
use mirror_model::TakeFault;
use std::alloc::{AllocError, Global};
use tlog_hash::Hash;
use tlog_tiles::Path;

// Whether the bytes are those of the note that opened last.
fn is_last(last: &Option<Vec<u8>>, note: &[u8]) -> bool
    ensures { IsTrue result ↔ (option_map (λ note. note.items) last.now ≡ Some note.now) }
{
    match last {
        Some(last) => last.as_slice() == note,
        None => false,
    }
}

// The size and root of the note that opened last.
fn last_head(alloc: Global, origin: &str, note: &[u8]) -> Result<(u64, Hash), CopyAnswerFault>
    ensures head { IfOk result (λ head. IsHead note.now origin.now head.0 head.1) }
    ensures refused { IfErr result (RefusesHead (λ keys. ⊥) (λ fault. ⊥) origin.now note.now) }
{
    match head_of(alloc, origin, note) {
        Ok(Some(head)) => Ok(head),
        Ok(None) => Err(CopyAnswerFault::CopyDamaged(Path::Checkpoint)),
        Err(_) => Err(CopyAnswerFault::Http(HttpFault::OutOfMemory)),
    }
}

// The size and root of a note, which has to open under the keys as they are now.
#[tactic(auto, using(copy_reader::proofs::HeadNotes::opened_head))]
fn new_head<K: CopyKeys>(
    alloc: Global,
    keys: &K,
    origin: &str,
    note: &[u8],
) -> Result<(u64, Hash), CopyAnswerFault>
    ensures opens { IfOk result (λ head. OpensNow (K.are_keys keys.now) origin.now
        (copy_head note.now head.0 head.1)) }
    ensures refused { IfErr result (RefusesHead (K.are_keys keys.now) (K.may_fail keys.now)
        origin.now note.now) }
{
    let lines = match keys.read_keys(alloc) {
        Ok(lines) => lines,
        Err(fault) => return Err(CopyAnswerFault::KeyFile(fault)),
    };
    match open_under(alloc, lines, origin, note) {
        Ok(checkpoint) => {
            let root = checkpoint.root;
            Ok((checkpoint.size, root))
        }
        Err(TakeFault::OutOfMemory) => Err(CopyAnswerFault::Http(HttpFault::OutOfMemory)),
        Err(fault) => Err(CopyAnswerFault::Head(fault)),
    }
}

// The size and root of a note, which opened last or opens now.
#[tactic(auto, using(crate::proofs::OpenedHeads::head_opens, crate::proofs::OpenedHeads::no_keys, crate::proofs::OpenedHeads::new_unread))]
fn head_in<K: CopyKeys>(
    alloc: Global,
    keys: &K,
    origin: &str,
    last: &Option<Vec<u8>>,
    note: &[u8],
) -> Result<(u64, Hash), CopyAnswerFault>
    ensures head { IfOk result (λ head. IsHead note.now origin.now head.0 head.1) }
    ensures opened { IfOk result (λ head. HasOpened (K.are_keys keys.now) origin.now
        (option_map (λ note. note.items) last.now) (copy_head note.now head.0 head.1)) }
    ensures refused { IfErr result (RefusesHead (K.are_keys keys.now)
        (IsNewUnread (K.may_fail keys.now) (option_map (λ note. note.items) last.now) note.now)
        origin.now note.now) }
{
    if is_last(last, note) {
        return last_head(alloc, origin, note);
    }
    new_head::<K>(alloc, keys, origin, note)
}

// The note on the shelf.
fn read_note<D: ReadableShelf>(shelf: &mut D) -> Result<Option<Vec<u8>>, CopyAnswerFault>
    ensures note { IfOk result (λ found. RecordsRead (D.puts shelf.old) Checkpoint
        (option_map (λ note. note.items) found)) }
    ensures same { KeepsRecord (D.puts shelf.old) (D.puts shelf.new) }
    ensures counted { CountsMade (D.failed shelf.old) (D.failed shelf.new) result }
    ensures fault { IfErr result IsReadFailure }
{
    match shelf.read(&Path::Checkpoint) {
        Ok(found) => Ok(found),
        Err(ShelfError::Failed) => Err(CopyAnswerFault::ShelfFault),
        Err(ShelfError::OutOfMemory) => Err(CopyAnswerFault::Http(HttpFault::OutOfMemory)),
    }
}

/// The checkpoint on the shelf, which opened last or opens now: its note, its size and its root. None: the copy is empty.
#[tactic(auto, using(crate::proofs::OpenedHeads::blames_read, crate::proofs::OpenedHeads::blames_head, crate::proofs::OpenedHeads::counts_head))]
pub(crate) fn read_checkpoint<D: ReadableShelf, K: CopyKeys>(
    alloc: Global,
    shelf: &mut D,
    keys: &K,
    origin: &str,
    last: &Option<Vec<u8>>,
) -> Result<Option<(Vec<u8>, u64, Hash)>, CopyAnswerFault>
    ensures head { IfOk result (λ found. IsCopyHead (K.are_keys keys.now) origin.now
        (option_map (λ note. note.items) last.now) (D.puts shelf.old)
        (option_map (λ head. copy_head head.0.items head.1 head.2) found)) }
    ensures same { KeepsRecord (D.puts shelf.old) (D.puts shelf.new) }
    ensures counted { CountsMade (D.failed shelf.old) (D.failed shelf.new) result }
    ensures blames { (digest : List ℕ → List ℕ) (resource : Resource) → IfErr result
        (BlamesAnswer digest (K.are_keys keys.now)
        (LacksKeys (K.may_fail keys.now) (option_map (λ note. note.items) last.now)
        (D.puts shelf.old)) origin.now (D.puts shelf.old) (Request.Get resource)) }
{
    let note = match read_note::<D>(shelf) {
        Ok(Some(note)) => note,
        Ok(None) => return Ok(None),
        Err(fault) => return Err(fault),
    };
    match head_in::<K>(alloc, keys, origin, last, &note) {
        Ok(head) => {
            let root = head.1;
            Ok(Some((note, head.0, root)))
        }
        Err(fault) => Err(fault),
    }
}

/// Keeps the note as the one that opened last.
pub(crate) fn keep_note(
    alloc: Global,
    last: &mut Option<Vec<u8>>,
    note: &[u8],
) -> Result<(), AllocError>
    ensures ok { OnOk result (option_map (λ note. note.items) last.new ≡ Some note.now) }
    ensures err { IfErr result (λ _. last.new ≡ last.old) }
{
    if is_last(last, note) {
        return Ok(());
    }
    let copy = Vec::from_slice(alloc, note)?;
    *last = Some(copy);
    Ok(())
}
