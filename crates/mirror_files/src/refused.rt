//! The note of a state text for which the text is not loaded.
ghost use Rattle.std.specs.Prelude.{◌<◌, ℕ, List, map, option_map, All, IfNone, IfOk, IfSome};
ghost use Rattle.mirror_model.specs.Complete.{HasEdge};
ghost use Rattle.tlog_mirror.specs.Restored.{IsOpenNote};
ghost use Rattle.mirror_files.specs.Storing.{AreListable};
ghost use Rattle.mirror_files.specs.Content.{HasStrings};
ghost use Rattle.mirror_files.specs.Refused.{FindsAt, FindsRefused};
ghost use Rattle.mirror_files.specs.Opening.{IsFirstNot};
ghost use Rattle.mirror_files.specs.Stands.{parts_of};
ghost use Rattle.tlog_text.specs.Answers.{seen};

use crate::loading::mirror_of;
use crate::{Lists, LoadFault, RefusedNote, checked_lists, first_closed, name_of};
use node_store::AddFault;
use signed_note::Verifier;
use std::alloc::{AllocError, Global};
use tlog_hash::TreeHash;
use tlog_mirror::{Mirror, RestoreFault};

/// The note for which `load_bytes` gives `StateHead` or `StateEdge`. It is the first that does not open, in the order
/// of the text. If all open, it is the first whose right edge is not held. `None` if it gives neither fault. It takes
/// as long as a load.
///
/// ```text
/// refused_note::<Sha256Tree>(alloc, "example.com/log", &keys, &bytes)?   // a checkpoint, of 700 entries
/// ```
///
/// # Errors
///
/// Memory was refused.
pub fn refused_note<H: TreeHash>(
    alloc: Global,
    origin: &str,
    keys: &[Box<dyn Verifier>],
    bytes: &[u8],
) -> Result<Option<RefusedNote>, AllocError>
    ensures { FindsRefused H.digest origin.now (map (λ k. key k) keys.now) bytes.now result }
{
    match refused_at::<H>(alloc, origin, keys, bytes)? {
        Some((index, note)) => Ok(Some(name_of(alloc, index, note)?)),
        None => Ok(None),
    }
}

// The index and the bytes of that note among the notes of the text.
fn refused_at<'a, H: TreeHash>(
    alloc: Global,
    origin: &str,
    keys: &[Box<dyn Verifier>],
    bytes: &'a [u8],
) -> Result<Option<(usize, &'a [u8])>, AllocError>
    ensures { FindsAt H.digest origin.now (map (λ k. key k) keys.now) bytes.now
        (seen (option_map (λ x. (x.0, x.1.now))) result) }
{
    match checked_lists(alloc, origin.as_bytes(), bytes) {
        Ok(lists) => {
            let found = refused_in::<H>(alloc, origin, keys, &lists);
            drop(lists);
            found
        }
        Err(LoadFault::OutOfMemory) => Err(AllocError),
        Err(_) => Ok(None),
    }
}

// The index and the bytes of that note among notes that are listed in order.
fn refused_in<'a, H: TreeHash>(
    alloc: Global,
    origin: &str,
    keys: &[Box<dyn Verifier>],
    lists: &Lists<'a>,
) -> Result<Option<(usize, &'a [u8])>, AllocError>
    requires { AreListable (parts_of lists.now) }
    ensures { (bytes : List ℕ) → HasStrings origin.now bytes (parts_of lists.now)
        → FindsAt H.digest origin.now (map (λ k. key k) keys.now) bytes
        (seen (option_map (λ x. (x.0, x.1.now))) result) }
{
    match first_closed(alloc, origin, keys, lists.notes())? {
        Some(found) => return Ok(Some(found)),
        None => {}
    }
    match mirror_of::<H>(alloc, origin, lists) {
        Ok(mut mirror) => {
            let found = first_unheld(alloc, &mut mirror, keys, lists.notes());
            drop(mirror);
            found
        }
        Err(AddFault::Collision) => Ok(None),
        Err(AddFault::OutOfMemory) => Err(AllocError),
    }
}

// The first note whose right edge is not held; all notes open.
fn first_unheld<'n, H: TreeHash>(
    alloc: Global,
    mirror: &mut Mirror<H>,
    keys: &[Box<dyn Verifier>],
    notes: &[&'n [u8]],
) -> Result<Option<(usize, &'n [u8])>, AllocError>
    requires { All (IsOpenNote mirror.old.view.origin (map (λ k. key k) keys.now))
        (map (λ n. n.now) notes.now) }
    ensures found { IfOk result (λ o. IfSome o (λ x. IsFirstNot (HasEdge H.digest mirror.old.view)
        (map (λ n. n.now) notes.now) x.0 x.1.now)) }
    ensures none { IfOk result (λ o. IfNone o
        (All (HasEdge H.digest mirror.old.view) (map (λ n. n.now) notes.now))) }
{
    for i in 0..notes.len() {
        match mirror.keep_held_head(alloc, keys, notes[i]) {
            Ok(()) => {}
            Err(RestoreFault::OutOfMemory) => return Err(AllocError),
            Err(_) => return Ok(Some((i, notes[i]))),
        }
    }
    Ok(None)
}
