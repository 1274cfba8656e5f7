//! Edge rows that the caller owns.
ghost use Rattle.std.specs.Prelude.{◌≡◌, IfOk, List, map};
ghost use Rattle.mirror_model.specs.Answered.{answer_of};
ghost use Rattle.mirror_model.specs.Refusals.{JudgesHead};
ghost use Rattle.mirror_model.specs.Steps.{Takes};
ghost use Rattle.mirror_model.specs.declared.items.Item.TheVariants.{Head};
ghost use Rattle.signed_note.specs.Keys.{Key};
ghost use Rattle.tlog_mirror.specs.Opened.{IsOpenUnder, WasOpened};

use crate::mirror::Mirror;
use mirror_model::{HeadNote, TakeFault};
use signed_note::Verifier;
use std::alloc::{AllocError, Global};
use tlog_hash::TreeHash;

impl<H: TreeHash> Mirror<H> {
    /// Takes a tree head like `take_head`, with rows that the caller owns, as a download gives them.
    ///
    /// ```text
    /// mirror.take_head_rows(alloc, &keys, &note, &[row_of_level_0, row_of_level_1])?;
    /// ```
    ///
    /// # Errors
    ///
    /// Those of `take_head`, with the same state of the mirror afterwards.
    pub fn take_head_rows(
        &mut self,
        alloc: Global,
        keys: &[Box<dyn Verifier>],
        note: &[u8],
        rows: &[Vec<u8>],
    ) -> Result<(), TakeFault>
        ensures takes { Takes H.digest (map (λ k. key k) keys.now) self.old.view
            (Head note.now (map (λ row. row.items) rows.now)) (answer_of result) self.new.view }
        ensures judged { JudgesHead H.digest self.old.view.origin (map (λ k. key k) keys.now)
            note.now (map (λ row. row.items) rows.now) result }
        ensures remembered { self.new.remembered ≡ self.old.remembered }
    {
        let head = match self.open_head(alloc, keys, note) {
            Ok(head) => head,
            Err(fault) => return Err(fault),
        };
        self.take_opened_rows(alloc, head, rows)
    }

    /// Takes a tree head that `open_head` gave, with rows that the caller owns. It does not verify the note again: for
    /// each list of keys that opens the note, this is `take_head_rows` of its bytes.
    ///
    /// ```text
    /// let head = mirror.open_head(alloc, &keys, &note)?;
    /// mirror.take_opened_rows(alloc, head, &rows)?;
    /// ```
    ///
    /// # Errors
    ///
    /// Those of `take_head`, except the faults of `open_head`.
    pub fn take_opened_rows(
        &mut self,
        alloc: Global,
        head: HeadNote,
        rows: &[Vec<u8>],
    ) -> Result<(), TakeFault>
        requires { WasOpened self.old.view.origin head }
        ensures takes { (keys : List Key) → IsOpenUnder self.old.view.origin keys head
            → Takes H.digest keys self.old.view
            (Head head.note.bytes (map (λ row. row.items) rows.now)) (answer_of result)
            self.new.view }
        ensures judged { (keys : List Key) → IsOpenUnder self.old.view.origin keys head
            → JudgesHead H.digest self.old.view.origin keys head.note.bytes
            (map (λ row. row.items) rows.now) result }
        ensures remembered { self.new.remembered ≡ self.old.remembered }
    {
        match slices_of(alloc, rows) {
            Ok(edge) => self.take_opened(alloc, head, edge.as_slice()),
            Err(AllocError) => Err(TakeFault::OutOfMemory),
        }
    }
}

// The rows, each as a slice.
fn slices_of<'a>(alloc: Global, rows: &'a [Vec<u8>]) -> Result<Vec<&'a [u8]>, AllocError>
    ensures { IfOk result (λ slices. map (λ slice. slice.now) slices.items
        ≡ map (λ row. row.items) rows.entry.now) }
{
    let mut slices: Vec<&'a [u8]> = Vec::new(alloc);
    for row in rows {
        slices.push(row.as_slice())?;
    }
    Ok(slices)
}
