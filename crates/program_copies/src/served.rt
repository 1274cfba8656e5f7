//! The command `entries` over a state: writes entries that a mirror serves.
ghost use Rattle.std.specs.Prelude.{◌≡◌, ◌≤◌, ℕ, List, OnErr, OnOk};
ghost use Rattle.mirror_model.specs.TrueLaws.{AreShort};
ghost use Rattle.mirror_trees.specs.Tops.{IsListOf};
ghost use Rattle.program_copies.specs.Served.{AnswersServed, WritesAll, WritesFirst};

use crate::cutting::CutFault;
use crate::entries_fault::StateEntriesFault;
use crate::writing::{width_at, write_from};
use mirror_trees::TopRanges;
use program_words::commands::entries::EntryRange;
use std::alloc::Global;
use std::io::Write;
use tlog_hash::TreeHash;
use tlog_mirror::Mirror;
use tlog_proof::Ranges;

// Writes the entries, bundle after bundle.
fn write_served<H: TreeHash, W: Write>(
    alloc: Global,
    top: &TopRanges<'_, H>,
    size: u64,
    range: &EntryRange,
    output: &mut W,
) -> Result<(), CutFault>
    requires size { size ≡ top.now.size }
    requires rises { range.now.from ≤ range.now.to }
    requires within { range.now.to ≤ size }
    requires short { (entries : List (List ℕ)) → IsListOf H.digest top.now entries
        → AreShort entries }
    ensures ok { OnOk result ((entries : List (List ℕ)) → IsListOf H.digest top.now entries
        → WritesAll entries range.now.base64 range.now.from range.now.to (W.contents output.old)
        (W.contents output.new)) }
    ensures err { OnErr result ((entries : List (List ℕ)) → IsListOf H.digest top.now entries
        → WritesFirst entries range.now.base64 range.now.from range.now.to (W.contents output.old)
        (W.contents output.new)) }
{
    let mut at = range.from;
    while at < range.to {
        let Ok(found) = top.bundle(alloc, at / 256, width_at(size, at)) else {
            return Err(CutFault::OutOfMemory);
        };
        let Some(bytes) = found else {
            unreachable!();
        };
        at = write_from(alloc, &bytes, size, at, range, output)?;
    }
    Ok(())
}

// Writes served entries of a mirror that has noted the held part of each tree head.
fn write_range<H: TreeHash, W: Write>(
    alloc: Global,
    mirror: &Mirror<H>,
    range: &EntryRange,
    output: &mut W,
) -> Result<(), StateEntriesFault>
    ensures { AnswersServed H.digest mirror.now.view range.now.from range.now.to range.now.base64
        (W.contents output.old) (W.contents output.new) result }
{
    let Some(top) = mirror.top_ranges() else {
        return Err(StateEntriesFault::NothingComplete);
    };
    // The held strings are sound, so each entry is short.
    let _held = mirror.strings();
    let size = top.size();
    if range.to > size {
        return Err(StateEntriesFault::NoSuchSize);
    }
    if range.from > range.to {
        return Err(StateEntriesFault::Backwards);
    }
    match write_served(alloc, &top, size, range, output) {
        Ok(()) => Ok(()),
        Err(CutFault::WriteFault) => Err(StateEntriesFault::WriteFault),
        Err(CutFault::OutOfMemory) => Err(StateEntriesFault::OutOfMemory),
    }
}

/// Writes served entries in order, bundle after bundle. First the mirror notes the held part of each tree head, so that no tree is walked
/// twice. The mirror keeps all that it has.
///
/// ```text
/// let range = EntryRange { from: 599, to: 600, base64: true };
/// entries_of_state(alloc, &mut mirror, &range, &mut output)?   // for C(600): Alc=
/// ```
///
/// # Errors
///
/// In this order, and before anything is written. `NothingComplete`: nothing is served. `NoSuchSize`: fewer than `range.to` entries are
/// served. `Backwards`: `range.from` is larger than `range.to`. Later `WriteFault`: a write failed, or wrote no byte. `OutOfMemory` comes
/// at any time. Entries that were written before these two stay.
pub fn entries_of_state<H: TreeHash, W: Write>(
    alloc: Global,
    mirror: &mut Mirror<H>,
    range: &EntryRange,
    output: &mut W,
) -> Result<(), StateEntriesFault>
    ensures answer { AnswersServed H.digest mirror.old.view range.now.from range.now.to
        range.now.base64 (W.contents output.old) (W.contents output.new) result }
    ensures kept { mirror.new.view ≡ mirror.old.view }
{
    match mirror.note_heads(alloc) {
        Ok(()) => write_range(alloc, mirror, range, output),
        Err(_) => Err(StateEntriesFault::OutOfMemory),
    }
}
