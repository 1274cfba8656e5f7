//! Takes of items of each kind.
ghost use Rattle.std.specs.Prelude.{◌≡◌, map};
ghost use Rattle.mirror_model.specs.Answered.{answer_of};
ghost use Rattle.mirror_model.specs.Steps.{Takes};
ghost use Rattle.tlog_mirror.specs.Judged.{JudgesItem};
ghost use Rattle.tlog_mirror.specs.Plays.{HasWidth};

use crate::mirror::Mirror;
use mirror_model::{Item, TakeFault};
use signed_note::Verifier;
use std::alloc::Global;
use tlog_hash::TreeHash;

// Takes an item, by the call for its kind.
pub(crate) fn take_item<H: TreeHash>(
    mirror: &mut Mirror<H>,
    alloc: Global,
    keys: &[Box<dyn Verifier>],
    item: &Item,
) -> Result<(), TakeFault>
    requires { HasWidth item.now }
    ensures takes { Takes H.digest (map (λ k. key k) keys.now) mirror.old.view item.now
        (answer_of result) mirror.new.view }
    ensures judged { JudgesItem H.digest (map (λ k. key k) keys.now) mirror.old.view.origin item.now
        result }
    ensures remembered { mirror.new.remembered ≡ mirror.old.remembered }
{
    match item {
        Item::Head { note, edge } => {
            mirror.take_head_rows(alloc, keys, note.as_slice(), edge.as_slice())
        }
        Item::Tile { width, bytes } => mirror.take_tile(alloc, *width, bytes.as_slice()),
        Item::Bundle { width, bytes } => mirror.take_bundle(alloc, *width, bytes.as_slice()),
    }
}
