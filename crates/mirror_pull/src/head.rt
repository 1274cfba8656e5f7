//! The checkpoint note of a list.
ghost use Rattle.std.specs.Prelude.{◌≤◌, IfOk};
ghost use Rattle.signed_note.specs.KeyKinds.{secret_key};
ghost use Rattle.mirror_model.specs.Origin.{IsOrigin};
ghost use Rattle.mirror_pull.specs.ListSource.{OpensAnywhere};

use signed_note::{HmacKey, sign};
use std::alloc::{AllocError, Global};
use tlog_checkpoint::{Checkpoint, Line, Lines, write};
use tlog_hash::Hash;
use tlog_shape::MAX_SIZE;

/// A note of the checkpoint with that origin, size and root, signed by the key.
pub(crate) fn head_note(
    alloc: Global,
    origin: &str,
    size: u64,
    root: &Hash,
    key: &HmacKey,
) -> Result<Vec<u8>, AllocError>
    requires origin { IsOrigin origin.now }
    requires size { size ≤ MAX_SIZE }
    ensures { IfOk result (λ note. OpensAnywhere note.items origin.now (secret_key key.now) size
        root.now) }
{
    let checkpoint = Checkpoint {
        origin: Line::new(String::from_str(alloc, origin)?),
        size,
        root: *root,
        extensions: Lines::new(Vec::new(alloc)),
    };
    let text = write(alloc, &checkpoint)?;
    let note = sign(alloc, &text, key)?;
    Ok(note)
}
