//! The size and root of a checkpoint's note.
ghost use Rattle.std.specs.Prelude.{◌≡◌, ◌↔◌, ℕ, IfNone, IfOk, IfSome, IsTrue, List};
ghost use Rattle.mirror_model.specs.Heads.{IsHead};

use mirror_model::checkpoint_of;
use std::alloc::{AllocError, Global};
use tlog_checkpoint::Checkpoint;
use tlog_hash::Hash;

fn is_of(checkpoint: &Checkpoint, origin: &str) -> bool
    ensures { IsTrue result ↔ (checkpoint.now.origin ≡ origin.now) }
{
    checkpoint.origin.as_str() == origin
}

/// The size and root of a checkpoint of that origin. None: the bytes are not a note whose text is one. This call verifies no signature.
///
/// ```text
/// head_of(alloc, "ex", note)?   // Some((257, root))
/// ```
///
/// # Errors
///
/// `AllocError`: memory was refused.
pub fn head_of(alloc: Global, origin: &str, bytes: &[u8]) -> Result<Option<(u64, Hash)>, AllocError>
    ensures found { IfOk result (λ o. IfSome o
        (λ head. IsHead bytes.now origin.now head.0 head.1)) }
    ensures none { IfOk result (λ o. IfNone o ((size : ℕ) (root : List ℕ)
        → ¬ IsHead bytes.now origin.now size root)) }
{
    match checkpoint_of(alloc, bytes)? {
        Some(checkpoint) => {
            let is_of_log = is_of(&checkpoint, origin);
            let head = (checkpoint.size, checkpoint.root);
            drop(checkpoint);
            if is_of_log { Ok(Some(head)) } else { Ok(None) }
        }
        None => Ok(None),
    }
}
