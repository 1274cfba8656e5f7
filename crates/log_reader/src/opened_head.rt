//! The checkpoint of a note that opens.
ghost use Rattle.std.specs.Prelude.{map};
ghost use Rattle.mirror_model.specs.Refusals.{ReadsHead};

use mirror_model::TakeFault;
use signed_note::Verifier;
use std::alloc::Global;
use tlog_checkpoint::Checkpoint;

/// The checkpoint of a note of that origin that opens under the keys (C2SP signed-note, tlog-checkpoint).
///
/// ```text
/// open_head(alloc, "ex", &keys, note)?.size   // 257
/// ```
///
/// # Errors
///
/// The first that applies. `Note`: the bytes are not a signed note. `Checkpoint`: its text is not a checkpoint. `OtherOrigin`: it has
/// another origin. `NoTrustedSignature`: no signature line is one of a key. `OutOfMemory`: memory was refused.
pub fn open_head(
    alloc: Global,
    origin: &str,
    keys: &[Box<dyn Verifier>],
    bytes: &[u8],
) -> Result<Checkpoint, TakeFault>
    ensures { ReadsHead bytes.now origin.now (map (λ k. key k) keys.now) result }
{
    match mirror_model::open_head(alloc, origin, keys, bytes) {
        Ok(head) => Ok(head.checkpoint),
        Err(fault) => Err(fault),
    }
}
