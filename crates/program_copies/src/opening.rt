//! A note is opened under the keys of a key file.
ghost use Rattle.std.specs.Prelude.{map};
ghost use Rattle.signed_note.specs.Verifiers.{key_of};
ghost use Rattle.mirror_model.specs.Refusals.{ReadsHead};

use log_reader::open_head;
use mirror_model::TakeFault;
use signed_note::{KeyLine, Verifier};
use std::alloc::Global;
use tlog_checkpoint::Checkpoint;

/// The checkpoint of a note that opens under these keys, as `open_head` of `log_reader`.
///
/// # Errors
///
/// Those of `open_head`.
pub(crate) fn open_under(
    alloc: Global,
    lines: Vec<KeyLine>,
    origin: &str,
    note: &[u8],
) -> Result<Checkpoint, TakeFault>
    ensures { ReadsHead note.now origin.now (map key_of lines.items) result }
{
    let mut keys: Vec<Box<dyn Verifier>> = Vec::new(alloc);
    for line in lines {
        match line {
            KeyLine::Hmac(key) => {
                let Ok(key) = Box::new(alloc, key) else {
                    return Err(TakeFault::OutOfMemory);
                };
                let Ok(()) = keys.push(key) else {
                    return Err(TakeFault::OutOfMemory);
                };
            }
            KeyLine::Pin(texts) => {
                let Ok(texts) = Box::new(alloc, texts) else {
                    return Err(TakeFault::OutOfMemory);
                };
                let Ok(()) = keys.push(texts) else {
                    return Err(TakeFault::OutOfMemory);
                };
            }
        }
    }
    open_head(alloc, origin, &keys, note)
}
