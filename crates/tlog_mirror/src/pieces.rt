//! Bytes that are gathered, so that one write has many of them.
ghost use Rattle.std.specs.Prelude.{◌≡◌, ◌++◌, IfErr, OnErr, OnOk, if◌then◌else◌};
ghost use Rattle.byte_streams.specs.Streams.{AppendsPrefix};
ghost use Rattle.tlog_mirror.specs.Pieces.{Sends};

use byte_streams::{StreamFault, write_whole};
use std::io::Write;

// The number of bytes from which on they are written.
const MANY: usize = 65_536;

// Appends bytes to those that are held back, unless these are many or memory is refused. Returns whether it did.
fn hold_back(held: &mut Vec<u8>, bytes: &[u8]) -> bool
    ensures { held.new.items ≡ (if result then held.old.items ++ bytes.now else held.old.items) }
{
    held.len() < MANY && held.extend_from_slice(bytes).is_ok()
}

// Appends bytes to those that are held back, or writes both. Refused memory is no fault: it then writes.
pub(crate) fn send<W: Write>(
    output: &mut W,
    held: &mut Vec<u8>,
    bytes: &[u8],
) -> Result<(), StreamFault>
    ensures ok { OnOk result (Sends (W.contents output.old) (W.contents output.new) held.new.items
        (held.old.items ++ bytes.now)) }
    ensures err { OnErr result (AppendsPrefix (W.contents output.old) (W.contents output.new)
        (held.old.items ++ bytes.now)) }
    ensures fault { IfErr result (λ e. e ≡ StreamFault.WriteFault) }
{
    if hold_back(held, bytes) {
        return Ok(());
    }
    write_whole(output, held.as_slice())?;
    held.clear();
    write_whole(output, bytes)
}
