//! Text that may be written only in part.
ghost use Rattle.byte_streams.specs.Streams.{AppendsPrefix};

use byte_streams::write_whole;
use std::io::Write;

/// Writes the text, or a prefix of it if the stream fails.
pub fn write_front<W: Write>(writer: &mut W, text: &[u8])
    ensures { AppendsPrefix (W.contents writer.old) (W.contents writer.new) text.now }
{
    match write_whole(writer, text) {
        Ok(()) | Err(_) => (),
    }
}
