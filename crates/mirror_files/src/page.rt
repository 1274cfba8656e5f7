//! Bytes on their way to a writer: held back until they are many, and hashed as they come.
ghost use Rattle.std.specs.Prelude.{◌≡◌, [], OnOk};
ghost use Rattle.sha2.specs.Hashers.{Holds256};
ghost use Rattle.mirror_files.specs.Putting.{EndsText, Puts, Writes};

use byte_streams::{StreamFault, write_whole};
use sha2::{Digest, Sha256};
use std::alloc::{AllocError, Global};
use std::io::Write;

// From this number of bytes on, the page is written.
const PAGE: usize = 65_536;

/// The bytes that were put and are not written yet, and the digest of all that were put.
#[derive(Drop)]
pub(crate) struct Page {
    held: Vec<u8>,
    digest: Sha256,
}

impl Page {
    pub(crate) fn new(alloc: Global) -> Page
        ensures held { result.held.items ≡ [] }
        ensures hashed { Holds256 result.digest [] }
    {
        Page {
            held: Vec::new(alloc),
            digest: Sha256::new(),
        }
    }
}

// Writes the bytes that are held back.
fn flush<W: Write>(writer: &mut W, held: &mut Vec<u8>) -> Result<(), StreamFault>
    ensures writes { Writes (W.contents writer.old) (W.contents writer.new) held.old.items
        held.new.items [] result }
    ensures empty { OnOk result (held.new.items ≡ []) }
{
    write_whole(writer, held.as_slice())?;
    held.clear();
    Ok(())
}

// Writes the bytes that are held back, if they are many.
fn make_room<W: Write>(writer: &mut W, held: &mut Vec<u8>) -> Result<(), StreamFault>
    ensures { Writes (W.contents writer.old) (W.contents writer.new) held.old.items held.new.items
        [] result }
{
    if held.len() < PAGE {
        return Ok(());
    }
    flush(writer, held)
}

// Writes the bytes that are held back, and then the piece.
fn write_through<W: Write>(
    writer: &mut W,
    held: &mut Vec<u8>,
    piece: &[u8],
) -> Result<(), StreamFault>
    ensures writes { Writes (W.contents writer.old) (W.contents writer.new) held.old.items
        held.new.items piece.now result }
    ensures empty { OnOk result (held.new.items ≡ []) }
{
    flush(writer, held)?;
    write_whole(writer, piece)
}

// Holds the piece back. If memory for it is refused, it is written at once.
fn hold<W: Write>(writer: &mut W, held: &mut Vec<u8>, piece: &[u8]) -> Result<(), StreamFault>
    ensures { Writes (W.contents writer.old) (W.contents writer.new) held.old.items held.new.items
        piece.now result }
{
    match held.extend_from_slice(piece) {
        Ok(()) => Ok(()),
        Err(AllocError) => write_through(writer, held, piece),
    }
}

// Puts a piece of the text.
pub(crate) fn put<W: Write>(
    writer: &mut W,
    page: &mut Page,
    piece: &[u8],
) -> Result<(), StreamFault>
    ensures { Puts (W.contents writer.old) (W.contents writer.new) page.old page.new piece.now
        result }
{
    page.digest.update(piece);
    make_room(writer, &mut page.held)?;
    hold(writer, &mut page.held, piece)
}

// Writes the bytes that are held back, and the digest of all that were put.
pub(crate) fn finish<W: Write>(writer: &mut W, page: &mut Page) -> Result<(), StreamFault>
    ensures { EndsText (W.contents writer.old) (W.contents writer.new) page.old result }
{
    let digest = page.digest.finalize_reset();
    write_through(writer, &mut page.held, digest.as_slice())
}
