//! Writes a state text of version 2.
ghost use Rattle.std.specs.Prelude.{◌++◌, map, All};
ghost use Rattle.mirror_files.specs.Items.{list_text, IsItem};
ghost use Rattle.mirror_files.specs.Putting.{pair_bytes, state_text, Puts, WritesText};
ghost use Rattle.mirror_files.specs.StateText.{body_text, AreParted, VersionTwo};

use crate::items::Form;
use crate::listing::Sorted;
use crate::page::{Page, finish, put};
use crate::put::{put_list, put_pairs, put_short};
use byte_streams::StreamFault;
use std::alloc::Global;
use std::io::Write;

/// Writes the text of an origin, of notes in order and of sorted strings. It buffers the bytes, and does not flush.
///
/// # Errors
///
/// That of the writer, after a prefix of the text.
pub fn write_text<W: Write>(
    alloc: Global,
    writer: &mut W,
    origin: &[u8],
    notes: &[&[u8]],
    held: &Sorted,
) -> Result<(), StreamFault>
    requires { AreParted origin.now (map (λ n. n.now) notes.now)
        (map pair_bytes held.now.pairs.items) (map (λ e. e.now) held.now.entries.items) }
    ensures { WritesText (W.contents writer.old) (W.contents writer.new)
        (state_text (VersionTwo origin.now (map (λ n. n.now) notes.now)
        (map pair_bytes held.now.pairs.items) (map (λ e. e.now) held.now.entries.items))) result }
{
    let mut page = Page::new(alloc);
    put_body(writer, &mut page, origin, notes, held)?;
    finish(writer, &mut page)
}

// Puts the text of these parts, without its digest.
fn put_body<W: Write>(
    writer: &mut W,
    page: &mut Page,
    origin: &[u8],
    notes: &[&[u8]],
    held: &Sorted,
) -> Result<(), StreamFault>
    requires { AreParted origin.now (map (λ n. n.now) notes.now)
        (map pair_bytes held.now.pairs.items) (map (λ e. e.now) held.now.entries.items) }
    ensures { Puts (W.contents writer.old) (W.contents writer.new) page.old page.new
        (body_text (VersionTwo origin.now (map (λ n. n.now) notes.now)
        (map pair_bytes held.now.pairs.items) (map (λ e. e.now) held.now.entries.items))) result }
{
    put(writer, page, b"TLMIRR02".as_slice())?;
    put_short(writer, page, origin)?;
    put_list(writer, page, Form::Long, notes)?;
    put_strings(writer, page, held)
}

// Puts the lists of the strings.
fn put_strings<W: Write>(writer: &mut W, page: &mut Page, held: &Sorted) -> Result<(), StreamFault>
    requires { All (IsItem Form.Short) (map (λ e. e.now) held.now.entries.items) }
    ensures { Puts (W.contents writer.old) (W.contents writer.new) page.old page.new
        (list_text Form.Hashes (map pair_bytes held.now.pairs.items)
        ++ list_text Form.Short (map (λ e. e.now) held.now.entries.items)) result }
{
    put_pairs(writer, page, held.pairs.as_slice())?;
    put_list(writer, page, Form::Short, held.entries.as_slice())
}
