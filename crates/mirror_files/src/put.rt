//! The parts of a state text, put piece by piece.
ghost use Rattle.std.specs.Prelude.{◌++◌, map, All};
ghost use Rattle.std.specs.Int.{to_be_bytes, w64};
ghost use Rattle.mirror_files.specs.Items.{item_text, items_text, list_text, IsItem};
ghost use Rattle.mirror_files.specs.Putting.{pair_bytes, Puts};

use crate::items::Form;
use crate::listing::KeyedPair;
use crate::page::{Page, put};
use byte_streams::StreamFault;
use std::io::Write;
use tlog_hash::Hash;

// Puts an item after its length in two bytes.
pub(crate) fn put_short<W: Write>(
    writer: &mut W,
    page: &mut Page,
    item: &[u8],
) -> Result<(), StreamFault>
    requires { IsItem Form.Short item.now }
    ensures { Puts (W.contents writer.old) (W.contents writer.new) page.old page.new
        (item_text Form.Short item.now) result }
{
    let len = item.len() as u16;
    put(writer, page, len.to_be_bytes().as_slice())?;
    put(writer, page, item)
}

// Puts an item after its length in four bytes.
fn put_long<W: Write>(writer: &mut W, page: &mut Page, item: &[u8]) -> Result<(), StreamFault>
    requires { IsItem Form.Long item.now }
    ensures { Puts (W.contents writer.old) (W.contents writer.new) page.old page.new
        (item_text Form.Long item.now) result }
{
    let len = item.len() as u32;
    put(writer, page, len.to_be_bytes().as_slice())?;
    put(writer, page, item)
}

// Puts an item in that form.
fn put_item<W: Write>(
    writer: &mut W,
    page: &mut Page,
    form: Form,
    item: &[u8],
) -> Result<(), StreamFault>
    requires { IsItem form item.now }
    ensures { Puts (W.contents writer.old) (W.contents writer.new) page.old page.new
        (item_text form item.now) result }
{
    match form {
        Form::Short => put_short(writer, page, item),
        Form::Long => put_long(writer, page, item),
        Form::Hashes => put(writer, page, item),
    }
}

fn put_items<W: Write>(
    writer: &mut W,
    page: &mut Page,
    form: Form,
    items: &[&[u8]],
) -> Result<(), StreamFault>
    requires { All (IsItem form) (map (λ i. i.now) items.now) }
    ensures { Puts (W.contents writer.old) (W.contents writer.new) page.old page.new
        (items_text form (map (λ i. i.now) items.now)) result }
{
    for item in items {
        put_item(writer, page, form, item)?;
    }
    Ok(())
}

// Puts a number of items in eight bytes.
fn put_count<W: Write>(writer: &mut W, page: &mut Page, count: usize) -> Result<(), StreamFault>
    ensures { Puts (W.contents writer.old) (W.contents writer.new) page.old page.new
        (to_be_bytes w64 count) result }
{
    let count = count as u64;
    put(writer, page, count.to_be_bytes().as_slice())
}

// Puts a list of items after their number.
pub(crate) fn put_list<W: Write>(
    writer: &mut W,
    page: &mut Page,
    form: Form,
    items: &[&[u8]],
) -> Result<(), StreamFault>
    requires { All (IsItem form) (map (λ i. i.now) items.now) }
    ensures { Puts (W.contents writer.old) (W.contents writer.new) page.old page.new
        (list_text form (map (λ i. i.now) items.now)) result }
{
    put_count(writer, page, items.len())?;
    put_items(writer, page, form, items)
}

fn put_pair<W: Write>(
    writer: &mut W,
    page: &mut Page,
    left: &Hash,
    right: &Hash,
) -> Result<(), StreamFault>
    ensures { Puts (W.contents writer.old) (W.contents writer.new) page.old page.new
        (left.now ++ right.now) result }
{
    put(writer, page, left.as_slice())?;
    put(writer, page, right.as_slice())
}

fn put_each_pair<W: Write>(
    writer: &mut W,
    page: &mut Page,
    pairs: &[KeyedPair<'_>],
) -> Result<(), StreamFault>
    ensures { Puts (W.contents writer.old) (W.contents writer.new) page.old page.new
        (items_text Form.Hashes (map pair_bytes pairs.now)) result }
{
    for (_, (left, right)) in pairs {
        put_pair(writer, page, left, right)?;
    }
    Ok(())
}

// Puts a list of pairs after their number.
pub(crate) fn put_pairs<W: Write>(
    writer: &mut W,
    page: &mut Page,
    pairs: &[KeyedPair<'_>],
) -> Result<(), StreamFault>
    ensures { Puts (W.contents writer.old) (W.contents writer.new) page.old page.new
        (list_text Form.Hashes (map pair_bytes pairs.now)) result }
{
    put_count(writer, page, pairs.len())?;
    put_each_pair(writer, page, pairs)
}
