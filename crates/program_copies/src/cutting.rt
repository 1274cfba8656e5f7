//! The entries of a bundle, cut out and written.
ghost use Rattle.std.specs.Prelude.{◌≡◌, ◌-◌, ◌^◌, ◌<◌, ◌≤◌, ◌++◌, ℕ, All, List, IfOk, OnErr, OnOk, length, map, string_bytes};
ghost use Rattle.std.specs.List.{flat_map};
ghost use Rattle.std.specs.Io.KnownBytes.{Appends};
ghost use Rattle.byte_streams.specs.Streams.{AppendsPrefix};
ghost use Rattle.tlog_hash.specs.Rows.{part};
ghost use Rattle.tlog_tiles.specs.Bundle.{IsBundle};
ghost use Rattle.program_copies.specs.Texts.{entries_text, entry_line};

use base64::engine::general_purpose::STANDARD;
use byte_streams::write_whole;
use std::alloc::{AllocError, Global};
use std::io::Write;
use tlog_tiles::{read_bundle, write_bundle};

/// The reason why the entries of a bundle were not written.
#[derive(Drop)]
pub(crate) enum CutFault {
    WriteFault,
    OutOfMemory,
}

/// Some entries of a bundle of that width: those from `skip` up to `end`.
#[derive(Drop)]
pub(crate) struct Cut {
    pub(crate) width: u32,
    pub(crate) skip: usize,
    pub(crate) end: usize,
}

// Adds the line of an entry.
fn push_line(text: &mut String, entry: &[u8]) -> Result<(), AllocError>
    ensures { OnOk result (string_bytes text.new ≡ string_bytes text.old ++ entry_line entry.now) }
{
    STANDARD.encode_string(entry, text)?;
    text.push_str("\n")
}

// A line for each entry.
fn lines_of(alloc: Global, entries: &[&[u8]]) -> Result<String, AllocError>
    ensures { IfOk result (λ text. string_bytes text
        ≡ flat_map (λ e. entry_line e.now) entries.now) }
{
    let mut text = String::new(alloc);
    for entry in entries {
        push_line(&mut text, entry)?;
    }
    Ok(text)
}

// Writes the bytes.
fn write_bytes<W: Write>(output: &mut W, bytes: &[u8]) -> Result<(), CutFault>
    ensures ok { OnOk result (Appends (W.contents output.old) (W.contents output.new) bytes.now) }
    ensures err { OnErr result (AppendsPrefix (W.contents output.old) (W.contents output.new)
        bytes.now) }
{
    match write_whole(output, bytes) {
        Ok(()) => Ok(()),
        Err(_) => Err(CutFault::WriteFault),
    }
}

// Writes the entries, at most 256.
fn write_entries<W: Write>(
    alloc: Global,
    entries: &[&[u8]],
    base64: bool,
    output: &mut W,
) -> Result<(), CutFault>
    requires count { length entries.now ≤ 256 }
    requires fits { All (λ e. length e.now < 2 ^ 16) entries.now }
    ensures ok { OnOk result (Appends (W.contents output.old) (W.contents output.new)
        (entries_text base64 (map (λ e. e.now) entries.now))) }
    ensures err { OnErr result (AppendsPrefix (W.contents output.old) (W.contents output.new)
        (entries_text base64 (map (λ e. e.now) entries.now))) }
{
    if base64 {
        let Ok(text) = lines_of(alloc, entries) else {
            return Err(CutFault::OutOfMemory);
        };
        write_bytes(output, text.as_bytes())
    } else {
        let Ok(bytes) = write_bundle(alloc, entries) else {
            return Err(CutFault::OutOfMemory);
        };
        write_bytes(output, &bytes)
    }
}

/// Writes these entries of a bundle. If all of them are written with their lengths, the bundle's own bytes are written without a copy.
pub(crate) fn write_cut<W: Write>(
    alloc: Global,
    bytes: &[u8],
    cut: &Cut,
    base64: bool,
    output: &mut W,
) -> Result<(), CutFault>
    requires width { cut.now.width ≤ 256 }
    requires rises { cut.now.skip ≤ cut.now.end }
    requires within { cut.now.end ≤ cut.now.width }
    ensures ok { OnOk result ((entries : List (List ℕ)) → IsBundle cut.now.width bytes.now entries
        → Appends (W.contents output.old) (W.contents output.new)
        (entries_text base64 (part cut.now.skip (cut.now.end - cut.now.skip) entries))) }
    ensures err { OnErr result ((entries : List (List ℕ)) → IsBundle cut.now.width bytes.now entries
        → AppendsPrefix (W.contents output.old) (W.contents output.new)
        (entries_text base64 (part cut.now.skip (cut.now.end - cut.now.skip) entries))) }
{
    if !base64 && cut.skip == 0 && cut.end == cut.width as usize {
        return write_bytes(output, bytes);
    }
    // The bytes are a bundle of that width, so only memory can be refused.
    let Ok(entries) = read_bundle(alloc, cut.width, bytes) else {
        return Err(CutFault::OutOfMemory);
    };
    write_entries(alloc, &entries[cut.skip..cut.end], base64, output)
}
