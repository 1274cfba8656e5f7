//! The entries of one bundle, from a number on.
ghost use Rattle.std.specs.Prelude.{◌≡◌, ◌-◌, ◌+◌, ◌/◌, ◌<◌, ◌≤◌, IfOk, OnErr};
ghost use Rattle.program_copies.specs.Shown.{AppendsFrom, BeginsFrom, IsNext};
ghost use Rattle.program_copies.specs.Texts.{bundle_width};

use crate::cutting::{Cut, CutFault, write_cut};
use program_words::commands::entries::EntryRange;
use std::alloc::Global;
use std::io::Write;

/// The number of entries in the bundle of entry `at`, in a log of that size.
pub(crate) fn width_at(size: u64, at: u64) -> u32
    requires { at < size }
    ensures width { result ≡ bundle_width size (at / 256) }
    ensures some { 1 ≤ result }
    ensures most { result ≤ 256 }
{
    (size - at / 256 * 256).min(256) as u32
}

/// Writes the requested entries of the bundle of entry `at`, from that entry on. Returns the number after that of the last one.
pub(crate) fn write_from<W: Write>(
    alloc: Global,
    bytes: &[u8],
    size: u64,
    at: u64,
    range: &EntryRange,
    output: &mut W,
) -> Result<u64, CutFault>
    requires below { at < range.now.to }
    requires within { range.now.to ≤ size }
    ensures next { IfOk result (IsNext at range.now.to) }
    ensures ok { IfOk result (AppendsFrom bytes.now size at range.now.base64
        (W.contents output.old) (W.contents output.new)) }
    ensures err { OnErr result (BeginsFrom bytes.now size at range.now.to range.now.base64
        (W.contents output.old) (W.contents output.new)) }
{
    let start = at / 256 * 256;
    let end = (range.to - start).min(256);
    let cut = Cut {
        width: width_at(size, at),
        skip: (at - start) as usize,
        end: end as usize,
    };
    write_cut(alloc, bytes, &cut, range.base64, output)?;
    Ok(start + end)
}
