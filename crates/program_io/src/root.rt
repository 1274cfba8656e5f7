//! The command `root`: it reads the bytes of an entry bundle and writes its tree hash.
ghost use Rattle.std.specs.Prelude.{◌≡◌, ◌≢◌, ◌≤◌, IfErr, IfOk, IfSome, string_bytes};
ghost use Rattle.std.specs.Io.KnownBytes.{Keeps};
ghost use Rattle.tlog_text.specs.Answers.{seen};
ghost use Rattle.byte_streams.specs.Streams.{TakesAtMost};
ghost use Rattle.program_io.specs.StreamFaults.{root_of_bundle, root_of_stream};
ghost use Rattle.program_io.specs.Root.{AnswersRoot, MakesRoot, root_text};
ghost use Rattle.program_io.specs.declared.root.RootFault.TheVariants as root;

use byte_streams::{StreamFault, read_all, write_whole};
use std::alloc::{AllocError, Global};
use std::fmt;
use std::io::{Read, Write};
use tlog_hash::{Hash, TreeHash, tree_hash};
use tlog_text::push_hash;
use tlog_tiles::{BundleFault, MAX_BUNDLE_LEN, read_bundle};

/// The greatest number of bytes that `root` takes: one more than the longest entry bundle has, which is
/// 256 entries of 65,535 bytes, each after its length of two bytes. An input of that length is no bundle of any width.
pub const MAX_READ_LEN: usize = MAX_BUNDLE_LEN + 1;

/// Why `root` printed no root.
#[derive(Debug, Drop, Clone, Copy)]
pub enum RootFault {
    /// No prefix of the input is a bundle of that width.
    BundleShort,
    /// A prefix of the input is a bundle of that width, and more bytes follow it.
    BundleLong,
    /// A read failed.
    ReadFault,
    /// A write failed, or took no byte. A prefix of the text may have been written.
    WriteFault,
    /// Memory was refused.
    OutOfMemory,
}

/// Prints the name of the variant. A derived one takes the checker seconds more.
impl fmt::Display for RootFault {
    fn fmt<W: fmt::Write>(&self, f: &mut fmt::Formatter<W>) -> fmt::Result {
        fmt::Debug::fmt(self, f)
    }
}

impl std::error::Error for RootFault {}

impl From<BundleFault> for RootFault {
    ghost from_gives = { λ f e. e ≡ root_of_bundle f };

    fn from(fault: BundleFault) -> RootFault {
        match fault {
            BundleFault::BundleShort => RootFault::BundleShort,
            BundleFault::BundleLong => RootFault::BundleLong,
            BundleFault::OutOfMemory => RootFault::OutOfMemory,
        }
    }
}

impl From<StreamFault> for RootFault {
    ghost from_gives = { λ f e. e ≡ root_of_stream f };

    fn from(fault: StreamFault) -> RootFault {
        match fault {
            StreamFault::ReadFault => RootFault::ReadFault,
            StreamFault::WriteFault => RootFault::WriteFault,
            StreamFault::OutOfMemory => RootFault::OutOfMemory,
        }
    }
}

impl From<AllocError> for RootFault {
    ghost from_gives = { λ _ e. e ≡ root.OutOfMemory };

    fn from(_e: AllocError) -> RootFault {
        RootFault::OutOfMemory
    }
}

fn text_of(alloc: Global, width: u32, root: &Hash) -> Result<String, AllocError>
    ensures { IfOk result (λ t. string_bytes t ≡ root_text width root.now) }
{
    let mut text = format!(in alloc; "size {width}\nroot ")?;
    push_hash(&mut text, root)?;
    text.push_str("\n")?;
    Ok(text)
}

// The text for the bundle from the reader.
fn root_report<H: TreeHash, R: Read>(
    alloc: Global,
    width: u32,
    reader: &mut R,
) -> Result<String, RootFault>
    requires { width ≤ 256 }
    ensures text { IfSome (R.remaining reader.old)
        (λ input. MakesRoot H.digest width input (seen string_bytes result)) }
    ensures limit { TakesAtMost MAX_READ_LEN (R.remaining reader.old) (R.remaining reader.new) }
{
    let bytes = read_all(alloc, reader, MAX_READ_LEN, u64::MAX)?;
    let entries = read_bundle(alloc, width, &bytes)?;
    Ok(text_of(alloc, width, &tree_hash::<H>(&entries))?)
}

/// Reads an entry bundle of `width` entries to the end of the reader. It writes the size, and the tree hash
/// of the entries (RFC 6962, section 2.1) in standard base64, as the two lines `size W` and `root ROOT`.
///
/// # Errors
///
/// Only after a `WriteFault` text may have been written.
///
/// - `ReadFault`: a read failed, whatever was read before.
/// - `BundleShort` and `BundleLong`: as for `read_bundle` with all bytes of the reader. It takes at most
///   16,777,473 bytes, which is more than any bundle has.
/// - `WriteFault`: a write failed or took no byte. A prefix of the text was written.
/// - `OutOfMemory`: memory was refused.
pub fn run_root<H: TreeHash, R: Read, W: Write>(
    alloc: Global,
    width: u32,
    reader: &mut R,
    writer: &mut W,
) -> Result<(), RootFault>
    requires { width ≤ 256 }
    ensures answer { IfSome (R.remaining reader.old) (λ input.
        AnswersRoot H.digest width input (W.contents writer.old) (W.contents writer.new) result) }
    ensures quiet { IfErr result (λ e. e ≢ RootFault.WriteFault → Keeps (W.contents writer.old)
        (W.contents writer.new)) }
    ensures limit { TakesAtMost 16777473 (R.remaining reader.old) (R.remaining reader.new) }
{
    let text = root_report::<H, R>(alloc, width, reader)?;
    write_whole(writer, text.as_bytes())?;
    Ok(())
}
