//! The command `check`: it reads the bytes of a proof and says whether the proof holds.
ghost use Rattle.std.specs.Prelude.{◌≡◌, ◌≢◌, IfErr, IfSome};
ghost use Rattle.std.specs.Io.KnownBytes.{Keeps};
ghost use Rattle.sha2.specs.Sha256.{sha256};
ghost use Rattle.byte_streams.specs.Streams.{TakesAtMost};
ghost use Rattle.program_io.specs.Check.{AnswersCheck, Judges, verdict_text};
ghost use Rattle.program_io.specs.StreamFaults.{check_of_stream, check_of_text};

use byte_streams::{StreamFault, read_all, write_whole};
use std::alloc::Global;
use std::fmt;
use std::io::{Read, Write};
use tlog_hash::Sha256Tree;
use tlog_proof::{MAX_TEXT_LEN, TextFault, holds, read_text};

/// The greatest number of bytes that `check` takes: one more than the longest text of a proof.
pub const MAX_READ_LEN: usize = MAX_TEXT_LEN + 1;

/// Why `check` printed no verdict.
#[derive(Debug, Drop, Clone, Copy)]
pub enum CheckFault {
    /// The input is not the text of a proof.
    BadProofText,
    /// A read failed.
    ReadFault,
    /// A write failed, or took no byte. A prefix of the verdict may have been written.
    WriteFault,
    /// Memory was refused.
    OutOfMemory,
}

/// Prints the name of the variant. A derived one takes the checker seconds more.
impl fmt::Display for CheckFault {
    fn fmt<W: fmt::Write>(&self, f: &mut fmt::Formatter<W>) -> fmt::Result {
        fmt::Debug::fmt(self, f)
    }
}

impl std::error::Error for CheckFault {}

impl From<TextFault> for CheckFault {
    ghost from_gives = { λ f e. e ≡ check_of_text f };

    fn from(fault: TextFault) -> CheckFault {
        match fault {
            TextFault::BadProofText => CheckFault::BadProofText,
            TextFault::OutOfMemory => CheckFault::OutOfMemory,
        }
    }
}

impl From<StreamFault> for CheckFault {
    ghost from_gives = { λ f e. e ≡ check_of_stream f };

    fn from(fault: StreamFault) -> CheckFault {
        match fault {
            StreamFault::ReadFault => CheckFault::ReadFault,
            StreamFault::WriteFault => CheckFault::WriteFault,
            StreamFault::OutOfMemory => CheckFault::OutOfMemory,
        }
    }
}

// Whether the bytes are a proof that holds.
fn proof_holds(alloc: Global, bytes: &[u8]) -> Result<bool, CheckFault>
    ensures { Judges sha256 bytes.now result }
{
    let Ok(text) = str::from_utf8(bytes) else {
        return Err(CheckFault::BadProofText);
    };
    match read_text(alloc, text) {
        Ok(proof) => Ok(holds::<Sha256Tree>(&proof)),
        Err(fault) => Err(CheckFault::from(fault)),
    }
}

// Whether the reader gives a proof that holds.
fn verdict_of<R: Read>(alloc: Global, reader: &mut R) -> Result<bool, CheckFault>
    ensures verdict { IfSome (R.remaining reader.old) (λ input. Judges sha256 input result) }
    ensures limit { TakesAtMost MAX_READ_LEN (R.remaining reader.old) (R.remaining reader.new) }
{
    let bytes = read_all(alloc, reader, MAX_READ_LEN, u64::MAX)?;
    proof_holds(alloc, &bytes)
}

fn text_of(verdict: bool) -> &'static str
    ensures { result.now ≡ verdict_text verdict }
{
    if verdict { "yes\n" } else { "no\n" }
}

/// Reads the text of an inclusion proof or consistency proof to the end of the reader, and writes whether
/// the proof holds: `yes` or `no`, and a newline. It returns the same.
///
/// # Errors
///
/// Only after a `WriteFault` text may have been written.
///
/// - `ReadFault`: a read failed, whatever was read before.
/// - `BadProofText`: the bytes of the reader are not the text of a proof. It takes at most 8,193 bytes,
///   which is more than any such text has.
/// - `WriteFault`: a write failed or took no byte. A prefix of the verdict was written.
/// - `OutOfMemory`: memory was refused.
pub fn run_check<R: Read, W: Write>(
    alloc: Global,
    reader: &mut R,
    writer: &mut W,
) -> Result<bool, CheckFault>
    ensures answer { IfSome (R.remaining reader.old) (λ input.
        AnswersCheck sha256 input (W.contents writer.old) (W.contents writer.new) result) }
    ensures quiet { IfErr result (λ e. e ≢ CheckFault.WriteFault → Keeps (W.contents writer.old)
        (W.contents writer.new)) }
    ensures limit { TakesAtMost 8193 (R.remaining reader.old) (R.remaining reader.new) }
{
    let verdict = verdict_of(alloc, reader)?;
    write_whole(writer, text_of(verdict).as_bytes())?;
    Ok(verdict)
}
