//! Reads the entries of a new log from a stream.
ghost use Rattle.std.specs.Prelude.{◌≡◌, ◌<◌, ◌^◌, length, All, IfOk, IfSome, map};
ghost use Rattle.byte_streams.specs.Streams.{TakesAtMost};
ghost use Rattle.tlog_text.specs.Answers.{seen};
ghost use Rattle.state_commands.specs.Entries.{ReadsEntries};
ghost use Rattle.state_commands.specs.BuildFaults.{entries_of_stream};
ghost use Rattle.state_commands.specs.declared.entries.EntriesFault.TheVariants.{OutOfMemory};

use byte_streams::{StreamFault, read_all};
use std::alloc::{AllocError, AllocFailed, Global};
use std::io::Read;
use thiserror::Error;
use tlog_tiles::split_entry;

/// The greatest number of bytes that are read: the largest that fits into memory.
pub const MAX_READ_LEN: usize = usize::MAX;

/// The greatest number of reads, each of at most 65,536 bytes.
pub const MOST_READS: u64 = 16_777_216;

/// Why no entries were read. For example, `00 02 61` ends within an entry of two bytes.
#[derive(Debug, Drop, Clone, Copy, Error)]
pub enum EntriesFault {
    /// The input ends within an entry, or within its length.
    #[error("BundleShort")]
    BundleShort,
    /// A read failed, or the input did not end.
    #[error("ReadFault")]
    ReadFault,
    /// Memory was refused.
    #[error("OutOfMemory")]
    OutOfMemory,
}

impl From<StreamFault> for EntriesFault {
    ghost from_gives = { λ f e. e ≡ entries_of_stream f };

    fn from(fault: StreamFault) -> EntriesFault {
        match fault {
            StreamFault::ReadFault | StreamFault::WriteFault => EntriesFault::ReadFault,
            StreamFault::OutOfMemory => EntriesFault::OutOfMemory,
        }
    }
}

impl From<AllocError> for EntriesFault {
    ghost from_gives = { λ _ e. e ≡ OutOfMemory };

    fn from(_e: AllocError) -> EntriesFault {
        EntriesFault::OutOfMemory
    }
}

impl<T: Drop> From<AllocFailed<T>> for EntriesFault {
    ghost from_gives = { λ _ e. e ≡ OutOfMemory };

    fn from(_e: AllocFailed<T>) -> EntriesFault {
        EntriesFault::OutOfMemory
    }
}

// The entries of the bytes.
fn entries_of(alloc: Global, bytes: &[u8]) -> Result<Vec<Vec<u8>>, EntriesFault>
    ensures reads { ReadsEntries bytes.now (seen (λ v. map (λ e. e.items) v.items) result) }
    ensures short { IfOk result (λ v. All (λ e. length e < 2 ^ 16) (map (λ e. e.items) v.items)) }
{
    let mut entries = Vec::new(alloc);
    let mut rest = bytes;
    while !rest.is_empty() {
        let Some((entry, after)) = split_entry(rest) else {
            return Err(EntriesFault::BundleShort);
        };
        entries.push(Vec::from_slice(alloc, entry)?)?;
        rest = after;
    }
    Ok(entries)
}

/// The entries that all bytes of the reader make, to its end. Each entry follows its length, two bytes big-endian, as in a
/// bundle (C2SP tlog-tiles, "Log Entries"). There may be any number of entries.
///
/// # Errors
///
/// `ReadFault` if a read fails, whatever was read before, and if the reader has not ended after 16,777,216 reads of at most
/// 65,536 bytes. `BundleShort` exactly if the bytes end within an entry. `OutOfMemory` may be returned instead of either.
pub fn read_entries<R: Read>(alloc: Global, reader: &mut R) -> Result<Vec<Vec<u8>>, EntriesFault>
    ensures answer { IfSome (R.remaining reader.old)
        (λ input. ReadsEntries input (seen (λ v. map (λ e. e.items) v.items) result)) }
    ensures limit { TakesAtMost MAX_READ_LEN (R.remaining reader.old) (R.remaining reader.new) }
    ensures short { IfOk result (λ v. All (λ e. length e < 2 ^ 16) (map (λ e. e.items) v.items)) }
{
    let bytes = read_all(alloc, reader, MAX_READ_LEN, MOST_READS)?;
    entries_of(alloc, &bytes)
}
