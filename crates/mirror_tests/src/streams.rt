//! Streams that give and take one byte for each call, are interrupted, and fail.
mod scripted;

use crate::streams::scripted::Turn::{Failed, Interrupted, Pass};
use crate::streams::scripted::{EndlessReader, ScriptedReader, ScriptedWriter, Turn};
use byte_streams::{CHUNK, StreamFault, read_all, write_whole};
use std::alloc::Global;
use std::io::Read;
use std::process::Abort;

// The bytes that are read. It ensures nothing, so that its callers are cheap to check.
fn read_bytes<R: Read>(
    alloc: Global,
    reader: &mut R,
    most: usize,
    reads: u64,
) -> Result<Vec<u8>, StreamFault> {
    read_all(alloc, reader, most, reads)
}

// The fault of the read, if it fails.
fn fault_of<R: Read>(
    alloc: Global,
    reader: &mut R,
    most: usize,
    reads: u64,
) -> Option<StreamFault> {
    match read_all(alloc, reader, most, reads) {
        Ok(_) => None,
        Err(fault) => Some(fault),
    }
}

// The turns of a reader of six bytes, and the result of reading it.
const READS: [(&[Turn], Result<&[u8], StreamFault>); 6] = [
    (&[Pass(1); 7], Ok(b"abcdef")),
    (&[Pass(1); 3], Ok(b"abc")),
    (
        &[Interrupted, Pass(2), Interrupted, Interrupted, Pass(4)],
        Ok(b"abcdef"),
    ),
    (&[Failed, Pass(6)], Err(StreamFault::ReadFault)),
    (&[Pass(3), Failed, Pass(3)], Err(StreamFault::ReadFault)),
    (&[Pass(6), Failed], Err(StreamFault::ReadFault)),
];

// One byte for each read, interruptions, and one failure.
#[test]
fn reads_by_turns(rt: HostRuntime) {
    for &(turns, want) in &READS {
        assert_reads(&rt, rt.alloc(), turns, want);
    }
}

// The result of reading a reader of six bytes with these turns.
fn assert_reads(rt: &impl Abort, alloc: Global, turns: &[Turn], want: Result<&[u8], StreamFault>) {
    let mut reader = ScriptedReader {
        rest: b"abcdef",
        turns,
    };
    match read_bytes(alloc, &mut reader, 100, u64::MAX) {
        Ok(bytes) => assert!(rt; Ok(bytes.as_slice()) == want),
        Err(fault) => assert!(rt; Err(fault) == want),
    }
}

#[test]
fn a_limit_of_reads(rt: HostRuntime) {
    let mut endless = EndlessReader {
        calls: 0,
        most_asked: 0,
    };
    let fault = fault_of(rt.alloc(), &mut endless, usize::MAX, 1_000);
    assert!(rt; fault == Some(StreamFault::ReadFault));
    assert!(rt; endless.calls == 1_000);
    assert!(rt; endless.most_asked == CHUNK);
    // Six reads of a byte do not find the end, but a seventh does. If only six bytes are wanted,
    // six reads are enough.
    let fault = Some(StreamFault::ReadFault);
    assert_ends(&rt, rt.alloc(), 100, 6, fault);
    assert_ends(&rt, rt.alloc(), 100, 7, None);
    assert_ends(&rt, rt.alloc(), 6, 6, None);
    assert_ends(&rt, rt.alloc(), 6, 5, fault);
    assert_ends(&rt, rt.alloc(), 0, 0, None);
}

// The result of reading six bytes, one byte for each read, with the given number of reads.
fn assert_ends(rt: &impl Abort, alloc: Global, most: usize, reads: u64, want: Option<StreamFault>) {
    let mut reader = ScriptedReader {
        rest: b"abcdef",
        turns: &[Pass(1); 6],
    };
    assert!(rt; fault_of(alloc, &mut reader, most, reads) == want);
}

// The turns of a writer, the result of writing six bytes to it, and the bytes that it took.
const WRITES: [(&[Turn], Result<(), StreamFault>, &[u8]); 7] = [
    (&[Pass(1); 6], Ok(()), b"abcdef"),
    (
        &[Interrupted, Pass(2), Interrupted, Interrupted, Pass(4)],
        Ok(()),
        b"abcdef",
    ),
    (&[], Err(StreamFault::WriteFault), b""),
    (
        &[Pass(1), Failed, Pass(5)],
        Err(StreamFault::WriteFault),
        b"a",
    ),
    (&[Pass(5), Failed], Err(StreamFault::WriteFault), b"abcde"),
    (&[Pass(0), Pass(6)], Err(StreamFault::WriteFault), b""),
    (
        &[Pass(4), Pass(0), Pass(2)],
        Err(StreamFault::WriteFault),
        b"abcd",
    ),
];

// One byte for each write, interruptions, failures, and a writer that takes nothing.
#[test]
fn writes_by_turns(rt: HostRuntime) {
    for &(turns, want, front) in &WRITES {
        assert_writes(&rt, rt.alloc(), turns, want, front);
    }
}

// The result of writing six bytes with these turns.
fn assert_writes(
    rt: &impl Abort,
    alloc: Global,
    turns: &[Turn],
    want: Result<(), StreamFault>,
    front: &[u8],
) {
    let mut writer = ScriptedWriter {
        taken: Vec::new(alloc),
        turns,
    };
    assert!(rt; write_whole(&mut writer, b"abcdef") == want);
    assert!(rt; writer.taken.as_slice() == front);
}
