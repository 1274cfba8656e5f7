//! Readers and writers that give or take a few bytes for each call, are interrupted, and fail.
use crate::served::{BUNDLE_REPLY, BUNDLE_REQUEST, answered, mirror_of_3};
use mirror_http::HttpFault;
use std::alloc::Global;
use std::io;
use std::io::{ErrorKind, Read, Write};
use std::process::Abort;
use std::test::Fail;
use tlog_hash::{Sha256Tree, TreeHash};
use tlog_mirror::Mirror;

// Gives its bytes, at most `most` for each read, and each read after an interruption if any are left. Then it ends or fails.
#[derive(Drop)]
struct Pieces<'a> {
    rest: &'a [u8],
    most: usize,
    interruptions: usize,
    fails: bool,
}

impl Read for Pieces<'_> {
    fn read(&mut self, buf: &mut [u8]) -> io::Result<usize> {
        if self.interruptions > 0 {
            self.interruptions -= 1;
            return Err(io::Error::from(ErrorKind::Interrupted));
        }
        let count = self.most.min(self.rest.len()).min(buf.len());
        if count == 0 && self.fails {
            return Err(io::Error::from(ErrorKind::Other));
        }
        buf[..count].copy_from_slice(&self.rest[..count]);
        self.rest = &self.rest[count..];
        Ok(count)
    }
}

// Takes `most` bytes, one for each call, and then fails.
#[derive(Drop)]
struct Narrow {
    taken: Vec<u8>,
    most: usize,
}

impl Write for Narrow {
    fn write(&mut self, buf: &[u8]) -> io::Result<usize> {
        match buf.first() {
            Some(byte) if self.taken.len() < self.most => {
                self.taken.push(*byte)?;
                Ok(1)
            }
            _ => Err(io::Error::from(ErrorKind::Other)),
        }
    }

    fn flush(&mut self) -> io::Result<()> {
        Ok(())
    }
}

// The request for the bundle, in such pieces, gets the bundle.
fn answers_bundle<H: TreeHash>(
    rt: &impl Abort,
    alloc: Global,
    mirror: &Mirror<H>,
    most: usize,
    interruptions: usize,
    fails: bool,
) {
    let mut reader = Pieces {
        rest: BUNDLE_REQUEST,
        most,
        interruptions,
        fails,
    };
    let mut reply = Vec::new(alloc);
    assert!(rt; answered(alloc, mirror, &mut reader, &mut reply) == Ok(()));
    assert!(rt; reply.as_slice() == BUNDLE_REPLY);
}

#[test]
fn one_byte_reads(rt: HostRuntime) -> Result<(), Fail> {
    let mirror = mirror_of_3::<Sha256Tree>(rt.alloc())?;
    answers_bundle(&rt, rt.alloc(), &mirror, 1, 3, false);
    drop(mirror);
    Ok(())
}

#[test]
fn no_read_after_head(rt: HostRuntime) -> Result<(), Fail> {
    let mirror = mirror_of_3::<Sha256Tree>(rt.alloc())?;
    for most in [1, 7, 10_000] {
        answers_bundle(&rt, rt.alloc(), &mirror, most, 0, true);
    }
    drop(mirror);
    Ok(())
}

#[test]
fn endless_reader(rt: HostRuntime) -> Result<(), Fail> {
    let mirror = mirror_of_3::<Sha256Tree>(rt.alloc())?;
    fails_at_the_first_read(&rt, rt.alloc(), &mirror);
    drop(mirror);
    Ok(())
}

// The first read fails, and nothing is written.
fn fails_at_the_first_read<H: TreeHash>(rt: &impl Abort, alloc: Global, mirror: &Mirror<H>) {
    let mut reader = Pieces {
        rest: b"",
        most: 1,
        interruptions: 0,
        fails: true,
    };
    let mut reply = Vec::new(alloc);
    assert!(rt; answered(alloc, mirror, &mut reader, &mut reply) == Err(HttpFault::ReadFault));
    assert!(rt; reply.is_empty());
}

#[test]
fn failing_writer(rt: HostRuntime) -> Result<(), Fail> {
    let mirror = mirror_of_3::<Sha256Tree>(rt.alloc())?;
    for most in 0..BUNDLE_REPLY.len() {
        writes_front(&rt, rt.alloc(), &mirror, &BUNDLE_REPLY[..most]);
    }
    drop(mirror);
    Ok(())
}

// A writer that takes the given number of bytes of the reply has exactly these.
fn writes_front<H: TreeHash>(rt: &impl Abort, alloc: Global, mirror: &Mirror<H>, front: &[u8]) {
    let mut writer = Narrow {
        taken: Vec::new(alloc),
        most: front.len(),
    };
    let mut reader = BUNDLE_REQUEST;
    let fault = answered(alloc, mirror, &mut reader, &mut writer);
    assert!(rt; fault == Err(HttpFault::WriteFault));
    assert!(rt; writer.taken.as_slice() == front);
}
