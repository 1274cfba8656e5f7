//! Connections that give one reply to any request.
use mirror_http::{Dial, HttpSource, Pace, Site};
use std::alloc::Global;
use std::io;
use std::io::{ErrorKind, Read, Write};
use std::rc::Rc;
use std::test::Fail;

// Gives the reply from that position on, and takes all bytes or none.
#[derive(Drop)]
pub(crate) struct Canned {
    reply: Rc<Vec<u8>>,
    at: usize,
    hears: bool,
}

impl Write for Canned {
    fn write(&mut self, buf: &[u8]) -> io::Result<usize> {
        if !self.hears {
            return Err(io::Error::from(ErrorKind::BrokenPipe));
        }
        Ok(buf.len())
    }

    fn flush(&mut self) -> io::Result<()> {
        Ok(())
    }
}

impl Read for Canned {
    fn read(&mut self, buf: &mut [u8]) -> io::Result<usize> {
        let Some(rest) = self.reply.get(self.at..) else {
            return Ok(0);
        };
        let count = rest.len().min(buf.len());
        buf[..count].copy_from_slice(&rest[..count]);
        self.at += count;
        Ok(count)
    }
}

// Makes such connections.
#[derive(Drop)]
pub(crate) struct CannedDial {
    reply: Rc<Vec<u8>>,
    hears: bool,
}

impl Dial for CannedDial {
    type Stream = Canned;

    fn dial(&mut self) -> io::Result<Canned> {
        Ok(Canned {
            reply: self.reply.clone()?,
            at: 0,
            hears: self.hears,
        })
    }
}

// A source over such connections, which take bytes or not.
pub(crate) fn source_over(
    alloc: Global,
    reply: &str,
    hears: bool,
) -> Result<HttpSource<CannedDial>, Fail> {
    let reply = Rc::new(alloc, Vec::from_slice(alloc, reply.as_bytes())?)?;
    let dial = CannedDial { reply, hears };
    let site = Site::new(alloc, "log.example", "/2026")?;
    Ok(HttpSource::new(alloc, site, dial, Pace { ahead: 0, wait: 0 }))
}
