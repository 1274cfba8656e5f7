//! Streams that give or take one byte for each call, and streams that fail.
use std::alloc::Global;
use std::io;
use std::io::{ErrorKind, Read, Write};

// Gives one byte for each read, as many as are left, and then ends; or fails at its first read.
#[derive(Drop)]
pub(crate) struct Strange {
    pub(crate) left: Option<u64>,
}

impl Read for Strange {
    fn read(&mut self, buf: &mut [u8]) -> io::Result<usize> {
        let Some(left) = self.left else {
            return Err(io::Error::from(ErrorKind::Other));
        };
        if left == 0 {
            return Ok(0);
        }
        match buf.first_mut() {
            Some(cell) => {
                *cell = b'a';
                self.left = Some(left.saturating_sub(1));
                Ok(1)
            }
            None => Ok(0),
        }
    }
}

// Takes `room` bytes, one for each write, and then fails.
#[derive(Drop)]
pub(crate) struct FailingWriter {
    pub(crate) room: usize,
    pub(crate) taken: Vec<u8>,
}

impl FailingWriter {
    // A writer that has taken nothing yet.
    pub(crate) fn new(alloc: Global, room: usize) -> FailingWriter {
        FailingWriter {
            room,
            taken: Vec::new(alloc),
        }
    }
}

impl Write for FailingWriter {
    fn write(&mut self, buf: &[u8]) -> io::Result<usize> {
        let Some(first) = buf.first() else {
            return Ok(0);
        };
        if self.taken.len() >= self.room {
            return Err(io::Error::from(ErrorKind::Other));
        }
        self.taken.push(*first)?;
        Ok(1)
    }

    fn flush(&mut self) -> io::Result<()> {
        Ok(())
    }
}
