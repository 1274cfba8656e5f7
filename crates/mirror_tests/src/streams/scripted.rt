//! Streams that follow a list of turns, one turn for each call.
use std::io;
use std::io::{ErrorKind, Read, Write};

/// The effect of one call.
#[derive(Clone, Copy)]
pub enum Turn {
    /// The call gives or takes up to that number of bytes.
    Pass(usize),
    /// The call is interrupted.
    Interrupted,
    /// The call fails.
    Failed,
}

/// Gives its bytes by these turns, and ends after them.
#[derive(Drop)]
pub struct ScriptedReader<'a> {
    pub rest: &'a [u8],
    pub turns: &'a [Turn],
}

impl Read for ScriptedReader<'_> {
    fn read(&mut self, buf: &mut [u8]) -> io::Result<usize> {
        let Some((turn, turns)) = self.turns.split_first() else {
            return Ok(0);
        };
        self.turns = turns;
        match *turn {
            Turn::Pass(count) => {
                let count = count.min(self.rest.len()).min(buf.len());
                buf[..count].copy_from_slice(&self.rest[..count]);
                self.rest = &self.rest[count..];
                Ok(count)
            }
            Turn::Interrupted => Err(io::Error::from(ErrorKind::Interrupted)),
            Turn::Failed => Err(io::Error::from(ErrorKind::Other)),
        }
    }
}

/// Gives one byte for each call without end, and records the largest request.
#[derive(Drop)]
pub struct EndlessReader {
    pub calls: u64,
    pub most_asked: usize,
}

impl Read for EndlessReader {
    fn read(&mut self, buf: &mut [u8]) -> io::Result<usize> {
        self.calls = self.calls.saturating_add(1);
        self.most_asked = self.most_asked.max(buf.len());
        match buf.first_mut() {
            Some(cell) => {
                *cell = b'a';
                Ok(1)
            }
            None => Ok(0),
        }
    }
}

/// Takes bytes by these turns, and fails after them.
#[derive(Drop)]
pub struct ScriptedWriter<'a> {
    pub taken: Vec<u8>,
    pub turns: &'a [Turn],
}

impl Write for ScriptedWriter<'_> {
    fn write(&mut self, buf: &[u8]) -> io::Result<usize> {
        let Some((turn, turns)) = self.turns.split_first() else {
            return Err(io::Error::from(ErrorKind::Other));
        };
        self.turns = turns;
        match *turn {
            Turn::Pass(count) => {
                let count = count.min(buf.len());
                self.taken.extend_from_slice(&buf[..count])?;
                Ok(count)
            }
            Turn::Interrupted => Err(io::Error::from(ErrorKind::Interrupted)),
            Turn::Failed => Err(io::Error::from(ErrorKind::Other)),
        }
    }

    fn flush(&mut self) -> io::Result<()> {
        Ok(())
    }
}
