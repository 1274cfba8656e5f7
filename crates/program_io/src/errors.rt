//! Standard error as a writer.
use std::io::{ErrorKind, Write};
use std::{io, str};

/// Standard error as a writer of text. Any number of these writers may exist.
///
/// ```text
/// let mut errors = StandardError::new(&rt);
/// write_whole(&mut errors, b"pull: 1,024 files, 23 MB\n")?;
/// ```
#[derive(Drop)]
pub struct StandardError<'a, R: Eprint> {
    rt: &'a R,
}

impl<'a, R: Eprint> StandardError<'a, R> {
    /// The standard error of that runtime.
    pub fn new(rt: &'a R) -> Self {
        StandardError { rt }
    }
}

impl<'a, R: Eprint> Write for StandardError<'a, R> {
    // Bytes that are not text are an error.
    fn write(&mut self, buf: &[u8]) -> io::Result<usize> {
        match str::from_utf8(buf) {
            Ok(text) => {
                self.rt.eprint(text)?;
                Ok(buf.len())
            }
            Err(_) => Err(io::Error::from(ErrorKind::InvalidData)),
        }
    }

    fn flush(&mut self) -> io::Result<()> {
        Ok(())
    }
}
