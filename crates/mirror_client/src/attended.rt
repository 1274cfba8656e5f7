//! A reply that is read while other requests are out.
use crate::ahead::Ahead;
use crate::dial::Dial;
use crate::site::Site;
use std::alloc::Global;
use std::io;
use std::io::{Read, Write};

/// A connection over which a reply is read while other requests are out. Before a read that would wait, it sends each of
/// these whose connection stands. Its bytes are those of the connection.
#[derive(Drop)]
pub(crate) struct Attended<'a, S: Drop, D: Dial<Stream = S>> {
    pub(crate) alloc: Global,
    pub(crate) site: &'a Site,
    pub(crate) dial: &'a mut D,
    pub(crate) ahead: &'a mut Ahead<S>,
    pub(crate) stream: S,
}

/// That connection, if there is one, for a reply that is read while these requests are out.
pub(crate) fn attend_dialled<'a, S: Drop, D: Dial<Stream = S>>(
    alloc: Global,
    site: &'a Site,
    dialled: io::Result<S>,
    dial: &'a mut D,
    ahead: &'a mut Ahead<S>,
) -> io::Result<Attended<'a, S, D>> {
    match dialled {
        Ok(stream) => Ok(Attended {
            alloc,
            site,
            dial,
            ahead,
            stream,
        }),
        Err(error) => Err(error),
    }
}

impl<'a, S: Read + Write + Drop, D: Dial<Stream = S>> Read for Attended<'a, S, D> {
    ghost remaining = { λ s. S.remaining s.stream };

    fn read(&mut self, buf: &mut [u8]) -> io::Result<usize> {
        self.ahead
            .attend(self.alloc, self.site, self.dial, &mut self.stream);
        self.stream.read(buf)
    }
}

impl<'a, S: Read + Write + Drop, D: Dial<Stream = S>> Write for Attended<'a, S, D> {
    ghost contents = { λ s. S.contents s.stream };

    fn write(&mut self, buf: &[u8]) -> io::Result<usize> {
        self.stream.write(buf)
    }

    fn flush(&mut self) -> io::Result<()> {
        self.stream.flush()
    }
}
