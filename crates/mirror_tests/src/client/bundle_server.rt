//! A server of ten bundles, in memory.
use mirror_http::Dial;
use std::alloc::{AllocError, Global};
use std::cell::Cell;
use std::io;
use std::io::{ErrorKind, Read, Write};
use std::rc::Rc;
use tlog_tiles::Path;

const ALL: [Path; 10] = [
    Path::Entries {
        index: 0,
        width: 256,
    },
    Path::Entries {
        index: 1,
        width: 256,
    },
    Path::Entries {
        index: 2,
        width: 256,
    },
    Path::Entries {
        index: 3,
        width: 256,
    },
    Path::Entries {
        index: 4,
        width: 256,
    },
    Path::Entries {
        index: 5,
        width: 256,
    },
    Path::Entries {
        index: 6,
        width: 256,
    },
    Path::Entries {
        index: 7,
        width: 256,
    },
    Path::Entries {
        index: 8,
        width: 256,
    },
    Path::Entries {
        index: 9,
        width: 256,
    },
];

// The bundle with that number.
pub(crate) fn bundle(number: u8) -> Path {
    let index = number as u64;
    Path::Entries { index, width: 256 }
}

// The bundles from that number on.
pub(crate) fn bundles_from(from: u8) -> &'static [Path] {
    match ALL.get(from as usize..) {
        Some(rest) => rest,
        None => &[],
    }
}

// The requests to a server. It resets a connection whose request finds no place free. A place is free again once its reply was
// read to the end, and stays taken if the connection is closed before.
#[derive(Drop)]
pub(crate) struct BundleServer {
    // the number of requests for each bundle that found a place
    asked: Vec<Cell<u64>>,
    // the number of open connections
    open: Cell<u64>,
    // the number of free places
    places: Cell<u64>,
}

fn ten(alloc: Global) -> Result<Vec<Cell<u64>>, AllocError> {
    let mut cells = Vec::new(alloc);
    for _ in 0..10 {
        cells.push(Cell::new(0))?;
    }
    Ok(cells)
}

// Adds 1.
fn raise(cell: &Cell<u64>) {
    cell.set(cell.get().saturating_add(1));
}

impl BundleServer {
    pub(crate) fn new(alloc: Global, places: u64) -> Result<Rc<BundleServer>, AllocError> {
        let server = BundleServer {
            asked: ten(alloc)?,
            open: Cell::new(0),
            places: Cell::new(places),
        };
        Ok(Rc::new(alloc, server)?)
    }

    pub(crate) fn asked(&self, number: usize) -> u64 {
        match self.asked.get(number) {
            Some(cell) => cell.get(),
            None => 0,
        }
    }

    pub(crate) fn open(&self) -> u64 {
        self.open.get()
    }

    // Whether there is a place for a request for that bundle, which is then taken.
    fn take(&self, number: usize) -> bool {
        let free = self.places.get();
        if free == 0 {
            return false;
        }
        self.places.set(free - 1);
        if let Some(cell) = self.asked.get(number) {
            raise(cell);
        }
        true
    }
}

// A connection. The digit of the bundle in the written request determines its reply.
pub(crate) struct Connection {
    server: Rc<BundleServer>,
    reply: [u8; 20],
    at: usize,
    // whether it has a place at the server
    placed: bool,
}

impl Drop for Connection {
    fn drop(self) {
        let open = self.server.open.get();
        self.server.open.set(open.saturating_sub(1));
        let Connection {
            server: _,
            reply: _,
            at: _,
            placed: _,
        } = self;
    }
}

impl Write for Connection {
    fn write(&mut self, buf: &[u8]) -> io::Result<usize> {
        // GET /tile/entries/00N
        if let Some(digit) = buf.get(20) {
            self.reply[19] = *digit;
            self.placed = self.server.take(digit.wrapping_sub(b'0') as usize);
        }
        Ok(buf.len())
    }

    fn flush(&mut self) -> io::Result<()> {
        Ok(())
    }
}

impl Read for Connection {
    fn read(&mut self, buf: &mut [u8]) -> io::Result<usize> {
        let Some(rest) = self.reply.get(self.at..) else {
            return Ok(0);
        };
        if rest.is_empty() {
            if self.placed {
                raise(&self.server.places);
            }
            self.placed = false;
            return Ok(0);
        }
        if !self.placed {
            return Err(io::Error::from(ErrorKind::ConnectionReset));
        }
        let count = rest.len().min(buf.len());
        buf[..count].copy_from_slice(&rest[..count]);
        self.at += count;
        Ok(count)
    }
}

// Makes such connections.
#[derive(Drop)]
pub(crate) struct BundleDial {
    pub(crate) server: Rc<BundleServer>,
}

impl Dial for BundleDial {
    type Stream = Connection;

    fn dial(&mut self) -> io::Result<Connection> {
        let server = self.server.clone()?;
        raise(&server.open);
        Ok(Connection {
            server,
            reply: *b"HTTP/1.1 200 OK\r\n\r\n?",
            at: 0,
            placed: false,
        })
    }
}
