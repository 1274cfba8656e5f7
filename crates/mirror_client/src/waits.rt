//! Waits for connections that were begun.
use mio::unix::SourceFd;
use mio::{Events, Interest, Poll, Token};
use std::alloc::Global;
use std::io;
use std::io::ErrorKind;
use std::net::Net;
use std::os::fd::RawFd;
use std::time::Duration;

/// The greatest number of connections that one wait reports.
const MOST_EVENTS: usize = 64;

/// The connection that is waited for.
const WANTED: Token = Token(1);

/// Each other connection.
const OTHER: Token = Token(0);

/// Waits until one of the connections stands, or until there are bytes to read of one.
#[derive(Drop)]
pub(crate) struct Waits {
    poll: Poll,
    events: Events,
}

impl Waits {
    /// No connection yet.
    ///
    /// # Errors
    ///
    /// The system or the memory has no room.
    pub(crate) fn new(net: &impl Net, alloc: Global) -> io::Result<Waits> {
        Ok(Waits {
            poll: Poll::new(net)?,
            events: Events::with_capacity(alloc, MOST_EVENTS)?,
        })
    }

    /// Adds a connection that was begun. It leaves when it is closed.
    ///
    /// # Errors
    ///
    /// The system refused.
    pub(crate) fn add(&self, fd: RawFd) -> io::Result<()> {
        self.poll
            .registry()
            .register(&mut SourceFd(&fd), OTHER, Interest::WRITABLE)
    }

    /// Waits until that connection stands or, if its request was sent, until there are bytes to read of it; until another
    /// one stands; or for that time. Returns whether it was that connection. If it was never added, it is added now.
    ///
    /// # Errors
    ///
    /// The system refused to wait.
    pub(crate) fn wait(&mut self, fd: RawFd, asked: bool, time: Duration) -> io::Result<bool> {
        let interest = if asked {
            Interest::READABLE
        } else {
            Interest::WRITABLE
        };
        let registry = self.poll.registry();
        let mut wanted = SourceFd(&fd);
        if registry.reregister(&mut wanted, WANTED, interest).is_err() {
            registry.register(&mut wanted, WANTED, interest)?;
        }
        match self.poll.poll(&mut self.events, Some(time)) {
            Err(error) if error.kind() != ErrorKind::Interrupted => Err(error),
            _ => Ok(self.events.iter().any(|event| event.token() == WANTED)),
        }
    }
}
