//! Connections to the host of a log's files.
ghost use Rattle.std.specs.Prelude.{◌≡◌};

use std::io;
use std::io::{Read, Write};
use std::time::Duration;

/// Opens connections to the host of a log's files.
/// `TcpDial` opens them over TCP; those of tests are in memory.
pub trait Dial {
    /// A connection, which is closed when it is dropped.
    type Stream: Read + Write + Drop;

    /// A fresh connection, for one request.
    fn dial(&mut self) -> io::Result<Self::Stream>;

    /// A connection for one request that is sent ahead. It is begun, and need not stand yet: the first write then waits
    /// until it stands. By default it is a fresh connection.
    ///
    /// # Errors
    ///
    /// The connection cannot be begun.
    fn begin(&mut self) -> io::Result<Self::Stream> {
        self.dial()
    }

    /// Whether a connection that was begun stands, so that a write need not wait for it. It does not wait. By default
    /// each connection stands.
    ///
    /// # Errors
    ///
    /// The connection failed.
    fn stands(&mut self, _stream: &mut Self::Stream) -> io::Result<bool>
        ensures { _stream.new ≡ _stream.old }
    {
        Ok(true)
    }

    /// Waits until the connection stands or, if its request was sent, until bytes of the reply are there; or until another
    /// connection that was begun stands. Returns whether it was this connection; `true` also if the next write or read
    /// may wait for it, which is the default.
    ///
    /// # Errors
    ///
    /// The time of the connection is over, or the system refused to wait.
    fn watch(&mut self, _stream: &mut Self::Stream, _asked: bool) -> io::Result<bool>
        ensures { _stream.new ≡ _stream.old }
    {
        Ok(true)
    }

    /// Copies the first bytes of the reply that are there, and returns their number. They are still to be read. It does
    /// not wait. By default there are none.
    ///
    /// # Errors
    ///
    /// The connection failed.
    fn peek(&mut self, _stream: &mut Self::Stream, _front: &mut [u8]) -> io::Result<usize>
        ensures { _stream.new ≡ _stream.old }
    {
        Ok(0)
    }

    /// From now on the connection has all the time of one request. A connection without a time limit needs nothing,
    /// which is the default.
    ///
    /// # Errors
    ///
    /// The connection is no longer usable.
    fn restart(&mut self, _stream: &mut Self::Stream) -> io::Result<()>
        ensures { _stream.new ≡ _stream.old }
    {
        Ok(())
    }

    /// The time since a fixed moment. By default no time passes.
    fn now(&mut self) -> Duration {
        Duration::ZERO
    }

    /// Waits for that time. By default it does not wait.
    fn pause(&mut self, _time: Duration) {}
}
