//! A stream with a deadline.
ghost use Rattle.std.specs.Prelude.{◌≡◌, ◌+◌, ◌<◌, ◌≤◌, IfNone, IfOk, IfSome};
ghost use Rattle.std.specs.Duration.{as_nanos};
ghost use Rattle.std.specs.Time.{instant_nanos};

use std::io;
use std::io::{ErrorKind, Read, Write};
use std::marker::Model;
use std::net::TcpStream;
use std::time::{Clock, Duration, Instant};

/// A stream whose reads and writes have a timeout.
/// A `TcpStream` is one.
pub trait BoundsWaits {
    /// From now on a read fails if it waits longer than this time, which must not be zero.
    fn bound_reads(&self, wait: Duration) -> io::Result<()>;

    /// From now on a write fails if it waits longer than this time, which must not be zero.
    fn bound_writes(&self, wait: Duration) -> io::Result<()>;
}

impl BoundsWaits for TcpStream {
    fn bound_reads(&self, wait: Duration) -> io::Result<()> {
        self.set_read_timeout(Some(wait))
    }

    fn bound_writes(&self, wait: Duration) -> io::Result<()> {
        self.set_write_timeout(Some(wait))
    }
}

// A reference suffices, so one handle of a connection may be read while another is written.
impl BoundsWaits for &TcpStream {
    fn bound_reads(&self, wait: Duration) -> io::Result<()> {
        self.set_read_timeout(Some(wait))
    }

    fn bound_writes(&self, wait: Duration) -> io::Result<()> {
        self.set_write_timeout(Some(wait))
    }
}

/// A stream with one deadline for all its reads and writes. No call waits beyond the deadline, and each
/// later call fails. So a peer that sends a byte now and then cannot hold the reader for longer.
///
/// ```text
/// let stream = TcpStream::connect(&rt, "log.example:80")?;
/// let mut stream = TimedStream::new(stream, rt, Duration::from_secs(60))?;
/// write_whole(&mut stream, &request)?;
/// let reply = read_all(alloc, &mut stream, most, u64::MAX)?; // ReadFault once 60 seconds have passed
/// ```
///
/// Its bytes are those of the inner stream. A call after the deadline fails with `ErrorKind::TimedOut`.
/// A call that waits until the deadline fails with the error of the inner stream: for a `TcpStream`
/// `ErrorKind::WouldBlock`.
#[derive(Drop)]
pub struct TimedStream<S: Drop, C: Clock + Drop> {
    stream: S,
    clock: C,
    end: Instant,
}

impl<S: Drop, C: Clock + Drop> Model for TimedStream<S, C> {
    ghost Value = { S };

    ghost view = { λ t. t.stream };
}

// The time from `now` until the end; None if none is left.
fn left_at(now: Instant, end: Instant) -> Option<Duration>
    ensures more { IfSome result (λ left. 0 < as_nanos left) }
    ensures until { IfSome result (λ left. instant_nanos now + as_nanos left ≡ instant_nanos end) }
    ensures none { IfNone result (instant_nanos end ≤ instant_nanos now) }
{
    let left = end.saturating_duration_since(now);
    if left.is_zero() { None } else { Some(left) }
}

// The instant at `time` after now.
fn end_after<C: Clock>(clock: &C, time: Duration) -> io::Result<Instant> {
    match Instant::now(clock)?.checked_add(time) {
        Some(end) => Ok(end),
        None => Err(io::Error::from(ErrorKind::InvalidInput)),
    }
}

impl<S: Drop, C: Clock + Drop> TimedStream<S, C> {
    /// Wraps the stream. The deadline is at `time` after now.
    ///
    /// # Errors
    ///
    /// The clock cannot be read, or cannot represent the deadline.
    pub fn new(stream: S, clock: C, time: Duration) -> io::Result<TimedStream<S, C>>
        ensures { IfOk result (λ t. t ≡ stream) }
    {
        let end = end_after(&clock, time)?;
        Ok(TimedStream { stream, clock, end })
    }

    /// The inner stream.
    pub fn inner(&self) -> &S
        ensures { result.now ≡ self.now }
    {
        &self.stream
    }

    /// Moves the deadline to `time` after now. No byte of the stream moves.
    ///
    /// # Errors
    ///
    /// The clock cannot be read, or cannot represent the deadline. Then the deadline does not change.
    pub fn restart(&mut self, time: Duration) -> io::Result<()>
        ensures { self.new ≡ self.old }
    {
        self.end = end_after(&self.clock, time)?;
        Ok(())
    }

    /// The time until the deadline.
    ///
    /// # Errors
    ///
    /// `ErrorKind::TimedOut` if none is left; or the clock cannot be read.
    pub fn left(&self) -> io::Result<Duration>
        ensures { IfOk result (λ left. 0 < as_nanos left) }
    {
        match left_at(Instant::now(&self.clock)?, self.end) {
            Some(left) => Ok(left),
            None => Err(io::Error::from(ErrorKind::TimedOut)),
        }
    }
}

impl<S: Read + BoundsWaits + Drop, C: Clock + Drop> Read for TimedStream<S, C> {
    ghost remaining = { λ s. S.remaining s };

    fn read(&mut self, buf: &mut [u8]) -> io::Result<usize> {
        self.stream.bound_reads(self.left()?)?;
        self.stream.read(buf)
    }
}

impl<S: Write + BoundsWaits + Drop, C: Clock + Drop> Write for TimedStream<S, C> {
    ghost contents = { λ s. S.contents s };

    fn write(&mut self, buf: &[u8]) -> io::Result<usize> {
        self.stream.bound_writes(self.left()?)?;
        self.stream.write(buf)
    }

    fn flush(&mut self) -> io::Result<()> {
        self.stream.bound_writes(self.left()?)?;
        self.stream.flush()
    }
}
