//! Connections over TCP.
ghost use Rattle.std.specs.Prelude.{◌≡◌};

use crate::dial::Dial;
use crate::waits::Waits;
use byte_streams::TimedStream;
use std::alloc::{AllocError, Global};
use std::io::ErrorKind;
use std::net::{Net, SocketAddr, TcpStream, ToSocketAddrs};
use std::os::fd::AsRawFd;
use std::time::{Clock, Duration};
use std::{io, mem, thread};

/// The number of seconds for one try to connect.
const CONNECT_SECONDS: u64 = 10;

/// The number of seconds for a request and its reply together; if the request is sent ahead, each has this number.
const REPLY_SECONDS: u64 = 60;

/// Connects to one host and port by TCP.
///
/// The host's name is resolved at the first connection, and again only if none of its addresses answers. A connection is
/// tried at each address, for 10 seconds at most, until one answers; an address that does not is forgotten. A connection
/// that is begun without waiting goes to the address that answered last, and has 10 seconds to stand.
///
/// All that is written and read on a connection has 60 seconds together. After that each call fails, even if the other
/// end sends a byte now and then. If the request was sent ahead, the reply has 60 seconds from the start of its reading.
/// So a log that does not answer ends a pull, and does not hang it.
#[derive(Drop)]
pub struct TcpDial<N: Net<Stream = TcpStream> + Clock + Clone + Drop> {
    net: N,
    alloc: Global,
    host: String,
    port: u16,
    // The addresses that may answer. The first one answered last.
    known: Vec<SocketAddr>,
    waits: Option<Waits>,
}

impl<N: Net<Stream = TcpStream> + Clock + Clone + Drop> TcpDial<N> {
    /// Connects to that host, a name or an address, and that port. An address of IPv6 may stand in brackets, as `[::1]`.
    /// Nothing is resolved or connected yet.
    ///
    /// # Errors
    ///
    /// Memory was refused.
    pub fn new(net: N, alloc: Global, host: &str, port: u16) -> Result<TcpDial<N>, AllocError> {
        let host = String::from_str(alloc, without_brackets(host))?;
        Ok(TcpDial {
            net,
            alloc,
            host,
            port,
            known: Vec::new(alloc),
            waits: None,
        })
    }

    // A connection to the first address that answers. If none of those that are known does, the name is resolved again.
    fn connect(&mut self) -> io::Result<TcpStream> {
        let old = mem::replace(&mut self.known, Vec::new(self.alloc));
        let mut answer = Err(io::Error::from(ErrorKind::NotFound));
        for addr in &old {
            answer = self.try_address(*addr, answer);
        }
        if answer.is_err() {
            for addr in (self.host.as_str(), self.port).to_socket_addrs(&self.net)? {
                if !old.contains(&addr) {
                    answer = self.try_address(addr, answer);
                }
            }
        }
        answer
    }

    // A connection to that address, if there is none yet. The address is kept if there is one then and there is memory.
    fn try_address(
        &mut self,
        addr: SocketAddr,
        so_far: io::Result<TcpStream>,
    ) -> io::Result<TcpStream> {
        let answer = match so_far {
            Ok(stream) => Ok(stream),
            Err(_) => {
                let connect_time = Duration::from_secs(CONNECT_SECONDS);
                TcpStream::connect_timeout(&self.net, &addr, connect_time)
            }
        };
        if answer.is_ok() {
            let _kept = self.known.push(addr);
        }
        answer
    }

    // A connection to the address that answered last. It is begun and not waited for.
    fn begin_known(&mut self) -> io::Result<TcpStream> {
        let Some(addr) = self.known.first() else {
            return Err(io::Error::from(ErrorKind::NotConnected));
        };
        let stream = begin_connection(&self.net, *addr)?;
        if self.waits.is_none() {
            self.waits = Some(Waits::new(&self.net, self.alloc)?);
        }
        if let Some(waits) = &self.waits {
            waits.add(stream.as_raw_fd())?;
        }
        Ok(stream)
    }
}

// The host without the brackets round it.
fn without_brackets(host: &str) -> &str {
    match host.strip_prefix('[') {
        Some(rest) => rest.strip_suffix(']').unwrap_or(host),
        None => host,
    }
}

// A connection to that address, which is begun and not waited for. Its calls wait.
fn begin_connection(net: &impl Net, addr: SocketAddr) -> io::Result<TcpStream> {
    let stream = TcpStream::from(mio::net::TcpStream::connect(net, addr)?);
    stream.set_nonblocking(false)?;
    Ok(stream)
}

// Whether the connection stands. It does not wait.
fn is_connected(stream: &TcpStream) -> io::Result<bool> {
    if let Some(error) = stream.take_error()? {
        return Err(error);
    }
    match stream.peer_addr() {
        Ok(_) => Ok(true),
        Err(error) if error.kind() == ErrorKind::NotConnected => Ok(false),
        Err(error) => Err(error),
    }
}

// Copies the first bytes that are there, and returns their number. It does not wait.
fn peek_now(stream: &TcpStream, front: &mut [u8]) -> io::Result<usize> {
    stream.set_nonblocking(true)?;
    let count = stream.peek(front);
    stream.set_nonblocking(false)?;
    match count {
        Err(error) if error.kind() == ErrorKind::WouldBlock => Ok(0),
        count => count,
    }
}

impl<N: Net<Stream = TcpStream> + Clock + Clone + Drop> Dial for TcpDial<N> {
    type Stream = TimedStream<TcpStream, N>;

    fn dial(&mut self) -> io::Result<TimedStream<TcpStream, N>> {
        let stream = self.connect()?;
        let reply_time = Duration::from_secs(REPLY_SECONDS);
        TimedStream::new(stream, self.net.clone()?, reply_time)
    }

    // It fails before any address has answered.
    fn begin(&mut self) -> io::Result<TimedStream<TcpStream, N>> {
        let stream = self.begin_known()?;
        let connect_time = Duration::from_secs(CONNECT_SECONDS);
        TimedStream::new(stream, self.net.clone()?, connect_time)
    }

    fn stands(&mut self, stream: &mut TimedStream<TcpStream, N>) -> io::Result<bool> {
        is_connected(stream.inner())
    }

    fn watch(&mut self, stream: &mut TimedStream<TcpStream, N>, asked: bool) -> io::Result<bool> {
        let left = stream.left()?;
        match &mut self.waits {
            Some(waits) => waits.wait(stream.inner().as_raw_fd(), asked, left),
            None => Ok(true),
        }
    }

    fn peek(
        &mut self,
        stream: &mut TimedStream<TcpStream, N>,
        front: &mut [u8],
    ) -> io::Result<usize> {
        peek_now(stream.inner(), front)
    }

    fn restart(&mut self, stream: &mut TimedStream<TcpStream, N>) -> io::Result<()> {
        stream.restart(Duration::from_secs(REPLY_SECONDS))
    }

    fn now(&mut self) -> Duration {
        self.net.monotonic().unwrap_or(Duration::ZERO)
    }

    fn pause(&mut self, time: Duration) {
        thread::sleep(&self.net, time);
    }
}
