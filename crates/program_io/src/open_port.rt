//! A port of this host at which connections are accepted.
ghost use Rattle.std.specs.Prelude.{◌≡◌, IfOk};
ghost use Rattle.std.specs.Net.Addr.{ipv4_octets};
ghost use Rattle.std.specs.Net.Text.{ipv4_text};

use std::io;
use std::marker::Model;
use std::net::{Ipv4Addr, Net, TcpListener, TcpStream};

/// A port of this host at which connections are accepted. Contracts see its address, as it was given at the opening.
///
/// ```text
/// let opened = listen(&rt, alloc, Ipv4Addr::LOCALHOST, 8080, &mut output)?; // listening 127.0.0.1:8080
/// let client = opened.accept()?;
/// ```
#[derive(Drop)]
pub struct OpenPort {
    address: Ipv4Addr,
    port: u16,
    listener: TcpListener,
}

impl Model for OpenPort {
    ghost use Rattle.std.specs.Net.Addr.{ipv4_octets};
    ghost use Rattle.std.specs.Net.Text.{ipv4_text};
    ghost use Rattle.program_io.specs.Listening.{Listening};

    ghost Value = { Listening };

    ghost view = { λ a. record { host = ipv4_text (ipv4_octets a.address); port = a.port } };
}

impl OpenPort {
    // Opens that port of that address.
    pub(crate) fn open<R: Net<Stream = TcpStream, Listener = TcpListener>>(
        net: &R,
        address: Ipv4Addr,
        port: u16,
    ) -> io::Result<OpenPort>
        ensures { IfOk result
            (λ made. made ≡ record { host = ipv4_text (ipv4_octets address); port = port }) }
    {
        let listener = TcpListener::bind(net, (address, port))?;
        Ok(OpenPort {
            address,
            port,
            listener,
        })
    }

    // The address.
    pub(crate) fn address(&self) -> Ipv4Addr
        ensures { ipv4_text (ipv4_octets result) ≡ self.now.host }
    {
        self.address
    }

    // The port.
    pub(crate) fn port(&self) -> u16
        ensures { result ≡ self.now.port }
    {
        self.port
    }

    /// Waits for the next client.
    ///
    /// # Errors
    ///
    /// No connection was accepted.
    pub fn accept(&self) -> io::Result<TcpStream> {
        let (stream, _) = self.listener.accept()?;
        Ok(stream)
    }
}
