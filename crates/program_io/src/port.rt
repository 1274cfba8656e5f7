//! The port that clients connect to.
ghost use Rattle.std.specs.Prelude.{◌≡◌, IfOk, string_bytes};
ghost use Rattle.byte_streams.specs.Streams.{AppendsPrefix};
ghost use Rattle.program_io.specs.FaultLines.{fault_line};
ghost use Rattle.program_io.specs.Ports.{PrintsListening, connection_fault, listening_text};
ghost use Rattle.std.specs.Net.Addr.{ipv4_octets};
ghost use Rattle.std.specs.Net.Text.{ipv4_text};

use crate::error::Error;
use crate::front::write_front;
use crate::open_port::OpenPort;
use crate::why::Why;
use byte_streams::write_whole;
use mirror_http::HttpFault;
use std::alloc::{AllocError, Global};
use std::io::{self, Write};
use std::net::{Ipv4Addr, Net, TcpListener, TcpStream};
use thiserror::Error as FaultText;

/// Why no clients were served.
#[derive(Debug, Drop, Clone, Copy, FaultText)]
pub enum ListenFault {
    /// The port cannot be opened, or a connection cannot be accepted.
    #[error("PortFault")]
    PortFault,
    /// The line with the port was not written completely.
    #[error("WriteFault")]
    WriteFault,
    /// Memory was refused.
    #[error("OutOfMemory")]
    OutOfMemory,
}

/// The port cannot be opened, or a connection was not accepted.
pub fn port_fault(alloc: Global, port: u16, error: &io::Error) -> Error<ListenFault>
    ensures { result ≡ ListenFault.PortFault }
{
    let why = Why::of_port(alloc, port, error);
    Error::new(ListenFault::PortFault, why)
}

// Writes the line with the address of the port.
fn print_port<O: Write>(
    alloc: Global,
    opened: &OpenPort,
    output: &mut O,
) -> Result<(), Error<ListenFault>>
    ensures line { PrintsListening opened.now (O.contents output.old) (O.contents output.new)
        result }
{
    let Ok(line) = listening_line(alloc, opened) else {
        return Err(Error::new(ListenFault::OutOfMemory, None));
    };
    match write_whole(output, line.as_bytes()) {
        Ok(()) => Ok(()),
        Err(_) => Err(Error::new(ListenFault::WriteFault, Some(Why::Output))),
    }
}

fn listening_line(alloc: Global, opened: &OpenPort) -> Result<String, AllocError>
    ensures { IfOk result (λ line. string_bytes line ≡ listening_text opened.now) }
{
    let address = opened.address();
    let port = opened.port();
    format!(in alloc; "listening {address}:{port}\n")
}

/// Opens that port of that address of this host, and writes the line `listening ADDRESS:PORT`, of the address at which it is open.
///
/// ```text
/// let opened = listen(&rt, alloc, Ipv4Addr::LOCALHOST, 8080, &mut output)?; // listening 127.0.0.1:8080
/// ```
///
/// # Errors
///
/// `PortFault`: the port cannot be opened, and nothing was written. `OutOfMemory`: nothing was written. `WriteFault`: a prefix of the line
/// was written.
pub fn listen<R: Net<Stream = TcpStream, Listener = TcpListener>, O: Write>(
    net: &R,
    alloc: Global,
    address: Ipv4Addr,
    port: u16,
    output: &mut O,
) -> Result<OpenPort, Error<ListenFault>>
    ensures line { PrintsListening (record { host = ipv4_text (ipv4_octets address); port = port })
        (O.contents output.old) (O.contents output.new) result }
{
    let opened = match OpenPort::open(net, address, port) {
        Ok(opened) => opened,
        Err(error) => return Err(port_fault(alloc, port, &error)),
    };
    print_port(alloc, &opened, output)?;
    Ok(opened)
}

// The line of the fault of a connection.
fn fault_text(fault: HttpFault) -> &'static [u8]
    ensures { result.now ≡ fault_line (connection_fault fault) }
{
    match fault {
        HttpFault::ReadFault => b"tlogmirror: ReadFault\n",
        HttpFault::WriteFault => b"tlogmirror: WriteFault\n",
        HttpFault::OutOfMemory => b"tlogmirror: OutOfMemory\n",
    }
}

/// Writes the line of the fault of a connection, or a prefix of it if the stream fails.
pub fn print_fault<E: Write>(errors: &mut E, fault: HttpFault)
    ensures { AppendsPrefix (E.contents errors.old) (E.contents errors.new)
        (fault_line (connection_fault fault)) }
{
    write_front(errors, fault_text(fault));
}
