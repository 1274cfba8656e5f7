//! Requests of clients.
ghost use Rattle.std.specs.Prelude.{◌≡◌, ◌≢◌, ◌↔◌, IfErr, IfOk, IfSome, IsTrue, codes};
ghost use Rattle.byte_streams.specs.Streams.{TakesAtMost};
ghost use Rattle.mirror_http.specs.Answered.{FailsBeforeHead, IsForHead, IsForTarget, IsRequestOf};

use crate::fault::HttpFault;
use crate::head::{Received, read_head};
use crate::limits::MAX_REQUEST_LEN;
use crate::resource::{Resource, resource_of};
use std::alloc::Global;
use std::io::Read;

/// The request of a client, by its bytes. The bytes `GET /checkpoint HTTP/1.1` and an empty line are
/// `Get(Resource::File(Path::Checkpoint))`.
#[derive(Clone, Copy)]
pub enum Request {
    /// There are no bytes.
    Nothing,
    /// The bytes do not begin with the head of a request.
    Unreadable,
    /// A method other than `GET`.
    OtherMethod,
    /// `GET` of a target without a resource.
    Unknown,
    /// `GET` of a resource.
    Get(Resource),
}

// The GET request with that target.
fn request_for(target: &[u8]) -> Request
    ensures { IsForTarget target.now result }
{
    match str::from_utf8(target) {
        Ok(text) => match resource_of(text) {
            Some(resource) => Request::Get(resource),
            None => Request::Unknown,
        },
        Err(_) => Request::Unknown,
    }
}

// Whether the method is GET (RFC 9110, section 9.3.1).
fn is_get(method: &[u8]) -> bool
    ensures { IsTrue result ↔ (method.now ≡ codes "GET") }
{
    method == b"GET".as_slice()
}

// The request with that method and target.
fn request_of(method: &[u8], target: &[u8]) -> Request
    ensures { IsForHead method.now target.now result }
{
    if is_get(method) {
        request_for(target)
    } else {
        Request::OtherMethod
    }
}

/// Reads the request of a client. It takes at most 8,192 bytes from the reader, and does not read again after a whole head.
///
/// ```text
/// read_request(alloc, &mut stream)?   // Request::Get(Resource::Status) of GET /mirror/status
/// ```
///
/// # Errors
///
/// `ReadFault` if a read failed before a whole head, and `OutOfMemory` if memory was refused.
pub fn read_request<R: Read>(alloc: Global, reader: &mut R) -> Result<Request, HttpFault>
    ensures asked { IfOk result (λ request. IfSome (R.remaining reader.old)
        (λ bytes. IsRequestOf bytes request)) }
    ensures limit { TakesAtMost MAX_REQUEST_LEN (R.remaining reader.old) (R.remaining reader.new) }
    ensures fault { IfErr result (λ e. e ≡ HttpFault.ReadFault
        → FailsBeforeHead (R.remaining reader.old) (R.remaining reader.new)) }
    ensures read { IfErr result (λ e. e ≢ HttpFault.WriteFault) }
{
    let (seen, received) = read_head(alloc, reader)?;
    match seen {
        Received::Nothing => Ok(Request::Nothing),
        Received::NoHead => Ok(Request::Unreadable),
        Received::Head(method, target) => {
            Ok(request_of(method.of(&received), target.of(&received)))
        }
    }
}
