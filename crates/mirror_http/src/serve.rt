//! Answers one request.
ghost use Rattle.std.specs.Prelude.{◌≡◌, ◌≢◌, IfErr, IfOk, IfSome};
ghost use Rattle.std.specs.Option.{option_map};
ghost use Rattle.std.specs.Io.KnownBytes.{Keeps};
ghost use Rattle.byte_streams.specs.Streams.{TakesAtMost};
ghost use Rattle.mirror_http.specs.Answered.{AnswersClient, FailsBeforeHead, IsBodyFor};
ghost use Rattle.mirror_http.specs.Response.{IsBody, Response};

use crate::body::body_of;
use crate::fault::HttpFault;
use crate::limits::MAX_REQUEST_LEN;
use crate::reply::reply_to;
use crate::request::{Request, read_request};
use byte_streams::write_whole;
use std::alloc::{AllocError, Global};
use std::io::{Read, Write};
use tlog_hash::TreeHash;
use tlog_mirror::Mirror;

// The bytes of the requested resource, if the mirror serves it.
fn requested_body<H: TreeHash>(
    alloc: Global,
    mirror: &Mirror<H>,
    request: &Request,
) -> Result<Option<Vec<u8>>, AllocError>
    ensures { IfOk result (λ body. IsBodyFor (IsBody H.digest mirror.now.view) request.now
        (option_map (λ bytes. bytes.items) body)) }
{
    match request {
        Request::Get(resource) => body_of(alloc, mirror, resource),
        _ => Ok(None),
    }
}

// The reply to the first request of the reader.
fn response<H: TreeHash, R: Read>(
    alloc: Global,
    mirror: &Mirror<H>,
    reader: &mut R,
) -> Result<Vec<u8>, HttpFault>
    ensures reply { IfOk result (λ reply. IfSome (R.remaining reader.old)
        (λ bytes. Response H.digest mirror.now.view bytes reply.items)) }
    ensures limit { TakesAtMost MAX_REQUEST_LEN (R.remaining reader.old) (R.remaining reader.new) }
    ensures fault { IfErr result (λ e. e ≡ HttpFault.ReadFault
        → FailsBeforeHead (R.remaining reader.old) (R.remaining reader.new)) }
    ensures read { IfErr result (λ e. e ≢ HttpFault.WriteFault) }
{
    let request = read_request(alloc, reader)?;
    let body = requested_body(alloc, mirror, &request)?;
    Ok(reply_to(alloc, &request, &body)?)
}

/// Answers the first request of the reader with a resource of the mirror, and writes the reply (RFC 9112). Each connection
/// gets one reply, and bytes after the request are not interpreted.
///
/// It takes at most 8,192 bytes from the reader, and does not read again after a whole head, since a client may keep its
/// side open. It also stops when no head is possible any more.
///
/// # Errors
///
/// `ReadFault` if a read failed before a whole head, and `OutOfMemory` if memory was refused. In both cases nothing was
/// written. `WriteFault` if a write failed or took no byte; a prefix of the reply was then written.
///
/// # Examples
///
/// The reply to `GET /checkpoint HTTP/1.1` and an empty line is the served note, or 404 if no tree head is complete. If the
/// client sends no bytes, there is no reply.
pub fn answer<H: TreeHash, R: Read, W: Write>(
    alloc: Global,
    mirror: &Mirror<H>,
    reader: &mut R,
    writer: &mut W,
) -> Result<(), HttpFault>
    ensures answer { IfSome (R.remaining reader.old)
        (λ bytes. AnswersClient H.digest mirror.now.view bytes (W.contents writer.old)
        (W.contents writer.new) result) }
    ensures quiet { IfErr result (λ e. e ≢ HttpFault.WriteFault
        → Keeps (W.contents writer.old) (W.contents writer.new)) }
    ensures limit { TakesAtMost MAX_REQUEST_LEN (R.remaining reader.old) (R.remaining reader.new) }
    ensures fault { IfErr result (λ e. e ≡ HttpFault.ReadFault
        → FailsBeforeHead (R.remaining reader.old) (R.remaining reader.new)) }
{
    let reply = match response(alloc, mirror, reader) {
        Ok(reply) => reply,
        Err(HttpFault::ReadFault) => return Err(HttpFault::ReadFault),
        Err(_) => return Err(HttpFault::OutOfMemory),
    };
    match write_whole(writer, &reply) {
        Ok(()) => Ok(()),
        Err(_) => Err(HttpFault::WriteFault),
    }
}
