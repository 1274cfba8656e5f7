//! Reads the head of a request, and no more.
ghost use Rattle.std.specs.Prelude.{◌≡◌, ◌≢◌, ◌-◌, ◌<◌, IfErr, IfOk, IfSome, vec_len};
ghost use Rattle.std.specs.Io.KnownBytes.{Keeps};
ghost use Rattle.byte_streams.specs.Streams.{TakesAtMost};
ghost use Rattle.mirror_http.specs.Answered.{FailsBeforeHead};
ghost use Rattle.mirror_http.specs.Looks.{LiesWithin, LooksLike, ReadsOn, SeesIn};

use crate::fault::HttpFault;
use crate::limits::{MAX_REQUEST_FIELDS, MAX_REQUEST_LEN};
use httparse::Status;
use httparse::spans::{EMPTY_HEADER_SPAN, Span, parse_request};
use std::alloc::Global;
use std::io::{ErrorKind, Read};

/// The greatest number of bytes that one read requests.
const CHUNK: usize = 1_024;

/// The state of the bytes up to here.
#[derive(Clone, Copy)]
pub enum HeadState {
    /// They begin with a whole head, with its method and its target at these positions.
    Whole(Span, Span),
    /// They are the start of a head.
    Open,
    /// They do not begin with a head with few enough fields, whatever follows.
    Bad,
}

/// The result of one read.
#[derive(Clone, Copy)]
pub enum ReadStep {
    /// Some bytes.
    More,
    /// No bytes, since the read was interrupted.
    Interrupted,
    /// No bytes, since there are no more.
    End,
}

/// The bytes from a client.
#[derive(Clone, Copy)]
pub enum Received {
    /// No byte.
    Nothing,
    /// Some bytes, but no head.
    NoHead,
    /// A head, with its method and its target at these positions.
    Head(Span, Span),
}

// The state of the bytes.
fn look_at(bytes: &[u8]) -> HeadState
    ensures { LooksLike bytes.now result }
{
    let mut headers = [EMPTY_HEADER_SPAN; MAX_REQUEST_FIELDS];
    match parse_request(bytes, &mut headers) {
        Ok(Status::Complete(spans)) => HeadState::Whole(spans.method, spans.path),
        Ok(Status::Partial) => HeadState::Open,
        Err(_) => HeadState::Bad,
    }
}

// Appends the bytes of one read, up to the greatest length of a head.
fn read_more<R: Read>(reader: &mut R, received: &mut Vec<u8>) -> Result<ReadStep, HttpFault>
    requires { vec_len received.old < MAX_REQUEST_LEN }
    ensures turn { IfOk result (ReadsOn (R.remaining reader.old) (R.remaining reader.new)
        received.old.items received.new.items) }
    ensures limit { TakesAtMost (MAX_REQUEST_LEN - vec_len received.old) (R.remaining reader.old)
        (R.remaining reader.new) }
    ensures fault { IfErr result (λ e. e ≡ HttpFault.ReadFault
        → Keeps (R.remaining reader.old) (R.remaining reader.new)) }
    ensures read { IfErr result (λ e. e ≢ HttpFault.WriteFault) }
{
    let mut chunk = [0u8; CHUNK];
    let room = chunk.len().min(MAX_REQUEST_LEN - received.len());
    match reader.read(&mut chunk[..room]) {
        Ok(0) => Ok(ReadStep::End),
        Ok(n) => {
            received.extend_from_slice(&chunk[..n])?;
            Ok(ReadStep::More)
        }
        Err(e) => {
            if e.kind() == ErrorKind::Interrupted {
                Ok(ReadStep::Interrupted)
            } else {
                Err(HttpFault::ReadFault)
            }
        }
    }
}

/// Reads to the end of a head, or until no head is possible, and returns the bytes. The reader is not read again after a
/// whole head.
pub fn read_head<R: Read>(alloc: Global, reader: &mut R) -> Result<(Received, Vec<u8>), HttpFault>
    ensures within { IfOk result (λ r. LiesWithin (vec_len r.1) r.0) }
    ensures seen { IfOk result (λ r.
        IfSome (R.remaining reader.old) (λ all. SeesIn all r.1.items r.0)) }
    ensures limit { TakesAtMost MAX_REQUEST_LEN (R.remaining reader.old) (R.remaining reader.new) }
    ensures fault { IfErr result (λ e. e ≡ HttpFault.ReadFault
        → FailsBeforeHead (R.remaining reader.old) (R.remaining reader.new)) }
    ensures read { IfErr result (λ e. e ≢ HttpFault.WriteFault) }
{
    let mut received = Vec::new(alloc);
    for _ in 0..u64::MAX {
        match read_more(reader, &mut received)? {
            ReadStep::Interrupted => {}
            ReadStep::End => {
                if received.is_empty() {
                    return Ok((Received::Nothing, received));
                }
                return Ok((Received::NoHead, received));
            }
            ReadStep::More => match look_at(&received) {
                HeadState::Whole(method, target) => return Ok((
                    Received::Head(method, target),
                    received,
                )),
                HeadState::Bad => return Ok((Received::NoHead, received)),
                HeadState::Open => {
                    if received.len() == MAX_REQUEST_LEN {
                        return Ok((Received::NoHead, received));
                    }
                }
            },
        }
    }
    Err(HttpFault::ReadFault)
}
