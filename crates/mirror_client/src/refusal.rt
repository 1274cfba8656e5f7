//! Replies of a busy server (RFC 6585, section 4; RFC 9110, sections 10.2.3 and 15.6.4).
ghost use Rattle.std.specs.Prelude.{◌↔◌, IfSome, IsTrue};
ghost use Rattle.mirror_client.specs.Waits.{IsBusy, IsRefusal};

use crate::limits::MAX_HEAD_LEN;
use crate::reply::parse_front;

/// A reply of a server that is busy.
#[derive(Drop, Clone, Copy)]
pub(crate) struct Refusal {
    /// The status: 429 or 503.
    pub(crate) status: u16,
    /// The seconds that its `Retry-After` names.
    pub(crate) named: Option<u64>,
}

// Whether the status is that of a busy server.
fn is_busy(status: u16) -> bool
    ensures { IsTrue result ↔ IsBusy status }
{
    status == 429 || status == 503
}

/// Whether the first bytes of a reply are those of a busy server.
pub(crate) fn begins_busy(front: &[u8]) -> bool {
    front.starts_with(b"HTTP/1.") && (front.ends_with(b" 429") || front.ends_with(b" 503"))
}

/// What a busy server says by the reply with these bytes; `None` if it is not busy.
pub(crate) fn refusal_of(bytes: &[u8]) -> Option<Refusal>
    ensures { IfSome result (λ refusal. IsRefusal bytes.now refusal.status refusal.named) }
{
    let front = &bytes[..bytes.len().min(MAX_HEAD_LEN)];
    let (status, framing, _) = parse_front(front)?;
    if !is_busy(status) {
        return None;
    }
    Some(Refusal {
        status,
        named: framing.named,
    })
}
