//! Logs and mirrors over HTTP (RFC 9112): a mirror that answers one request, and the client of `mirror_client`, which
//! requests a log's files from a site.
//!
//! ```text
//! // A pull over HTTP, with one connection for each file.
//! let site = Site::new(alloc, "log.example", "/2026")?;
//! let dial = TcpDial::new(rt, alloc, "log.example", 80)?;
//! let mut source = HttpSource::new(alloc, site, dial, Pace { ahead: 6, wait: 60 });
//! let pulled = pull(alloc, &mut mirror, &keys, &mut source)?;
//! // And the mirror answers one client.
//! answer(alloc, &mirror, &mut &stream, &mut &stream)?;
//! ```
#![tactic(auto)]

mod body;
mod fault;
mod head;
mod laws;
mod limits;
mod reply;
mod request;
mod resource;
mod serve;

pub use fault::HttpFault;
pub use laws::{one_resource_law, one_response_law, request_limits_law};
pub use limits::{MAX_REQUEST_FIELDS, MAX_REQUEST_LEN};
pub use mirror_client::{
    Dial, FailedGet, HttpSource, MAX_FIELDS, MAX_HEAD_LEN, MAX_HOST_LEN, MAX_PREFIX_LEN,
    MAX_REPLY_LEN, MAX_WAIT, Pace, Reason, ReplyFault, Site, SiteFault, TcpDial, get_request,
    limits_law, one_reply_law, read_reply, waits_law,
};
pub use reply::{reply_to, server_error_reply};
pub use request::{Request, read_request};
pub use resource::Resource;
pub use serve::answer;
