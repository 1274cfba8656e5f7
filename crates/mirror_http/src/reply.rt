//! The bytes of replies.
ghost use Rattle.std.specs.Prelude.{◌≡◌, IfOk, string_bytes};
ghost use Rattle.std.specs.Option.{option_map};
ghost use Rattle.mirror_http.specs.Answered.{empty_text, head_of_reply, reply_with};
ghost use Rattle.mirror_http.specs.Response.{bad_request, found, not_allowed, not_found, server_error};

use crate::body::kind_of;
use crate::request::Request;
use crate::resource::Resource;
use http::StatusCode;
use std::alloc::{AllocError, Global};

// The head of a reply with that status, and with a body of that media type and length.
fn head_text(
    alloc: Global,
    status: StatusCode,
    kind: &str,
    len: usize,
) -> Result<String, AllocError>
    ensures { IfOk result (λ text. string_bytes text ≡ head_of_reply status kind.now len) }
{
    format!(in alloc;
        "HTTP/1.1 {status}\r\nContent-Type: {kind}\r\nContent-Length: {len}\r\nConnection: close\r\n\r\n"
    )
}

fn found_reply(alloc: Global, kind: &str, body: &[u8]) -> Result<Vec<u8>, AllocError>
    ensures { IfOk result (λ reply. reply.items ≡ found kind.now body.now) }
{
    let head = head_text(alloc, StatusCode::OK, kind, body.len())?;
    let mut reply = head.into_bytes();
    reply.extend_from_slice(body)?;
    Ok(reply)
}

// A reply with that status and these field lines, without a body.
fn empty_reply(alloc: Global, status: StatusCode, fields: &str) -> Result<Vec<u8>, AllocError>
    ensures { IfOk result (λ reply. reply.items ≡ empty_text status fields.now) }
{
    let text = format!(in alloc;
        "HTTP/1.1 {status}\r\n{fields}Content-Length: 0\r\nConnection: close\r\n\r\n"
    )?;
    Ok(text.into_bytes())
}

// The reply to bytes without a request.
fn bad_request_reply(alloc: Global) -> Result<Vec<u8>, AllocError>
    ensures { IfOk result (λ reply. reply.items ≡ bad_request) }
{
    empty_reply(alloc, StatusCode::BAD_REQUEST, "")
}

// The reply to a request for a resource that is not served.
fn not_found_reply(alloc: Global) -> Result<Vec<u8>, AllocError>
    ensures { IfOk result (λ reply. reply.items ≡ not_found) }
{
    empty_reply(alloc, StatusCode::NOT_FOUND, "")
}

// The reply to a request with a method other than GET.
fn not_allowed_reply(alloc: Global) -> Result<Vec<u8>, AllocError>
    ensures { IfOk result (λ reply. reply.items ≡ not_allowed) }
{
    empty_reply(alloc, StatusCode::METHOD_NOT_ALLOWED, "Allow: GET\r\n")
}

/// The reply if the server itself cannot get the resource (RFC 9110, section 15.6.1).
///
/// # Errors
///
/// Memory was refused.
pub fn server_error_reply(alloc: Global) -> Result<Vec<u8>, AllocError>
    ensures { IfOk result (λ reply. reply.items ≡ server_error) }
{
    empty_reply(alloc, StatusCode::INTERNAL_SERVER_ERROR, "")
}

// The reply to a request for a resource, by its bytes, or None if it is not served.
fn resource_reply(
    alloc: Global,
    resource: &Resource,
    body: &Option<Vec<u8>>,
) -> Result<Vec<u8>, AllocError>
    ensures { IfOk result (λ reply. reply.items ≡ reply_with (Request.Get resource.now)
        (option_map (λ bytes. bytes.items) body.now)) }
{
    match body {
        Some(bytes) => found_reply(alloc, kind_of(resource), bytes),
        None => not_found_reply(alloc),
    }
}

/// The reply to a request. For a resource, `body` has its bytes, or is None if it is not served.
///
/// ```text
/// reply_to(alloc, &Request::OtherMethod, &None)?   // HTTP/1.1 405 Method Not Allowed ..
/// ```
///
/// # Errors
///
/// Memory was refused.
pub fn reply_to(
    alloc: Global,
    request: &Request,
    body: &Option<Vec<u8>>,
) -> Result<Vec<u8>, AllocError>
    ensures { IfOk result (λ reply. reply.items ≡ reply_with request.now
        (option_map (λ bytes. bytes.items) body.now)) }
{
    match request {
        Request::Nothing => Ok(Vec::new(alloc)),
        Request::Unreadable => bad_request_reply(alloc),
        Request::OtherMethod => not_allowed_reply(alloc),
        Request::Unknown => not_found_reply(alloc),
        Request::Get(resource) => resource_reply(alloc, resource, body),
    }
}
