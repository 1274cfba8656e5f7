//! The bytes of a request, and each answer of `read_reply`.
use mirror_http::{ReplyFault, Site, get_request, read_reply};
use std::test::Fail;
use tlog_tiles::Path;

const REQUEST: &[u8] =
    b"GET /2026/tile/0/x001/000.p/5 HTTP/1.0\r\nHost: log.example\r\nAccept-Encoding: identity\r\nConnection: close\r\n\r\n";

#[test]
fn client_replies(rt: HostRuntime) -> Result<(), Fail> {
    let alloc = rt.alloc();
    let site = Site::new(alloc, "log.example", "/2026")?;
    let path = Path::Tile {
        level: 0,
        index: 1000,
        width: 5,
    };
    let request = get_request(alloc, &site, &path)?;
    assert!(rt; request.as_slice() == REQUEST);

    let reply = b"HTTP/1.1 200 OK\r\nContent-Length: 3\r\n\r\nab";
    assert!(rt; read_reply(reply) == Err(ReplyFault::BodyShort));
    let reply = b"HTTP/1.1 200 OK\r\nContent-Length: 3\r\n\r\nabc";
    assert!(rt; read_reply(reply) == Ok(Some(b"abc".as_slice())));
    let reply = b"HTTP/1.1 200 OK\r\nContent-Length: 3\r\n\r\nabcd";
    assert!(rt; read_reply(reply) == Err(ReplyFault::BodyLong));
    let reply = b"HTTP/1.1 200 OK\r\nTransfer-Encoding: chunked\r\n\r\nabc";
    assert!(rt; read_reply(reply) == Err(ReplyFault::CodedReply));
    assert!(rt; read_reply(b"HTTP/1.1 404 Not Found\r\n\r\n") == Ok(None));
    let reply = b"HTTP/1.1 503 Service Unavailable\r\n\r\n";
    assert!(rt; read_reply(reply) == Err(ReplyFault::OtherStatus(503)));
    assert!(rt; read_reply(b"") == Err(ReplyFault::BadReply));
    Ok(())
}
