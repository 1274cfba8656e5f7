//! Connections over TCP, in one process.
use crate::served::{answered, mirror_of_3};
use byte_streams::{read_all, write_whole};
use mirror_http::{Dial, Site, TcpDial, get_request};
use std::alloc::Global;
use std::net::TcpListener;
use std::process::Abort;
use std::test::Fail;
use tlog_hash::{Sha256Tree, TreeHash};
use tlog_mirror::Mirror;
use tlog_tiles::Path;

const NOT_FOUND: &[u8] =
    b"HTTP/1.1 404 Not Found\r\nContent-Length: 0\r\nConnection: close\r\n\r\n";

// The request for a tile that the mirror of three entries lacks.
fn request(alloc: Global) -> Result<Vec<u8>, Fail> {
    let site = Site::new(alloc, "log.example", "")?;
    let path = Path::Tile {
        level: 0,
        index: 1000,
        width: 5,
    };
    Ok(get_request(alloc, &site, &path)?)
}

// The mirror answers the next client.
fn answer_next<H: TreeHash>(
    alloc: Global,
    mirror: &Mirror<H>,
    listener: &TcpListener,
) -> Result<(), Fail> {
    let (stream, _) = listener.accept()?;
    answered(alloc, mirror, &mut &stream, &mut &stream)?;
    Ok(())
}

// Dials, sends the request, leaves the side open, and reads the reply.
fn asks_dialled<D: Dial, H: TreeHash>(
    rt: &impl Abort,
    alloc: Global,
    dial: &mut D,
    mirror: &Mirror<H>,
    listener: &TcpListener,
) -> Result<(), Fail> {
    let mut stream = dial.dial()?;
    write_whole(&mut stream, &request(alloc)?)?;
    answer_next(alloc, mirror, listener)?;
    let reply = read_all(alloc, &mut stream, 1_000, u64::MAX)?;
    assert!(rt; reply.as_slice() == NOT_FOUND);
    Ok(())
}

// The same over a connection that is begun without waiting: it is watched until it stands, and until the reply is there.
fn asks_begun<D: Dial, H: TreeHash>(
    rt: &impl Abort,
    alloc: Global,
    dial: &mut D,
    mirror: &Mirror<H>,
    listener: &TcpListener,
) -> Result<(), Fail> {
    let mut stream = dial.begin()?;
    for _ in 0..1_000 {
        if dial.stands(&mut stream)? {
            break;
        }
        let _stands = dial.watch(&mut stream, false)?;
    }
    let mut front = [0; 12];
    assert!(rt; dial.stands(&mut stream)? && dial.peek(&mut stream, &mut front)? == 0);
    write_whole(&mut stream, &request(alloc)?)?;
    answer_next(alloc, mirror, listener)?;
    assert!(rt; dial.watch(&mut stream, true)?);
    assert!(rt; dial.peek(&mut stream, &mut front)? == 12);
    assert!(rt; front.as_slice() == b"HTTP/1.1 404".as_slice());
    let reply = read_all(alloc, &mut stream, 1_000, u64::MAX)?;
    assert!(rt; reply.as_slice() == NOT_FOUND);
    Ok(())
}

fn asks_both<D: Dial, H: TreeHash>(
    rt: &impl Abort,
    alloc: Global,
    dial: &mut D,
    mirror: &Mirror<H>,
    listener: &TcpListener,
) -> Result<(), Fail> {
    asks_dialled(rt, alloc, dial, mirror, listener)?;
    asks_begun(rt, alloc, dial, mirror, listener)
}

#[test]
fn tcp_loopback(rt: HostRuntime) -> Result<(), Fail> {
    let alloc = rt.alloc();
    let listener = TcpListener::bind(&rt, "127.0.0.1:0")?;
    let port = listener.local_addr()?.port();
    let mirror = mirror_of_3::<Sha256Tree>(alloc)?;
    let mut dial = TcpDial::new(rt, alloc, "[127.0.0.1]", port)?;
    // No address has answered yet.
    assert!(rt; dial.begin().is_err());
    let answer = asks_both(&rt, alloc, &mut dial, &mirror, &listener);
    drop(mirror);
    answer
}
