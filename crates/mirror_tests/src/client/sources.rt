//! A source over connections that give one reply.
use crate::client::canned::source_over;
use mirror_sources::{Source, SourceFault};
use std::process::Abort;
use std::test::Fail;
use tlog_tiles::Path;

// If a request for memory is refused, as by `rt try --test --fail-alloc N`, this is not a failure of the source, and the
// next get is right.
#[test]
fn get_again_after_want_of_memory(rt: HostRuntime) -> Result<(), Fail> {
    let reply = "HTTP/1.1 200 OK\r\nContent-Length: 3\r\n\r\nabc";
    let mut source = source_over(rt.alloc(), reply, true)?;
    let answer = assert_abc_at_last(&rt, &mut source);
    drop(source);
    answer?;
    Ok(())
}

fn assert_abc_at_last<S: Source>(rt: &impl Abort, source: &mut S) -> Result<(), SourceFault> {
    let body = match source.get(&Path::Checkpoint) {
        Err(SourceFault::OutOfMemory) => {
            assert!(rt; source.failures() == 0);
            source.get(&Path::Checkpoint)?
        }
        answer => answer?,
    };
    assert!(rt; body.as_deref() == Some(b"abc".as_slice()));
    assert!(rt; source.failures() == 0);
    Ok(())
}

// A request that cannot be sent is a failure, not a missing file, even if a reply can be read.
#[test]
fn a_request_that_is_not_sent_is_counted(rt: HostRuntime) -> Result<(), Fail> {
    let mut source = source_over(rt.alloc(), "HTTP/1.1 404 Not Found\r\n\r\n", false)?;
    let answer = source.get(&Path::Checkpoint);
    assert!(rt; matches!(answer, Err(SourceFault::Failed)));
    assert!(rt; source.failures() == 1);
    Ok(())
}
