//! Requests that a client sends ahead, to a server in memory.
use crate::client::bundle_server::{BundleDial, BundleServer, bundle, bundles_from};
use mirror_http::{HttpSource, Pace, Site};
use mirror_sources::{Source, SourceFault};
use std::alloc::Global;
use std::ops::Range;
use std::process::Abort;
use std::rc::Rc;
use std::test::Fail;

// A source over that server, which sends up to `ahead` requests ahead.
fn source_to(
    alloc: Global,
    server: &Rc<BundleServer>,
    ahead: usize,
) -> Result<HttpSource<BundleDial>, Fail> {
    let site = Site::new(alloc, "log.example", "")?;
    let server = server.clone()?;
    Ok(HttpSource::new(alloc, site, BundleDial { server }, Pace { ahead, wait: 0 }))
}

// The source gives the bundle with that number.
fn assert_got<S: Source>(rt: &impl Abort, source: &mut S, number: u8) -> Result<(), SourceFault> {
    let body = source.get(&bundle(number))?;
    assert!(rt; body.as_deref() == Some([b'0'.wrapping_add(number)].as_slice()));
    Ok(())
}

// The server got the given numbers of requests for the bundles, from the first one on.
fn assert_asked(rt: &impl Abort, server: &BundleServer, want: &[u64]) {
    for (number, count) in want.iter().enumerate() {
        assert!(rt; server.asked(number) == *count, "{number}");
    }
}

// A request that was sent ahead stays open until a hint leaves it out.
#[test]
fn a_hint_replaces_the_one_before(rt: HostRuntime) -> Result<(), Fail> {
    let server = BundleServer::new(rt.alloc(), 10)?;
    let mut source = source_to(rt.alloc(), &server, 2)?;
    source.expect(bundles_from(0));
    let answer = assert_got(&rt, &mut source, 5);
    assert!(rt; server.open() == 2);
    source.expect(bundles_from(8));
    assert!(rt; server.open() == 2);
    assert_asked(&rt, &server, &[1, 1, 0, 0, 0, 1, 0, 0, 1, 1]);
    source.expect(&[]);
    assert!(rt; server.open() == 0);
    assert!(rt; source.failures() == 0);
    drop(source);
    answer?;
    Ok(())
}

// If memory is refused, as by `rt try --test --fail-alloc N`, the hint is ignored. A get that runs out of memory is not a
// failure of the source, and the next get is right.
#[test]
fn hints_after_want_of_memory(rt: HostRuntime) -> Result<(), Fail> {
    let server = BundleServer::new(rt.alloc(), 10)?;
    let mut source = source_to(rt.alloc(), &server, 2)?;
    let answer = assert_got_at_last(&rt, &mut source);
    assert!(rt; source.failures() == 0);
    drop(source);
    answer?;
    Ok(())
}

fn assert_got_at_last<S: Source>(rt: &impl Abort, source: &mut S) -> Result<(), SourceFault> {
    source.expect(bundles_from(7));
    for number in 7..10u8 {
        match assert_got(rt, source, number) {
            Err(SourceFault::OutOfMemory) => assert_got(rt, source, number)?,
            answer => answer?,
        }
    }
    Ok(())
}

// Each bundle is got in its turn, after a hint of it and those behind it.
fn assert_got_in_turn<S: Source>(
    rt: &impl Abort,
    source: &mut S,
    numbers: Range<u8>,
) -> Result<(), SourceFault> {
    for number in numbers {
        source.expect(bundles_from(number));
        assert_got(rt, source, number)?;
    }
    Ok(())
}

// Of six requests ahead the server resets the last three. Where the first of these is due, later ones have taken all places: the
// get waits for them, and is sent once more. From then on three are out.
#[test]
fn a_refused_get_waits_for_what_is_out(rt: HostRuntime) -> Result<(), Fail> {
    let server = BundleServer::new(rt.alloc(), 3)?;
    let mut source = source_to(rt.alloc(), &server, 6)?;
    let answer = assert_got_in_turn(&rt, &mut source, 0..4);
    assert_asked(&rt, &server, &[1, 1, 1, 1, 1, 1, 2, 1, 1, 0]);
    source.expect(bundles_from(4));
    assert!(rt; server.open() == 3);
    let rest = assert_got_in_turn(&rt, &mut source, 4..10);
    assert_asked(&rt, &server, &[1, 1, 1, 1, 1, 1, 2, 2, 2, 1]);
    assert!(rt; source.failures() == 0);
    drop(source);
    answer?;
    rest?;
    Ok(())
}

// A server that refuses each request makes the get fail, once, and keeps no connection.
#[test]
fn a_get_that_is_always_refused_is_counted_once(rt: HostRuntime) -> Result<(), Fail> {
    let server = BundleServer::new(rt.alloc(), 0)?;
    let mut source = source_to(rt.alloc(), &server, 6)?;
    let answer = assert_got_in_turn(&rt, &mut source, 0..1);
    assert!(rt; matches!(answer, Err(SourceFault::Failed)));
    assert!(rt; source.failures() == 1);
    assert!(rt; server.open() == 0);
    drop(source);
    Ok(())
}
