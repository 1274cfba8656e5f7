//! A server that is busy, over connections in memory. No time passes: the dial has a clock of its own.
use mirror_http::{Dial, HttpSource, Pace, Site};
use mirror_sources::{Source, SourceFault};
use std::alloc::Global;
use std::cell::Cell;
use std::io;
use std::io::{Read, Write};
use std::process::Abort;
use std::rc::Rc;
use std::test::Fail;
use std::time::Duration;
use tlog_tiles::Path;

const GOOD: &str = "HTTP/1.1 200 OK\r\n\r\nabc";

const BUSY: &str = "HTTP/1.1 429 Too Many Requests\r\n\r\n";

const AWAY: &str = "HTTP/1.1 503 Service Unavailable\r\n\r\n";

const AFTER_0: &str = "HTTP/1.1 503 Service Unavailable\r\nRetry-After: 0\r\n\r\n";

const AFTER_3: &str = "HTTP/1.1 429 Too Many Requests\r\nretry-after:  3 \r\n\r\n";

const AFTER_60: &str = "HTTP/1.1 429 Too Many Requests\r\nRetry-After: 60\r\n\r\n";

const AFTER_61: &str = "HTTP/1.1 429 Too Many Requests\r\nRetry-After: 61\r\n\r\n";

const AFTER_A_DAY: &str = "HTTP/1.1 429 Too Many Requests\r\nRetry-After: 86400\r\n\r\n";

const AFTER_AGES: &str = "HTTP/1.1 503 Busy\r\nRetry-After: 99999999999999999999\r\n\r\n";

const AFTER_LESS: &str = "HTTP/1.1 503 Busy\r\nRetry-After: -1\r\n\r\n";

const AFTER_DATE: &str = "HTTP/1.1 503 Busy\r\nRetry-After: Fri, 31 Dec 1999 23:59:59 GMT\r\n\r\n";

// What happened at a server.
#[derive(Drop)]
struct Seen {
    // the number of connections
    dialled: Cell<usize>,
    // the time, in microseconds
    clock: Cell<u64>,
    // the whole seconds that were waited
    seconds: Cell<u64>,
}

// Makes connections with these replies, one after the other. The last reply comes again and again.
#[derive(Drop)]
struct BusyDial {
    replies: &'static [&'static str],
    seen: Rc<Seen>,
}

// A connection: it takes all bytes, and gives the reply.
#[derive(Drop)]
struct OneReply {
    reply: &'static str,
    at: usize,
}

impl Write for OneReply {
    fn write(&mut self, buf: &[u8]) -> io::Result<usize> {
        Ok(buf.len())
    }

    fn flush(&mut self) -> io::Result<()> {
        Ok(())
    }
}

impl Read for OneReply {
    fn read(&mut self, buf: &mut [u8]) -> io::Result<usize> {
        let Some(rest) = self.reply.as_bytes().get(self.at..) else {
            return Ok(0);
        };
        let count = rest.len().min(buf.len());
        buf[..count].copy_from_slice(&rest[..count]);
        self.at += count;
        Ok(count)
    }
}

impl Dial for BusyDial {
    type Stream = OneReply;

    fn dial(&mut self) -> io::Result<OneReply> {
        let number = self.seen.dialled.get();
        self.seen.dialled.set(number.saturating_add(1));
        let last = self.replies.len().saturating_sub(1);
        match self.replies.get(number.min(last)) {
            Some(reply) => Ok(OneReply { reply, at: 0 }),
            None => Err(io::Error::from(io::ErrorKind::ConnectionRefused)),
        }
    }

    fn now(&mut self) -> Duration {
        Duration::from_micros(self.seen.clock.get())
    }

    fn pause(&mut self, time: Duration) {
        let seconds = time.as_secs();
        let micros = seconds
            .saturating_mul(1_000_000)
            .saturating_add(time.subsec_micros() as u64);
        self.seen
            .clock
            .set(self.seen.clock.get().saturating_add(micros));
        self.seen
            .seconds
            .set(self.seen.seconds.get().saturating_add(seconds));
    }
}

fn nothing_seen(alloc: Global) -> Result<Rc<Seen>, Fail> {
    let seen = Seen {
        dialled: Cell::new(0),
        clock: Cell::new(0),
        seconds: Cell::new(0),
    };
    Ok(Rc::new(alloc, seen)?)
}

// A source over such connections, which waits for that number of seconds in all.
fn source_to(
    alloc: Global,
    seen: &Rc<Seen>,
    replies: &'static [&'static str],
    wait: u64,
) -> Result<HttpSource<BusyDial>, Fail> {
    let site = Site::new(alloc, "log.example", "")?;
    let dial = BusyDial {
        replies,
        seen: seen.clone()?,
    };
    Ok(HttpSource::new(alloc, site, dial, Pace { ahead: 0, wait }))
}

// Gets the checkpoint that number of times: the answers, the connections, the seconds that were waited, and the failures.
fn got<D: Dial + Drop>(
    rt: &impl Abort,
    mut source: HttpSource<D>,
    gets: u64,
    seen: &Seen,
) -> (u64, usize, u64, u64) {
    let mut good = 0u64;
    for _ in 0..gets {
        match source.get(&Path::Checkpoint) {
            Ok(Some(body)) if body.as_slice() == b"abc".as_slice() => good = good.saturating_add(1),
            Err(SourceFault::Failed) => {}
            _ => assert!(rt; false),
        }
    }
    assert!(rt; source.waited() == seen.seconds.get());
    (good, seen.dialled.get(), source.waited(), source.failures())
}

// What `got` counts for these replies.
fn counted(
    rt: &impl Abort,
    alloc: Global,
    replies: &'static [&'static str],
    gets: u64,
    wait: u64,
) -> Result<(u64, usize, u64, u64), Fail> {
    let seen = nothing_seen(alloc)?;
    let source = source_to(alloc, &seen, replies, wait)?;
    Ok(got(rt, source, gets, &seen))
}

// The server says how long it is busy: a number of seconds, at least one. Other values name none.
#[test]
fn a_source_waits_as_the_server_says(rt: HostRuntime) -> Result<(), Fail> {
    let a = rt.alloc();
    assert!(rt; counted(&rt, a, &[AFTER_3, GOOD], 1, 60)? == (1, 2, 3, 0));
    assert!(rt; counted(&rt, a, &[AFTER_60, GOOD], 1, 60)? == (1, 2, 60, 0));
    assert!(rt; counted(&rt, a, &[AFTER_61, GOOD], 1, 60)? == (0, 1, 0, 1));
    assert!(rt; counted(&rt, a, &[AFTER_0, AFTER_0, GOOD], 1, 60)? == (1, 3, 2, 0));
    assert!(rt; counted(&rt, a, &[AFTER_AGES, GOOD], 1, 86_400)? == (0, 1, 0, 1));
    assert!(rt; counted(&rt, a, &[AFTER_LESS, AFTER_DATE, GOOD], 1, 60)? == (1, 3, 3, 0));
    Ok(())
}

// Otherwise the waits grow: 1, 2, 4, 8, 16, 30 and 30 seconds. A good reply begins anew.
#[test]
fn waits_grow_until_a_good_reply(rt: HostRuntime) -> Result<(), Fail> {
    let a = rt.alloc();
    let seven = &[BUSY, AWAY, BUSY, AWAY, BUSY, AWAY, BUSY, GOOD];
    assert!(rt; counted(&rt, a, seven, 1, 100)? == (1, 8, 91, 0));
    let twice = &[BUSY, BUSY, GOOD, BUSY, BUSY, GOOD];
    assert!(rt; counted(&rt, a, twice, 2, 60)? == (2, 6, 6, 0));
    Ok(())
}

// A server that stays busy costs the seconds that are allowed, once; then each get fails at once, and counts once.
#[test]
fn a_source_waits_no_longer_than_allowed(rt: HostRuntime) -> Result<(), Fail> {
    let a = rt.alloc();
    assert!(rt; counted(&rt, a, &[BUSY], 1, 60)? == (0, 7, 60, 1));
    assert!(rt; counted(&rt, a, &[BUSY], 3, 60)? == (0, 9, 60, 3));
    assert!(rt; counted(&rt, a, &[AFTER_0], 1, 5)? == (0, 6, 5, 1));
    assert!(rt; counted(&rt, a, &[BUSY], 1, 0)? == (0, 1, 0, 1));
    assert!(rt; counted(&rt, a, &[AFTER_A_DAY], 2, u64::MAX)? == (0, 3, 86_400, 2));
    Ok(())
}

// Each source has its own seconds to wait.
#[test]
fn a_source_takes_no_wait_of_another(rt: HostRuntime) -> Result<(), Fail> {
    let alloc = rt.alloc();
    let seen = nothing_seen(alloc)?;
    let first = source_to(alloc, &seen, &[BUSY], 60)?;
    assert!(rt; got(&rt, first, 1, &seen) == (0, 7, 60, 1));
    assert!(rt; counted(&rt, alloc, &[BUSY], 1, 60)? == (0, 7, 60, 1));
    Ok(())
}

// The reason names the status and, if it was waited for, the seconds.
#[test]
fn a_busy_server_is_the_reason(rt: HostRuntime) -> Result<(), Fail> {
    let alloc = rt.alloc();
    for (wait, want) in [(60, "status 429, waited 60 s"), (0, "status 429")] {
        let seen = nothing_seen(alloc)?;
        let mut source = source_to(alloc, &seen, &[BUSY], wait)?;
        let _failed = source.get(&Path::Checkpoint);
        let Some(failed) = source.last_failed() else {
            assert!(rt; false);
            return Ok(());
        };
        let text = format!(in alloc; "{}", failed.reason)?;
        assert!(rt;
            failed.path == Path::Checkpoint && text.as_str() == want,
            "{text}"
        );
        drop(source);
    }
    Ok(())
}

// After a refusal requests keep the rate that was answered before it: here ten in a second, with the wait of one second.
#[test]
fn requests_keep_a_pace_after_a_refusal(rt: HostRuntime) -> Result<(), Fail> {
    let alloc = rt.alloc();
    let replies = &[
        BUSY, GOOD, GOOD, GOOD, GOOD, GOOD, GOOD, GOOD, GOOD, GOOD, GOOD, BUSY, GOOD,
    ];
    let seen = nothing_seen(alloc)?;
    let source = source_to(alloc, &seen, replies, 60)?;
    let counts = got(&rt, source, 40, &seen);
    assert!(rt; counts == (40, 42, 2, 0));
    // 30 requests follow the second refusal, a tenth of a second apart.
    let millis = seen.clock.get() / 1_000;
    assert!(rt; 3_900 < millis && millis < 5_100, "{millis}");
    Ok(())
}
