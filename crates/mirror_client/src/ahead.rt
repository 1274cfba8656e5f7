//! Requests that are sent ahead, before their replies are needed.
ghost use Rattle.std.specs.Prelude.{[], ◌≡◌, ◌<◌, ◌≤◌, ◌+◌, ◌/◌, Contains, IfOk, IfSome, length, OnOk, option_map, slice_index_or, take, vec_len};
ghost use Rattle.std.specs.Io.KnownBytes.{Appends, Consumes};
ghost use Rattle.mirror_client.specs.Request.{request_text};
ghost use Rattle.mirror_client.specs.Tempo.{IsAfterGood, IsSlowed, spent_by};
ghost use Rattle.mirror_client.specs.declared.limits.TheConstants.{MOST_TAKEN};
ghost use Rattle.mirror_sources.specs.Source.{IsShortAnswer};

use crate::dial::Dial;
use crate::exchange::{receive_watched, send_request};
use crate::failed::{Miss, Reason};
use crate::limits::{MAX_REPLY_LEN, MOST_TAKEN, STATUS_END};
use crate::refusal::begins_busy;
use crate::site::Site;
use crate::tempo::Tempo;
use crate::times::micros;
use byte_streams::{StreamFault, WatchedStream, read_all};
use mirror_sources::SourceFault;
use std::alloc::Global;
use std::io::{Read, Write};
use std::{io, mem};
use tlog_tiles::Path;

/// How far a request that is sent ahead is.
#[derive(Clone, Copy, PartialEq, Eq, Debug, Drop)]
pub(crate) enum Stage {
    /// Its connection was begun.
    Begun,
    /// It was sent.
    Asked,
    /// It failed, or was refused.
    Lost,
}

/// A request that is sent ahead: its path, and the connection for its reply.
#[derive(Drop)]
pub(crate) struct Sent<S: Drop> {
    pub(crate) path: Path,
    pub(crate) stream: S,
    pub(crate) stage: Stage,
}

/// The requests that are out: they were sent ahead, and their replies were not read yet.
///
/// At most `most` are out at once, and after refusals fewer, `fair`. If the server refuses connections, at most `room` are
/// out, until `widen` is called.
#[derive(Drop)]
pub(crate) struct Ahead<S: Drop> {
    pub(crate) sent: Vec<Sent<S>>,
    pub(crate) most: usize,
    pub(crate) fair: usize,
    pub(crate) room: usize,
    pub(crate) tempo: Tempo,
    ghost few: { vec_len sent ≤ most },
    ghost fewer: { fair ≤ most },
    ghost within: { room ≤ most },
}

// Sends the request, if it was not sent yet. If the connection does not stand yet, it waits for it.
fn ask_now<S: Read + Write + Drop>(alloc: Global, site: &Site, one: &mut Sent<S>)
    ensures path { one.new.path ≡ one.old.path }
    ensures asked { one.old.stage ≡ Stage.Begun → one.new.stage ≡ Stage.Asked
        → Appends (S.contents one.old.stream) (S.contents one.new.stream)
        (request_text site.now one.old.path) }
{
    if one.stage == Stage::Begun {
        one.stage = match send_request(alloc, &mut one.stream, site, &one.path) {
            Ok(()) => Stage::Asked,
            Err(_) => Stage::Lost,
        };
    }
}

// The same, with all the time of a request from now on.
fn ask_afresh<D: Dial>(alloc: Global, site: &Site, dial: &mut D, one: &mut Sent<D::Stream>)
    ensures path { one.new.path ≡ one.old.path }
{
    match dial.restart(&mut one.stream) {
        Ok(()) => ask_now(alloc, site, one),
        Err(_) => one.stage = Stage::Lost,
    }
}

// Sends the request, if it was not sent yet and the connection stands. It waits for no connection.
fn ask_ready<D: Dial>(alloc: Global, site: &Site, dial: &mut D, one: &mut Sent<D::Stream>)
    ensures path { one.new.path ≡ one.old.path }
{
    if one.stage != Stage::Begun {
        return;
    }
    match dial.stands(&mut one.stream) {
        Ok(true) => ask_afresh(alloc, site, dial, one),
        Ok(false) => {}
        Err(_) => one.stage = Stage::Lost,
    }
}

// Sends each request that was not sent yet and whose connection stands. It waits for no connection.
fn ask_each<D: Dial>(alloc: Global, site: &Site, dial: &mut D, sent: &mut [Sent<D::Stream>]) {
    for one in sent {
        ask_ready(alloc, site, dial, one);
    }
}

// Whether the reply has begun, and if so, whether it is a refusal of a busy server. It does not wait.
fn peek<D: Dial>(dial: &mut D, one: &mut Sent<D::Stream>) -> Option<bool>
    ensures path { one.new.path ≡ one.old.path }
    ensures stage { one.new.stage ≡ one.old.stage }
{
    if one.stage != Stage::Asked {
        return None;
    }
    let mut front = [0; STATUS_END];
    match dial.peek(&mut one.stream, &mut front) {
        Ok(0) => None,
        Ok(_) => Some(begins_busy(&front)),
        Err(_) => None,
    }
}

// Reads the reply to its end, and drops it; at most one byte more than a reply can have.
fn skip_reply<R: Read>(alloc: Global, reader: &mut R) -> Result<(), StreamFault>
    ensures { OnOk result (IfSome (R.remaining reader.old)
        (λ bytes. Consumes (R.remaining reader.old) (R.remaining reader.new)
        (take MOST_TAKEN bytes))) }
{
    read_all(alloc, reader, MOST_TAKEN, u64::MAX)?;
    Ok(())
}

// Waits until the reply is over or the connection fails. `false` if the other end is silent until the time limit.
fn is_over<S: Read + Drop>(alloc: Global, stream: S) -> bool {
    let mut stream = WatchedStream::new(stream);
    match skip_reply(alloc, &mut stream) {
        Ok(()) => true,
        Err(fault) => {
            let reason = Reason::of_stream(stream.read_error(fault));
            !Miss::Failed(reason).is_silence()
        }
    }
}

// Marks each request that was refused.
fn mark_refused<D: Dial>(dial: &mut D, sent: &mut [Sent<D::Stream>]) {
    for one in sent {
        if peek(dial, one) == Some(true) {
            one.stage = Stage::Lost;
        }
    }
}

// Whether a reply has begun.
fn has_begun<D: Dial>(dial: &mut D, sent: &mut [Sent<D::Stream>]) -> bool {
    for one in sent {
        if peek(dial, one).is_some() {
            return true;
        }
    }
    false
}

// The request for that path over the connection, if there is one. It is not sent yet.
fn begun<S: Drop>(dialled: io::Result<S>, path: &Path) -> Option<Sent<S>>
    ensures path { IfSome result (λ sent. sent.path ≡ path.now) }
    ensures stage { IfSome result (λ sent. sent.stage ≡ Stage.Begun) }
{
    match dialled {
        Ok(stream) => Some(Sent {
            path: *path,
            stream,
            stage: Stage::Begun,
        }),
        Err(_) => None,
    }
}

// The place of the request for that path, if it is out.
fn find_sent<S: Drop>(sent: &[Sent<S>], path: &Path) -> Option<usize>
    ensures within { IfSome result (λ i. i < length sent.now) }
    ensures found { IfSome result
        (λ i. (one : _) → (slice_index_or sent.now i one).path ≡ path.now) }
{
    for (i, one) in sent.iter().enumerate() {
        if one.path == *path {
            return Some(i);
        }
    }
    None
}

// The number of requests at the front that are for the first of the paths, in their order.
fn count_in_order<S: Drop>(sent: &[Sent<S>], paths: &[Path]) -> usize
    ensures { result ≤ length paths.now }
{
    for (i, path) in paths.iter().enumerate() {
        if i >= sent.len() || sent[i].path != *path {
            return i;
        }
    }
    paths.len()
}

impl<S: Read + Write + Drop> Ahead<S> {
    /// No request is out, and at most `most` will be. It takes no memory.
    pub(crate) fn new(alloc: Global, most: usize) -> Ahead<S>
        ensures { result.most ≡ most }
    {
        Ahead {
            sent: Vec::new(alloc),
            most,
            fair: most,
            room: most,
            tempo: Tempo::new(),
        }
    }

    /// Whether no request is out.
    pub(crate) fn is_empty(&self) -> bool {
        self.sent.is_empty()
    }

    /// Begins connections for the first of the paths, until there is no more room or the pace allows no more, and sends
    /// the requests whose connections stand. It closes each request that is out for another path. If a connection fails,
    /// or memory is refused, the room shrinks to the requests that are out.
    pub(crate) fn send<D: Dial<Stream = S>>(
        &mut self,
        alloc: Global,
        site: &Site,
        dial: &mut D,
        paths: &[Path],
    )
        ensures { self.new.most ≡ self.old.most }
    {
        self.begin(dial, paths);
        self.ask(alloc, site, dial);
    }

    // Begins connections for the first of the paths, until there is no more room or the pace allows no more.
    fn begin<D: Dial<Stream = S>>(&mut self, dial: &mut D, paths: &[Path])
        ensures { self.new.most ≡ self.old.most }
    {
        for path in self.left(paths) {
            if self.sent.len() >= self.room {
                return;
            }
            if find_sent(&self.sent, path).is_some() {
                continue;
            }
            if self.delay(dial) > 0 {
                return;
            }
            if !self.keep(begun(dial.begin(), path)) {
                self.room = self.sent.len();
                return;
            }
        }
    }

    /// The number of microseconds until a request may be sent; if it may be sent now, it counts as sent.
    pub(crate) fn delay<D: Dial<Stream = S>>(&mut self, dial: &mut D) -> u64
        ensures most { self.new.most ≡ self.old.most }
        ensures sent { self.new.sent ≡ self.old.sent }
        ensures room { self.new.room ≡ self.old.room }
    {
        if self.tempo.interval == 0 {
            return 0;
        }
        let now = micros(dial.now());
        let delay = self.tempo.delay(now);
        if delay == 0 {
            self.tempo.sent(now);
        }
        delay
    }

    /// Sends the requests that were not sent yet and whose connections stand. It waits for no connection.
    pub(crate) fn ask<D: Dial<Stream = S>>(&mut self, alloc: Global, site: &Site, dial: &mut D)
        ensures { self.new.most ≡ self.old.most }
    {
        let count = self.sent.len();
        ask_each(alloc, site, dial, self.sent.as_mut_slice());
        self.sent.retain(|one| one.stage != Stage::Lost);
        if self.sent.len() < count {
            self.room = self.sent.len();
        }
    }

    // The paths that may have no request yet. It closes each request that is out for another path. If those that are out
    // are for the first paths, in their order, no other compares are made: so it is while each path is got in its turn.
    fn left<'a>(&mut self, paths: &'a [Path]) -> &'a [Path]
        ensures { self.new.most ≡ self.old.most }
    {
        let count = count_in_order(&self.sent, paths);
        if count == self.sent.len() {
            return &paths[count..];
        }
        self.sent.retain(|one| paths.contains(&one.path));
        paths
    }

    // Keeps the request, if it was begun and there is memory for it. Returns whether it did.
    fn keep(&mut self, sent: Option<Sent<S>>) -> bool
        requires { vec_len self.old.sent < self.old.most }
        ensures { self.new.most ≡ self.old.most }
    {
        match sent {
            Some(one) => self.sent.push(one).is_ok(),
            None => false,
        }
    }

    /// The request for that path, if it is out. It is then no longer out.
    pub(crate) fn take(&mut self, path: &Path) -> Option<Sent<S>>
        ensures found { IfSome result (λ one. Contains self.old.sent.items one) }
        ensures path { IfSome result (λ one. one.path ≡ path.now) }
        ensures most { self.new.most ≡ self.old.most }
    {
        let i = find_sent(&self.sent, path)?;
        Some(self.sent.remove(i))
    }

    /// Waits until the request is sent or has failed. In the meantime it sends each other request whose connection stands.
    pub(crate) fn ask_due<D: Dial<Stream = S>>(
        &mut self,
        alloc: Global,
        site: &Site,
        dial: &mut D,
        one: &mut Sent<S>,
    )
        ensures most { self.new.most ≡ self.old.most }
        ensures path { one.new.path ≡ one.old.path }
    {
        for _ in 0..u64::MAX {
            ask_ready(alloc, site, dial, one);
            if one.stage != Stage::Begun {
                return;
            }
            self.ask(alloc, site, dial);
            match dial.watch(&mut one.stream, false) {
                Ok(false) => {}
                Ok(true) => return ask_afresh(alloc, site, dial, one),
                Err(_) => return,
            }
        }
    }

    /// Waits until there are bytes to read of the stream, while a request waits for its connection. It sends each one whose
    /// connection stands. So no read of the stream holds up a request.
    pub(crate) fn attend<D: Dial<Stream = S>>(
        &mut self,
        alloc: Global,
        site: &Site,
        dial: &mut D,
        stream: &mut S,
    )
        ensures most { self.new.most ≡ self.old.most }
        ensures quiet { stream.new ≡ stream.old }
    {
        for _ in 0..u64::MAX {
            if !self.has_begun() {
                return;
            }
            self.ask(alloc, site, dial);
            match dial.watch(stream, true) {
                Ok(false) => {}
                _ => return,
            }
        }
    }

    // Whether a request waits for its connection.
    fn has_begun(&self) -> bool {
        self.sent.iter().any(|one| one.stage == Stage::Begun)
    }

    /// Waits until the server has finished with all requests that were sent, and drops their replies. Once one is silent
    /// until its time is over, it waits for no other. It closes each connection. From now on half as many may be out.
    pub(crate) fn finish(&mut self, alloc: Global)
        ensures none { self.new.sent.items ≡ [] }
        ensures most { self.new.most ≡ self.old.most }
        ensures half { self.new.fair ≡ self.old.fair / 2 }
    {
        self.sent.retain(|one| one.stage == Stage::Asked);
        for one in mem::replace(&mut self.sent, Vec::new(alloc)) {
            if !is_over(alloc, one.stream) {
                break;
            }
        }
        self.halve();
    }

    /// Closes all requests that are out.
    pub(crate) fn close(&mut self)
        ensures none { self.new.sent.items ≡ [] }
        ensures most { self.new.most ≡ self.old.most }
    {
        self.sent.clear();
    }

    /// Whether the reply to a request that is out has begun.
    pub(crate) fn has_reply<D: Dial<Stream = S>>(&mut self, dial: &mut D) -> bool
        ensures { self.new.most ≡ self.old.most }
    {
        has_begun(dial, self.sent.as_mut_slice())
    }

    /// Sets the room to what is fair.
    pub(crate) fn widen(&mut self)
        ensures { self.new.most ≡ self.old.most }
    {
        self.room = self.fair;
    }

    /// A good reply. If the pace rises though it mostly held up no request, one more may be out.
    pub(crate) fn answered<D: Dial<Stream = S>>(&mut self, dial: &mut D)
        ensures most { self.new.most ≡ self.old.most }
        ensures fair { self.new.fair ≤ self.old.fair + 1 }
        ensures pace { IsAfterGood self.new.tempo.good self.old.tempo.interval
            self.new.tempo.interval }
    {
        if self.tempo.answered(micros(dial.now())) && self.fair < self.most {
            self.fair += 1;
            self.room = self.fair;
        }
    }

    /// A refusal of a busy server: half as many requests may be out from now on, at the pace that was answered.
    pub(crate) fn refused<D: Dial<Stream = S>>(&mut self, dial: &mut D)
        ensures most { self.new.most ≡ self.old.most }
        ensures half { self.new.fair ≡ self.old.fair / 2 }
        ensures room { self.new.room ≤ self.new.fair }
        ensures pace { (now : _) × IsSlowed self.old.tempo.good
            (spent_by self.old.tempo.spent self.old.tempo.last now)
            self.old.tempo.interval self.new.tempo.interval }
    {
        self.tempo.refused(micros(dial.now()));
        self.halve();
    }

    // Half as many requests may be out from now on.
    fn halve(&mut self)
        ensures sent { self.new.sent ≡ self.old.sent }
        ensures most { self.new.most ≡ self.old.most }
        ensures half { self.new.fair ≡ self.old.fair / 2 }
        ensures room { self.new.room ≤ self.new.fair }
        ensures tempo { self.new.tempo ≡ self.old.tempo }
    {
        self.fair /= 2;
        self.room = self.room.min(self.fair);
    }

    /// Closes the requests that are out and were refused.
    pub(crate) fn close_refused<D: Dial<Stream = S>>(&mut self, dial: &mut D)
        ensures { self.new.most ≡ self.old.most }
    {
        mark_refused(dial, self.sent.as_mut_slice());
        self.sent.retain(|one| one.stage != Stage::Lost);
    }
}

/// The body of the reply to a request that was sent ahead; if it was not sent yet, it is sent now, which may wait for the
/// connection. If it gives `Failed`, the reason is in `miss`.
pub(crate) fn receive_ahead<S: Read + Write + Drop>(
    alloc: Global,
    site: &Site,
    mut one: Sent<S>,
    miss: &mut Option<Miss>,
) -> Result<Option<Vec<u8>>, SourceFault>
    ensures { IfOk result (λ answer. IsShortAnswer MAX_REPLY_LEN
        (option_map (λ v. v.items) answer)) }
{
    ask_now(alloc, site, &mut one);
    if one.stage == Stage::Lost {
        return Err(SourceFault::Failed);
    }
    receive_watched(alloc, &mut WatchedStream::new(one.stream), Ok(()), miss)
}
