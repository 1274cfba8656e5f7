//! A source that requests each file over a connection of its own.
ghost use Rattle.std.specs.Prelude.{◌≡◌, ◌-◌, IfOk, min, option_map};
ghost use Rattle.mirror_sources.specs.Source.{CountsGet, IsShortAnswer};
ghost use Rattle.mirror_client.specs.Waits.{Spends, SpendsWait};
ghost use Rattle.mirror_client.specs.declared.limits.TheConstants.{MAX_WAIT};

use crate::ahead::{Ahead, Sent, Stage, receive_ahead};
use crate::attended::{Attended, attend_dialled};
use crate::dial::Dial;
use crate::exchange::exchange;
use crate::failed::{FailedGet, Miss, Reason};
use crate::limits::MAX_REPLY_LEN;
use crate::pace::Pace;
use crate::patience::Patience;
use crate::refusal::Refusal;
use crate::reply_times::ReplyTimes;
use crate::site::Site;
use crate::times::micros;
use mirror_sources::{Source, SourceFault};
use std::alloc::Global;
use std::marker::Model;
use std::time::Duration;
use tlog_tiles::Path;

/// A source that gets each file by one request over a new connection.
/// With the prefix `/2026` it gets `tile/0/000` by `GET /2026/tile/0/000 HTTP/1.0`.
///
/// A hint names the next paths. The source then begins connections for the first of them, each for one request, and waits
/// for none. It sends each request as soon as its connection stands, also while it reads another reply, and reads each
/// reply when its path is needed. Then its place is free for the next path of the hint, until a get fails. A
/// hint closes the requests that are out for other paths. If a connection fails, the number of requests that are out then
/// becomes the limit, until a get comes while none is out.
///
/// If the reply to a request that was sent ahead fails, the source requests the file again, while other requests are
/// out. If that fails too, it waits until those are finished, and requests the file once more; from then on half as many
/// are out. So other requests never make a get fail, and only the last failure counts. A server that is silent until the
/// time limit is asked once more only if it has begun another reply in the meantime; else the get fails, and all requests
/// that are out are closed.
///
/// A server that answers with the status 429 or 503 is busy. The source then waits for the seconds that `Retry-After`
/// names (at least 1), or else for 1, 2, 4, 8, 16, 30, 30 and so on, where a good reply begins anew, and asks again.
/// All waits together take at most `Pace::wait` seconds; if the next one would go beyond them, the get fails. After a
/// refusal half as many requests are out, and requests are sent at the rate that was answered before: of the good replies
/// since the refusal that set it, in the time for them, where a second counts at most from one reply to the next. If fewer
/// than 16 were good, the rate stays, and they count for the next one. It rises by a twentieth after 64 good replies; if
/// it mostly held up no request in the meantime, one more may be out.
///
/// The other end decides the answer: contracts only say that it has at most 16,785,664 bytes. `Failed` if a connection,
/// a write or a read fails, if the reply has more bytes, if `read_reply` refuses it, or if the server stays busy.
/// `OutOfMemory` if memory was refused, which is not counted. `last_failed` gives the reason of the last failed get.
#[derive(Drop)]
pub struct HttpSource<D: Dial + Drop> {
    alloc: Global,
    site: Site,
    dial: D,
    ahead: Ahead<D::Stream>,
    patience: Patience,
    times: ReplyTimes,
    // The paths of the last hint that were not got since. None after a get that failed.
    hinted: Vec<Path>,
    failures: u64,
    last_failed: Option<FailedGet>,
}

impl<D: Dial + Drop> Model for HttpSource<D> {
    ghost use Rattle.std.specs.Prelude.{◌≤◌};
    ghost use Rattle.mirror_client.specs.Waits.{Asking};

    ghost Value = { Asking };

    ghost view = { λ a. record {
      site = a.site;
      failures = a.failures;
      wait = a.patience.wait;
      left = a.patience.left;
    } };

    ghost invariant = { λ a. a.patience.left ≤ a.patience.wait };
}

impl<D: Dial + Drop> HttpSource<D> {
    /// A source of the files of that site, over connections that the dial opens, at that pace. It takes no memory.
    pub fn new(alloc: Global, site: Site, dial: D, pace: Pace) -> HttpSource<D>
        ensures site { result.site ≡ site }
        ensures failures { result.failures ≡ 0 }
        ensures wait { result.wait ≡ min pace.wait MAX_WAIT }
        ensures left { result.left ≡ result.wait }
    {
        HttpSource {
            alloc,
            site,
            dial,
            ahead: Ahead::new(alloc, pace.ahead),
            patience: Patience::new(pace.wait),
            times: ReplyTimes::new(),
            hinted: Vec::new(alloc),
            failures: 0,
            last_failed: None,
        }
    }

    /// The last get that failed, and why; `None` if no get has failed. It takes no memory.
    pub fn last_failed(&self) -> Option<FailedGet> {
        self.last_failed
    }

    /// The number of seconds that the source has waited for a busy server.
    pub fn waited(&self) -> u64
        ensures { result ≡ self.now.wait - self.now.left }
    {
        self.patience.waited()
    }

    // The same as `fetch`. It takes note of the time that passes between two gets, and of the time of this one.
    fn fetch_timed(&mut self, path: &Path) -> Result<Option<Vec<u8>>, SourceFault>
        ensures spends { Spends self.old self.new }
        ensures bound { IfOk result
            (λ answer. IsShortAnswer MAX_REPLY_LEN (option_map (λ v. v.items) answer)) }
    {
        let begin = micros(self.dial.now());
        self.ahead.tempo.begin(begin);
        let answer = self.fetch(path);
        let end = micros(self.dial.now());
        if answer.is_ok() {
            self.times.keep(end.saturating_sub(begin));
            self.send_next(path);
        } else {
            self.hinted.clear();
        }
        answer
    }

    // Keeps the paths of a hint. If memory is refused, none is kept.
    fn keep_hint(&mut self, paths: &[Path])
        ensures { self.new ≡ self.old }
    {
        self.hinted.clear();
        if self.hinted.extend_from_slice(paths).is_err() {
            self.hinted.clear();
        }
    }

    // Takes the hint again, without the path that was got, whose place is free for another request.
    fn send_next(&mut self, path: &Path)
        ensures { self.new ≡ self.old }
    {
        self.hinted.retain(|next| *next != *path);
        if !self.hinted.is_empty() {
            self.ahead
                .send(self.alloc, &self.site, &mut self.dial, &self.hinted);
        }
    }

    // The body of the reply for that path. It waits while the server is busy.
    fn fetch(&mut self, path: &Path) -> Result<Option<Vec<u8>>, SourceFault>
        ensures spends { Spends self.old self.new }
        ensures bound { IfOk result
            (λ answer. IsShortAnswer MAX_REPLY_LEN (option_map (λ v. v.items) answer)) }
    {
        for _ in 0..u64::MAX {
            let mut miss = None;
            let answer = self.fetch_once(path, &mut miss);
            if !matches!(answer, Err(SourceFault::Failed)) {
                self.keep_good(&answer);
                return answer;
            }
            if !self.may_retry(path, miss) {
                return Err(SourceFault::Failed);
            }
        }
        Err(SourceFault::Failed)
    }

    // Takes note of a good reply.
    fn keep_good(&mut self, answer: &Result<Option<Vec<u8>>, SourceFault>)
        ensures { self.new ≡ self.old }
    {
        if answer.is_ok() {
            self.patience.answered();
            self.ahead.answered(&mut self.dial);
        }
    }

    // Whether the file is requested again: if the server is busy, and after a wait. Else it keeps the reason.
    fn may_retry(&mut self, path: &Path, miss: Option<Miss>) -> bool
        ensures { Spends self.old self.new }
    {
        let reason = match miss {
            Some(Miss::Busy(refusal)) => {
                if self.wait(refusal) {
                    return true;
                }
                Reason::Busy {
                    status: refusal.status,
                    waited: self.patience.waited(),
                }
            }
            Some(Miss::Failed(reason)) => reason,
            None => return false,
        };
        self.last_failed = Some(FailedGet {
            path: *path,
            reason,
        });
        false
    }

    // Waits after that refusal, if there is time left for it. Returns whether it did. Requests that are out stay out in the
    // meantime; then those that were refused are closed.
    fn wait(&mut self, refusal: Refusal) -> bool
        ensures { Spends self.old self.new }
    {
        self.ahead.refused(&mut self.dial);
        let Some(seconds) = self.patience.refuse(refusal.named) else {
            return false;
        };
        self.dial.pause(Duration::from_secs(seconds));
        self.ahead.close_refused(&mut self.dial);
        true
    }

    // The body of the reply for that path, without a wait for a busy server. While requests are out, no failure is final:
    // the server may refuse a connection because of them. If it gives `Failed`, the reason is in `miss`.
    fn fetch_once(
        &mut self,
        path: &Path,
        miss: &mut Option<Miss>,
    ) -> Result<Option<Vec<u8>>, SourceFault>
        ensures same { self.new ≡ self.old }
        ensures bound { IfOk result
            (λ answer. IsShortAnswer MAX_REPLY_LEN (option_map (λ v. v.items) answer)) }
    {
        let answer = self.fetch_ahead(path, miss);
        if is_final(&answer, miss.as_ref()) || self.is_silent(miss.as_ref()) {
            return answer;
        }
        self.fetch_after(path, miss)
    }

    // Whether the server was silent, and has begun no other reply in the meantime. Then all requests that are out are closed.
    fn is_silent(&mut self, miss: Option<&Miss>) -> bool
        ensures { self.new ≡ self.old }
    {
        let Some(miss) = miss else {
            return false;
        };
        if !miss.is_silence() || self.ahead.has_reply(&mut self.dial) {
            return false;
        }
        self.ahead.close();
        true
    }

    // The body of the reply to the request that was sent ahead. Its time starts now. `Failed` if there is no such request, or
    // if it failed.
    fn fetch_ahead(
        &mut self,
        path: &Path,
        miss: &mut Option<Miss>,
    ) -> Result<Option<Vec<u8>>, SourceFault>
        ensures same { self.new ≡ self.old }
        ensures bound { IfOk result
            (λ answer. IsShortAnswer MAX_REPLY_LEN (option_map (λ v. v.items) answer)) }
    {
        let Some(mut one) = self.ahead.take(path) else {
            return Err(SourceFault::Failed);
        };
        if one.stage == Stage::Asked && self.dial.restart(&mut one.stream).is_err() {
            return Err(SourceFault::Failed);
        }
        self.ahead
            .ask_due(self.alloc, &self.site, &mut self.dial, &mut one);
        let one = Sent {
            path: one.path,
            stream: Attended {
                alloc: self.alloc,
                site: &self.site,
                dial: &mut self.dial,
                ahead: &mut self.ahead,
                stream: one.stream,
            },
            stage: one.stage,
        };
        receive_ahead(self.alloc, &self.site, one, miss)
    }

    // The body of the reply to a request that is sent now, while others are out, or else after those are finished.
    fn fetch_after(
        &mut self,
        path: &Path,
        miss: &mut Option<Miss>,
    ) -> Result<Option<Vec<u8>>, SourceFault>
        ensures same { self.new ≡ self.old }
        ensures bound { IfOk result
            (λ answer. IsShortAnswer MAX_REPLY_LEN (option_map (λ v. v.items) answer)) }
    {
        if self.ahead.is_empty() {
            return self.fetch_alone(path, miss);
        }
        let answer = self.request(path, miss);
        if is_final(&answer, miss.as_ref()) || is_silence(miss.as_ref()) {
            return answer;
        }
        self.ahead.finish(self.alloc);
        self.fetch_alone(path, miss)
    }

    // The body of the reply to a request that is sent while no other is out.
    fn fetch_alone(
        &mut self,
        path: &Path,
        miss: &mut Option<Miss>,
    ) -> Result<Option<Vec<u8>>, SourceFault>
        ensures same { self.new ≡ self.old }
        ensures bound { IfOk result
            (λ answer. IsShortAnswer MAX_REPLY_LEN (option_map (λ v. v.items) answer)) }
    {
        let answer = self.request(path, miss);
        self.ahead.widen();
        answer
    }

    // The body of the reply to a request that is sent when the pace allows it.
    fn request(
        &mut self,
        path: &Path,
        miss: &mut Option<Miss>,
    ) -> Result<Option<Vec<u8>>, SourceFault>
        ensures same { self.new ≡ self.old }
        ensures bound { IfOk result
            (λ answer. IsShortAnswer MAX_REPLY_LEN (option_map (λ v. v.items) answer)) }
    {
        let delay = self.ahead.delay(&mut self.dial);
        if delay > 0 {
            self.dial.pause(Duration::from_micros(delay));
            let _late = self.ahead.delay(&mut self.dial);
        }
        *miss = None;
        let dialled = attend_dialled(
            self.alloc,
            &self.site,
            self.dial.dial(),
            &mut self.dial,
            &mut self.ahead,
        );
        exchange(self.alloc, dialled, &self.site, path, miss)
    }
}

// Whether the answer is final, for now: there is one, memory was refused, or the server is busy.
fn is_final(answer: &Result<Option<Vec<u8>>, SourceFault>, miss: Option<&Miss>) -> bool {
    !matches!(answer, Err(SourceFault::Failed)) || matches!(miss, Some(Miss::Busy(_)))
}

fn is_silence(miss: Option<&Miss>) -> bool {
    match miss {
        Some(miss) => miss.is_silence(),
        None => false,
    }
}

impl<D: Dial + Drop> Source for HttpSource<D> {
    ghost use Rattle.mirror_client.specs.declared.limits.TheConstants.{MAX_REPLY_LEN};

    ghost may_answer = { λ _ _ answer. IsShortAnswer MAX_REPLY_LEN answer };

    ghost failed = { λ s. s.failures };

    fn get(&mut self, path: &Path) -> Result<Option<Vec<u8>>, SourceFault>
        ensures answer { IfOk result
            (λ bytes. IsShortAnswer MAX_REPLY_LEN (option_map (λ v. v.items) bytes)) }
        ensures counted { CountsGet self.old.failures self.new.failures result }
        ensures waits { SpendsWait self.old self.new }
    {
        match self.fetch_timed(path) {
            Ok(found) => Ok(found),
            Err(SourceFault::OutOfMemory) => Err(SourceFault::OutOfMemory),
            Err(SourceFault::Failed) => {
                self.failures = self.failures.saturating_add(1);
                Err(SourceFault::Failed)
            }
        }
    }

    fn expect(&mut self, paths: &[Path])
        ensures counted { self.new.failures ≡ self.old.failures }
        ensures waits { SpendsWait self.old self.new }
    {
        self.keep_hint(paths);
        self.ahead
            .send(self.alloc, &self.site, &mut self.dial, paths);
    }

    fn failures(&self) -> u64 {
        self.failures
    }

    fn reply_millis(&self) -> Option<u64> {
        self.times.average()
    }
}
