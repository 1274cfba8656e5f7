//! The pace of requests to a server that was busy.
ghost use Rattle.std.specs.Prelude.{◌≡◌, ◌+◌, ◌-◌, ◌^◌, ◌≤◌, min};
ghost use Rattle.mirror_client.specs.Tempo.{CountsOn, IsAfterGood, IsSlowed, raised, spent_by};
ghost use Rattle.mirror_client.specs.declared.tempo.TheConstants.{SLOWEST};

/// The number of microseconds whose unused requests may be made up for at once.
const CREDIT: u64 = 250_000;

/// The greatest number of microseconds from one request to the next.
const SLOWEST: u64 = 1_000_000;

/// The greatest number of microseconds from one reply to the next that counts. A server that names a long wait would be
/// asked ever more slowly if it counted whole.
const MOST_COUNTED: u64 = 1_000_000;

/// The greatest number of microseconds before a get that counts as busy.
const IDLE: u64 = 1_000_000;

/// The number of good replies whose rate counts. The rate of fewer is decided by a single late one.
const KNOWN: u64 = 16;

/// The number of good replies after which the rate rises.
const ENOUGH: u64 = 64;

/// When requests are sent. There is no pace until the server was busy.
///
/// Times are microseconds since a fixed moment.
#[derive(Drop)]
pub(crate) struct Tempo {
    /// The time from one request to the next; 0: no pace.
    pub(crate) interval: u64,
    // The time of the next request.
    next: u64,
    /// The time of the last reply, or of the end of idle time.
    pub(crate) last: u64,
    /// The good replies that count: those since the last refusal with enough of them before it.
    pub(crate) good: u64,
    /// The time that was spent on these.
    pub(crate) spent: u64,
    // How often the next request had its time to wait for, since the last rise.
    held: u64,
    ghost slowest: { interval ≤ SLOWEST },
}

// The time that is spent by now.
fn counted(spent: u64, last: u64, now: u64) -> u64
    ensures { result ≡ spent_by spent last now }
{
    spent.saturating_add(now.saturating_sub(last).min(MOST_COUNTED))
}

// The time from one request to the next after a refusal: of the good replies before it, in the time that was spent.
fn slowed(good: u64, spent: u64, old: u64) -> u64
    ensures { IsSlowed good spent old result }
{
    if good == 0 || (good < KNOWN && old > 0) {
        return old;
    }
    (spent / good).min(SLOWEST).max(1)
}

// That time after enough good replies.
fn quickened(old: u64) -> u64
    requires { old ≤ SLOWEST }
    ensures { result ≡ raised old }
{
    old * 20 / 21
}

impl Tempo {
    /// No pace.
    pub(crate) fn new() -> Tempo {
        Tempo {
            interval: 0,
            next: 0,
            last: 0,
            good: 0,
            spent: 0,
            held: 0,
        }
    }

    /// A get begins now. If the source was idle before, this time does not count for the rate.
    pub(crate) fn begin(&mut self, now: u64)
        ensures { self.new.interval ≡ self.old.interval }
    {
        if now.saturating_sub(self.last) > IDLE {
            self.last = now;
        }
    }

    /// The time until a request may be sent, 0 for now.
    pub(crate) fn delay(&mut self, now: u64) -> u64
        ensures { self.new.interval ≡ self.old.interval }
    {
        let delay = self.next.saturating_sub(now);
        if delay > 0 {
            self.held = self.held.saturating_add(1);
        }
        delay
    }

    /// A request is sent now.
    pub(crate) fn sent(&mut self, now: u64)
        ensures { self.new.interval ≡ self.old.interval }
    {
        let from = self.next.max(now.saturating_sub(CREDIT));
        self.next = from.saturating_add(self.interval);
    }

    /// A good reply now. After each 64 of them the rate rises by a twentieth. Returns whether it rose though the next
    /// request mostly had no time to wait for: then more requests may be out.
    pub(crate) fn answered(&mut self, now: u64) -> bool
        ensures last { self.new.last ≡ now }
        ensures spent { self.new.spent ≡ spent_by self.old.spent self.old.last now }
        ensures good { self.new.good ≡ min (self.old.good + 1) (2 ^ 64 - 1) }
        ensures pace { IsAfterGood self.new.good self.old.interval self.new.interval }
    {
        self.spent = counted(self.spent, self.last, now);
        self.last = now;
        self.good = self.good.saturating_add(1);
        if self.good % ENOUGH != 0 {
            return false;
        }
        let free = self.held < ENOUGH / 2;
        self.held = 0;
        self.interval = quickened(self.interval);
        free
    }

    /// A refusal now. From now on requests are sent at the rate that was answered before.
    pub(crate) fn refused(&mut self, now: u64)
        ensures last { self.new.last ≡ now }
        ensures pace { IsSlowed self.old.good (spent_by self.old.spent self.old.last now)
            self.old.interval self.new.interval }
        ensures counts { CountsOn self.old.good (spent_by self.old.spent self.old.last now)
            self.new.good self.new.spent }
    {
        self.spent = counted(self.spent, self.last, now);
        self.last = now;
        self.next = now;
        self.held = 0;
        self.interval = slowed(self.good, self.spent, self.interval);
        if self.good >= KNOWN {
            self.good = 0;
            self.spent = 0;
        }
    }
}
