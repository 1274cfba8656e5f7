//! How long a source waits for a busy server.
ghost use Rattle.std.specs.Prelude.{◌≡◌, ◌-◌, ◌≤◌, min, unwrap_or};
ghost use Rattle.mirror_client.specs.Waits.{IsUsualWait, WaitIs};
ghost use Rattle.mirror_client.specs.declared.limits.TheConstants.{MAX_WAIT};

use crate::limits::MAX_WAIT;

/// The seconds that a source may still wait, and the refusals since the last good reply.
#[derive(Drop)]
pub(crate) struct Patience {
    /// The seconds that all waits take at most.
    pub(crate) wait: u64,
    /// The seconds that are left of these.
    pub(crate) left: u64,
    /// The refusals in a row.
    pub(crate) refusals: u64,
    ghost within: { left ≤ wait },
}

// The wait after that number of refusals in a row, where the server names none: 1, 2, 4, 8, 16, 30, 30 and so on.
fn usual_wait(before: u64) -> u64
    ensures { IsUsualWait before result }
{
    match before {
        0 => 1,
        1 => 2,
        2 => 4,
        3 => 8,
        4 => 16,
        _ => 30,
    }
}

/// The seconds to wait after a refusal that names this number of them, or none, after that number of refusals in a row,
/// with that number left. `None`: it is not waited.
fn wait_of(named: Option<u64>, before: u64, left: u64) -> Option<u64>
    ensures { WaitIs named before left result }
{
    match named {
        Some(seconds) => {
            let wait = seconds.max(1);
            if wait <= left { Some(wait) } else { None }
        }
        None => {
            if left == 0 {
                None
            } else {
                Some(usual_wait(before).min(left))
            }
        }
    }
}

impl Patience {
    /// Waits of at most that number of seconds together, and at most a day.
    pub(crate) fn new(wait: u64) -> Patience
        ensures all { result.left ≡ result.wait }
        ensures wait { result.wait ≡ min wait MAX_WAIT }
    {
        let wait = wait.min(MAX_WAIT);
        Patience {
            wait,
            left: wait,
            refusals: 0,
        }
    }

    /// One more refusal. It gives the seconds to wait, which are taken from what is left; `None`: there is no wait.
    pub(crate) fn refuse(&mut self, named: Option<u64>) -> Option<u64>
        ensures wait { WaitIs named self.old.refusals self.old.left result }
        ensures left { self.new.left ≡ self.old.left - unwrap_or result 0 }
        ensures all { self.new.wait ≡ self.old.wait }
    {
        let wait = wait_of(named, self.refusals, self.left);
        self.refusals = self.refusals.saturating_add(1);
        if let Some(seconds) = wait {
            self.left -= seconds;
        }
        wait
    }

    /// A good reply: the next wait is again the first of the usual ones.
    pub(crate) fn answered(&mut self)
        ensures left { self.new.left ≡ self.old.left }
        ensures all { self.new.wait ≡ self.old.wait }
    {
        self.refusals = 0;
    }

    /// The seconds of all waits so far.
    pub(crate) fn waited(&self) -> u64
        ensures { result ≡ self.now.wait - self.now.left }
    {
        self.wait - self.left
    }
}
