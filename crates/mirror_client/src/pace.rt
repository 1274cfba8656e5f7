//! How a server is asked.

/// How a server is asked: how many requests are sent ahead, and how long a busy server is waited for.
///
/// ```text
/// let pace = Pace { ahead: 6, wait: 60 };
/// let source = HttpSource::new(alloc, site, dial, pace);
/// ```
#[derive(Debug, Drop, PartialEq, Eq, Clone, Copy)]
pub struct Pace {
    /// The most requests that are sent ahead at once; 0: none.
    pub ahead: usize,
    /// The number of seconds that all waits for a busy server (status 429 or 503) take together at most. 0: no wait.
    /// More than 86,400 counts as 86,400, a day.
    pub wait: u64,
}
