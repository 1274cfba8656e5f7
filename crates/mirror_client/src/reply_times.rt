//! How long gets take.

/// The number of gets whose times count.
const KEPT: usize = 8;

/// How long the last eight gets took that had an answer.
#[derive(Drop)]
pub(crate) struct ReplyTimes {
    // Their times in milliseconds. The place of the next is the number of all times, modulo 8.
    millis: [u64; KEPT],
    count: usize,
}

impl ReplyTimes {
    /// No get has had an answer yet.
    pub(crate) fn new() -> ReplyTimes {
        ReplyTimes {
            millis: [0; KEPT],
            count: 0,
        }
    }

    /// Keeps the time of a get, in place of the oldest.
    pub(crate) fn keep(&mut self, micros: u64) {
        self.millis[self.count % KEPT] = micros / 1_000;
        self.count = self.count.saturating_add(1);
    }

    /// The average in milliseconds. None: no get has had an answer.
    pub(crate) fn average(&self) -> Option<u64> {
        let kept = self.count.min(KEPT);
        if kept == 0 {
            return None;
        }
        let mut sum = 0u64;
        for millis in self.millis.iter() {
            sum = sum.saturating_add(*millis);
        }
        Some(sum / kept as u64)
    }
}
