//! Times as numbers.
use std::time::Duration;

/// The number of microseconds of the time, at most the last value of a `u64`.
pub(crate) fn micros(time: Duration) -> u64 {
    time.as_secs()
        .saturating_mul(1_000_000)
        .saturating_add(time.subsec_micros() as u64)
}
