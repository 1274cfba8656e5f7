//! Time and memory, and their reports.
use std::fs;
use std::rt::Files;
use std::time::CpuClock;

// The number of bytes of a page of memory.
const PAGE: u64 = 4096;

/// The processor time of this process, in nanoseconds, or 0 if it cannot be read. Other programs hardly change it.
pub(crate) fn now(rt: &impl CpuClock) -> u128 {
    match rt.process_cpu_time() {
        Ok(time) => time.as_nanos(),
        Err(_) => 0,
    }
}

/// Writes the amount to standard error, and its ratio to the unit.
pub(crate) fn tell(rt: &impl Eprint, name: &str, amount: u128, unit: u128) {
    let hundredths = amount.saturating_mul(100).checked_div(unit).unwrap_or(0);
    let _ = eprintln!(rt;
        "{name}: {amount}, {}.{:02} times",
        hundredths / 100,
        hundredths % 100
    );
}

/// Writes the time since the start to standard error, and its ratio to the unit.
pub(crate) fn report_since<R: CpuClock + Eprint>(rt: &R, name: &str, start: u128, unit: u128) {
    tell(rt, name, now(rt).saturating_sub(start), unit);
}

/// The resident memory of this process in bytes, or 0 if it cannot be read.
///
/// It does not include memory that a growth used for a time, or room that was reserved and not touched.
pub(crate) fn resident_bytes<R: AllocGlobal + Files>(rt: &R) -> u64 {
    match fs::read_to_string(rt, "/proc/self/statm") {
        Ok(text) => bytes_of(text.as_str()),
        Err(_) => 0,
    }
}

// The resident memory by that text: the second number of Linux's statm is the number of pages.
fn bytes_of(text: &str) -> u64 {
    let mut words = text.split_whitespace();
    let _size = words.next();
    match words.next() {
        Some(word) => word.parse::<u64>().unwrap_or(0).saturating_mul(PAGE),
        None => 0,
    }
}
