//! The costs of a mirror's work: pulling, walking, settling, serving, and files. Each is compared with the time to hash the
//! same strings in the same run.
//!
//! The arguments are a subject and a count of entries of 100 bytes, as in `bench pulls 100000`. The subject is `pulls`,
//! `served`, `files` or `all`. Without arguments it is `all` with 1000 entries.
//!
//! Standard output has the work that was done. Standard error has the measurements, since they differ from run to run.
#![tactic(auto)]

mod clock;
mod files;
mod list;
mod pulls;
mod served;

use crate::list::{ORIGIN, key};
use signed_note::Verifier;
use std::env;
use std::rt::Files;
use std::time::CpuClock;
use tlog_hash::{Sha256Tree, TreeHash};
use tlog_mirror::Mirror;

fn main(rt: HostRuntime) -> anyhow::Result<()> {
    let mut words = env::args(&rt)?;
    let _name = words.next();
    let subject = words.next();
    let count = words.next();
    drop(words);
    measure::<Sha256Tree, HostRuntime>(
        &rt,
        subject.as_deref().unwrap_or("all"),
        count.as_deref().unwrap_or("1000"),
    )
}

// Measures a subject, or all of them, for a log of `count` entries.
fn measure<H: TreeHash, R: AllocGlobal + CpuClock + Files + Print + Eprint>(
    rt: &R,
    subject: &str,
    count: &str,
) -> anyhow::Result<()> {
    let count = count.parse::<u32>()?;
    let mut mirror = Mirror::<H>::new(rt.alloc(), ORIGIN)?;
    let answer = measure_keyed(rt, &mut mirror, subject, count);
    drop(mirror);
    answer
}

// The same for an empty mirror, under the key that signs the log.
fn measure_keyed<H: TreeHash, R: AllocGlobal + CpuClock + Files + Print + Eprint>(
    rt: &R,
    mirror: &mut Mirror<H>,
    subject: &str,
    count: u32,
) -> anyhow::Result<()> {
    let mut keys: Vec<Box<dyn Verifier>> = Vec::new(rt.alloc());
    keys.push(Box::new(rt.alloc(), key(rt.alloc())?)?)?;
    let answer = measure_mirror(rt, mirror, keys.as_slice(), subject, count);
    drop(keys);
    answer
}

// An empty mirror pulls the log, and the subject, or each subject, is measured with it.
fn measure_mirror<H: TreeHash, R: AllocGlobal + CpuClock + Files + Print + Eprint>(
    rt: &R,
    mirror: &mut Mirror<H>,
    keys: &[Box<dyn Verifier>],
    subject: &str,
    count: u32,
) -> anyhow::Result<()> {
    let (hashing, walking) = pulls::measure_pull(rt, mirror, keys, count)?;
    if subject == "files" || subject == "all" {
        files::measure_files(rt, mirror, keys, hashing)?;
    }
    if subject == "served" || subject == "all" {
        served::measure_served(rt, mirror, count, walking)?;
    }
    Ok(())
}
