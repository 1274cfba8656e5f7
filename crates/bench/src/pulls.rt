//! Pulls: a log is fetched from a list of its entries, walked and settled.
use crate::clock::{now, report_since, resident_bytes, tell};
use crate::list::{entries_of, hash_tree, source_of};
use mirror_pull::{ListSource, PullFault, Pulled, pull};
use signed_note::Verifier;
use std::alloc::{AllocError, Global};
use std::rt::Files;
use std::time::CpuClock;
use tlog_hash::{Hash, TreeHash};
use tlog_mirror::Mirror;

/// A mirror pulls a log of `count` entries, walks it and settles it. The results are the time to hash its tree, and the time
/// of a walk before settling.
pub(crate) fn measure_pull<H: TreeHash, R: AllocGlobal + CpuClock + Files + Print + Eprint>(
    rt: &R,
    mirror: &mut Mirror<H>,
    keys: &[Box<dyn Verifier>],
    count: u32,
) -> anyhow::Result<(u128, u128)> {
    let (mut source, hashing, root) = source_timed::<H, R>(rt, count)?;
    let walking = pull_from(rt, mirror, keys, &mut source, count, &root, hashing);
    drop(source);
    Ok((hashing, walking?))
}

// A source over `count` entries, the time to hash their tree, and its root.
fn source_timed<H: TreeHash, R: AllocGlobal + CpuClock + Eprint>(
    rt: &R,
    count: u32,
) -> anyhow::Result<(ListSource<H>, u128, Hash)> {
    let entries = entries_of(rt.alloc(), count)?;
    let (hashing, root) = hash_tree::<H, R>(rt, entries.as_slice())?;
    let _ = eprintln!(rt; "{count} entries: hashing their tree takes {hashing} ns, and of it");
    let start = now(rt);
    let source = source_of::<H>(rt.alloc(), entries)?;
    report_since(rt, "  a source over them, ns", start, hashing);
    Ok((source, hashing, root))
}

// Pulls the log of `count` entries with that root from the source, walks it, settles it, and reports the times. It owns
// nothing, so that its ways out are cheap to check. The result is the time of the first walk.
fn pull_from<H: TreeHash, R: AllocGlobal + CpuClock + Files + Print + Eprint>(
    rt: &R,
    mirror: &mut Mirror<H>,
    keys: &[Box<dyn Verifier>],
    source: &mut ListSource<H>,
    count: u32,
    root: &Hash,
    hashing: u128,
) -> anyhow::Result<u128> {
    let before = resident_bytes(rt);
    let start = now(rt);
    let pulled = pull_all(rt.alloc(), mirror, keys, source)?;
    report_since(rt, "  a pull, ns", start, hashing);
    let after = resident_bytes(rt);
    let start = now(rt);
    let complete = mirror.is_complete(u64::from(count), root);
    let walking = now(rt).saturating_sub(start);
    tell(rt, "  is it complete, ns", walking, hashing);
    let start = now(rt);
    let missing = missing_count(rt.alloc(), mirror, u64::from(count), root)?;
    report_since(rt, "  what is missing, ns", start, hashing);
    let start = now(rt);
    let remembered = settle(rt.alloc(), mirror)?;
    report_since(rt, "  settling, ns", start, hashing);
    let settled = resident_bytes(rt);
    print_memory(
        rt,
        count,
        after.saturating_sub(before),
        settled.saturating_sub(before),
    );
    println!(rt;
        "{} entries pulled, complete {}, {} refused\ncomplete {complete}, {missing} missing\n{remembered} remembered",
        pulled.size, pulled.complete, pulled.refused
    )?;
    Ok(walking)
}

// Reports the growth of resident memory after a pull, and after settling. The strings have 101 bytes for each entry and 65
// for each pair; the number of pairs is the number of entries minus one.
fn print_memory(rt: &impl Eprint, count: u32, pulled: u64, settled: u64) {
    let bytes = 101 * u128::from(count) + 65 * u128::from(count).saturating_sub(1);
    let _ = eprintln!(rt; "  their strings have {bytes} bytes, and of it");
    tell(
        rt,
        "  resident more after the pull, bytes",
        u128::from(pulled),
        bytes,
    );
    tell(
        rt,
        "  resident more after settling, bytes",
        u128::from(settled),
        bytes,
    );
}

// Pulls the log from the source. It ensures nothing, so that its caller is cheap to check.
fn pull_all<H: TreeHash>(
    alloc: Global,
    mirror: &mut Mirror<H>,
    keys: &[Box<dyn Verifier>],
    source: &mut ListSource<H>,
) -> Result<Pulled, PullFault> {
    pull(alloc, mirror, keys, source)
}

// The number of missing paths of a tree head, or None if the mirror does not have it.
fn missing_count<H: TreeHash>(
    alloc: Global,
    mirror: &Mirror<H>,
    size: u64,
    root: &Hash,
) -> Result<usize, AllocError> {
    match mirror.missing(alloc, size, root)? {
        Some(paths) => Ok(paths.len()),
        None => Ok(usize::MAX),
    }
}

// Settles the tree heads, and returns the number of marks that are remembered.
fn settle<H: TreeHash>(alloc: Global, mirror: &mut Mirror<H>) -> Result<usize, AllocError> {
    mirror.settle(alloc)?;
    Ok(mirror.remembered())
}
