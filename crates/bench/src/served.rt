//! Served files: tiles, bundles, proofs and the checkpoint.
use crate::clock::{now, report_since};
use std::alloc::{AllocError, Global};
use std::time::CpuClock;
use tlog_hash::TreeHash;
use tlog_mirror::Mirror;
use tlog_proof::{Ask, prove};

// The number of requests for each kind.
const TIMES: u32 = 1000;

// The number of hashes of a full tile, and of entries of a full bundle.
const WIDTH: u32 = 256;

// A kind of resource.
enum Kind {
    Tiles,
    Bundles,
    Proofs,
    Checkpoints,
}

// The kinds, with their names.
const KINDS: [(&str, Kind); 4] = [
    ("full tiles", Kind::Tiles),
    ("full bundles", Kind::Bundles),
    ("proofs", Kind::Proofs),
    ("checkpoints", Kind::Checkpoints),
];

/// Requests each kind from a settled mirror of `count` entries, before and after it lays out its files. The times are
/// compared with those of the same number of look-ups. A walk gives the time of a look-up, since it looks up each entry and
/// each pair.
pub(crate) fn measure_served<H: TreeHash, R: AllocGlobal + CpuClock + Print + Eprint>(
    rt: &R,
    mirror: &mut Mirror<H>,
    count: u32,
    walking: u128,
) -> anyhow::Result<()> {
    let strings = u128::from(count).saturating_mul(2);
    let asked = walking.saturating_mul(u128::from(TIMES));
    let look_ups = asked.checked_div(strings).unwrap_or(0);
    let _ = eprintln!(rt;
        "{count} entries: {TIMES} look-ups take {look_ups} ns, and of it {TIMES} times"
    );
    measure_kinds(rt, mirror, count, look_ups)?;
    lay_out(rt, mirror)?;
    measure_kinds(rt, mirror, count, look_ups)
}

// Lays out the files that the mirror serves, and reports the time.
fn lay_out<H: TreeHash, R: AllocGlobal + CpuClock + Eprint>(
    rt: &R,
    mirror: &mut Mirror<H>,
) -> Result<(), AllocError> {
    let start = now(rt);
    mirror.lay_out(rt.alloc())?;
    let took = now(rt).saturating_sub(start);
    let _ = eprintln!(rt; "  laid out in {took} ns");
    Ok(())
}

// Requests each kind, and reports the time and the number of replies.
fn measure_kinds<H: TreeHash, R: AllocGlobal + CpuClock + Print + Eprint>(
    rt: &R,
    mirror: &Mirror<H>,
    count: u32,
    look_ups: u128,
) -> anyhow::Result<()> {
    for (name, kind) in &KINDS {
        let start = now(rt);
        let given = count_given(rt.alloc(), mirror, kind, count);
        let _ = eprintln!(rt; "  {name}:");
        report_since(rt, "    asked of the mirror, ns", start, look_ups);
        println!(rt; "{name}: {given} given")?;
    }
    Ok(())
}

// Requests a kind from the mirror, and counts the replies. The requests are spread over a log of `count` entries, each far
// from the one before.
fn count_given<H: TreeHash>(alloc: Global, mirror: &Mirror<H>, kind: &Kind, count: u32) -> u32 {
    let mut given = 0u32;
    for number in 0..TIMES {
        let far = number.wrapping_mul(7919);
        let file = u64::from(far.checked_rem(count / WIDTH).unwrap_or(0));
        let is_there = match kind {
            Kind::Tiles => matches!(mirror.tile(alloc, 0, file, WIDTH), Ok(Some(_))),
            Kind::Bundles => matches!(mirror.bundle(alloc, file, WIDTH), Ok(Some(_))),
            Kind::Proofs => {
                is_proof_given(alloc, mirror, count, far.checked_rem(count).unwrap_or(0))
            }
            Kind::Checkpoints => mirror.top().is_some(),
        };
        given = given.saturating_add(u32::from(is_there));
    }
    given
}

// Whether the mirror gives a proof that the entry is in the log.
fn is_proof_given<H: TreeHash>(alloc: Global, mirror: &Mirror<H>, size: u32, index: u32) -> bool {
    let ask = Ask::Inclusion {
        size: u64::from(size),
        index: u64::from(index),
    };
    match mirror.top_ranges() {
        Some(top) => prove(alloc, &top, ask).is_ok(),
        None => false,
    }
}
