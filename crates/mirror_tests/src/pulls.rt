//! Pulls from a list of entries, whose gets are counted, and from sources that lie or fail. `tests/pulls.runs` and
//! `scripts/raw-runs` have pulls from folders and servers.
//!
//! C(n) is the log of the numbers 0 to n - 1, each in two bytes, big-endian.
mod lying;

ghost use Rattle.std.specs.Prelude.{map, IfOk};
ghost use Rattle.mirror_model.specs.TrueLaws.{AreShort};

use lying::{Liar, Lie, lying_log};
use mirror_pull::{ListSource, PullFault, Pulled, Source, pull};
use signed_note::{HmacKey, KeyFault, Verifier};
use std::alloc::{AllocError, Global};
use std::process::Abort;
use std::test::Fail;
use tlog_hash::{Sha256Tree, TreeHash};
use tlog_mirror::Mirror;

// The numbers from `from` on, `count` of them.
fn numbers(alloc: Global, from: u16, count: u16) -> Result<Vec<Vec<u8>>, AllocError>
    ensures { IfOk result (λ entries. AreShort (map (λ e. e.items) entries.items)) }
{
    let mut entries = Vec::new(alloc);
    for i in 0..count {
        let number = from.wrapping_add(i);
        entries.push(Vec::from_slice(alloc, &number.to_be_bytes())?)?;
    }
    Ok(entries)
}

// The key of these logs: `ex`, id 1, secret 00.
fn key(alloc: Global) -> Result<HmacKey, KeyFault> {
    HmacKey::new(alloc, "ex", 1, &[0])
}

// A source over the numbers from `from` on, `count` of them.
pub(crate) fn list<H: TreeHash>(
    alloc: Global,
    from: u16,
    count: u16,
) -> Result<ListSource<H>, Fail> {
    let entries = numbers(alloc, from, count)?;
    Ok(ListSource::new(alloc, "ex", entries, key(alloc)?)?)
}

// The result of a pull, under the key of these logs. It ensures nothing, so that its callers are cheap to check.
fn end_of_pull<H: TreeHash, S: Source>(
    alloc: Global,
    mirror: &mut Mirror<H>,
    source: &mut S,
) -> Result<Result<Pulled, PullFault>, Fail> {
    let mut keys: Vec<Box<dyn Verifier>> = Vec::new(alloc);
    keys.push(Box::new(alloc, key(alloc)?)?)?;
    Ok(pull(alloc, mirror, &keys, source))
}

// A pull of 300 entries, and a second one if the first ran out of memory, as by `rt try --test --fail-alloc N`.
#[test]
fn pull_again_after_want_of_memory(rt: HostRuntime) -> Result<(), Fail> {
    let mut source = list::<Sha256Tree>(rt.alloc(), 0, 300)?;
    let answer = pulls_first::<Sha256Tree, _>(&rt, rt.alloc(), &mut source);
    drop(source);
    answer
}

fn pulls_first<H: TreeHash, S: Source>(
    rt: &impl Abort,
    alloc: Global,
    source: &mut S,
) -> Result<(), Fail> {
    let mut mirror = Mirror::<H>::new(alloc, "ex")?;
    let answer = pulls_from(rt, alloc, &mut mirror, source);
    drop(mirror);
    answer
}

fn pulls_from<H: TreeHash, S: Source>(
    rt: &impl Abort,
    alloc: Global,
    mirror: &mut Mirror<H>,
    source: &mut S,
) -> Result<(), Fail> {
    let mut end = end_of_pull(alloc, mirror, source)?;
    if end == Err(PullFault::OutOfMemory) {
        end = end_of_pull(alloc, mirror, source)?;
    }
    let pulled = end?;
    assert!(rt; pulled.size == 300 && pulled.refused == 0 && pulled.complete);
    Ok(())
}

// What a pull is due to do: the size of the mirror's log before it, if it has one; the lie and the size of the log that is
// pulled; the gets, the rounds and the refused replies; whether the log is then complete, and the size that is served.
#[derive(Clone, Copy)]
struct Row {
    before: Option<u16>,
    lie: Lie,
    size: u16,
    gets: usize,
    rounds: u32,
    refused: u64,
    complete: bool,
    served: Option<u64>,
}

const PULL_257: Row = Row {
    before: None,
    lie: Lie::Nothing,
    size: 257,
    gets: 5,
    rounds: 1,
    refused: 0,
    complete: true,
    served: Some(257),
};

#[test]
fn pull_257(rt: HostRuntime) -> Result<(), Fail> {
    let nothing = Row {
        size: 0,
        gets: 1,
        rounds: 0,
        served: Some(0),
        ..PULL_257
    };
    assert_row::<Sha256Tree>(&rt, rt.alloc(), &PULL_257)?;
    assert_row::<Sha256Tree>(&rt, rt.alloc(), &nothing)
}

#[test]
fn false_bundle(rt: HostRuntime) -> Result<(), Fail> {
    let row = Row {
        before: Some(3),
        lie: Lie::FalseBundle,
        complete: false,
        served: Some(3),
        ..PULL_257
    };
    assert_row::<Sha256Tree>(&rt, rt.alloc(), &row)
}

#[test]
fn partials_gone(rt: HostRuntime) -> Result<(), Fail> {
    let row = Row {
        lie: Lie::PartialsGone,
        gets: 7,
        ..PULL_257
    };
    assert_row::<Sha256Tree>(&rt, rt.alloc(), &row)
}

#[test]
fn older_checkpoint(rt: HostRuntime) -> Result<(), Fail> {
    let row = Row {
        before: Some(257),
        size: 3,
        gets: 2,
        rounds: 0,
        ..PULL_257
    };
    assert_row::<Sha256Tree>(&rt, rt.alloc(), &row)
}

#[test]
fn swapped_bundles(rt: HostRuntime) -> Result<(), Fail> {
    let row = Row {
        lie: Lie::SwappedBundles,
        size: 512,
        gets: 4,
        served: Some(512),
        ..PULL_257
    };
    assert_row::<Sha256Tree>(&rt, rt.alloc(), &row)
}

#[test]
fn cut_bundle(rt: HostRuntime) -> Result<(), Fail> {
    let row = Row {
        lie: Lie::CutBundle,
        refused: 1,
        complete: false,
        served: None,
        ..PULL_257
    };
    assert_row::<Sha256Tree>(&rt, rt.alloc(), &row)
}

// The pull of that row.
fn assert_row<H: TreeHash>(rt: &impl Abort, alloc: Global, row: &Row) -> Result<(), Fail> {
    let mut mirror = Mirror::<H>::new(alloc, "ex")?;
    let answer = assert_pull(rt, alloc, &mut mirror, row);
    drop(mirror);
    answer
}

fn assert_pull<H: TreeHash>(
    rt: &impl Abort,
    alloc: Global,
    mirror: &mut Mirror<H>,
    row: &Row,
) -> Result<(), Fail> {
    if let Some(before) = row.before {
        pull_list(alloc, mirror, before)?;
    }
    let mut source = lying_log::<H>(alloc, row.lie, row.size)?;
    let end = end_of_pull(alloc, mirror, &mut source);
    let gets = source.log.asked().len();
    drop(source);
    assert_end(rt, row, end??, gets);
    assert!(rt; serves(mirror, row.served));
    Ok(())
}

// The pull ended so after that number of gets.
fn assert_end(rt: &impl Abort, row: &Row, pulled: Pulled, gets: usize) {
    assert!(rt; pulled.size == u64::from(row.size) && gets == row.gets);
    assert!(rt; pulled.rounds == row.rounds && pulled.refused == row.refused);
    assert!(rt; pulled.complete == row.complete);
}

// Pulls C(n) from the list itself.
fn pull_list<H: TreeHash>(alloc: Global, mirror: &mut Mirror<H>, n: u16) -> Result<(), Fail> {
    let mut source = list::<H>(alloc, 0, n)?;
    let end = end_of_pull(alloc, mirror, &mut source);
    drop(source);
    end??;
    Ok(())
}

// Whether that number of entries is served, or none at all.
fn serves<H: TreeHash>(mirror: &Mirror<H>, size: Option<u64>) -> bool {
    match size {
        Some(size) => {
            mirror.range_hash(size, 0).is_some()
                && mirror.range_hash(size.wrapping_add(1), 0).is_none()
        }
        None => mirror.range_hash(0, 0).is_none(),
    }
}

// The source of C(257) fails after k gets, and from then on.
#[test]
fn failing_source(rt: HostRuntime) -> Result<(), Fail> {
    for passes in 0..6u64 {
        let mut mirror = Mirror::<Sha256Tree>::new(rt.alloc(), "ex")?;
        let answer = fails_after(&rt, rt.alloc(), &mut mirror, passes);
        drop(mirror);
        answer?;
    }
    Ok(())
}

fn fails_after<H: TreeHash>(
    rt: &impl Abort,
    alloc: Global,
    mirror: &mut Mirror<H>,
    passes: u64,
) -> Result<(), Fail> {
    let mut source = lying_log::<H>(alloc, Lie::Nothing, 257)?;
    source.passes = passes;
    let end = end_of_pull(alloc, mirror, &mut source);
    let failures = source.failures;
    drop(source);
    assert!(rt; mirror.note_at(0).is_some() == (passes >= 3));
    assert!(rt; failures == u64::from(passes < 5));
    match end? {
        Ok(pulled) => assert_end(rt, &PULL_257, pulled, 5),
        Err(fault) => assert!(rt; fault == PullFault::Source && passes < 5),
    }
    Ok(())
}
