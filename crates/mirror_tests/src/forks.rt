//! A fork of two lists with the same digest. `tests/forks.runs` has forks of logs without collisions.
use crate::given::{take_letters, take_log};
use std::alloc::{AllocError, Global};
use std::process::Abort;
use std::test::Fail;
use tlog_hash::{SumTree, TreeHash};
use tlog_mirror::{Fork, Mirror};

// The tree heads of two logs, and their entries of one byte each.
const LOGS: [(&str, &[u8]); 2] = [
    (
        "3\nPgAAAAAAAAAAAAAAAAAAAAAAAAAAAAAAAAAAAAAAAAA=",
        b"\x01\x02\x39",
    ),
    (
        "4\nowAAAAAAAAAAAAAAAAAAAAAAAAAAAAAAAAAAAAAAAAA=",
        b"\x14\x1e\x0a\x64",
    ),
];

const FORK: &str =
    "fork 3 PgAAAAAAAAAAAAAAAAAAAAAAAAAAAAAAAAAAAAAAAAA= 4 owAAAAAAAAAAAAAAAAAAAAAAAAAAAAAAAAAAAAAAAAA=\n";

// The first three entries of the second log have the root of the first log.
#[test]
fn fork_under_collisions(rt: HostRuntime) -> Result<(), Fail> {
    let mut mirror = Mirror::<SumTree>::new(rt.alloc(), "ex")?;
    let answer = takes_and_tells(&rt, rt.alloc(), &mut mirror);
    drop(mirror);
    answer
}

// A mirror that takes both logs reports the fork.
fn takes_and_tells<H: TreeHash>(
    rt: &impl Abort,
    alloc: Global,
    mirror: &mut Mirror<H>,
) -> Result<(), Fail> {
    take_both(alloc, mirror)?;
    tells_fork(rt, alloc, mirror)
}

// The mirror takes both logs.
fn take_both<H: TreeHash>(alloc: Global, mirror: &mut Mirror<H>) -> Result<(), Fail> {
    for &(head, letters) in &LOGS {
        take_log(alloc, mirror, head, letters)?;
        take_letters(alloc, mirror, letters)?;
    }
    Ok(())
}

// The mirror has two complete tree heads, and reports that fork.
fn tells_fork<H: TreeHash>(rt: &impl Abort, alloc: Global, mirror: &Mirror<H>) -> Result<(), Fail> {
    assert!(rt; forks_at_last(alloc, mirror)?.len() == 1);
    assert!(rt; mirror.forks_text(alloc)?.as_str() == FORK);
    assert!(rt; writes_fork(alloc, mirror)?);
    let heads = mirror.heads(alloc)?;
    assert!(rt; heads.len() == 2);
    assert!(rt; heads[0].complete && heads[1].complete);
    Ok(())
}

// Whether the line of that fork is written.
fn writes_fork<H: TreeHash>(alloc: Global, mirror: &Mirror<H>) -> Result<bool, Fail> {
    let mut written = Vec::new(alloc);
    let forked = mirror.write_forks(alloc, &mut written)?;
    Ok(forked && written.as_slice() == FORK.as_bytes())
}

// The forks. If memory is refused, as by `rt try --test --fail-alloc N`, a second call returns them.
fn forks_at_last<H: TreeHash>(alloc: Global, mirror: &Mirror<H>) -> Result<Vec<Fork>, AllocError> {
    match mirror.forks(alloc) {
        Ok(forks) => Ok(forks),
        Err(AllocError) => mirror.forks(alloc),
    }
}

// Refused memory in the two lists: nothing is lost, and a second call gives them.
#[test]
fn forks_again_after_want_of_memory(rt: HostRuntime) -> Result<(), Fail> {
    let mut mirror = Mirror::<SumTree>::new(rt.alloc(), "ex")?;
    let answer = lists_forks(&rt, rt.alloc(), &mut mirror);
    drop(mirror);
    answer
}

fn lists_forks<H: TreeHash>(
    rt: &impl Abort,
    alloc: Global,
    mirror: &mut Mirror<H>,
) -> Result<(), Fail> {
    take_both(alloc, mirror)?;
    assert!(rt; forks_at_last(alloc, mirror)?.len() == 1);
    Ok(())
}

#[test]
fn heads_again_after_want_of_memory(rt: HostRuntime) -> Result<(), Fail> {
    let mut mirror = Mirror::<SumTree>::new(rt.alloc(), "ex")?;
    let answer = lists_heads(&rt, rt.alloc(), &mut mirror);
    drop(mirror);
    answer
}

fn lists_heads<H: TreeHash>(
    rt: &impl Abort,
    alloc: Global,
    mirror: &mut Mirror<H>,
) -> Result<(), Fail> {
    take_both(alloc, mirror)?;
    let heads = match mirror.heads(alloc) {
        Ok(heads) => heads,
        Err(AllocError) => mirror.heads(alloc)?,
    };
    assert!(rt; heads.len() == 2 && heads[0].complete && heads[1].complete);
    Ok(())
}
