//! Items with colliding strings, under the digest that sums bytes.
use std::alloc::Global;
use std::process::Abort;
use std::test::Fail;
use tlog_hash::{SumTree, TreeHash};
use tlog_mirror::{Mirror, TakeFault};

// Two entries that collide, in one bundle and in two.
#[test]
fn colliding_leaves(rt: HostRuntime) -> Result<(), Fail> {
    let mut mirror = Mirror::<SumTree>::new(rt.alloc(), "ex")?;
    let answer = refuses_leaves(&rt, rt.alloc(), &mut mirror);
    drop(mirror);
    answer
}

fn refuses_leaves<H: TreeHash>(
    rt: &impl Abort,
    alloc: Global,
    mirror: &mut Mirror<H>,
) -> Result<(), Fail> {
    refuses(rt, alloc, mirror, 2, &[0, 2, 1, 2, 0, 2, 2, 1], 0);
    mirror.take_bundle(alloc, 1, &[0, 2, 1, 2])?;
    refuses(rt, alloc, mirror, 1, &[0, 2, 2, 1], 1);
    Ok(())
}

// The node of the first two entries collides with the third entry.
#[test]
fn colliding_join(rt: HostRuntime) -> Result<(), Fail> {
    let mut mirror = Mirror::<SumTree>::new(rt.alloc(), "ex")?;
    refuses(
        &rt,
        rt.alloc(),
        &mut mirror,
        3,
        &[0, 1, 1, 0, 1, 2, 0, 1, 4],
        0,
    );
    drop(mirror);
    Ok(())
}

// A bundle of one to three entries that collide is refused, and the mirror holds the given number of strings.
fn refuses<H: TreeHash>(
    rt: &impl Abort,
    alloc: Global,
    mirror: &mut Mirror<H>,
    width: u8,
    bytes: &[u8],
    held: usize,
) {
    assert!(rt; width > 0);
    let answer = mirror.take_bundle(alloc, u32::from(width), bytes);
    assert!(rt; answer == Err(TakeFault::Collision));
    assert!(rt; mirror.strings().len() == held);
}
