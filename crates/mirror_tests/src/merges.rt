//! A merge of mirrors of two logs. `tests/mirrors.runs` has the other merges of the row.
use crate::given::take_letters;
use std::alloc::Global;
use std::process::Abort;
use std::test::Fail;
use tlog_hash::{Sha256Tree, TreeHash};
use tlog_mirror::{MergeFault, Mirror};

// The last merge of merge-completes: with a mirror of another origin, which changes nothing.
#[test]
fn merge_completes(rt: HostRuntime) -> Result<(), Fail> {
    let mut mirror = Mirror::<Sha256Tree>::new(rt.alloc(), "ex")?;
    let answer = refuses_another(&rt, rt.alloc(), &mut mirror);
    drop(mirror);
    answer
}

fn refuses_another<H: TreeHash>(
    rt: &impl Abort,
    alloc: Global,
    mirror: &mut Mirror<H>,
) -> Result<(), Fail> {
    let mut other = Mirror::<H>::new(alloc, "ey")?;
    let answer = refuses(rt, alloc, mirror, &mut other);
    drop(other);
    answer
}

fn refuses<H: TreeHash>(
    rt: &impl Abort,
    alloc: Global,
    mirror: &mut Mirror<H>,
    other: &mut Mirror<H>,
) -> Result<(), Fail> {
    take_letters(alloc, other, b"ab")?;
    assert!(rt; mirror.merge(alloc, other) == Err(MergeFault::OtherOrigin));
    assert!(rt; mirror.strings().len() == 0);
    Ok(())
}
