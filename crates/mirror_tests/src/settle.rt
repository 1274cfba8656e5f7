//! The number of marks that a mirror remembers of complete tree heads. A program in another language computed the roots.
use crate::given::take_head;
use std::alloc::{AllocError, Global};
use std::process::Abort;
use std::test::Fail;
use tlog_hash::{Hash, Sha256Tree, TreeHash};
use tlog_mirror::Mirror;

// Settles a mirror, which then remembers the given number of marks. If memory is refused, as by
// `rt try --test --fail-alloc N`, no marks are lost, and a second call settles the mirror.
fn settles<H: TreeHash>(
    rt: &impl Abort,
    alloc: Global,
    mirror: &mut Mirror<H>,
    count: usize,
) -> Result<(), Fail> {
    let before = mirror.remembered();
    if settle(alloc, mirror).is_err() {
        assert!(rt; before <= mirror.remembered());
        settle(alloc, mirror)?;
    }
    assert!(rt; mirror.remembered() == count);
    Ok(())
}

// It ensures nothing, so that its caller is cheap to check.
fn settle<H: TreeHash>(alloc: Global, mirror: &mut Mirror<H>) -> Result<(), AllocError> {
    mirror.settle(alloc)
}

// Also the row settle-empty, for the same mirror before it takes anything.
#[test]
fn settle_e3(rt: HostRuntime) -> Result<(), Fail> {
    let mut mirror = Mirror::<Sha256Tree>::new(rt.alloc(), "ex")?;
    let answer = settles_e3(&rt, rt.alloc(), &mut mirror);
    drop(mirror);
    answer
}

// Settles an empty mirror, then one with the tree head of three numbers, and one that also has the numbers, twice.
fn settles_e3<H: TreeHash>(
    rt: &impl Abort,
    alloc: Global,
    mirror: &mut Mirror<H>,
) -> Result<(), Fail> {
    settles(rt, alloc, mirror, 0)?;
    take_number_head(alloc, mirror)?;
    settles(rt, alloc, mirror, 0)?;
    mirror.take_bundle(
        alloc,
        3,
        b"\x00\x02\x00\x00\x00\x02\x00\x01\x00\x02\x00\x02",
    )?;
    assert!(rt; mirror.remembered() == 0);
    for _ in 0..2u32 {
        settles(rt, alloc, mirror, 5)?;
    }
    Ok(())
}

// Takes the tree head of the numbers 0 to 2, each in two bytes.
fn take_number_head<H: TreeHash>(alloc: Global, mirror: &mut Mirror<H>) -> Result<(), Fail> {
    let mut row = Vec::new(alloc);
    for number in 0..3u16 {
        row.extend_from_slice(H::leaf(&number.to_be_bytes()).as_slice())?;
    }
    let head = "3\n8bnxZGS31f08aQe6Fx0eVantFhgeChNfXlXJNMPL5Ao=";
    take_head(alloc, mirror, head, &[row.as_slice()])
}

// The tree head of 65,536 empty entries, and that of the first 257 of them.
const FIRST_HEAD: &str = "65536\n2DOJrJogf7fb3Ekvu1a5SC8ZFwaZ4iS+ZGlMyIWjoqI=";

const SECOND_HEAD: &str = "257\nJFw1mL/gcns20/IeaJ7u6DxGhgx36kbwtSs7P57BU6Y=";

// Also the row settle-65536, for the first tree head. The second tree head adds only its whole list.
#[test]
fn settle_two(rt: HostRuntime) -> Result<(), Fail> {
    let mut mirror = Mirror::<Sha256Tree>::new(rt.alloc(), "ex")?;
    let answer = settles_two(&rt, rt.alloc(), &mut mirror);
    drop(mirror);
    answer
}

// Settles a mirror of a long log with its tree head and bundles, and then with two tree heads of it.
fn settles_two<H: TreeHash>(
    rt: &impl Abort,
    alloc: Global,
    mirror: &mut Mirror<H>,
) -> Result<(), Fail> {
    let leaf = doubled::<H>(0);
    let bundle = doubled::<H>(8);
    let edge = doubled::<H>(16);
    take_head(alloc, mirror, FIRST_HEAD, &[edge.as_slice()])?;
    take_equal(alloc, mirror, 2)?;
    settles(rt, alloc, mirror, 17)?;
    take_head(
        alloc,
        mirror,
        SECOND_HEAD,
        &[leaf.as_slice(), bundle.as_slice()],
    )?;
    settles(rt, alloc, mirror, 18)
}

// The tree hash of 2 to the power of `times` empty entries.
fn doubled<H: TreeHash>(times: u32) -> Hash {
    let mut hash = H::leaf(b"");
    for _ in 0..times {
        hash = H::node(&hash, &hash);
    }
    hash
}

// Takes the full tile of each level from 1 to below `top`, for empty entries, and a bundle of 256 of them.
fn take_equal<H: TreeHash>(alloc: Global, mirror: &mut Mirror<H>, top: u32) -> Result<(), Fail> {
    for level in 1..top {
        let row = equal_row::<H>(alloc, level, 256)?;
        mirror.take_tile(alloc, 256, &row)?;
    }
    let bundle = vec![in alloc; 0u8; 512]?;
    mirror.take_bundle(alloc, 256, &bundle)?;
    Ok(())
}

// `width` hashes of that level, for empty entries.
fn equal_row<H: TreeHash>(alloc: Global, level: u32, width: u32) -> Result<Vec<u8>, AllocError> {
    let hash = doubled::<H>(level.saturating_mul(8));
    let mut row = Vec::new(alloc);
    for _ in 0..width {
        row.extend_from_slice(hash.as_slice())?;
    }
    Ok(row)
}
