//! What is served of a log, which is laid out in memory, with a second call if memory was refused.
use crate::given::{BUNDLE_OF_3, HEAD_OF_3, kept, take_note, tile_of_3};
use std::alloc::Global;
use std::process::Abort;
use std::test::Fail;
use tlog_hash::{Sha256Tree, TreeHash};
use tlog_mirror::Mirror;
use tlog_text::read_hash;

#[test]
fn lays_out_again_after_want_of_memory(rt: HostRuntime) -> Result<(), Fail> {
    let row = tile_of_3::<Sha256Tree>(rt.alloc())?;
    let mut mirror = mirror_of_3::<Sha256Tree>(rt.alloc(), &row)?;
    let answer = lays_out_at_last(&rt, rt.alloc(), &mut mirror, &row);
    drop(mirror);
    answer
}

// A mirror that took the tree head of the three entries, whose leaf hashes are that row, and then their bundle.
fn mirror_of_3<H: TreeHash>(alloc: Global, row: &[u8]) -> Result<Mirror<H>, Fail> {
    let mut mirror = Mirror::<H>::new(alloc, "ex")?;
    let answer = take_3(alloc, &mut mirror, row);
    kept(mirror, answer)
}

// Takes that tree head, and then the bundle.
fn take_3<H: TreeHash>(alloc: Global, mirror: &mut Mirror<H>, row: &[u8]) -> Result<(), Fail> {
    take_note(alloc, mirror, HEAD_OF_3.as_bytes(), &[row])?;
    mirror.take_bundle(alloc, 3, BUNDLE_OF_3)?;
    Ok(())
}

// Lays out the log of the three entries, whose leaf hashes are that row. The mirror serves it all the time.
fn lays_out_at_last<H: TreeHash>(
    rt: &impl Abort,
    alloc: Global,
    mirror: &mut Mirror<H>,
    row: &[u8],
) -> Result<(), Fail> {
    if mirror.lay_out(alloc).is_err() {
        serves_3(rt, alloc, mirror, row)?;
        mirror.lay_out(alloc)?;
    }
    serves_3(rt, alloc, mirror, row)
}

// The mirror serves the row of the three entries.
fn serves_3<H: TreeHash>(
    rt: &impl Abort,
    alloc: Global,
    mirror: &Mirror<H>,
    row: &[u8],
) -> Result<(), Fail> {
    let tile = mirror.tile(alloc, 0, 0, 3)?;
    assert!(rt; tile.as_deref() == Some(row));
    Ok(())
}

// Ranges of the three entries, and the tree hashes of these. The ranges behind the last entry are empty, or are none.
const RANGES: [(u64, u64, Option<&str>); 6] = [
    (0, 3, Some("rra8/idLcKFPsGel5VeCZNsPqbUa9eC6FZFY8yngbnc=")),
    (0, 2, Some("+sVCA+fMaWzw38tCySodnbr3CtnmIfS9jZhmLwDjwSU=")),
    (2, 1, Some("ApjRIpBtz8EIkstTpzmS/FufST6kybrbJ7eRtBJ6f+c=")),
    (3, 0, Some("47DEQpj8HBSa+/TImW+5JCeuQeRkm5NMpJWZG3hSuFU=")),
    (4, 0, None),
    (1, u64::MAX, None),
];

#[test]
fn range_hashes_of_e3(rt: HostRuntime) -> Result<(), Fail> {
    let row = tile_of_3::<Sha256Tree>(rt.alloc())?;
    let mirror = mirror_of_3::<Sha256Tree>(rt.alloc(), &row)?;
    gives_ranges(&rt, &mirror);
    drop(mirror);
    Ok(())
}

fn gives_ranges<H: TreeHash>(rt: &impl Abort, mirror: &Mirror<H>) {
    for &(start, len, text) in &RANGES {
        let want = match text {
            Some(text) => read_hash(text),
            None => None,
        };
        assert!(rt; mirror.range_hash(start, len) == want, "{start}, {len}");
    }
}
