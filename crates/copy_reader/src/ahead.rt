//! Hints of the next files.
ghost use Rattle.std.specs.Prelude.{◌≡◌, ◌≤◌};
ghost use Rattle.mirror_sources.specs.Source.{StaysWithin};

use mirror_sources::Source;
use std::alloc::{AllocError, Global};
use tlog_tiles::Path;

// The maximum number of bundles in a hint, each with its tile of level 0.
const MOST_AHEAD: u64 = 32;

// Adds the full tiles of higher levels whose first bundle has that index, the highest first: they are read right before it.
fn push_tiles(paths: &mut Vec<Path>, index: u64, bundles: u64) -> Result<(), AllocError>
    requires { index ≤ bundles }
{
    for done in 0..6u32 {
        let level = 6 - done;
        let count = 1u64 << (8 * level);
        if index % count == 0 && bundles - index >= count {
            paths.push(Path::Tile {
                level,
                index: index / count,
                width: 256,
            })?;
        }
    }
    Ok(())
}

// The paths that are read from that bundle on, in order, with 32 bundles at most. The tree has `bundles` full bundles.
fn paths_from(alloc: Global, first: u64, bundles: u64) -> Result<Vec<Path>, AllocError> {
    let mut paths = Vec::new(alloc);
    for index in first..bundles.min(first.saturating_add(MOST_AHEAD)) {
        paths.push(Path::Entries { index, width: 256 })?;
        paths.push(Path::Tile {
            level: 0,
            index,
            width: 256,
        })?;
        push_tiles(&mut paths, index + 1, bundles)?;
    }
    Ok(paths)
}

/// Before a bundle is read, gives the source a hint of it and of the files after it: at most 32 bundles. If memory is refused, there is
/// no hint. The hint is repeated before each bundle, since a source sends only some requests ahead.
pub(crate) fn expect_from<S: Source>(
    alloc: Global,
    source: &mut S,
    level: u32,
    first: u64,
    bundles: u64,
)
    ensures later { StaysWithin (S.may_answer source.old) (S.may_answer source.new) }
    ensures recorded { S.asked source.new ≡ S.asked source.old }
    ensures counted { S.failed source.new ≡ S.failed source.old }
{
    if level != 1 {
        return;
    }
    if let Ok(paths) = paths_from(alloc, first, bundles) {
        source.expect(&paths);
    }
}
