//! Files that will be requested soon.
ghost use Rattle.std.specs.Prelude.{◌≤◌, All, IfOk, OnOk};
ghost use Rattle.copy_places.specs.Hints.{IsHinted};
ghost use Rattle.copy_places.specs.PlaceGets.{AsksPlaces};

use crate::places::Places;
use mirror_sources::Source;
use std::alloc::{AllocError, Global};
use tlog_tiles::Path;

// The maximum number of bundles in a hint.
const MOST_AHEAD: u64 = 64;

// Adds the full tiles whose first bundle has that index, the highest first: they are requested right before it. Tiles of level 0 are
// made from bundles, and not requested.
fn push_tiles(paths: &mut Vec<Path>, index: u64, bundles: u64) -> Result<(), AllocError>
    requires { index ≤ bundles }
    ensures { OnOk result (All IsHinted paths.old.items → All IsHinted paths.new.items) }
{
    for done in 0..6u32 {
        let level = 6 - done;
        let count = 1u64 << (8 * level);
        if index % count == 0 && bundles - index >= count {
            paths.push(Path::Tile {
                level,
                index: index / count,
                width: 256,
            })?;
        }
    }
    Ok(())
}

// The paths that are requested from that bundle on, in order, with 64 bundles at most. The tree has `bundles` full bundles.
fn paths_from(alloc: Global, first: u64, bundles: u64) -> Result<Vec<Path>, AllocError>
    ensures { IfOk result (λ paths. All IsHinted paths.items) }
{
    let mut paths = Vec::new(alloc);
    for index in first..bundles.min(first.saturating_add(MOST_AHEAD)) {
        paths.push(Path::Entries { index, width: 256 })?;
        push_tiles(&mut paths, index + 1, bundles)?;
    }
    Ok(paths)
}

/// Before a bundle is requested, gives the place that is first in turn a hint of it and of the files after it.
///
/// Files are requested from left to right, and only those that the caller lacks. So it lacks the later files too, unless the bundle was
/// damaged: then the hint may name files that it has, and their replies are dropped. Before a tile there is no hint: the caller may have
/// bundles below it. There is no hint if memory is refused.
pub(crate) fn expect_from<S: Source + Drop>(
    alloc: Global,
    places: &mut Places<S>,
    path: &Path,
    bundles: u64,
)
    ensures { AsksPlaces S.may_answer S.failed S.asked (λ p. ⊥) places.old places.new }
{
    let Path::Entries { index, .. } = path else {
        return;
    };
    let Ok(paths) = paths_from(alloc, *index, bundles) else {
        return;
    };
    places.expect(&paths);
}
