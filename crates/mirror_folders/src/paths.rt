//! The paths of all files of a log, in the order in which they are put.
ghost use Rattle.std.specs.Prelude.{◌≡◌, ◌++◌, ◌≤◌, IfOk, OnOk};
ghost use Rattle.mirror_folders.specs.Files.{kind_level, kind_paths, paths_of};

use crate::kind::{FileKind, level_at, path_at};
use std::alloc::{AllocError, Global};
use tlog_shape::{edge_index, edge_width};
use tlog_tiles::Path;

// Adds the files of a kind: the full ones by rising index, then the partial one, if there is one.
fn push_kind(paths: &mut Vec<Path>, size: u64, kind: FileKind) -> Result<(), AllocError>
    requires { kind_level kind ≤ 7 }
    ensures { OnOk result (paths.new.items ≡ paths.old.items ++ kind_paths size kind) }
{
    let level = level_at(kind);
    let edge = edge_index(size, level);
    for index in 0..edge {
        paths.push(path_at(kind, index, 256))?;
    }
    let width = edge_width(size, level);
    if width == 0 {
        return Ok(());
    }
    paths.push(path_at(kind, edge, width))?;
    Ok(())
}

/// The paths of a log with `size` entries (C2SP tlog-tiles), in the order of `export`: its tiles by rising level and
/// index, its bundles, and last the checkpoint.
///
/// ```text
/// log_paths(alloc, 3)?  // tile/0/000.p/3, tile/entries/000.p/3, checkpoint
/// ```
///
/// # Errors
///
/// Memory was refused.
pub fn log_paths(alloc: Global, size: u64) -> Result<Vec<Path>, AllocError>
    ensures { IfOk result (λ paths. paths.items ≡ paths_of size) }
{
    let mut paths = Vec::new(alloc);
    for level in 0..8u32 {
        push_kind(&mut paths, size, FileKind::Tiles(level))?;
    }
    push_kind(&mut paths, size, FileKind::Bundles)?;
    paths.push(Path::Checkpoint)?;
    Ok(paths)
}
