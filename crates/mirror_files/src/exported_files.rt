//! The files of the served log, put in order: all of them, or those that are new since an earlier size.
ghost use Rattle.std.specs.Prelude.{◌≡◌, ◌≤◌, ℕ, List, [], ◌∷◌, length, IfOk, IfSome};
ghost use Rattle.std.specs.List.{filter};
ghost use Rattle.tlog_tiles.specs.Tiles.{IsWithin};
ghost use Rattle.mirror_trees.specs.Tops.{IsListOf};
ghost use Rattle.mirror_files.specs.Exports.{AddsFiles};
ghost use Rattle.mirror_folders.specs.Files.{served_bytes, files_at, kind_paths, kind_level};
ghost use Rattle.mirror_folders.specs.Flushes.{SecuresPuts};
ghost use Rattle.mirror_folders.specs.Shelf.{CountsFailures};
ghost use Rattle.mirror_files.specs.Exports.{FlushesExport};
ghost use Rattle.mirror_folders.specs.Since.{is_new, since_parts, since_paths};

use mirror_folders::{FileKind, Shelf, ShelfError, files_to_put, lacks, level_at, path_at};
use mirror_trees::TopRanges;
use std::alloc::{AllocError, Global};
use tlog_hash::TreeHash;
use tlog_shape::{edge_index, edge_width};
use tlog_tiles::Path;

fn file_bytes<H: TreeHash>(
    alloc: Global,
    top: &TopRanges<'_, H>,
    path: Path,
) -> Result<Vec<u8>, AllocError>
    requires { IsWithin top.now.size path }
    ensures { IfOk result (λ bytes. (entries : List (List ℕ))
        → IsListOf H.digest top.now entries → bytes.items ≡ served_bytes H.digest top.now.note entries path) }
{
    match path {
        Path::Checkpoint => unreachable!(),
        Path::Tile {
            level,
            index,
            width,
        } => match top.tile(alloc, level, index, width)? {
            Some(bytes) => Ok(bytes),
            None => unreachable!(),
        },
        Path::Entries { index, width } => match top.bundle(alloc, index, width)? {
            Some(bytes) => Ok(bytes),
            None => unreachable!(),
        },
    }
}

fn put_file<H: TreeHash, S: Shelf>(
    alloc: Global,
    top: &TopRanges<'_, H>,
    shelf: &mut S,
    path: Path,
) -> Result<(), ShelfError>
    requires { IsWithin top.now.size path }
    ensures recorded { (entries : List (List ℕ)) → IsListOf H.digest top.now entries
        → AddsFiles (S.puts shelf.old) (S.puts shelf.new)
        (files_at H.digest top.now.note entries (path ∷ [])) result }
    ensures secured { SecuresPuts (S.puts shelf.old) (S.puts shelf.new) (S.flushes shelf.old)
        (S.flushes shelf.new) }
    ensures counted { CountsFailures (S.failed shelf.old) (S.failed shelf.new) result }
{
    let bytes = file_bytes(alloc, top, path)?;
    let put = shelf.put(&path, &bytes);
    drop(bytes);
    put
}

// Puts a tile or a bundle, if a log of the first `since` entries lacks it.
fn put_new<H: TreeHash, S: Shelf>(
    alloc: Global,
    top: &TopRanges<'_, H>,
    since: u64,
    shelf: &mut S,
    path: Path,
) -> Result<(), ShelfError>
    requires { IsWithin top.now.size path }
    ensures recorded { (entries : List (List ℕ)) → IsListOf H.digest top.now entries
        → AddsFiles (S.puts shelf.old) (S.puts shelf.new)
        (files_at H.digest top.now.note entries (filter (is_new since) (path ∷ []))) result }
    ensures secured { SecuresPuts (S.puts shelf.old) (S.puts shelf.new) (S.flushes shelf.old)
        (S.flushes shelf.new) }
    ensures counted { CountsFailures (S.failed shelf.old) (S.failed shelf.new) result }
{
    if !lacks(since, &path) {
        return Ok(());
    }
    put_file(alloc, top, shelf, path)
}

// Puts the files of a kind: the full ones by rising index, then the partial one, if there is one.
fn put_kind<H: TreeHash, S: Shelf>(
    alloc: Global,
    top: &TopRanges<'_, H>,
    size: u64,
    since: u64,
    shelf: &mut S,
    kind: FileKind,
) -> Result<(), ShelfError>
    requires size { size ≡ top.now.size }
    requires level { kind_level kind ≤ 7 }
    ensures recorded { (entries : List (List ℕ)) → IsListOf H.digest top.now entries
        → AddsFiles (S.puts shelf.old) (S.puts shelf.new)
        (files_at H.digest top.now.note entries
        (filter (is_new since) (kind_paths top.now.size kind))) result }
    ensures secured { SecuresPuts (S.puts shelf.old) (S.puts shelf.new) (S.flushes shelf.old)
        (S.flushes shelf.new) }
    ensures counted { CountsFailures (S.failed shelf.old) (S.failed shelf.new) result }
{
    let level = level_at(kind);
    let edge = edge_index(size, level);
    for index in 0..edge {
        put_new(alloc, top, since, shelf, path_at(kind, index, 256))?;
    }
    let width = edge_width(size, level);
    if width == 0 {
        return Ok(());
    }
    put_new(alloc, top, since, shelf, path_at(kind, edge, width))
}

// Gives the shelf the number of files to put, including the checkpoint.
fn expect_files<S: Shelf>(shelf: &mut S, size: u64, since: u64)
    ensures puts { S.puts shelf.new ≡ S.puts shelf.old }
    ensures still { S.flushes shelf.new ≡ S.flushes shelf.old }
    ensures failed { S.failed shelf.new ≡ S.failed shelf.old }
    ensures expected { IfSome (S.expected shelf.new)
        (λ all. all ≡ length (since_paths since size)) }
{
    shelf.expect(files_to_put(size, since));
}

// Puts every tile, then every bundle, except those that a log of the first `since` entries has. Before that it gives
// the shelf the number of these files, including the checkpoint.
pub(crate) fn put_parts<H: TreeHash, S: Shelf>(
    alloc: Global,
    top: &TopRanges<'_, H>,
    size: u64,
    since: u64,
    shelf: &mut S,
) -> Result<(), ShelfError>
    requires size { size ≡ top.now.size }
    ensures recorded { (entries : List (List ℕ)) → IsListOf H.digest top.now entries
        → AddsFiles (S.puts shelf.old) (S.puts shelf.new)
        (files_at H.digest top.now.note entries (since_parts since top.now.size)) result }
    ensures secured { SecuresPuts (S.puts shelf.old) (S.puts shelf.new) (S.flushes shelf.old)
        (S.flushes shelf.new) }
    ensures counted { CountsFailures (S.failed shelf.old) (S.failed shelf.new) result }
{
    expect_files(shelf, size, since);
    for level in 0..8u32 {
        put_kind(alloc, top, size, since, shelf, FileKind::Tiles(level))?;
    }
    put_kind(alloc, top, size, since, shelf, FileKind::Bundles)
}

// Puts every tile, then every bundle, then the checkpoint.
pub(crate) fn put_served<H: TreeHash, S: Shelf>(
    alloc: Global,
    top: &TopRanges<'_, H>,
    size: u64,
    shelf: &mut S,
) -> Result<(), ShelfError>
    requires size { size ≡ top.now.size }
    ensures recorded { (entries : List (List ℕ)) → IsListOf H.digest top.now entries
        → AddsFiles (S.puts shelf.old) (S.puts shelf.new)
        (files_at H.digest top.now.note entries (since_paths 0 top.now.size)) result }
    ensures flushed { FlushesExport (S.puts shelf.old) (S.puts shelf.new) (S.flushes shelf.old)
        (S.flushes shelf.new) result }
    ensures counted { CountsFailures (S.failed shelf.old) (S.failed shelf.new) result }
{
    put_parts(alloc, top, size, 0, shelf)?;
    shelf.put(&Path::Checkpoint, top.note().bytes())
}
