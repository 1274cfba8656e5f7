//! The rounds of a pull.
ghost use Rattle.std.specs.Prelude.{◌≡◌, ◌≤◌, ◌^◌, IfOk, All};
ghost use Rattle.tlog_text.specs.Answers.{seen};
ghost use Rattle.mirror_pull.specs.Asking.{AsksPaths, BlamesSource};
ghost use Rattle.mirror_pull.specs.Taking.{EndsAfterHead, GainsStrings, IsTakeable, TakesItem, item_at};
ghost use Rattle.mirror_pull.specs.Parts.{TakesPathHonestly, TakesPathsHonestly, WorksHonestly};
ghost use Rattle.mirror_pull.specs.Replying.{ListsLeft, PathFollows, PathsFollow, RoundsFollow};
ghost use Rattle.mirror_pull.specs.Answering.{refused_of, refused_of_fault};
ghost use Rattle.mirror_sources.specs.Source.{StaysWithin};

use crate::ask::{ask, is_asked};
use crate::asked::AskedPaths;
use crate::fault::PullFault;
use mirror_model::{TakeFault, walk_law};
use mirror_sources::Source;
use std::alloc::{AllocError, Global};
use tlog_hash::{Hash, TreeHash};
use tlog_mirror::Mirror;
use tlog_tiles::Path;

// The greatest number of paths in a hint, so that the time of a round is proportional to its paths.
const MOST_HINTED: usize = 64;

/// The answer of a pull to the fault of a tile or bundle.
fn refusal_of(fault: TakeFault) -> Result<bool, PullFault>
    ensures { result ≡ refused_of_fault fault }
{
    match fault {
        TakeFault::Collision => Err(PullFault::Collision),
        TakeFault::OutOfMemory => Err(PullFault::OutOfMemory),
        _ => Ok(true),
    }
}

/// Whether the tile or bundle was refused because it is not valid.
fn refusal(taken: Result<(), TakeFault>) -> Result<bool, PullFault>
    ensures { result ≡ refused_of taken }
{
    match taken {
        Ok(()) => Ok(false),
        Err(fault) => refusal_of(fault),
    }
}

/// Takes the bytes at a path; true if they were refused because they are not valid.
fn take_found<H: TreeHash>(
    alloc: Global,
    mirror: &mut Mirror<H>,
    path: Path,
    bytes: &[u8],
) -> Result<bool, PullFault>
    requires { IsTakeable path }
    ensures { TakesItem H.digest mirror.old.view (item_at path bytes.now) result mirror.new.view }
{
    match path {
        Path::Checkpoint => unreachable!(),
        Path::Tile { width, .. } => refusal(mirror.take_tile(alloc, width, bytes)),
        Path::Entries { width, .. } => refusal(mirror.take_bundle(alloc, width, bytes)),
    }
}

/// Requests a path and takes its bytes; true if they were refused because they are not valid. If a partial path is not
/// found, its full path is requested next.
fn take_path<H: TreeHash, S: Source>(
    alloc: Global,
    mirror: &mut Mirror<H>,
    source: &mut S,
    asked: &mut AskedPaths,
    path: Path,
) -> Result<bool, PullFault>
    requires { IsTakeable path }
    ensures recorded { AsksPaths asked.old.items asked.new.items (S.asked source.old)
        (S.asked source.new) result }
    ensures counted { BlamesSource (S.failed source.old) (S.failed source.new) result }
    ensures later { StaysWithin (S.may_answer source.old) (S.may_answer source.new) }
    ensures late { EndsAfterHead result }
    ensures gains { GainsStrings mirror.old.view mirror.new.view }
    ensures replied { PathFollows (S.may_answer source.old) (S.asked source.old)
        (S.asked source.new) asked.old.items asked.new.items
        H.digest mirror.old.view path mirror.new.view result }
    ensures honest { TakesPathHonestly (S.may_answer source.old) asked.old.items asked.new.items
        H.digest mirror.old.view path mirror.new.view result }
{
    if let Some(bytes) = ask(source, asked, path)? {
        return take_found(alloc, mirror, path, &bytes);
    }
    let full = path.full();
    match ask(source, asked, full)? {
        Some(bytes) => take_found(alloc, mirror, full, &bytes),
        None => Ok(false),
    }
}

// The paths from that position on, at most as many as a hint may have.
fn next_paths(paths: &[Path], at: usize) -> &[Path] {
    let Some(rest) = paths.get(at..) else {
        return &[];
    };
    &rest[..rest.len().min(MOST_HINTED)]
}

/// Gives the source a hint of the next paths, and does `take_path` for the first.
fn take_next<H: TreeHash, S: Source>(
    alloc: Global,
    mirror: &mut Mirror<H>,
    source: &mut S,
    asked: &mut AskedPaths,
    next: &[Path],
    path: Path,
) -> Result<bool, PullFault>
    requires { IsTakeable path }
    ensures recorded { AsksPaths asked.old.items asked.new.items (S.asked source.old)
        (S.asked source.new) result }
    ensures counted { BlamesSource (S.failed source.old) (S.failed source.new) result }
    ensures later { StaysWithin (S.may_answer source.old) (S.may_answer source.new) }
    ensures late { EndsAfterHead result }
    ensures gains { GainsStrings mirror.old.view mirror.new.view }
    ensures replied { PathFollows (S.may_answer source.old) (S.asked source.old)
        (S.asked source.new) asked.old.items asked.new.items
        H.digest mirror.old.view path mirror.new.view result }
    ensures honest { TakesPathHonestly (S.may_answer source.old) asked.old.items asked.new.items
        H.digest mirror.old.view path mirror.new.view result }
{
    source.expect(next);
    take_path(alloc, mirror, source, asked, path)
}

/// One round: requests each path of the list and takes the bytes that are found. The result is the number of replies that
/// were refused because they are not valid.
fn work_round<H: TreeHash, S: Source>(
    alloc: Global,
    mirror: &mut Mirror<H>,
    source: &mut S,
    asked: &mut AskedPaths,
    paths: &[Path],
) -> Result<u64, PullFault>
    requires { All IsTakeable paths.now }
    ensures recorded { AsksPaths asked.old.items asked.new.items (S.asked source.old)
        (S.asked source.new) result }
    ensures counted { BlamesSource (S.failed source.old) (S.failed source.new) result }
    ensures later { StaysWithin (S.may_answer source.old) (S.may_answer source.new) }
    ensures late { EndsAfterHead result }
    ensures gains { GainsStrings mirror.old.view mirror.new.view }
    ensures replied { PathsFollow (S.may_answer source.old) (S.asked source.old)
        (S.asked source.new) asked.old.items asked.new.items
        H.digest mirror.old.view paths.now mirror.new.view result }
    ensures honest { TakesPathsHonestly (S.may_answer source.old) asked.old.items asked.new.items
        H.digest mirror.old.view paths.now mirror.new.view result }
{
    let mut refused = 0u64;
    let mut at = 0usize;
    for path in paths {
        let next = next_paths(paths, at);
        at = at.saturating_add(1);
        if take_next(alloc, mirror, source, asked, next, *path)? {
            refused = refused.saturating_add(1);
        }
    }
    Ok(refused)
}

/// Remembers which parts of each tree head are held, so that no later walk visits them again. If memory is refused, a later
/// walk visits them.
pub(crate) fn note_held<H: TreeHash>(alloc: Global, mirror: &mut Mirror<H>)
    ensures { mirror.new.view ≡ mirror.old.view }
{
    let _ = mirror.note_heads(alloc);
}

/// Does `work_round`, and then remembers the held parts.
fn work_noted<H: TreeHash, S: Source>(
    alloc: Global,
    mirror: &mut Mirror<H>,
    source: &mut S,
    asked: &mut AskedPaths,
    paths: &[Path],
) -> Result<u64, PullFault>
    requires { All IsTakeable paths.now }
    ensures recorded { AsksPaths asked.old.items asked.new.items (S.asked source.old)
        (S.asked source.new) result }
    ensures counted { BlamesSource (S.failed source.old) (S.failed source.new) result }
    ensures later { StaysWithin (S.may_answer source.old) (S.may_answer source.new) }
    ensures late { EndsAfterHead result }
    ensures gains { GainsStrings mirror.old.view mirror.new.view }
    ensures replied { PathsFollow (S.may_answer source.old) (S.asked source.old)
        (S.asked source.new) asked.old.items asked.new.items
        H.digest mirror.old.view paths.now mirror.new.view result }
    ensures honest { TakesPathsHonestly (S.may_answer source.old) asked.old.items asked.new.items
        H.digest mirror.old.view paths.now mirror.new.view result }
{
    let worked = work_round(alloc, mirror, source, asked, paths);
    note_held(alloc, mirror);
    worked
}

/// The missing paths of a tree head that were not requested yet.
fn paths_to_ask<H: TreeHash>(
    alloc: Global,
    mirror: &Mirror<H>,
    asked: &AskedPaths,
    size: u64,
    root: &Hash,
) -> Result<Vec<Path>, AllocError>
    requires { size ≤ 256 ^ 8 }
    ensures takeable { IfOk result (λ paths. All IsTakeable paths.items) }
    ensures left { ListsLeft H.digest size root.now asked.now.items mirror.now.view
        (seen (λ paths. paths.items) result) }
{
    walk_law();
    let mut paths = Vec::new(alloc);
    let Some(missing) = mirror.missing(alloc, size, root)? else {
        return Ok(paths);
    };
    for path in &missing {
        if !is_asked(asked, path) {
            paths.push(*path)?;
        }
    }
    Ok(paths)
}

/// At most 8 rounds. The result is the number of rounds that requested a path, and the number of refused replies.
pub(crate) fn work<H: TreeHash, S: Source>(
    alloc: Global,
    mirror: &mut Mirror<H>,
    source: &mut S,
    asked: &mut AskedPaths,
    size: u64,
    root: &Hash,
) -> Result<(u32, u64), PullFault>
    requires { size ≤ 256 ^ 8 }
    ensures recorded { AsksPaths asked.old.items asked.new.items (S.asked source.old)
        (S.asked source.new) result }
    ensures counted { BlamesSource (S.failed source.old) (S.failed source.new) result }
    ensures later { StaysWithin (S.may_answer source.old) (S.may_answer source.new) }
    ensures late { EndsAfterHead result }
    ensures gains { GainsStrings mirror.old.view mirror.new.view }
    ensures rounds { IfOk result (λ r. r.0 ≤ 8) }
    ensures replied { RoundsFollow (S.may_answer source.old) (S.asked source.old)
        (S.asked source.new) asked.old.items asked.new.items
        H.digest size root.now mirror.old.view mirror.new.view result }
    ensures honest { WorksHonestly (S.may_answer source.old) asked.old.items asked.new.items
        H.digest size root.now mirror.old.view mirror.new.view result }
{
    let mut refused = 0u64;
    for rounds in 0..8u32 {
        let paths = paths_to_ask(alloc, mirror, asked, size, root)?;
        if paths.is_empty() {
            return Ok((rounds, refused));
        }
        let more = work_noted(alloc, mirror, source, asked, &paths)?;
        refused = refused.saturating_add(more);
    }
    Ok((8, refused))
}
