//! The edge rows of a pull.
ghost use Rattle.std.specs.Prelude.{map};
ghost use Rattle.tlog_text.specs.Answers.{seen};
ghost use Rattle.tlog_tiles.specs.Edge.{edge_of};
ghost use Rattle.mirror_pull.specs.Asking.{AsksPaths, BlamesSource};
ghost use Rattle.mirror_pull.specs.Parts.{FindsRowHonestly, FindsRowsHonestly};
ghost use Rattle.mirror_pull.specs.Taking.{EndsBeforeHead};
ghost use Rattle.mirror_pull.specs.Replying.{RowFollows, RowsFollow};
ghost use Rattle.mirror_sources.specs.Source.{StaysWithin};

use crate::ask::ask;
use crate::asked::AskedPaths;
use crate::fault::PullFault;
use mirror_sources::Source;
use std::alloc::Global;
use tlog_tiles::{Path, edge_paths};

const FULL_TILE: usize = 8192;

/// The bytes of a partial tile: its file or, if that is not found, the first hashes of the full tile.
fn edge_row<S: Source>(
    source: &mut S,
    asked: &mut AskedPaths,
    path: Path,
) -> Result<Vec<u8>, PullFault>
    ensures recorded { AsksPaths asked.old.items asked.new.items (S.asked source.old)
        (S.asked source.new) result }
    ensures counted { BlamesSource (S.failed source.old) (S.failed source.new) result }
    ensures later { StaysWithin (S.may_answer source.old) (S.may_answer source.new) }
    ensures early { EndsBeforeHead result }
    ensures replied { RowFollows (S.may_answer source.old) (S.asked source.old) (S.asked source.new)
        asked.old.items asked.new.items path (seen (λ row. row.items) result) }
    ensures honest { FindsRowHonestly (S.may_answer source.old) asked.old.items asked.new.items path
        (seen (λ row. row.items) result) }
{
    if let Some(bytes) = ask(source, asked, path)? {
        return Ok(bytes);
    }
    let Some(mut bytes) = ask(source, asked, path.full())? else {
        return Err(PullFault::NoEdge);
    };
    if bytes.len() != FULL_TILE {
        return Err(PullFault::NoEdge);
    }
    bytes.truncate(32 * path.width() as usize);
    Ok(bytes)
}

/// The edge rows of a tree of that size, lowest level first. Before the first get, the source gets a hint with all their
/// paths.
pub(crate) fn edge_rows<S: Source>(
    alloc: Global,
    source: &mut S,
    asked: &mut AskedPaths,
    size: u64,
) -> Result<Vec<Vec<u8>>, PullFault>
    ensures recorded { AsksPaths asked.old.items asked.new.items (S.asked source.old)
        (S.asked source.new) result }
    ensures counted { BlamesSource (S.failed source.old) (S.failed source.new) result }
    ensures later { StaysWithin (S.may_answer source.old) (S.may_answer source.new) }
    ensures early { EndsBeforeHead result }
    ensures replied { RowsFollow (S.may_answer source.old) (S.asked source.old) (S.asked source.new)
        asked.old.items asked.new.items (edge_of size)
        (seen (λ rows. map (λ row. row.items) rows.items) result) }
    ensures honest { FindsRowsHonestly (S.may_answer source.old) asked.old.items asked.new.items
        size (seen (λ rows. map (λ row. row.items) rows.items) result) }
{
    let paths = edge_paths(alloc, size)?;
    source.expect(paths.as_slice());
    let mut rows = Vec::new(alloc);
    for path in &paths {
        let row = edge_row(source, asked, *path)?;
        rows.push(row)?;
    }
    Ok(rows)
}
