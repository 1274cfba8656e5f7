//! Pulls a log from one source.
ghost use Rattle.std.specs.Prelude.{[], List, map, IfErr};
ghost use Rattle.mirror_model.specs.declared.items.Item.TheVariants.{Head};
ghost use Rattle.mirror_pull.specs.Asking.{AddsSome, BlamesSource};
ghost use Rattle.mirror_pull.specs.Honest.{PullsHonestly};
ghost use Rattle.mirror_pull.specs.Repeated.{KeepsHonestly};
ghost use Rattle.mirror_pull.specs.Replying.{FollowsReplies, RefusesHead};
ghost use Rattle.mirror_pull.specs.Taking.{PullsTo, TakesHead};
ghost use Rattle.mirror_sources.specs.Source.{StaysWithin};
ghost use Rattle.signed_note.specs.Keys.{Key};
ghost use Rattle.tlog_mirror.specs.Opened.{IsOpenUnder, WasOpened};

use crate::ask::ask;
use crate::asked::AskedPaths;
use crate::edge::edge_rows;
use crate::fault::PullFault;
use crate::rounds::{note_held, work};
use mirror_model::HeadNote;
use mirror_sources::Source;
use signed_note::Verifier;
use std::alloc::Global;
use tlog_hash::{Hash, TreeHash};
use tlog_mirror::Mirror;
use tlog_tiles::Path;

/// The result of a pull.
#[derive(Debug, Drop, PartialEq, Eq, Clone, Copy)]
pub struct Pulled {
    /// The size of the pulled tree head.
    pub size: u64,
    /// Its root hash.
    pub root: Hash,
    /// The number of rounds that requested a path.
    pub rounds: u32,
    /// The number of replies that were refused because they are not valid.
    pub refused: u64,
    /// Whether the tree head is complete.
    pub complete: bool,
}

/// Takes a tree head that was opened, with those rows, and then remembers which parts of each tree head are held.
fn take_rows<H: TreeHash>(
    alloc: Global,
    mirror: &mut Mirror<H>,
    head: HeadNote,
    rows: &[Vec<u8>],
) -> Result<(), PullFault>
    requires { WasOpened mirror.old.view.origin head }
    ensures takes { (keys : List Key) → IsOpenUnder mirror.old.view.origin keys head
        → TakesHead H.digest keys mirror.old.view
        (Head head.note.bytes (map (λ row. row.items) rows.now)) result mirror.new.view }
    ensures judged { (keys : List Key) → IsOpenUnder mirror.old.view.origin keys head
        → IfErr result (RefusesHead H.digest mirror.old.view.origin keys head.note.bytes
        (map (λ row. row.items) rows.now)) }
{
    mirror.take_opened_rows(alloc, head, rows)?;
    note_held(alloc, mirror);
    Ok(())
}

/// Fetches the newest tree head of a source: the checkpoint, the rows of its right edge, and then its missing files in at
/// most 8 rounds (C2SP tlog-tiles, "Checkpoints", "Merkle Tree", "Log Entries" and "Partial Tiles").
///
/// A round requests each missing path that this pull has not requested, and takes the replies. No path is requested twice.
/// If a partial path is not found, its full path is requested next. For an edge row, the pull takes the first hashes of a
/// full tile. A reply that is not a row or bundle of its width is skipped and counts in `refused`.
///
/// ```
/// let pulled = pull(alloc, &mut mirror, &keys, &mut source)?;
/// if !pulled.complete {
///     // another source, or a later pull, may have the rest
/// }
/// ```
///
/// # Errors
///
/// The mirror is unchanged after `NoCheckpoint`, `NoEdge` and `Head`. `NoCheckpoint`: the checkpoint was not found.
/// `NoEdge`: neither a row of the right edge nor a full tile of 8,192 bytes was found. `Head`: the first refusal of
/// `take_head` that applies. After the other faults, the mirror keeps the items that it took. `Source`: the last get failed.
/// `Collision`: the last item is valid but collides with held strings, and was not taken. `OutOfMemory`: memory was refused.
pub fn pull<H: TreeHash, S: Source>(
    alloc: Global,
    mirror: &mut Mirror<H>,
    keys: &[Box<dyn Verifier>],
    source: &mut S,
) -> Result<Pulled, PullFault>
    ensures outcome { PullsTo H.digest (map (λ k. key k) keys.now) mirror.old.view
        mirror.new.view result }
    ensures once { AddsSome [] (S.asked source.old) (S.asked source.new) }
    ensures counted { BlamesSource (S.failed source.old) (S.failed source.new) result }
    ensures later { StaysWithin (S.may_answer source.old) (S.may_answer source.new) }
    ensures replies { FollowsReplies H.digest (map (λ k. key k) keys.now) mirror.old.view
        mirror.new.view (S.may_answer source.old) (S.asked source.old) (S.asked source.new) result }
    ensures honest { PullsHonestly H.digest (map (λ k. key k) keys.now) mirror.old.view
        mirror.new.view (S.may_answer source.old) (S.asked source.old) (S.asked source.new) result }
    ensures kept { KeepsHonestly H.digest (map (λ k. key k) keys.now) mirror.old.view
        mirror.new.view (S.may_answer source.old) (S.asked source.old) (S.asked source.new) result }
{
    let mut asked = AskedPaths::new(alloc);
    let Some(note) = ask(source, &mut asked, Path::Checkpoint)? else {
        return Err(PullFault::NoCheckpoint);
    };
    let head = mirror.open_head(alloc, keys, &note)?;
    let size = head.checkpoint.size;
    let root = head.checkpoint.root;
    let rows = edge_rows(alloc, source, &mut asked, size)?;
    take_rows(alloc, mirror, head, &rows)?;
    let (rounds, refused) = work(alloc, mirror, source, &mut asked, size, &root)?;
    Ok(Pulled {
        size,
        root,
        rounds,
        refused,
        complete: mirror.is_complete(size, &root),
    })
}
