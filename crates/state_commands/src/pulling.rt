//! A pull that reports its progress if the words ask for it.
ghost use Rattle.std.specs.Prelude.{map};
ghost use Rattle.mirror_pull.specs.Replying.{FollowsReplies};
ghost use Rattle.mirror_pull.specs.Taking.{PullsTo};

use mirror_pull::{PullFault, Pulled, pull};
use mirror_sources::Source;
use program_io::{CountingSource, Progress, StandardError, Task, checkpoint_size};
use signed_note::Verifier;
use std::alloc::Global;
use std::rt::Clock;
use tlog_hash::TreeHash;
use tlog_mirror::Mirror;

/// Pulls from the source into the mirror, and reports the progress if the words ask for it. Returns the source, too.
///
/// # Errors
///
/// Those of `pull`.
pub(crate) fn pull_from<H: TreeHash, S: Source + Drop, R: Clock + Eprint>(
    rt: &R,
    alloc: Global,
    mirror: &mut Mirror<H>,
    keys: &[Box<dyn Verifier>],
    source: S,
    progress: bool,
) -> (Result<Pulled, PullFault>, S)
    ensures pulls { PullsTo H.digest (map (λ k. key k) keys.now) mirror.old.view mirror.new.view
        result.0 }
    ensures replies { FollowsReplies H.digest (map (λ k. key k) keys.now) mirror.old.view
        mirror.new.view (S.may_answer source) (S.asked source) (S.asked result.1) result.0 }
{
    if progress {
        pull_reporting(rt, alloc, mirror, keys, source)
    } else {
        pull_silent(alloc, mirror, keys, source)
    }
}

// Pulls from the source into the mirror, without progress reports.
fn pull_silent<H: TreeHash, S: Source + Drop>(
    alloc: Global,
    mirror: &mut Mirror<H>,
    keys: &[Box<dyn Verifier>],
    mut source: S,
) -> (Result<Pulled, PullFault>, S)
    ensures pulls { PullsTo H.digest (map (λ k. key k) keys.now) mirror.old.view mirror.new.view
        result.0 }
    ensures replies { FollowsReplies H.digest (map (λ k. key k) keys.now) mirror.old.view
        mirror.new.view (S.may_answer source) (S.asked source) (S.asked result.1) result.0 }
{
    let pulled = pull(alloc, mirror, keys, &mut source);
    (pulled, source)
}

// The size of the largest checkpoint that the mirror holds, or 0 if it holds none.
fn largest_size<H: TreeHash>(alloc: Global, mirror: &Mirror<H>) -> u64 {
    let mut largest = 0;
    for i in 0..usize::MAX {
        let Some(note) = mirror.note_at(i) else {
            break;
        };
        largest = largest.max(checkpoint_size(alloc, note).unwrap_or(0));
    }
    largest
}

// Pulls from the source into the mirror, and reports the progress and, at the end, the total.
fn pull_reporting<H: TreeHash, S: Source + Drop, R: Clock + Eprint>(
    rt: &R,
    alloc: Global,
    mirror: &mut Mirror<H>,
    keys: &[Box<dyn Verifier>],
    source: S,
) -> (Result<Pulled, PullFault>, S)
    ensures pulls { PullsTo H.digest (map (λ k. key k) keys.now) mirror.old.view mirror.new.view
        result.0 }
    ensures replies { FollowsReplies H.digest (map (λ k. key k) keys.now) mirror.old.view
        mirror.new.view (S.may_answer source) (S.asked source) (S.asked result.1) result.0 }
{
    let held = largest_size(alloc, mirror);
    let mut progress = Progress::new(alloc, rt, StandardError::new(rt));
    progress.begin(Task::Pull);
    let mut source = CountingSource::new(source, progress);
    let pulled = pull(alloc, mirror, keys, &mut source);
    if let Ok(done) = &pulled {
        source.progress.report_pulled(held, done.size);
    }
    (pulled, source.into_source())
}
