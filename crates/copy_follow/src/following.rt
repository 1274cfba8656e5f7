//! A copy that follows its places.
ghost use Rattle.std.specs.Prelude.{◌≡◌, All, IfErr, IfOk, None, map, option_map};
ghost use Rattle.tlog_tiles.specs.declared.paths.Path.TheVariants.{Checkpoint};
ghost use Rattle.mirror_folders.specs.Shelf.{RecordsRead};
ghost use Rattle.copy_places.specs.AskedOnce.{AsksEachOnce};
ghost use Rattle.copy_places.specs.Requests.{IsGivenOrMayGive};
ghost use Rattle.copy_places.specs.GatheredFrom.{AreCandidates, AreFirstCandidates};
ghost use Rattle.copy_places.specs.Shown.{ShowsLine};
ghost use Rattle.copy_follow.specs.Blame.{CountsFollow};
ghost use Rattle.copy_follow.specs.Ending.{EndsFor, EndsOnce};
ghost use Rattle.copy_follow.specs.Looks.{EndsLooking};
ghost use Rattle.copy_follow.specs.OneHonestRun.{IsHonestAmong, IsHonestRun, ReachesLog, ReachesSize};
ghost use Rattle.copy_follow.specs.Runs.{FollowsCandidates};
ghost use Rattle.copy_follow.specs.Says.{Says};
ghost use Rattle.copy_follow.specs.Told.{TellsLarger};
ghost use Rattle.copy_follow.specs.RunStanding.{IsFollowed};

use crate::copy_on_shelf::judge_copy;
use crate::follow_fault::FollowFault;
use crate::report::{Followed, report};
use crate::turns::take_turns;
use copy_places::{Places, candidates_of};
use mirror_folders::ReadableShelf;
use mirror_sources::Source;
use signed_note::Verifier;
use std::alloc::Global;
use tlog_hash::TreeHash;

/// Brings the copy on the shelf to the newest checkpoint whose files the places have, and compares each other candidate with it.
///
/// A candidate is a note that opens under the keys and whose text is a checkpoint of the origin: the given note, or else each place's
/// answer to the request for its checkpoint. The turns go by falling size, then rising root. If several candidates have one size and root,
/// only the one with the least note has a turn. If it has the copy's size and root, and a lesser note, its note replaces the copy's.
///
/// The copy is brought to a larger candidate, as by `bring_copy`. The root of a smaller candidate is compared with that of the copy's first
/// entries, from verified files of the copy. A larger candidate that contradicts the copy is a fork if a place has the files of the proof.
/// One that could not be had is looked at once more if the copy has grown since. Of the candidates that are larger than the copy at the end,
/// the least root of each size is a fork with each other root of that size. One that is in no fork is one of `larger`.
///
/// At each moment the shelf has a whole copy, for all answers of the places.
///
/// ```text
/// let done = follow::<Sha256Tree, MemShelf, ListSource<Sha256Tree>>(alloc, "ex", &keys, &mut shelf, &mut places, None)?;
/// done.copy    // Some((600, root))
/// done.old     // 257
/// done.forks   // empty: no candidate contradicts the copy
/// ```
///
/// # Errors
///
/// - `CopyDamaged`: the shelf has a checkpoint, but not a copy of a log of the origin. Or a file that a smaller candidate needs is missing
///   or false. `ShelfFault`: the shelf failed. `CopyInUse`: another run put a checkpoint in the meantime.
/// - `Head`: the given note is no candidate. Or no place gives a candidate, and this is the reason for the first place's note.
///   `NoCheckpoint`, `Source`: no place gives a candidate, and the first place lacks a checkpoint, or failed.
/// - If the copy was empty and still is, and there is no fork, the fault of the greatest candidate: `NoFile`; `Source`, if a place failed; `Contradiction`,
///   if it has no entries and its root is not the hash of the empty list.
/// - `OutOfMemory`: memory was refused.
#[tactic(auto, using(crate::proofs::Kept::heads_open))]
pub fn follow<H: TreeHash, D: ReadableShelf, S: Source + Drop>(
    alloc: Global,
    origin: &str,
    keys: &[Box<dyn Verifier>],
    shelf: &mut D,
    places: &mut Places<S>,
    given: Option<Vec<u8>>,
) -> Result<Followed, FollowFault>
    ensures whole { FollowsCandidates H.digest origin.now (map (λ k. key k) keys.now)
        (IsGivenOrMayGive S.may_answer (option_map (λ v. v.items) given) places.old)
        (D.puts shelf.old) (D.puts shelf.new) }
    ensures brought { IfOk result
        (IsFollowed H.digest origin.now (D.puts shelf.old) (D.puts shelf.new)) }
    ensures forks { IfOk result (λ f. All (ShowsLine H.digest) f.forks.items) }
    ensures says { IfOk result (Says H.digest origin.now (AreFirstCandidates S.may_answer S.failed
        S.asked origin.now (map (λ k. key k) keys.now) places.old places.new
        (option_map (λ v. v.items) given)) (D.puts shelf.old) (D.puts shelf.new)) }
    ensures counted { CountsFollow (D.failed shelf.old) (D.failed shelf.new) result }
    ensures ends { IfErr result (EndsFor H.digest S.may_answer origin.now
        (map (λ k. key k) keys.now) (D.puts shelf.old) places.old places.new
        (option_map (λ v. v.items) given)) }
    ensures looks { IfErr result (λ e. (look : D) × EndsLooking
        (IsGivenOrMayGive S.may_answer (option_map (λ v. v.items) given) places.old)
        (D.puts shelf.old) (D.puts look) e) }
    ensures passed { IfErr result (EndsOnce (AsksEachOnce S.asked (λ k path. path ≡ Checkpoint)
        places.old places.new) (RecordsRead (D.puts shelf.old) Checkpoint None)) }
    ensures suffices { (h : IsHonestRun H.digest S.may_answer (D.puts shelf.old) places.old
        places.new origin.now (AreCandidates S.may_answer origin.now (map (λ k. key k) keys.now)
        places.old places.new (option_map (λ v. v.items) given)))
        → ReachesLog H.digest h.entries h.size result }
    ensures reaches { (h : IsHonestAmong H.digest S.may_answer (D.puts shelf.new) places.old
        places.new origin.now (D.puts shelf.old) (AreCandidates S.may_answer origin.now
        (map (λ k. key k) keys.now) places.old places.new (option_map (λ v. v.items) given)))
        → ReachesSize h.size result }
    ensures tells { IfOk result (TellsLarger H.digest S.may_answer S.failed S.asked
        places.old places.new) }
{
    let copy = judge_copy::<H, D>(alloc, origin, shelf)?;
    let candidates = candidates_of::<S>(alloc, origin, keys, places, given)?;
    let run = take_turns::<H, D, S>(alloc, origin, shelf, places, copy, &candidates)?;
    report(alloc, run, &candidates)
}
