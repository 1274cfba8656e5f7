//! The turns of all candidates.
ghost use Rattle.std.specs.Prelude.{◌≡◌, ◌⊎◌, ◌↔◌, ◌+◌, ◌<◌, All, IfErr, IfOk, IfSome, IsTrue, List, OnOk, Option, Some, get_or, length, map, option_map, take};
ghost use Rattle.std.specs.List.Sorted.{IsSorted};
ghost use Rattle.mirror_folders.specs.Shelf.{Put};
ghost use Rattle.copy_places.specs.Requests.{AsksAny, PlaceFails};
ghost use Rattle.copy_places.specs.Candidates.{note_of, turn_cmp};
ghost use Rattle.copy_places.specs.declared.candidate.Candidate.{Candidate};
ghost use Rattle.copy_places.specs.declared.places.Places.{Places};
ghost use Rattle.copy_follow.specs.Blame.{CountsFollow};
ghost use Rattle.copy_follow.specs.Ending.{BlamesPlace, EndsAt, KeepsFault};
ghost use Rattle.copy_follow.specs.Looks.{EndsByLook, EndsTurns};
ghost use Rattle.copy_follow.specs.OneHonestRun.{BringsTo, HasSize, IsHonestFirst, IsHonestListed, IsHonestTurn, StepsUp, TurnsReach};
ghost use Rattle.copy_follow.specs.Runs.{KeepsEach};
ghost use Rattle.copy_follow.specs.Turning.{ContinuesRun, IsRunFrom};
ghost use Rattle.copy_follow.specs.RunStanding.{HasStanding, HoldsNoCopy, IsCopyOfRun, IsHeadOf};
ghost use Rattle.copy_follow.specs.Told.{AreToldIn, IsTold};
ghost use Rattle.copy_follow.specs.TurnsTaken.{HasTakenRun, IsLargerThan, IsRepeat};

use crate::again::look_again;
use crate::follow_fault::FollowFault;
use crate::run::Run;
use crate::turn::take_turn;
use copy_places::{Candidate, Places};
use mirror_folders::ReadableShelf;
use mirror_sources::Source;
use std::alloc::Global;
use tlog_hash::TreeHash;

/// Whether a candidate of a list has the size and root of the one before it.
pub(crate) fn is_repeated(candidates: &[Candidate], i: usize) -> bool
    requires { i < length candidates.now }
    ensures some { IsTrue result → 0 < i }
    ensures is { IsTrue result ↔ IsRepeat candidates.now i }
{
    if i == 0 {
        return false;
    }
    candidates[i - 1].is_same_point(&candidates[i])
}

// Runs the turn of a candidate of a list, unless the candidate before it has its size and root.
#[tactic(auto, using(crate::proofs::Kept::head_at))]
fn take_turn_at<H: TreeHash, D: ReadableShelf, S: Source + Drop>(
    alloc: Global,
    origin: &str,
    shelf: &mut D,
    places: &mut Places<S>,
    run: &mut Run,
    candidates: &[Candidate],
    i: usize,
) -> Result<(), FollowFault>
    requires within { i < length candidates.now }
    requires heads { All (IsHeadOf origin.now) candidates.now }
    requires copy { IfSome run.old.copy (IsHeadOf origin.now) }
    ensures keeps { KeepsEach H.digest origin.now (map note_of candidates.now)
        (D.puts shelf.old) (D.puts shelf.new) }
    ensures counted { CountsFollow (D.failed shelf.old) (D.failed shelf.new) result }
    ensures run { OnOk result (ContinuesRun H.digest origin.now (D.puts shelf.old)
        (D.puts shelf.new) run.old run.new) }
    ensures asks { AsksAny S.may_answer S.failed S.asked places.old places.new }
    ensures source { OnOk result (BlamesPlace places.old places.new run.old.first_fault
        run.new.first_fault) }
    ensures ends { IfErr result
        (EndsAt (¬ HasStanding H.digest origin.now run.old.copy (D.puts shelf.old))) }
    ensures looks { IfErr result (λ e. (look : D)
        × EndsByLook (D.puts look) (option_map note_of run.old.copy) e) }
    ensures fault { OnOk result (KeepsFault H.digest (take i candidates.now) run.old
        → KeepsFault H.digest (take (i + 1) candidates.now) run.new) }
    ensures taken { OnOk result ((first : Option Candidate) → IsSorted turn_cmp candidates.now
        → HasTakenRun H.digest first (take i candidates.now) run.old
        → HasTakenRun H.digest first (take (i + 1) candidates.now) run.new) }
    ensures suffices { IsRepeat candidates.now i ⊎ ((candidate : Candidate)
        → candidate ≡ get_or candidates.now i candidate
        → HasStanding H.digest origin.now run.old.copy (D.puts shelf.old)
        → IsLargerThan run.old.copy candidate
        → IsHonestTurn H.digest S.may_answer (D.puts shelf.old) places.old places.new origin.now
        candidate → BringsTo candidate run.new.copy result) }
    ensures steps { OnOk result ((candidate : Candidate)
        → candidate ≡ get_or candidates.now i candidate
        → StepsUp candidate run.old.copy run.new.copy) }
    ensures tells { OnOk result ((start : Places S) → IsSorted turn_cmp candidates.now
        → AsksAny S.may_answer S.failed S.asked start places.old
        → AreToldIn H.digest S.may_answer S.failed S.asked start places.old
        (take i candidates.now) run.old
        → AreToldIn H.digest S.may_answer S.failed S.asked start places.new
        (take (i + 1) candidates.now) run.new) }
{
    if is_repeated(candidates, i) {
        return Ok(());
    }
    take_turn::<H, D, S>(alloc, origin, shelf, places, run, &candidates[i])
}

// Runs the turn of each candidate, the greatest first. If several have one size and root, only the first has a turn.
fn take_each<H: TreeHash, D: ReadableShelf, S: Source + Drop>(
    alloc: Global,
    origin: &str,
    shelf: &mut D,
    places: &mut Places<S>,
    copy: Option<Candidate>,
    candidates: &[Candidate],
) -> Result<Run, FollowFault>
    requires heads { All (IsHeadOf origin.now) candidates.now }
    requires copy { IfSome copy (IsHeadOf origin.now) }
    ensures keeps { KeepsEach H.digest origin.now (map note_of candidates.now)
        (D.puts shelf.old) (D.puts shelf.new) }
    ensures counted { CountsFollow (D.failed shelf.old) (D.failed shelf.new) result }
    ensures run { IfOk result (IsRunFrom H.digest origin.now (D.puts shelf.old)
        (D.puts shelf.new) copy) }
    ensures asks { AsksAny S.may_answer S.failed S.asked places.old places.new }
    ensures source { IfOk result (λ run. run.first_fault ≡ Some FollowFault.Source
        → PlaceFails places.old places.new) }
    ensures ends { IfErr result (EndsAt ((first : Option (List Put))
        → IsCopyOfRun H.digest origin.now first (D.puts shelf.old) copy
        → HoldsNoCopy H.digest origin.now first)) }
    ensures looks { IfErr result (λ e. IsSorted turn_cmp candidates.now → (look : D)
        × EndsTurns copy candidates.now (D.puts look) e) }
    ensures fault { IfOk result (KeepsFault H.digest candidates.now) }
    ensures taken { IfOk result (λ run. IsSorted turn_cmp candidates.now
        → HasTakenRun H.digest copy candidates.now run) }
    ensures suffices { IsSorted turn_cmp candidates.now
        → (h : IsHonestFirst H.digest S.may_answer (D.puts shelf.old) places.old places.new
        origin.now copy candidates.now) → TurnsReach copy h.first result }
    ensures passes { IfOk result (λ run. IsSorted turn_cmp candidates.now
        → (h : IsHonestListed H.digest S.may_answer (D.puts shelf.new) places.old places.new
        origin.now (D.puts shelf.old) copy candidates.now) → HasSize h.candidate.size.0 run.copy) }
    ensures tells { IfOk result (λ run. IsSorted turn_cmp candidates.now
        → AreToldIn H.digest S.may_answer S.failed S.asked places.old places.new candidates.now run) }
{
    let mut run = Run::new(alloc, copy);
    for i in 0..candidates.len() {
        take_turn_at::<H, D, S>(alloc, origin, shelf, places, &mut run, candidates, i)?;
    }
    Ok(run)
}

/// Runs the turn of each candidate, the greatest first. If several have one size and root, only the first has a turn. Then those to which
/// the copy could not be brought before it grew are looked at once more.
pub(crate) fn take_turns<H: TreeHash, D: ReadableShelf, S: Source + Drop>(
    alloc: Global,
    origin: &str,
    shelf: &mut D,
    places: &mut Places<S>,
    copy: Option<Candidate>,
    candidates: &[Candidate],
) -> Result<Run, FollowFault>
    requires heads { All (IsHeadOf origin.now) candidates.now }
    requires copy { IfSome copy (IsHeadOf origin.now) }
    ensures keeps { KeepsEach H.digest origin.now (map note_of candidates.now)
        (D.puts shelf.old) (D.puts shelf.new) }
    ensures counted { CountsFollow (D.failed shelf.old) (D.failed shelf.new) result }
    ensures run { IfOk result (IsRunFrom H.digest origin.now (D.puts shelf.old)
        (D.puts shelf.new) copy) }
    ensures asks { AsksAny S.may_answer S.failed S.asked places.old places.new }
    ensures source { IfOk result (λ run. run.first_fault ≡ Some FollowFault.Source
        → PlaceFails places.old places.new) }
    ensures ends { IfErr result (EndsAt ((first : Option (List Put))
        → IsCopyOfRun H.digest origin.now first (D.puts shelf.old) copy
        → HoldsNoCopy H.digest origin.now first)) }
    ensures looks { IfErr result (λ e. IsSorted turn_cmp candidates.now → (look : D)
        × EndsTurns copy candidates.now (D.puts look) e) }
    ensures fault { IfOk result (KeepsFault H.digest candidates.now) }
    ensures taken { IfOk result (λ run. IsSorted turn_cmp candidates.now
        → HasTakenRun H.digest copy candidates.now run) }
    ensures suffices { IsSorted turn_cmp candidates.now
        → (h : IsHonestFirst H.digest S.may_answer (D.puts shelf.old) places.old places.new
        origin.now copy candidates.now) → TurnsReach copy h.first result }
    ensures passes { IfOk result (λ run. IsSorted turn_cmp candidates.now
        → (h : IsHonestListed H.digest S.may_answer (D.puts shelf.new) places.old places.new
        origin.now (D.puts shelf.old) copy candidates.now) → HasSize h.candidate.size.0 run.copy) }
    ensures tells { IfOk result (λ run. IsSorted turn_cmp candidates.now
        → All (IsTold H.digest S.may_answer S.failed S.asked places.old places.new run.copy
        run.forks.items) candidates.now) }
{
    match take_each::<H, D, S>(alloc, origin, shelf, places, copy, candidates) {
        Ok(run) => look_again::<H, D, S>(alloc, shelf, places, run),
        Err(fault) => Err(fault),
    }
}
