//! The turn of a candidate.
ghost use Rattle.std.specs.Prelude.{◌≡◌, ◌∷◌, ◌+◌, ◌++◌, [], IfErr, IfOk, IfSome, List, None, OnOk, Option, option_map};
ghost use Rattle.copy_places.specs.Requests.{AsksAny, PlaceFails};
ghost use Rattle.copy_places.specs.Candidates.{note_of};
ghost use Rattle.copy_places.specs.declared.candidate.Candidate.{Candidate};
ghost use Rattle.copy_places.specs.declared.places.Places.{Places};
ghost use Rattle.copy_follow.specs.Blame.{CountsFollow};
ghost use Rattle.copy_follow.specs.Ending.{BlamesPlace, EndsAt, IsOfEmpty, KeepsFault};
ghost use Rattle.copy_follow.specs.Looks.{EndsByLook};
ghost use Rattle.copy_follow.specs.OneHonestRun.{BringsTo, IsBroughtOr, IsHonestTurn, StepsUp};
ghost use Rattle.copy_follow.specs.Runs.{KeepsUnder};
ghost use Rattle.copy_follow.specs.Turning.{ContinuesRun, ShowsTurn};
ghost use Rattle.copy_follow.specs.RunStanding.{HasStanding, IsHeadOf, StandsAfter};
ghost use Rattle.copy_follow.specs.Told.{AreToldIn, TellsTurn};
ghost use Rattle.copy_follow.specs.TurnsTaken.{HasTakenRun, IsLargerThan, IsNextOf, SaysTurn};

use crate::bring_candidate::take_larger;
use crate::compare::compare;
use crate::fault_now::fault_now;
use crate::first::take_first;
use crate::follow_fault::FollowFault;
use crate::renote::{has_lesser_note, renote};
use crate::run::{Outcome, Run};
use copy_places::{Candidate, Places};
use mirror_folders::ReadableShelf;
use mirror_sources::Source;
use std::alloc::Global;
use tlog_hash::TreeHash;

// The outcome of the turn of a candidate. A candidate with the copy's size and root gives the copy its note, if its bytes are less.
fn turn_for<H: TreeHash, D: ReadableShelf, S: Source + Drop>(
    alloc: Global,
    origin: &str,
    shelf: &mut D,
    places: &mut Places<S>,
    run: &Run,
    candidate: &Candidate,
) -> Result<Outcome, FollowFault>
    requires head { IsHeadOf origin.now candidate.now }
    requires copy { IfSome run.now.copy (IsHeadOf origin.now) }
    ensures keeps { KeepsUnder H.digest origin.now (note_of candidate.now) (D.puts shelf.old)
        (D.puts shelf.new) }
    ensures counted { CountsFollow (D.failed shelf.old) (D.failed shelf.new) result }
    ensures after { IfOk result (λ turn. StandsAfter H.digest origin.now candidate.now
        (D.puts shelf.old) (D.puts shelf.new) turn) }
    ensures shows { IfOk result (ShowsTurn H.digest run.now.copy candidate.now) }
    ensures asks { AsksAny S.may_answer S.failed S.asked places.old places.new }
    ensures source { IfOk result (λ turn. turn ≡ Outcome.NotHad FollowFault.Source
        → PlaceFails places.old places.new) }
    ensures ends { IfErr result
        (EndsAt (¬ HasStanding H.digest origin.now run.now.copy (D.puts shelf.old))) }
    ensures empty { run.now.copy ≡ None → IfOk result (IsOfEmpty H.digest candidate.now) }
    ensures says { IfOk result (SaysTurn H.digest run.now.copy candidate.now) }
    ensures suffices { HasStanding H.digest origin.now run.now.copy (D.puts shelf.old)
        → IsLargerThan run.now.copy candidate.now
        → IsHonestTurn H.digest S.may_answer (D.puts shelf.old) places.old places.new
        origin.now candidate.now → IsBroughtOr result }
    ensures tells { IfOk result (TellsTurn H.digest S.may_answer S.failed S.asked places.old
        places.new run.now.copy candidate.now) }
{
    let Some(copy) = &run.copy else {
        return take_first::<H, D, S>(alloc, origin, shelf, places, candidate);
    };
    if has_lesser_note(copy, candidate) {
        return renote::<H, D>(origin, shelf, copy, candidate);
    }
    if candidate.size.0 <= copy.size.0 {
        return compare::<H, D>(alloc, origin, shelf, copy, candidate);
    }
    take_larger::<H, D, S>(alloc, origin, shelf, places, copy, candidate)
}

/// Runs the turn of a candidate.
pub(crate) fn take_turn<H: TreeHash, D: ReadableShelf, S: Source + Drop>(
    alloc: Global,
    origin: &str,
    shelf: &mut D,
    places: &mut Places<S>,
    run: &mut Run,
    candidate: &Candidate,
) -> Result<(), FollowFault>
    requires head { IsHeadOf origin.now candidate.now }
    requires copy { IfSome run.old.copy (IsHeadOf origin.now) }
    ensures keeps { KeepsUnder H.digest origin.now (note_of candidate.now) (D.puts shelf.old)
        (D.puts shelf.new) }
    ensures counted { CountsFollow (D.failed shelf.old) (D.failed shelf.new) result }
    ensures run { OnOk result (ContinuesRun H.digest origin.now (D.puts shelf.old)
        (D.puts shelf.new) run.old run.new) }
    ensures asks { AsksAny S.may_answer S.failed S.asked places.old places.new }
    ensures source { OnOk result (BlamesPlace places.old places.new run.old.first_fault
        run.new.first_fault) }
    ensures ends { IfErr result
        (EndsAt (¬ HasStanding H.digest origin.now run.old.copy (D.puts shelf.old))) }
    ensures looks { IfErr result (λ e. (look : D)
        × EndsByLook (D.puts look) (option_map note_of run.old.copy) e) }
    ensures fault { OnOk result ((done : List Candidate) → KeepsFault H.digest done run.old
        → KeepsFault H.digest (done ++ candidate.now ∷ []) run.new) }
    ensures taken { OnOk result ((first : Option Candidate) (done : List Candidate)
        → IsNextOf done candidate.now → HasTakenRun H.digest first done run.old
        → HasTakenRun H.digest first (done ++ candidate.now ∷ []) run.new) }
    ensures suffices { HasStanding H.digest origin.now run.old.copy (D.puts shelf.old)
        → IsLargerThan run.old.copy candidate.now
        → IsHonestTurn H.digest S.may_answer (D.puts shelf.old) places.old places.new
        origin.now candidate.now → BringsTo candidate.now run.new.copy result }
    ensures steps { OnOk result (StepsUp candidate.now run.old.copy run.new.copy) }
    ensures tells { OnOk result ((start : Places S) (done : List Candidate)
        → AsksAny S.may_answer S.failed S.asked start places.old
        → AreToldIn H.digest S.may_answer S.failed S.asked start places.old done run.old
        → AreToldIn H.digest S.may_answer S.failed S.asked start places.new
        (done ++ candidate.now ∷ []) run.new) }
{
    let turn = match turn_for::<H, D, S>(alloc, origin, shelf, places, run, candidate) {
        Ok(turn) => turn,
        Err(fault) => return Err(fault_now(shelf, &run.copy, fault)),
    };
    match run.add(alloc, candidate, turn) {
        Ok(()) => Ok(()),
        Err(_) => Err(FollowFault::OutOfMemory),
    }
}
