//! Candidates to which the copy could not be brought are looked at once more, where the copy has grown since.
ghost use Rattle.std.specs.Prelude.{◌≡◌, ◌∷◌, ◌<◌, [], ℕ, All, IfErr, IfOk, List, OnOk, Some};
ghost use Rattle.mirror_sources.specs.Recorded.{KeepsRecord};
ghost use Rattle.copy_places.specs.Lines.{IsInSomeLine};
ghost use Rattle.copy_places.specs.Requests.{AsksAny};
ghost use Rattle.copy_places.specs.declared.candidate.Candidate.{Candidate};
ghost use Rattle.copy_places.specs.declared.places.Places.{Places};
ghost use Rattle.copy_follow.specs.Blame.{CountsFollow};
ghost use Rattle.copy_follow.specs.Ending.{EndsRun};
ghost use Rattle.copy_follow.specs.Looking.{AddsForks, LooksOn};
ghost use Rattle.copy_follow.specs.Told.{AreToldFirst, AreToldIn, HasReason, IsForkOr, IsTold};
ghost use Rattle.copy_follow.specs.Turning.{ShowsTurn};

use crate::bring_candidate::contradict;
use crate::follow_fault::FollowFault;
use crate::run::{Outcome, Run};
use copy_places::{Candidate, ForkLine, Places, add_fork};
use mirror_folders::ReadableShelf;
use mirror_sources::Source;
use std::alloc::{AllocError, Global};
use tlog_hash::TreeHash;

// The proof that a larger candidate contradicts the copy, if its files are to be had.
fn proof_again<H: TreeHash, D: ReadableShelf, S: Source + Drop>(
    alloc: Global,
    shelf: &mut D,
    places: &mut Places<S>,
    copy: &Candidate,
    candidate: &Candidate,
) -> Result<Outcome, FollowFault>
    requires { copy.now.size.0 < candidate.now.size.0 }
    ensures same { KeepsRecord (D.puts shelf.old) (D.puts shelf.new) }
    ensures counted { CountsFollow (D.failed shelf.old) (D.failed shelf.new) result }
    ensures ends { IfErr result (EndsRun ⊥ ⊥) }
    ensures asks { AsksAny S.may_answer S.failed S.asked places.old places.new }
    ensures shows { IfOk result (ShowsTurn H.digest (Some copy.now) candidate.now) }
    ensures tells { IfOk result (IsForkOr (HasReason H.digest S.may_answer S.failed S.asked
        places.old places.new (Some copy.now) candidate.now)) }
{
    places.keep_ends(copy.size.0, candidate.size.0, &candidate.root);
    contradict::<H, D, S>(alloc, shelf, places, copy, candidate)
}

// Adds the fork of the copy and a larger candidate, if the turn ended with one.
fn add_shown(
    alloc: Global,
    copy: &Candidate,
    candidate: &Candidate,
    turn: Outcome,
    forks: &mut Vec<ForkLine>,
) -> Result<(), AllocError>
    ensures adds { OnOk result ((digest : List ℕ → List ℕ)
        → ShowsTurn digest (Some copy.now) candidate.now turn
        → AddsForks digest (Some copy.now) (candidate.now ∷ []) forks.old.items
        forks.new.items) }
    ensures tells { OnOk result (IsForkOr ⊥ turn → IsInSomeLine forks.new.items candidate.now) }
{
    match turn {
        Outcome::Forks(proof) => add_fork(alloc, forks, copy, candidate, proof),
        _ => Ok(()),
    }
}

// Looks once more at a candidate. The rule of lines has one of the copy's size.
fn look_at<H: TreeHash, D: ReadableShelf, S: Source + Drop>(
    alloc: Global,
    shelf: &mut D,
    places: &mut Places<S>,
    copy: &Candidate,
    candidate: &Candidate,
    forks: &mut Vec<ForkLine>,
) -> Result<(), FollowFault>
    ensures same { KeepsRecord (D.puts shelf.old) (D.puts shelf.new) }
    ensures counted { CountsFollow (D.failed shelf.old) (D.failed shelf.new) result }
    ensures ends { IfErr result (EndsRun ⊥ ⊥) }
    ensures asks { AsksAny S.may_answer S.failed S.asked places.old places.new }
    ensures adds { OnOk result (AddsForks H.digest (Some copy.now) (candidate.now ∷ [])
        forks.old.items forks.new.items) }
    ensures tells { OnOk result (IsTold H.digest S.may_answer S.failed S.asked places.old places.new
        (Some copy.now) forks.new.items candidate.now) }
{
    if candidate.size.0 <= copy.size.0 {
        return Ok(());
    }
    let turn = match proof_again::<H, D, S>(alloc, shelf, places, copy, candidate) {
        Ok(turn) => turn,
        Err(fault) => return Err(fault),
    };
    match add_shown(alloc, copy, candidate, turn, forks) {
        Ok(()) => Ok(()),
        Err(_) => Err(FollowFault::OutOfMemory),
    }
}

// Looks once more at the first of the candidates, as many as "again".
fn look_each<H: TreeHash, D: ReadableShelf, S: Source + Drop>(
    alloc: Global,
    shelf: &mut D,
    places: &mut Places<S>,
    copy: &Candidate,
    lacked: &[Candidate],
    again: usize,
    forks: &mut Vec<ForkLine>,
) -> Result<(), FollowFault>
    ensures same { KeepsRecord (D.puts shelf.old) (D.puts shelf.new) }
    ensures counted { CountsFollow (D.failed shelf.old) (D.failed shelf.new) result }
    ensures ends { IfErr result (EndsRun ⊥ ⊥) }
    ensures asks { AsksAny S.may_answer S.failed S.asked places.old places.new }
    ensures adds { OnOk result (AddsForks H.digest (Some copy.now) lacked.now forks.old.items
        forks.new.items) }
    ensures tells { OnOk result (AreToldFirst H.digest S.may_answer S.failed S.asked places.old
        places.new (Some copy.now) forks.new.items lacked.now again) }
{
    for i in 0..lacked.len() {
        if i >= again {
            return Ok(());
        }
        match look_at::<H, D, S>(alloc, shelf, places, copy, &lacked[i], forks) {
            Ok(()) => {}
            Err(fault) => return Err(fault),
        }
    }
    Ok(())
}

// The same, if there is a copy.
fn look_all<H: TreeHash, D: ReadableShelf, S: Source + Drop>(
    alloc: Global,
    shelf: &mut D,
    places: &mut Places<S>,
    copy: &Option<Candidate>,
    lacked: &[Candidate],
    again: usize,
    forks: &mut Vec<ForkLine>,
) -> Result<(), FollowFault>
    ensures same { KeepsRecord (D.puts shelf.old) (D.puts shelf.new) }
    ensures counted { CountsFollow (D.failed shelf.old) (D.failed shelf.new) result }
    ensures ends { IfErr result (EndsRun ⊥ ⊥) }
    ensures asks { AsksAny S.may_answer S.failed S.asked places.old places.new }
    ensures adds { OnOk result (AddsForks H.digest copy.now lacked.now forks.old.items
        forks.new.items) }
    ensures tells { OnOk result (AreToldFirst H.digest S.may_answer S.failed S.asked places.old
        places.new copy.now forks.new.items lacked.now again) }
{
    match copy {
        Some(copy) => look_each::<H, D, S>(alloc, shelf, places, copy, lacked, again, forks),
        None => Ok(()),
    }
}

/// Looks once more at each candidate to which the copy could not be brought before it grew.
pub(crate) fn look_again<H: TreeHash, D: ReadableShelf, S: Source + Drop>(
    alloc: Global,
    shelf: &mut D,
    places: &mut Places<S>,
    run: Run,
) -> Result<Run, FollowFault>
    ensures same { KeepsRecord (D.puts shelf.old) (D.puts shelf.new) }
    ensures counted { CountsFollow (D.failed shelf.old) (D.failed shelf.new) result }
    ensures ends { IfErr result (EndsRun ⊥ ⊥) }
    ensures asks { AsksAny S.may_answer S.failed S.asked places.old places.new }
    ensures run { IfOk result (LooksOn H.digest run) }
    ensures tells { IfOk result (λ next. (start : Places S) (done : List Candidate)
        → AsksAny S.may_answer S.failed S.asked start places.old
        → AreToldIn H.digest S.may_answer S.failed S.asked start places.old done run
        → All (IsTold H.digest S.may_answer S.failed S.asked start places.new next.copy
        next.forks.items) done) }
{
    let Run {
        copy,
        had,
        mut forks,
        not_had,
        again,
        first_fault,
    } = run;
    match look_all::<H, D, S>(alloc, shelf, places, &copy, &not_had, again, &mut forks) {
        Ok(()) => {}
        Err(fault) => return Err(fault),
    }
    Ok(Run {
        copy,
        had,
        forks,
        not_had,
        again,
        first_fault,
    })
}
