//! A copy that is brought to a larger candidate.
ghost use Rattle.std.specs.Prelude.{◌≡◌, ◌≢◌, ◌⊎◌, ◌<◌, ℕ, Err, IfErr, IfOk, IfSome, IsErr, List, Option, Some, option_map, ⊤};
ghost use Rattle.tlog_tiles.specs.declared.paths.Path.TheVariants.{Checkpoint};
ghost use Rattle.mirror_folders.specs.Shelf.{Put, RecordsRead};
ghost use Rattle.mirror_sources.specs.Recorded.{KeepsRecord};
ghost use Rattle.copy_places.specs.Answered.{AreAnswered};
ghost use Rattle.copy_places.specs.AskedOnce.{AsksEachOnce, AsksMore};
ghost use Rattle.copy_places.specs.EndTiles.{IsKept};
ghost use Rattle.copy_follow.specs.Conflicts.{HasConflict, IsConflict};
ghost use Rattle.copy_follow.specs.Faults.{CountsFault, IsOtherFound};
ghost use Rattle.copy_follow.specs.OneHonest.{IsShelfOrMemory};
ghost use Rattle.copy_places.specs.Requests.{AsksAny, PlaceFails};
ghost use Rattle.copy_places.specs.Candidates.{note_of};
ghost use Rattle.copy_places.specs.Faults.{CountsAsk};
ghost use Rattle.copy_places.specs.Nobodys.{IsOfEnds};
ghost use Rattle.copy_places.specs.Shown.{ShowsLarger};
ghost use Rattle.copy_places.specs.declared.candidate.Candidate.{Candidate};
ghost use Rattle.copy_places.specs.declared.places.Places.{Places};
ghost use Rattle.copy_follow.specs.Blame.{CountsFollow};
ghost use Rattle.copy_follow.specs.Ending.{EndsAt, EndsRun, IsOfConflict, IsOfOtherRun, NoPlaceFails};
ghost use Rattle.copy_follow.specs.OneHonestRun.{IsBroughtOr, IsHonestTurn};
ghost use Rattle.copy_follow.specs.Runs.{KeepsUnder};
ghost use Rattle.copy_follow.specs.Turning.{ShowsTurn};
ghost use Rattle.copy_follow.specs.RunStanding.{EachStays, HasStanding, HoldsNoCopy, HoldsNoSmaller, IsHeadOf, StandsAfter};
ghost use Rattle.copy_follow.specs.Told.{AreSizesIn, HasReason, IsForkOr, IsNoFork, IsOfFiles, TellsTurn, outcome_by};
ghost use Rattle.copy_follow.specs.TurnsTaken.{IsLargerThan, SaysTurn};

use crate::follow_fault::FollowFault;
use crate::run::Outcome;
use crate::{BringFault, bring_copy};
use copy_places::{AskFault, Candidate, Places, ask_proof};
use mirror_folders::ReadableShelf;
use mirror_sources::Source;
use std::alloc::Global;
use tlog_hash::TreeHash;
use tlog_proof::Proof;

// The meaning of a fault of `bring_copy`: the outcome for the candidate, or the fault that ends the run.
fn turn_of(fault: BringFault) -> Result<Outcome, FollowFault>
    ensures after { IfOk result (λ turn. (digest : List ℕ → List ℕ) (origin : List ℕ)
        (candidate : Candidate) (old new : Option (List Put)) → EachStays digest origin old new
        → StandsAfter digest origin candidate old new turn) }
    ensures counted { (old new : ℕ) → CountsFault old new fault → CountsFollow old new result }
    ensures source { IfOk result (λ turn. turn ≡ Outcome.NotHad FollowFault.Source
        → fault ≡ BringFault.Source) }
    ensures ends { IfErr result
        (EndsRun (fault ≡ BringFault.CopyDamaged) (IsOfOtherRun fault)) }
    ensures shows { IfOk result (λ turn. (digest : List ℕ → List ℕ) (copy : Option Candidate)
        (candidate : Candidate) → ShowsTurn digest copy candidate turn) }
    ensures says { IfOk result (λ turn. (digest : List ℕ → List ℕ) (copy : Option Candidate)
        (candidate : Candidate) → IsLargerThan copy candidate
        → SaysTurn digest copy candidate turn) }
    ensures suffices { IsShelfOrMemory fault → IsBroughtOr result }
    ensures no_file { IfOk result (λ turn. turn ≡ Outcome.NotHad FollowFault.NoFile
        → fault ≡ BringFault.NoFile) }
    ensures conflicts { IfOk result (λ turn. IsOfConflict turn → IsConflict fault) }
    ensures files { IfOk result (λ turn. IsOfFiles fault) }
{
    match fault {
        BringFault::Contradiction => Ok(Outcome::Contradicts),
        BringFault::NoFile => Ok(Outcome::NotHad(FollowFault::NoFile)),
        BringFault::Source => Ok(Outcome::NotHad(FollowFault::Source)),
        BringFault::Collision => Ok(Outcome::NotHad(FollowFault::Collision)),
        // A candidate is a checkpoint of the origin and larger than the copy that was read, so another run changed the copy.
        BringFault::BadCheckpoint => Err(FollowFault::CopyInUse),
        BringFault::NotLarger => Err(FollowFault::CopyInUse),
        BringFault::CopyDamaged => Err(FollowFault::CopyDamaged),
        BringFault::CopyInUse => Err(FollowFault::CopyInUse),
        BringFault::ShelfFault => Err(FollowFault::ShelfFault),
        BringFault::OutOfMemory => Err(FollowFault::OutOfMemory),
    }
}

/// Brings the copy to a larger candidate. `found` is the checkpoint of the copy, which is empty if there is none.
pub(crate) fn bring<H: TreeHash, D: ReadableShelf, S: Source + Drop>(
    alloc: Global,
    origin: &str,
    shelf: &mut D,
    places: &mut Places<S>,
    found: Option<&[u8]>,
    candidate: &Candidate,
) -> Result<Outcome, FollowFault>
    requires { IsHeadOf origin.now candidate.now }
    ensures keeps { KeepsUnder H.digest origin.now (note_of candidate.now) (D.puts shelf.old)
        (D.puts shelf.new) }
    ensures counted { CountsFollow (D.failed shelf.old) (D.failed shelf.new) result }
    ensures after { IfOk result (λ turn. StandsAfter H.digest origin.now candidate.now
        (D.puts shelf.old) (D.puts shelf.new) turn) }
    ensures asks { AsksAny S.may_answer S.failed S.asked places.old places.new }
    ensures once { AsksEachOnce S.asked (IsKept places.new) places.old places.new }
    ensures source { IfOk result (λ turn. turn ≡ Outcome.NotHad FollowFault.Source
        → PlaceFails places.old places.new) }
    ensures ends { IfErr result (EndsRun (HoldsNoCopy H.digest origin.now (D.puts shelf.old))
        (HoldsNoSmaller H.digest origin.now candidate.now.size.0 (D.puts shelf.old)
        ⊎ IsOtherFound (option_map (λ b. b.now) found.entry) (D.puts shelf.old))) }
    ensures shows { IfOk result (λ turn. (digest : List ℕ → List ℕ) (copy : Option Candidate)
        (candidate : Candidate) → ShowsTurn digest copy candidate turn) }
    ensures says { IfOk result (λ turn. (digest : List ℕ → List ℕ) (copy : Option Candidate)
        (candidate : Candidate) → IsLargerThan copy candidate
        → SaysTurn digest copy candidate turn) }
    ensures suffices { RecordsRead (D.puts shelf.old) Checkpoint
        (option_map (λ b. b.now) found.entry)
        → IsHonestTurn H.digest S.may_answer (D.puts shelf.old) places.old places.new
        origin.now candidate.now → IsBroughtOr result }
    ensures spares { IfOk result (λ turn. turn ≡ Outcome.NotHad FollowFault.NoFile
        → NoPlaceFails places.old places.new) }
    ensures conflicts { IfOk result (λ turn. IsOfConflict turn
        → HasConflict H.digest origin.now (note_of candidate.now) (D.puts shelf.old)) }
    ensures sizes { IfOk result (λ turn. turn ≢ Outcome.Brought
        → AreSizesIn origin.now (option_map (λ b. b.now) found.entry) (note_of candidate.now)
        places.new.ends.sizes) }
    ensures answered { IfOk result (λ turn. turn ≢ Outcome.Brought
        → AreAnswered S.may_answer places.old places.new) }
{
    match bring_copy::<H, D, S>(alloc, origin, shelf, places, found, &candidate.note) {
        Ok(_) => Ok(Outcome::Brought),
        Err(fault) => turn_of(fault),
    }
}

// The outcome for a candidate that contradicts the copy, by what came of the request for its proof. Refused memory is no outcome.
fn outcome_of(found: Result<Option<Proof>, AskFault>) -> Result<Outcome, FollowFault>
    ensures is { result ≡ outcome_by found }
    ensures memory { found ≡ Err AskFault.OutOfMemory → IsErr result }
    ensures proof { IfOk result (λ turn. (digest : List ℕ → List ℕ) (copy candidate : Candidate)
        → IfOk found (λ proof. IfSome proof
        (λ p. ShowsLarger digest copy candidate (Some p)))
        → ShowsTurn digest (Some copy) candidate turn) }
    ensures source { IfOk result (λ turn. turn ≢ Outcome.NotHad FollowFault.Source) }
    ensures after { IfOk result (λ turn. (digest : List ℕ → List ℕ) (origin : List ℕ)
        (candidate : Candidate) (old new : Option (List Put)) → EachStays digest origin old new
        → StandsAfter digest origin candidate old new turn) }
    ensures says { IfOk result (λ turn. (digest : List ℕ → List ℕ) (copy candidate : Candidate)
        → copy.size.0 < candidate.size.0 → SaysTurn digest (Some copy) candidate turn) }
    ensures ends { IfErr result (EndsRun ⊥ ⊥) }
    ensures counted { (old new : ℕ) → CountsAsk old new found → CountsFollow old new result }
{
    match found {
        Ok(Some(proof)) => Ok(Outcome::Forks(Some(proof))),
        Ok(None) => Ok(Outcome::Contradicts),
        Err(AskFault::NoFile) => Ok(Outcome::Contradicts),
        Err(AskFault::OtherFiles) => Ok(Outcome::Contradicts),
        Err(AskFault::ShelfFault) => Err(FollowFault::ShelfFault),
        Err(AskFault::OutOfMemory) => Err(FollowFault::OutOfMemory),
    }
}

/// The turn of a candidate that contradicts the copy. It is a fork if the files of the proof are to be had.
pub(crate) fn contradict<H: TreeHash, D: ReadableShelf, S: Source + Drop>(
    alloc: Global,
    shelf: &mut D,
    places: &mut Places<S>,
    copy: &Candidate,
    candidate: &Candidate,
) -> Result<Outcome, FollowFault>
    requires { copy.now.size.0 < candidate.now.size.0 }
    ensures same { KeepsRecord (D.puts shelf.old) (D.puts shelf.new) }
    ensures counted { CountsFollow (D.failed shelf.old) (D.failed shelf.new) result }
    ensures after { IfOk result (λ turn. (digest : List ℕ → List ℕ) (origin : List ℕ)
        (old new : Option (List Put)) → EachStays digest origin old new
        → StandsAfter digest origin candidate.now old new turn) }
    ensures asks { AsksAny S.may_answer S.failed S.asked places.old places.new }
    ensures more { AsksMore S.asked places.old places.new }
    ensures source { IfOk result (λ turn. turn ≢ Outcome.NotHad FollowFault.Source) }
    ensures ends { IfErr result (EndsRun ⊥ ⊥) }
    ensures shows { IfOk result (ShowsTurn H.digest (Some copy.now) candidate.now) }
    ensures says { IfOk result (SaysTurn H.digest (Some copy.now) candidate.now) }
    ensures tells { (start : Places S) → AsksAny S.may_answer S.failed S.asked start places.old
        → AreAnswered S.may_answer start places.old
        → IsOfEnds copy.now candidate.now places.old.ends.sizes
        → IfOk result (IsForkOr (HasReason H.digest S.may_answer S.failed S.asked start
        places.new (Some copy.now) candidate.now)) }
{
    let found = ask_proof::<H, D, S>(alloc, shelf, places, copy, candidate);
    outcome_of(found)
}

// The fork, if its proof was made; else the candidate was not had, as before.
fn fork_or(fault: FollowFault, asked: Result<Outcome, FollowFault>) -> Result<Outcome, FollowFault>
    ensures fork { IfOk result (IsForkOr (IsNoFork asked)) }
    ensures source { IfOk result (λ turn. turn ≡ Outcome.NotHad FollowFault.Source
        → fault ≡ FollowFault.Source) }
    ensures after { IfOk result (λ turn. (digest : List ℕ → List ℕ) (origin : List ℕ)
        (candidate : Candidate) (old new : Option (List Put)) → EachStays digest origin old new
        → StandsAfter digest origin candidate old new turn) }
    ensures shows { (digest : List ℕ → List ℕ) (copy : Option Candidate) (candidate : Candidate)
        → IfOk asked (ShowsTurn digest copy candidate)
        → IfOk result (ShowsTurn digest copy candidate) }
    ensures says { IfOk result (λ turn. (digest : List ℕ → List ℕ) (copy candidate : Candidate)
        → copy.size.0 < candidate.size.0 → SaysTurn digest (Some copy) candidate turn) }
    ensures ends { IfErr asked (EndsRun ⊥ ⊥) → IfErr result (EndsRun ⊥ ⊥) }
    ensures counted { (old new : ℕ) → CountsFollow old new asked → CountsFollow old new result }
{
    match asked {
        Ok(Outcome::Forks(proof)) => Ok(Outcome::Forks(proof)),
        Ok(_) => Ok(Outcome::NotHad(fault)),
        Err(error) => Err(error),
    }
}

/// The turn of a candidate that is larger than the copy. No place is asked twice for a path, also if it is a fork.
pub(crate) fn take_larger<H: TreeHash, D: ReadableShelf, S: Source + Drop>(
    alloc: Global,
    origin: &str,
    shelf: &mut D,
    places: &mut Places<S>,
    copy: &Candidate,
    candidate: &Candidate,
) -> Result<Outcome, FollowFault>
    requires copy { IsHeadOf origin.now copy.now }
    requires head { IsHeadOf origin.now candidate.now }
    requires larger { copy.now.size.0 < candidate.now.size.0 }
    ensures keeps { KeepsUnder H.digest origin.now (note_of candidate.now) (D.puts shelf.old)
        (D.puts shelf.new) }
    ensures counted { CountsFollow (D.failed shelf.old) (D.failed shelf.new) result }
    ensures after { IfOk result (λ turn. StandsAfter H.digest origin.now candidate.now
        (D.puts shelf.old) (D.puts shelf.new) turn) }
    ensures asks { AsksAny S.may_answer S.failed S.asked places.old places.new }
    ensures once { AsksEachOnce S.asked (λ k path. ⊤) places.old places.new }
    ensures source { IfOk result (λ turn. turn ≡ Outcome.NotHad FollowFault.Source
        → PlaceFails places.old places.new) }
    ensures ends { IfErr result
        (EndsAt (¬ HasStanding H.digest origin.now (Some copy.now) (D.puts shelf.old))) }
    ensures shows { IfOk result (ShowsTurn H.digest (Some copy.now) candidate.now) }
    ensures says { IfOk result (SaysTurn H.digest (Some copy.now) candidate.now) }
    ensures suffices { HasStanding H.digest origin.now (Some copy.now) (D.puts shelf.old)
        → IsHonestTurn H.digest S.may_answer (D.puts shelf.old) places.old places.new
        origin.now candidate.now → IsBroughtOr result }
    ensures tells { IfOk result (TellsTurn H.digest S.may_answer S.failed S.asked places.old
        places.new (Some copy.now) candidate.now) }
{
    let found = Some(copy.note.as_slice());
    let turn = match bring::<H, D, S>(alloc, origin, shelf, places, found, candidate) {
        Ok(turn) => turn,
        Err(fault) => return Err(fault),
    };
    match turn {
        Outcome::Contradicts => contradict::<H, D, S>(alloc, shelf, places, copy, candidate),
        // A file of the growth that nobody has may be none of the proof's: the bundle in which the copy ends is its row's part.
        Outcome::NotHad(fault) => {
            let asked = contradict::<H, D, S>(alloc, shelf, places, copy, candidate);
            fork_or(fault, asked)
        }
        turn => Ok(turn),
    }
}
