//! The turn of a candidate if the copy is empty.
ghost use Rattle.std.specs.Prelude.{◌≡◌, ◌↔◌, ℕ, IfErr, IfOk, IsTrue, List, None};
ghost use Rattle.copy_places.specs.Requests.{AsksAny, PlaceFails};
ghost use Rattle.copy_places.specs.Candidates.{note_of};
ghost use Rattle.copy_places.specs.declared.candidate.Candidate.{Candidate};
ghost use Rattle.copy_follow.specs.Blame.{CountsFollow};
ghost use Rattle.copy_follow.specs.Ending.{EndsAt, HasFalseRoot, IsOfConflict, IsOfEmpty};
ghost use Rattle.copy_follow.specs.OneHonestRun.{IsBroughtOr, IsHonestTurn};
ghost use Rattle.copy_follow.specs.Runs.{KeepsUnder};
ghost use Rattle.copy_follow.specs.RunStanding.{HasStanding, IsHeadOf, StandsAfter};

use crate::bring_candidate::bring;
use crate::follow_fault::FollowFault;
use crate::run::Outcome;
use copy_places::{Candidate, Places};
use mirror_folders::ReadableShelf;
use mirror_sources::Source;
use std::alloc::Global;
use tlog_hash::TreeHash;

// Whether a candidate has no entries, but its root is not the hash of the empty list.
fn has_false_root<H: TreeHash>(candidate: &Candidate) -> bool
    ensures { IsTrue result ↔ HasFalseRoot H.digest candidate.now }
{
    candidate.size.0 == 0 && candidate.root != H::empty()
}

// The outcome of bringing an empty copy to a candidate. No row or bundle contradicts an empty copy. If one did, another run has put a
// checkpoint.
fn over_none(turn: Outcome) -> Result<Outcome, FollowFault>
    ensures same { IfOk result (λ now. now ≡ turn) }
    ensures empty { IfOk result (λ now. (digest : List ℕ → List ℕ) (candidate : Candidate)
        → IsOfEmpty digest candidate now) }
    ensures ends { IfErr result (λ e. (e ≡ FollowFault.CopyInUse) × IsOfConflict turn) }
    ensures suffices { turn ≡ Outcome.Brought → IsBroughtOr result }
{
    match turn {
        Outcome::Brought => Ok(Outcome::Brought),
        Outcome::NotHad(FollowFault::NoFile) => Ok(Outcome::NotHad(FollowFault::NoFile)),
        Outcome::NotHad(FollowFault::Source) => Ok(Outcome::NotHad(FollowFault::Source)),
        _ => Err(FollowFault::CopyInUse),
    }
}

/// The turn of a candidate if the copy is empty.
pub(crate) fn take_first<H: TreeHash, D: ReadableShelf, S: Source + Drop>(
    alloc: Global,
    origin: &str,
    shelf: &mut D,
    places: &mut Places<S>,
    candidate: &Candidate,
) -> Result<Outcome, FollowFault>
    requires { IsHeadOf origin.now candidate.now }
    ensures keeps { KeepsUnder H.digest origin.now (note_of candidate.now) (D.puts shelf.old)
        (D.puts shelf.new) }
    ensures counted { CountsFollow (D.failed shelf.old) (D.failed shelf.new) result }
    ensures after { IfOk result (λ turn. StandsAfter H.digest origin.now candidate.now
        (D.puts shelf.old) (D.puts shelf.new) turn) }
    ensures asks { AsksAny S.may_answer S.failed S.asked places.old places.new }
    ensures source { IfOk result (λ turn. turn ≡ Outcome.NotHad FollowFault.Source
        → PlaceFails places.old places.new) }
    ensures ends { IfErr result
        (EndsAt (¬ HasStanding H.digest origin.now None (D.puts shelf.old))) }
    ensures empty { IfOk result (IsOfEmpty H.digest candidate.now) }
    ensures suffices { HasStanding H.digest origin.now None (D.puts shelf.old)
        → IsHonestTurn H.digest S.may_answer (D.puts shelf.old) places.old places.new
        origin.now candidate.now → IsBroughtOr result }
{
    if has_false_root::<H>(candidate) {
        return Ok(Outcome::Contradicts);
    }
    match bring::<H, D, S>(alloc, origin, shelf, places, None, candidate) {
        Ok(turn) => over_none(turn),
        Err(fault) => Err(fault),
    }
}
