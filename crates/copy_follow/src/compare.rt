//! A candidate that is not larger than the copy is compared with it.
ghost use Rattle.std.specs.Prelude.{◌≡◌, ◌≢◌, ◌⊎◌, ◌<◌, ◌≤◌, [], ℕ, IfErr, IfOk, IsFalse, IsTrue, List, Option, Some};
ghost use Rattle.mirror_sources.specs.Recorded.{KeepsRecord};
ghost use Rattle.mirror_folders.specs.Shelf.{Put};
ghost use Rattle.copy_places.specs.Candidates.{note_of};
ghost use Rattle.copy_follow.specs.Blame.{CountsFollow};
ghost use Rattle.copy_follow.specs.Ending.{EndsAt, EndsRun};
ghost use Rattle.copy_follow.specs.Runs.{KeepsUnder};
ghost use Rattle.copy_follow.specs.Turning.{ShowsTurn};
ghost use Rattle.copy_follow.specs.RunStanding.{EachStays, HasStanding, LacksLog, StandsAfter};
ghost use Rattle.copy_follow.specs.TurnsTaken.{IsNoted, SaysTurn};

use crate::copy_on_shelf::{fault_of_copy, read_proof};
use crate::follow_fault::FollowFault;
use crate::run::Outcome;
use copy_places::Candidate;
use mirror_folders::ReadableShelf;
use std::alloc::Global;
use tlog_hash::{Hash, TreeHash};

// The root that a candidate of the copy's size, or without entries, has to have.
fn root_due<H: TreeHash>(copy: &Candidate, size: u64) -> Hash
    ensures copy { size ≡ copy.now.size.0 → result ≡ copy.now.root }
    ensures none { size ≢ copy.now.size.0 → result ≡ H.digest [] }
{
    if size == copy.size.0 {
        copy.root
    } else {
        H::empty()
    }
}

// Whether a candidate has the copy's size or no entries, so that its root is known.
fn has_due_root(copy: &Candidate, candidate: &Candidate) -> bool
    ensures due { IsTrue result → (candidate.now.size.0 ≡ 0)
        ⊎ (candidate.now.size.0 ≡ copy.now.size.0) }
    ensures other { IsFalse result → (0 < candidate.now.size.0)
        × (candidate.now.size.0 ≢ copy.now.size.0) }
{
    candidate.size.0 == 0 || candidate.size.0 == copy.size.0
}

// The turn of a candidate with the copy's size or without entries.
fn compare_root<H: TreeHash>(copy: &Candidate, candidate: &Candidate) -> Outcome
    requires upto { candidate.now.size.0 ≤ copy.now.size.0 }
    requires due { (candidate.now.size.0 ≡ 0) ⊎ (candidate.now.size.0 ≡ copy.now.size.0) }
    ensures after { (digest : List ℕ → List ℕ) (origin : List ℕ)
        (old new : Option (List Put)) → EachStays digest origin old new
        → StandsAfter digest origin candidate.now old new result }
    ensures shows { ShowsTurn H.digest (Some copy.now) candidate.now result }
    ensures source { result ≢ Outcome.NotHad FollowFault.Source }
    ensures says { IsNoted (Some copy.now) candidate.now
        → SaysTurn H.digest (Some copy.now) candidate.now result }
{
    if candidate.root == root_due::<H>(copy, candidate.size.0) {
        return Outcome::Agrees;
    }
    Outcome::Forks(None)
}

// The turn of a candidate that is not larger than the copy.
fn take_smaller<H: TreeHash, D: ReadableShelf>(
    alloc: Global,
    shelf: &mut D,
    copy: &Candidate,
    candidate: &Candidate,
) -> Result<Outcome, FollowFault>
    requires { candidate.now.size.0 ≤ copy.now.size.0 }
    ensures same { KeepsRecord (D.puts shelf.old) (D.puts shelf.new) }
    ensures counted { CountsFollow (D.failed shelf.old) (D.failed shelf.new) result }
    ensures after { IfOk result (λ turn. (digest : List ℕ → List ℕ) (origin : List ℕ)
        (old new : Option (List Put)) → EachStays digest origin old new
        → StandsAfter digest origin candidate.now old new turn) }
    ensures shows { IfOk result (ShowsTurn H.digest (Some copy.now) candidate.now) }
    ensures source { IfOk result (λ turn. turn ≢ Outcome.NotHad FollowFault.Source) }
    ensures ends { IfErr result
        (EndsRun (LacksLog H.digest copy.now (D.puts shelf.old)) ⊥) }
    ensures says { IfOk result (λ turn. IsNoted (Some copy.now) candidate.now
        → SaysTurn H.digest (Some copy.now) candidate.now turn) }
{
    if has_due_root(copy, candidate) {
        return Ok(compare_root::<H>(copy, candidate));
    }
    match read_proof::<H, D>(alloc, shelf, candidate, copy) {
        Ok(Some(proof)) => Ok(Outcome::Forks(Some(proof))),
        Ok(None) => Ok(Outcome::Agrees),
        Err(fault) => Err(fault_of_copy::<D>(shelf, fault)),
    }
}

/// The turn of a candidate that is not larger than the copy. It does not change the shelf.
pub(crate) fn compare<H: TreeHash, D: ReadableShelf>(
    alloc: Global,
    origin: &str,
    shelf: &mut D,
    copy: &Candidate,
    candidate: &Candidate,
) -> Result<Outcome, FollowFault>
    requires { candidate.now.size.0 ≤ copy.now.size.0 }
    ensures keeps { KeepsUnder H.digest origin.now (note_of candidate.now) (D.puts shelf.old)
        (D.puts shelf.new) }
    ensures counted { CountsFollow (D.failed shelf.old) (D.failed shelf.new) result }
    ensures after { IfOk result (λ turn. StandsAfter H.digest origin.now candidate.now
        (D.puts shelf.old) (D.puts shelf.new) turn) }
    ensures shows { IfOk result (ShowsTurn H.digest (Some copy.now) candidate.now) }
    ensures source { IfOk result (λ turn. turn ≢ Outcome.NotHad FollowFault.Source) }
    ensures ends { IfErr result
        (EndsAt (¬ HasStanding H.digest origin.now (Some copy.now) (D.puts shelf.old))) }
    ensures says { IfOk result (λ turn. IsNoted (Some copy.now) candidate.now
        → SaysTurn H.digest (Some copy.now) candidate.now turn) }
{
    take_smaller::<H, D>(alloc, shelf, copy, candidate)
}
