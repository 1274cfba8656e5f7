//! The state of a run of turns: the forks, and the candidates to which the copy could not be brought.
ghost use Rattle.std.specs.Prelude.{◌≡◌, ◌≢◌, [], ℕ, IfSome, List, None, OnOk, length};
ghost use Rattle.copy_places.specs.Adding.{AddsFork};
ghost use Rattle.copy_places.specs.Lines.{IsInSomeLine, KeepsLines};
ghost use Rattle.copy_places.specs.Shown.{AreFork, ShowsEach};
ghost use Rattle.copy_follow.specs.Ending.{fault_after, or_fault};
ghost use Rattle.copy_follow.specs.Turning.{ShowsTurn};
ghost use Rattle.copy_follow.specs.RunStanding.{KnowsAfter, size_of_copy};
ghost use Rattle.copy_follow.specs.Told.{CountsAgain};
ghost use Rattle.copy_follow.specs.TurnsTaken.{AddsLacked, IsAdded, IsLargerThan};

use crate::follow_fault::FollowFault;
use crate::lines::exceeds;
use copy_places::{Candidate, ForkLine, add_fork};
use std::alloc::{AllocError, Global};
use tlog_proof::Proof;

/// The outcome of a candidate's turn.
#[derive(Drop)]
pub(crate) enum Outcome {
    /// The copy begins with the candidate.
    Agrees,
    /// The copy was brought to the candidate.
    Brought,
    /// The candidate and the copy are a fork, with the proof if there is one.
    Forks(Option<Proof>),
    /// The candidate's tree lacks the copy's rows. Or the candidate has no entries, and its root is not the hash of the empty list.
    Contradicts,
    /// No place gave a file of the candidate, or its bundle collides with that of the copy.
    NotHad(FollowFault),
}

/// The state of a run.
#[derive(Drop)]
pub(crate) struct Run {
    pub(crate) copy: Option<Candidate>,
    pub(crate) had: u64,
    pub(crate) forks: Vec<ForkLine>,
    pub(crate) not_had: Vec<Candidate>,
    // How many of them there were when the copy grew last.
    pub(crate) again: usize,
    pub(crate) first_fault: Option<FollowFault>,
}

impl Run {
    /// The state at the start of a run over that copy.
    pub(crate) fn new(alloc: Global, copy: Option<Candidate>) -> Run
        ensures copy { result.copy ≡ copy }
        ensures had { result.had ≡ size_of_copy copy }
        ensures fault { result.first_fault ≡ None }
        ensures forks { result.forks.items ≡ [] }
        ensures not_had { result.not_had.items ≡ [] }
    {
        let had = match &copy {
            Some(copy) => copy.size.0,
            None => 0,
        };
        Run {
            copy,
            had,
            forks: Vec::new(alloc),
            not_had: Vec::new(alloc),
            again: 0,
            first_fault: None,
        }
    }

    // Records that the copy could not be brought to the candidate.
    fn lack(
        &mut self,
        alloc: Global,
        candidate: &Candidate,
        fault: FollowFault,
    ) -> Result<(), AllocError>
        ensures copy { self.new.copy ≡ self.old.copy }
        ensures had { self.new.had ≡ self.old.had }
        ensures fault { OnOk result (self.new.first_fault ≡ or_fault self.old.first_fault fault) }
        ensures forks { self.new.forks ≡ self.old.forks }
        ensures not_had { OnOk result (AddsLacked candidate.now self.old.not_had.items
            self.new.not_had.items) }
        ensures again { self.new.again ≡ self.old.again }
    {
        self.not_had.push(candidate.copy(alloc)?)?;
        if self.first_fault.is_none() {
            self.first_fault = Some(fault);
        }
        Ok(())
    }

    // Records that the candidate and the copy are a fork.
    fn fork(
        &mut self,
        alloc: Global,
        candidate: &Candidate,
        proof: Option<Proof>,
    ) -> Result<(), AllocError>
        ensures copy { self.new.copy ≡ self.old.copy }
        ensures had { self.new.had ≡ self.old.had }
        ensures fault { self.new.first_fault ≡ self.old.first_fault }
        ensures shows { OnOk result ((digest : List ℕ → List ℕ)
            → IfSome self.old.copy (λ copy. AreFork digest copy candidate.now proof)
            → ShowsEach digest self.old.forks.items → ShowsEach digest self.new.forks.items) }
        ensures lines { OnOk result (self.old.copy ≢ None
            → KeepsLines self.old.forks.items self.new.forks.items
            × IsInSomeLine self.new.forks.items candidate.now) }
        ensures adds { OnOk result (IfSome self.old.copy (λ copy. AddsFork copy candidate.now
            self.old.forks.items self.new.forks.items)) }
        ensures not_had { self.new.not_had ≡ self.old.not_had }
        ensures again { self.new.again ≡ self.old.again }
    {
        match &self.copy {
            Some(copy) => add_fork(alloc, &mut self.forks, copy, candidate, proof),
            None => Ok(()),
        }
    }

    // Notes how many candidates were not had when the copy grows.
    fn grow(&mut self, candidate: &Candidate)
        ensures copy { self.new.copy ≡ self.old.copy }
        ensures had { self.new.had ≡ self.old.had }
        ensures fault { self.new.first_fault ≡ self.old.first_fault }
        ensures forks { self.new.forks ≡ self.old.forks }
        ensures not_had { self.new.not_had ≡ self.old.not_had }
        ensures again { IsLargerThan self.old.copy candidate.now
            → self.new.again ≡ length self.old.not_had.items }
        ensures other { ¬ IsLargerThan self.old.copy candidate.now
            → self.new.again ≡ self.old.again }
    {
        if exceeds(&self.copy, candidate) {
            self.again = self.not_had.len();
        }
    }

    /// Adds the outcome of a candidate's turn.
    pub(crate) fn add(
        &mut self,
        alloc: Global,
        candidate: &Candidate,
        turn: Outcome,
    ) -> Result<(), AllocError>
        ensures copy { OnOk result (KnowsAfter candidate.now turn self.old.copy self.new.copy) }
        ensures had { self.new.had ≡ self.old.had }
        ensures fault { OnOk result
            (self.new.first_fault ≡ fault_after self.old.first_fault turn) }
        ensures shows { OnOk result ((digest : List ℕ → List ℕ)
            → ShowsTurn digest self.old.copy candidate.now turn
            → ShowsEach digest self.old.forks.items → ShowsEach digest self.new.forks.items) }
        ensures added { OnOk result (IsAdded candidate.now turn self.old self.new) }
        ensures again { OnOk result (CountsAgain candidate.now turn self.old self.new) }
    {
        match turn {
            Outcome::Agrees => {}
            Outcome::Brought => {
                self.grow(candidate);
                self.copy = Some(candidate.copy(alloc)?);
            }
            Outcome::Forks(proof) => self.fork(alloc, candidate, proof)?,
            Outcome::Contradicts => self.lack(alloc, candidate, FollowFault::Contradiction)?,
            Outcome::NotHad(fault) => self.lack(alloc, candidate, fault)?,
        }
        Ok(())
    }
}
