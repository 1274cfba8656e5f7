//! The candidates of some places, gathered answer after answer.
ghost use Rattle.std.specs.Prelude.{◌≡◌, ◌≢◌, ◌∷◌, ◌++◌, [], List, IfErr, IfOk, None, OnOk, map};
ghost use Rattle.std.specs.List.Sorted.{IsPermutation, IsSorted};
ghost use Rattle.copy_places.specs.declared.place.PlaceAnswer.{PlaceAnswer};
ghost use Rattle.copy_places.specs.Candidates.{turn_cmp};
ghost use Rattle.copy_places.specs.Gathering.{Gathers, option_or, or_first};

use crate::PlaceAnswer;
use crate::candidate::{Candidate, candidate_of};
use crate::candidate_fault::CandidateFault;
use mirror_model::TakeFault;
use signed_note::Verifier;
use std::alloc::{AllocError, Global};

// The reason why a note is no candidate.
fn refused(fault: TakeFault) -> Result<CandidateFault, AllocError>
    ensures { IfOk result (λ f. (f ≡ CandidateFault.Head fault) × (fault ≢ TakeFault.OutOfMemory)) }
{
    match fault {
        TakeFault::OutOfMemory => Err(AllocError),
        _ => Ok(CandidateFault::Head(fault)),
    }
}

/// The candidates so far, and why the first place without a candidate gave none.
#[derive(Drop)]
pub(crate) struct Gathered {
    pub(crate) candidates: Vec<Candidate>,
    pub(crate) first: Option<CandidateFault>,
}

impl Gathered {
    /// No candidates and no reason.
    pub(crate) fn new(alloc: Global) -> Gathered
        ensures candidates { result.candidates.items ≡ [] }
        ensures first { result.first ≡ None }
    {
        Gathered {
            candidates: Vec::new(alloc),
            first: None,
        }
    }

    // Skips an answer without a candidate, and keeps the reason if it is the first.
    fn pass_over(&mut self, fault: CandidateFault)
        ensures candidates { self.new.candidates.items ≡ self.old.candidates.items }
        ensures first { self.new.first ≡ or_first self.old.first fault }
    {
        if self.first.is_none() {
            self.first = Some(fault);
        }
    }

    // Adds the note's candidate, if it is one.
    fn take_note(
        &mut self,
        alloc: Global,
        origin: &str,
        keys: &[Box<dyn Verifier>],
        note: Vec<u8>,
    ) -> Result<(), AllocError>
        ensures { OnOk result ((answers : List PlaceAnswer)
            → Gathers origin.now (map (λ k. key k) keys.now) answers self.old.candidates.items self.old.first
            → Gathers origin.now (map (λ k. key k) keys.now) (answers ++ PlaceAnswer.File note ∷ [])
            self.new.candidates.items self.new.first) }
    {
        match candidate_of(alloc, origin, keys, note) {
            Ok(candidate) => self.candidates.push(candidate)?,
            Err(fault) => self.pass_over(refused(fault)?),
        }
        Ok(())
    }

    /// Adds the answer of the next place.
    ///
    /// # Errors
    ///
    /// `AllocError`: memory was refused.
    pub(crate) fn take(
        &mut self,
        alloc: Global,
        origin: &str,
        keys: &[Box<dyn Verifier>],
        answer: PlaceAnswer,
    ) -> Result<(), AllocError>
        ensures { OnOk result ((answers : List PlaceAnswer)
            → Gathers origin.now (map (λ k. key k) keys.now) answers self.old.candidates.items self.old.first
            → Gathers origin.now (map (λ k. key k) keys.now) (answers ++ answer ∷ [])
            self.new.candidates.items self.new.first) }
    {
        match answer {
            PlaceAnswer::File(note) => self.take_note(alloc, origin, keys, note)?,
            PlaceAnswer::NotFound => self.pass_over(CandidateFault::NoCheckpoint),
            PlaceAnswer::Failed => self.pass_over(CandidateFault::Source),
        }
        Ok(())
    }
}

/// The gathered candidates, in the order of turns, or the reason why the first place gave none.
pub(crate) fn in_turn(gathered: Gathered) -> Result<Vec<Candidate>, CandidateFault>
    ensures same { IfOk result (λ c. IsPermutation gathered.candidates.items c.items) }
    ensures some { IfOk result (λ c. gathered.candidates.items ≢ []) }
    ensures rising { IfOk result (λ c. IsSorted turn_cmp c.items) }
    ensures none { IfErr result (λ f. gathered.candidates.items ≡ []) }
    ensures fault { IfErr result (λ f. f ≡ option_or gathered.first CandidateFault.NoCheckpoint) }
{
    let Gathered {
        mut candidates,
        first,
    } = gathered;
    if candidates.is_empty() {
        return Err(first.unwrap_or(CandidateFault::NoCheckpoint));
    }
    candidates.sort_unstable();
    Ok(candidates)
}
