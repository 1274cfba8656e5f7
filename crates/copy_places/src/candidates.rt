//! The candidates of a run: the given note, or those of its places.
ghost use Rattle.std.specs.Prelude.{◌≡◌, ◌<◌, All, IfErr, IfOk, length, map, option_map};
ghost use Rattle.std.specs.List.Sorted.{IsSorted};
ghost use Rattle.tlog_tiles.specs.declared.paths.Path.TheVariants.{Checkpoint};
ghost use Rattle.copy_places.specs.AskedOnce.{AsksEachOnce};
ghost use Rattle.copy_places.specs.Candidates.{IsCandidate, note_of, turn_cmp};
ghost use Rattle.copy_places.specs.GatheredFrom.{AreCandidates, GathersFrom, GiveCandidates, GiveNoneFor, IsOnly, LacksCandidates, RefusesGiven};
ghost use Rattle.copy_places.specs.Requests.{AsksAny, IsGivenOrMayGive, MayGiveNote};

use crate::Places;
use crate::candidate::{Candidate, candidate_of};
use crate::candidate_fault::CandidateFault;
use crate::gather::{Gathered, in_turn};
use mirror_model::TakeFault;
use mirror_sources::Source;
use signed_note::Verifier;
use std::alloc::{AllocError, Global};
use tlog_tiles::Path;

// Requests the checkpoint of each place of a run once.
fn ask_each_place<S: Source + Drop>(
    alloc: Global,
    origin: &str,
    keys: &[Box<dyn Verifier>],
    places: &mut Places<S>,
) -> Result<Gathered, AllocError>
    ensures asks { AsksAny S.may_answer S.failed S.asked places.old places.new }
    ensures once { AsksEachOnce S.asked (λ k path. path ≡ Checkpoint) places.old places.new }
    ensures gathers { IfOk result (λ gathered. GathersFrom S.may_answer origin.now
        (map (λ k. key k) keys.now) places.old places.new (length places.old.list.items) gathered) }
{
    let mut gathered = Gathered::new(alloc);
    for i in 0..places.list().len() {
        let answer = places.get(i, &Path::Checkpoint)?;
        gathered.take(alloc, origin, keys, answer)?;
    }
    Ok(gathered)
}

// The candidates of the places, in the order of their turns. A get that fails counts as a failure of its place.
fn ask_places<S: Source + Drop>(
    alloc: Global,
    origin: &str,
    keys: &[Box<dyn Verifier>],
    places: &mut Places<S>,
) -> Result<Vec<Candidate>, CandidateFault>
    ensures asks { AsksAny S.may_answer S.failed S.asked places.old places.new }
    ensures once { AsksEachOnce S.asked (λ k path. path ≡ Checkpoint) places.old places.new }
    ensures opened { IfOk result
        (λ candidates. All (IsCandidate origin.now (map (λ k. key k) keys.now)) candidates.items) }
    ensures gave { IfOk result (λ candidates. All
        (λ c. MayGiveNote S.may_answer places.old (note_of c)) candidates.items) }
    ensures some { IfOk result (λ candidates. 0 < length candidates.items) }
    ensures gives { IfOk result (λ candidates. GiveCandidates S.may_answer origin.now
        (map (λ k. key k) keys.now) places.old places.new candidates.items) }
    ensures rising { IfOk result (λ candidates. IsSorted turn_cmp candidates.items) }
    ensures none { IfErr result (GiveNoneFor S.may_answer origin.now (map (λ k. key k) keys.now)
        places.old places.new) }
{
    let gathered = ask_each_place::<S>(alloc, origin, keys, places)?;
    in_turn(gathered)
}

// The only candidate: the given note.
fn given_candidate(
    alloc: Global,
    origin: &str,
    keys: &[Box<dyn Verifier>],
    note: Vec<u8>,
) -> Result<Vec<Candidate>, CandidateFault>
    ensures opened { IfOk result
        (λ candidates. All (IsCandidate origin.now (map (λ k. key k) keys.now)) candidates.items) }
    ensures given { IfOk result (λ candidates. All (λ c. note_of c ≡ note.items) candidates.items) }
    ensures some { IfOk result (λ candidates. 0 < length candidates.items) }
    ensures only { IfOk result (λ candidates. IsOnly origin.now (map (λ k. key k) keys.now)
        note.items candidates.items) }
    ensures rising { IfOk result (λ candidates. IsSorted turn_cmp candidates.items) }
    ensures refuses { IfErr result
        (RefusesGiven origin.now (map (λ k. key k) keys.now) note.items) }
{
    let mut candidates = Vec::new(alloc);
    match candidate_of(alloc, origin, keys, note) {
        Ok(candidate) => candidates.push(candidate)?,
        Err(TakeFault::OutOfMemory) => return Err(CandidateFault::OutOfMemory),
        Err(fault) => return Err(CandidateFault::Head(fault)),
    }
    Ok(candidates)
}

/// The candidates of a run, in the order of their turns: the given note, or else those of the places. Each place gets one request for its
/// checkpoint, and no other. A get that fails counts as a failure of its place.
///
/// ```text
/// candidates_of(alloc, "ex", &keys, &mut places, None)? // places over 3 and over 257 entries: the candidate of 257, then that of 3
/// ```
///
/// # Errors
///
/// - `Head`: the given note does not open, or is no checkpoint of the origin. It has the first refusal that applies.
/// - Without a given note, if no place gives a candidate, the reason of the first place:
///   - `NoCheckpoint`: it lacks a checkpoint. This is also the fault of an empty list of places.
///   - `Head`: the bytes are not a note that opens, or not a checkpoint of the origin. It has the first refusal that applies.
///   - `Source`: its get failed, or it had failed 8 times before.
/// - `OutOfMemory`: memory was refused.
pub fn candidates_of<S: Source + Drop>(
    alloc: Global,
    origin: &str,
    keys: &[Box<dyn Verifier>],
    places: &mut Places<S>,
    given: Option<Vec<u8>>,
) -> Result<Vec<Candidate>, CandidateFault>
    ensures opened { IfOk result
        (λ candidates. All (IsCandidate origin.now (map (λ k. key k) keys.now)) candidates.items) }
    ensures gave { IfOk result (λ candidates. All (λ c. IsGivenOrMayGive S.may_answer
        (option_map (λ v. v.items) given) places.old (note_of c)) candidates.items) }
    ensures asks { AsksAny S.may_answer S.failed S.asked places.old places.new }
    ensures once { AsksEachOnce S.asked (λ k path. path ≡ Checkpoint) places.old places.new }
    ensures some { IfOk result (λ candidates. 0 < length candidates.items) }
    ensures gathered { IfOk result (λ candidates. AreCandidates S.may_answer origin.now
        (map (λ k. key k) keys.now) places.old places.new (option_map (λ v. v.items) given)
        candidates.items) }
    ensures rising { IfOk result (λ candidates. IsSorted turn_cmp candidates.items) }
    ensures ends { IfErr result (LacksCandidates S.may_answer origin.now
        (map (λ k. key k) keys.now) places.old places.new (option_map (λ v. v.items) given)) }
{
    match given {
        Some(note) => given_candidate(alloc, origin, keys, note),
        None => ask_places(alloc, origin, keys, places),
    }
}
