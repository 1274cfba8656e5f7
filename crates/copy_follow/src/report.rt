//! The result of a run of turns.
ghost use Rattle.std.specs.Prelude.{◌≡◌, ◌≢◌, ◌⊎◌, ◌↔◌, [], ℕ, All, IfErr, IfOk, IsFalse, IsTrue, List, None, Option, Some};
ghost use Rattle.std.specs.List.Sorted.{IsSorted};
ghost use Rattle.copy_places.specs.Candidates.{turn_cmp};
ghost use Rattle.copy_places.specs.Gathering.{option_or};
ghost use Rattle.copy_places.specs.Lines.{AreLines, KeepsLines};
ghost use Rattle.copy_places.specs.Shown.{ShowsEach};
ghost use Rattle.copy_places.specs.declared.candidate.Candidate.{Candidate};
ghost use Rattle.copy_follow.specs.Rule.{HasOneRoot, IsOfCopy, copy_point};
ghost use Rattle.copy_follow.specs.Says.{IsBehind, SettlesEach};
ghost use Rattle.copy_follow.specs.TurnsTaken.{HasTakenRun};

use crate::follow_fault::FollowFault;
use crate::lines::{add_to_copy, equal_lines, left_of};
use crate::run::Run;
use copy_places::{Candidate, ForkLine};
use std::alloc::{AllocError, Global};
use tlog_hash::Hash;

/// The result of a call of `follow`.
#[derive(Drop)]
pub struct Followed {
    /// The copy's number of entries, and the hash of its tree. None: it was empty and still is, and there is a fork.
    pub copy: Option<(u64, Hash)>,
    /// The number of entries that the copy had before.
    pub old: u64,
    /// The forks, rising, each one once.
    pub forks: Vec<ForkLine>,
    /// The size and root of each candidate that is larger than the copy and in no fork, rising.
    pub larger: Vec<(u64, Hash)>,
    /// The greatest candidate, if all candidates agree with the copy and are smaller.
    pub behind: Option<(u64, Hash)>,
}

// The size and root of the copy, if there is one.
fn point_of(copy: &Option<Candidate>) -> Option<(u64, Hash)>
    ensures { result ≡ copy_point copy.now }
{
    match copy {
        Some(copy) => Some((copy.size.0, copy.root)),
        None => None,
    }
}

// The greatest candidate, if it is smaller than the copy and there is no other line.
fn behind_of(
    copy: &Option<(u64, Hash)>,
    candidates: &[Candidate],
    forks: &[ForkLine],
    larger: &[(u64, Hash)],
) -> Option<(u64, Hash)>
    requires { IsSorted turn_cmp candidates.now }
    ensures { (point : ℕ × List ℕ) → (result ≡ Some point)
        ↔ IsBehind candidates.now copy.now forks.now larger.now point }
{
    let Some(copy) = copy else {
        return None;
    };
    if !forks.is_empty() || !larger.is_empty() {
        return None;
    }
    let Some(first) = candidates.first() else {
        return None;
    };
    if first.size.0 < copy.0 {
        return Some((first.size.0, first.root));
    }
    None
}

// Whether there is nothing to report: no copy, and no fork.
fn is_nothing(copy: &Option<Candidate>, equal: &[ForkLine]) -> bool
    ensures yes { IsTrue result → (copy.now ≡ None) × (equal.now ≡ []) }
    ensures no { IsFalse result → copy.now ≡ None → equal.now ≢ [] }
{
    copy.is_none() && equal.is_empty()
}

/// The result of the run. If the copy is still empty and there is no fork, the fault of the greatest candidate.
pub(crate) fn report(
    alloc: Global,
    run: Run,
    candidates: &[Candidate],
) -> Result<Followed, FollowFault>
    requires { IsSorted turn_cmp candidates.now }
    ensures copy { IfOk result (λ f. f.copy ≡ copy_point run.copy) }
    ensures had { IfOk result (λ f. f.old ≡ run.had) }
    ensures kept { IfOk result (λ f. KeepsLines run.forks.items f.forks.items) }
    ensures shows { IfOk result (λ f. (digest : List ℕ → List ℕ)
        → ShowsEach digest run.forks.items → ShowsEach digest f.forks.items) }
    ensures settles { IfOk result (λ f. (digest : List ℕ → List ℕ) (first : Option Candidate)
        → HasTakenRun digest first candidates.now run → SettlesEach digest candidates.now f) }
    ensures lines { IfOk result (λ f. (digest : List ℕ → List ℕ) (first : Option Candidate)
        → HasTakenRun digest first candidates.now run
        → AreLines first candidates.now f.forks.items) }
    ensures of_copy { IfOk result (λ f. (digest : List ℕ → List ℕ) (first : Option Candidate)
        → HasTakenRun digest first candidates.now run
        → All (IsOfCopy first candidates.now f.copy) f.forks.items) }
    ensures fault { IfErr result (λ e. (e ≡ FollowFault.OutOfMemory) ⊎ ((run.copy ≡ None)
        × (HasOneRoot candidates.now)
        × (e ≡ option_or run.first_fault FollowFault.NoCheckpoint))) }
{
    let Run {
        copy,
        had,
        mut forks,
        not_had,
        again: _,
        first_fault,
    } = run;
    drop(not_had);
    let mut equal = equal_lines(alloc, &copy, candidates)?;
    if is_nothing(&copy, &equal) {
        return Err(first_fault.unwrap_or(FollowFault::NoCheckpoint));
    }
    add_to_copy(alloc, &copy, candidates, &mut forks)?;
    forks.append(&mut equal)?;
    let larger = left_of(alloc, &copy, candidates, &forks)?;
    let copy = point_of(&copy);
    let behind = behind_of(&copy, candidates, &forks, &larger);
    Ok(Followed {
        copy,
        old: had,
        forks,
        larger,
        behind,
    })
}
