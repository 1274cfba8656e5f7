//! Laws of the definitions that the contracts cite.
ghost use Rattle.copy_follow.specs.CopyForks.{CopyForksAreContradictions};
ghost use Rattle.copy_follow.specs.LargerForks.{ContradictionsAreLines};
ghost use Rattle.copy_follow.specs.Runs.{RunsKeepCopies};

use mirror_sources::Source;

/// Several calls bring a copy to notes. At each moment the old copy is on the shelf, or one grown from it under one of the notes. No file
/// of the old copy is put again.
pub fn run_law()
    ensures { RunsKeepCopies }
{}

/// At Ok of `follow` a larger candidate that contradicts the copy is in a fork line, by `says` and `tells`. The copy has entries, and its
/// list does not begin a list with the candidate's size and root. For each full file of the proof, some place may answer nothing but the
/// truth, and did not fail. So may one place, or two together, for the edge. Premise: no two different strings of the two trees, and of
/// what `tells` names for the candidate, share a digest.
pub fn larger_fork_law<S: Source>()
    ensures { ContradictionsAreLines S.may_answer S.failed S.asked }
{}

/// At Ok of `follow` a candidate of at most as many entries as the copy is in a fork line with it exactly if its root is not that of the
/// copy's first entries, by `forks` and `says`. The line may also be with the copy that was found first, which the copy begins with, if the
/// candidate has as many entries as the copy. Premise: no two different strings of the copy's tree, and of the check of the proof that the
/// candidate agrees, or of such a line, share a digest.
pub fn copy_fork_law()
    ensures { CopyForksAreContradictions }
{}
