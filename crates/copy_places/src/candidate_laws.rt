//! Laws of the definitions that the contracts cite.
ghost use Rattle.copy_places.specs.Agreeing.{AgreeingIsOfFirst};
ghost use Rattle.copy_places.specs.Answered.{AnsweredFilesAreHad};
ghost use Rattle.copy_places.specs.Forks.{ForkLineIsEvidence};
ghost use Rattle.copy_places.specs.Nobodys.{GivenFilesAreHad};

use mirror_sources::Source;

/// A fork line has two sizes and roots. A list with the first pair does not begin a list with the second one. Premise: no two different
/// strings of the check of the proof and of the second list's tree share a digest. With equal sizes, or with no entries, there is no
/// premise.
pub fn fork_line_law()
    ensures { ForkLineIsEvidence }
{}

/// If two points agree, each list with the second point begins with a list that has the first one. Premise: no two different strings of
/// the check of the proof and of the list's tree share a digest. With equal sizes, or with no entries, there is no premise.
pub fn agree_law()
    ensures { AgreeingIsOfFirst }
{}

/// If the places have the files of a proof of a log of the larger candidate, there is no reason why the proof cannot be had. Premise: no two
/// different strings of the log's tree, and of the edge and the way that the reason names, share a digest.
pub fn given_files_law()
    ensures { GivenFilesAreHad }
{}

/// The same for places that may answer nothing but the truth for the files of the proof, and did not fail. Each kept answer is one that its
/// place might give before any answer was kept. `ask_proof` says so (`answered`), if none was kept before it.
pub fn answered_files_law<S: Source>()
    ensures { AnsweredFilesAreHad S.may_answer }
{}
