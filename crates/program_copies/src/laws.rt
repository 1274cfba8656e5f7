//! Laws of the definitions that the contracts cite.
ghost use Rattle.program_copies.specs.CopyLaws.{CopiesAnswerAsMirrors, CopyViewsAreLawful};
ghost use Rattle.program_copies.specs.Laws.{PrintsAsMirror, ProvesAsMirror, RefusesAsMirror};

use crate::keys::CopyKeys;

/// If a request is refused for a copy, `asked_proof` refuses it with the same fault for each list of that size, like `prove` of a state.
pub fn refusals_law()
    ensures { RefusesAsMirror }
{}

/// The status of a copy is that of each mirror whose only tree head is the copy's, complete and served. Without a checkpoint, it is that of
/// a mirror without tree heads.
pub fn status_law()
    ensures { PrintsAsMirror }
{}

/// What `prove` answers for a whole copy, `prove` answers for each mirror that serves its entries: a proof in the same bytes if the view is
/// lawful, or the same refusal. If the copy has no checkpoint and the mirror serves nothing, both give `NothingComplete`.
pub fn proofs_law()
    ensures { ProvesAsMirror }
{}

/// The reply from a copy is that of a mirror that has only its checkpoint, complete, whatever its files are. If the shelf has no checkpoint,
/// it is that of an empty mirror. The view is lawful, so by `one_response_law` of `mirror_http` it has no other reply.
///
/// Premise: the checkpoint is one of these entries, and no two different strings share a digest, of those of their tree and of those on the
/// way from the reply to the root. If a proof was asked for, the shelf has the files of the log; without them, the proof still holds.
#[tactic(auto, using(crate::proofs::MirrorAnswers::copies_answer_as_mirrors, crate::proofs::LawfulViews::copy_views_are_lawful))]
pub fn copies_answer_as_mirrors_law<K: CopyKeys>(_keys: &K)
    ensures reply { CopiesAnswerAsMirrors (K.are_keys _keys.now) }
    ensures lawful { CopyViewsAreLawful }
{}
