//! Properties of state texts, as laws of the definitions that the contracts cite.
//!
//! A law is the contract of a function with an empty body: it consists of its proof.
ghost use Rattle.mirror_files.specs.Laws.{NoTextBeginsAnother, TextListsOneState, TextsHaveOneAnswer, ViewHasOneText};

/// Bytes have one answer as a state text, apart from `OutOfMemory`: they determine the lists, and the refusals exclude
/// one another.
pub fn one_answer_law()
    ensures { TextsHaveOneAnswer }
{}

/// A state text lists only one state.
pub fn one_text_law()
    ensures { TextListsOneState }
{}

/// No state text is a strict prefix of another: a text that is cut off is not read as a state text.
pub fn cut_law()
    ensures { NoTextBeginsAnother }
{}

/// A view has one text that is saved.
pub fn state_text_law()
    ensures { ViewHasOneText }
{}
