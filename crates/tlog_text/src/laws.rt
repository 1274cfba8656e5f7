//! Laws of the texts of numbers and hashes, for the definitions that the contracts cite.
//!
//! A law is a function with an empty body: only its contract counts.
ghost use Rattle.tlog_text.specs.Laws.{HashesAreSpelled, NumbersAreSpelled, OneNumberAnswer};

/// A text spells at most one number. A number of 64 bits has one text, the one that Rust prints.
pub fn number_spelling_law()
    ensures { NumbersAreSpelled }
{}

/// Reading a text as a number has one answer.
pub fn number_answer_law()
    ensures { OneNumberAnswer }
{}

/// A text spells at most one hash. A hash has one text, which has 44 symbols.
pub fn hash_spelling_law()
    ensures { HashesAreSpelled }
{}
