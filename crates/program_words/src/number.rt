//! Numbers as words.
ghost use Rattle.program_words.specs.Spelling.{FindsPart, IsNumberIn};

use tlog_text::read_number;

/// The number from `least` to `most` that the word spells, if it spells one.
pub(crate) fn number_in(word: &str, least: u64, most: u64) -> Option<u64>
    ensures { FindsPart (λ n. IsNumberIn least most n word.now) result }
{
    match read_number(word, most) {
        Ok(n) if n >= least => Some(n),
        _ => None,
    }
}
