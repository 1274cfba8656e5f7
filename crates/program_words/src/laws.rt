//! Laws of the words.
//!
//! A law is a function with an empty body: only its contract counts.
ghost use Rattle.std.specs.Prelude.{[], codes};
ghost use Rattle.program_words.specs.Spelling.{IsAddressOf, IsServer, WordsNameOnePlace};

/// Two words name one place at most: one folder, or one host, prefix, address and port. The address of `[::1]:80` is `::1`; that of a
/// name without brackets is the name.
pub fn one_place_law()
    ensures one { WordsNameOnePlace }
    ensures literal { IsServer (codes "[::1]:80") (codes "[::1]:80") [] (codes "::1") 80 }
    ensures name { IsAddressOf (codes "log.example") (codes "log.example") }
{}
