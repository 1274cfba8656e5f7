//! Laws of keys and key files, for the definitions that the contracts cite.
//!
//! A law is a function with an empty body: only its contract counts.
ghost use Rattle.signed_note.specs.KeyLaws.{OneKeyAnswer, HasKeyLimits};

/// `read_keys` has one answer for bytes, apart from `OutOfMemory`. The bytes are a key file with only one list of keys, or
/// one line is the first bad one.
pub fn one_key_answer_law()
    ensures { OneKeyAnswer }
{}

/// A text to sign has at most 900,000 bytes, the name of a key of this crate 255, and a shared secret 64.
pub fn key_limits_law()
    ensures { HasKeyLimits }
{}
