//! The seconds to wait that a busy server names (RFC 9110, section 10.2.3).
ghost use Rattle.std.specs.Prelude.{◌≡◌, ◌-◌, ◌↔◌, ◌^◌, ◌++◌, ◌∷◌, [], ℕ, List, min, IfNone, IfSome, IsTrue};
ghost use Rattle.std.specs.Str.Parse.{IsNumeral, digits_value};
ghost use Rattle.mirror_client.specs.Reply.{Field};
ghost use Rattle.mirror_client.specs.Waits.{NamesSeconds, NamesWait};

use crate::framing::{are_digits, length_of};

#[tactic(auto, using(crate::proofs::Lengths::digits_are_numeral))]
fn is_numeral(bytes: &[u8]) -> bool
    ensures { IsTrue result ↔ IsNumeral 10 bytes.now }
{
    if bytes.is_empty() {
        return false;
    }
    are_digits(bytes)
}

// The decimal number that the bytes are; one of over 64 bits counts as the last of these.
#[tactic(auto, using(crate::proofs::Lengths::long_number))]
fn seconds_of(bytes: &[u8]) -> Option<u64>
    ensures found { IfSome result (λ n. IsNumeral 10 bytes.now
        × (n ≡ min (digits_value 10 bytes.now) (2 ^ 64 - 1))) }
    ensures none { IfNone result (¬ IsNumeral 10 bytes.now) }
{
    match length_of(bytes) {
        Some(n) => Some(n),
        None => {
            if is_numeral(bytes) {
                Some(u64::MAX)
            } else {
                None
            }
        }
    }
}

// The seconds to wait that the field names.
fn named_by(name: &[u8], value: &[u8]) -> Option<u64>
    ensures found { IfSome result (λ n. NamesSeconds (name.now, value.now) n) }
    ensures none { IfNone result ((n : ℕ) → ¬ NamesSeconds (name.now, value.now) n) }
{
    if name.eq_ignore_ascii_case(b"retry-after") {
        seconds_of(value)
    } else {
        None
    }
}

/// The seconds after one more field: those that were named, or else those that this field names.
#[tactic(auto, using(crate::proofs::Naming::named_kept, crate::proofs::Naming::named_new))]
pub(crate) fn with_seconds(so_far: Option<u64>, name: &[u8], value: &[u8]) -> Option<u64>
    ensures { (fields : List Field) → NamesWait fields so_far
        → NamesWait (fields ++ (name.now, value.now) ∷ []) result }
{
    match so_far {
        Some(seconds) => Some(seconds),
        None => named_by(name, value),
    }
}
