//! Numbers as decimal text.
ghost use Rattle.std.specs.Prelude.{◌≡◌, ◌++◌, ℕ, MatchBool, OnOk, string_bytes};
ghost use Rattle.std.specs.Char.{is_ascii_digit};
ghost use Rattle.std.specs.Fmt.{decimal};
ghost use Rattle.std.specs.List.{list_all};
ghost use Rattle.std.specs.Str.Parse.{digits_value};
ghost use Rattle.tlog_text.specs.Number.{IsDecimal, ReadsNumber};

use std::alloc::AllocError;
use thiserror::Error;

/// Why a text was refused as a number. If 255 is the greatest number, `01` is not a number and `300` is too large.
#[derive(Debug, Drop, PartialEq, Eq, Clone, Copy, Error)]
pub enum NumberFault {
    /// The text is not decimal digits, or has a leading zero before another digit.
    #[error("NotANumber")]
    NotANumber,
    /// The number is over the greatest, however many digits it has.
    #[error("TooLarge")]
    TooLarge,
}

fn are_digits(text: &str) -> bool
    ensures { result ≡ list_all is_ascii_digit text.now }
{
    text.as_bytes().iter().all(|byte| byte.is_ascii_digit())
}

// Whether the text has at least one digit, only digits, and no leading zero.
fn is_decimal(text: &str) -> bool
    ensures { MatchBool result (IsDecimal text.now (digits_value 10 text.now))
        ((n : ℕ) → ¬ IsDecimal text.now n) }
{
    let digits = text.as_bytes();
    if digits.is_empty() {
        return false;
    }
    if digits.len() > 1 && digits[0] == b'0' {
        return false;
    }
    are_digits(text)
}

/// The number that the text spells: ASCII decimal digits without leading zeros, at most `greatest`. The text may have any
/// number of digits.
///
/// # Errors
///
/// `NotANumber` if the text is not such digits; a sign or an empty text is refused too. `TooLarge` if the number is over
/// `greatest`.
///
/// # Examples
///
/// `read_number("100", 255)` is `Ok(100)`, `read_number("0100", 255)` is `Err(NotANumber)`, and
/// `read_number("256", 255)` is `Err(TooLarge)`.
pub fn read_number(text: &str, greatest: u64) -> Result<u64, NumberFault>
    ensures { ReadsNumber greatest text.now result }
{
    if !is_decimal(text) {
        return Err(NumberFault::NotANumber);
    }
    match text.parse::<u64>() {
        Ok(n) if n <= greatest => Ok(n),
        _ => Err(NumberFault::TooLarge),
    }
}

/// Appends the decimal text of the number.
///
/// # Errors
///
/// Memory was refused.
pub fn push_number(text: &mut String, n: u64) -> Result<(), AllocError>
    ensures ok { OnOk result (string_bytes text.new ≡ string_bytes text.old ++ decimal n) }
    ensures spelled { IsDecimal (decimal n) n }
{
    write!(text, "{n}")
}
