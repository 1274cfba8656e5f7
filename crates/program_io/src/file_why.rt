//! The line that says why a command failed.
ghost use Rattle.std.specs.Prelude.{IfOk, false, string_bytes};
ghost use Rattle.std.specs.Char.{is_control};
ghost use Rattle.program_io.specs.FileWhy.{IsWhyFront, IsWhyLine};

use std::alloc::{AllocError, Global};
use std::io;

/// The greatest length of a line that says why a command failed, in bytes and with its newline.
pub const MAX_WHY_LEN: usize = 200;

// Longer names than both together are cut: only this many bytes of the beginning and of the end are printed.
const FRONT_LEN: usize = 36;

const END_LEN: usize = 72;

/// The line `THING: REASON`, or `THING` if there is no reason. A control character is printed by its number in
/// hexadecimal, as `\x1b`. Two dots replace the middle of a long name. A line that is still too long is cut.
///
/// ```text
/// why_line(alloc, "log.state", "No space left on device")?   // "log.state: No space left on device\n"
/// ```
///
/// # Errors
///
/// Memory was refused.
#[tactic(auto, using(crate::proofs::FileWhys::ended_front))]
pub fn why_line(alloc: Global, thing: &str, reason: &str) -> Result<String, AllocError>
    ensures { IfOk result (λ line. IsWhyLine (string_bytes line)) }
{
    let text = shown(alloc, thing, reason)?;
    let mut line = plain_front(alloc, text.as_str())?;
    line.push('\n')?;
    Ok(line)
}

// The thing and the reason, without control characters.
fn shown(alloc: Global, thing: &str, reason: &str) -> Result<String, AllocError> {
    let mut text = String::new(alloc);
    if thing.len() <= FRONT_LEN + END_LEN {
        push_shown(&mut text, thing)?;
    } else {
        let (front, rest) = thing.split_at(thing.floor_char_boundary(FRONT_LEN));
        let (_, end) = rest.split_at(rest.ceil_char_boundary(rest.len().saturating_sub(END_LEN)));
        push_shown(&mut text, front)?;
        text.push_str("..")?;
        push_shown(&mut text, end)?;
    }
    if !reason.is_empty() {
        text.push_str(": ")?;
        push_shown(&mut text, reason)?;
    }
    Ok(text)
}

// Adds a text with its control characters escaped.
fn push_shown(text: &mut String, more: &str) -> Result<(), AllocError> {
    for character in more.chars() {
        if character.is_control() {
            let number = character as u32;
            write!(text, "\\x{number:02x}")?;
        } else {
            text.push(character)?;
        }
    }
    Ok(())
}

// The longest beginning of the text that fits in a line, up to the first control character. A text of `shown` has none.
#[tactic(auto, using(crate::proofs::FileWhys::no_front))]
fn plain_front(alloc: Global, text: &str) -> Result<String, AllocError>
    ensures { IfOk result (λ front. IsWhyFront (string_bytes front)) }
{
    let mut front = String::new(alloc);
    for character in text.chars() {
        if !push_plain(&mut front, character)? {
            return Ok(front);
        }
    }
    Ok(front)
}

// Adds a character to the beginning of a line if it fits and is no control character. It returns whether the character was
// added.
#[tactic(auto, using(crate::proofs::FileWhys::longer_front))]
fn push_plain(front: &mut String, character: char) -> Result<bool, AllocError>
    requires { IsWhyFront (string_bytes front.old) }
    ensures { IfOk result (λ _. IsWhyFront (string_bytes front.new)) }
{
    if character.is_control() || front.len() + character.len_utf8() >= MAX_WHY_LEN {
        return Ok(false);
    }
    front.push(character)?;
    Ok(true)
}

/// The text of the system for an error, without its number.
///
/// # Errors
///
/// Memory was refused.
pub fn system_reason(alloc: Global, error: &io::Error) -> Result<String, AllocError> {
    let text = error.to_string(alloc)?;
    match text.split_once(" (os error ") {
        Some((words, _)) => String::from_str(alloc, words),
        None => Ok(text),
    }
}
