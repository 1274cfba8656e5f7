//! The parts of a note: its text and its signature lines.

ghost use Rattle.std.specs.Prelude.{◌≡◌, ℕ, ◌+◌, ◌<◌, ◌≤◌, List, length, IfSome, IfNone};
ghost use Rattle.tlog_text.specs.Answers.{seen};
ghost use Rattle.signed_note.specs.Notes.{IsNoteSplit, IsBlank};
ghost use Rattle.signed_note.specs.Reading.{line_count, ReadsSignatureLines};

use crate::fault::NoteFault;
use crate::limits::MAX_NOTE_LEN;
use crate::line::{SignatureLine, read_line};
use std::alloc::Global;

/// The last position of two newlines in a row.
fn blank_line(bytes: &[u8]) -> Option<usize>
    ensures found { IfSome result (λ at. IsBlank bytes.now at) }
    ensures last { IfSome result (λ at. (j : ℕ) → at < j → ¬ IsBlank bytes.now j) }
    ensures none { IfNone result ((j : ℕ) → ¬ IsBlank bytes.now j) }
{
    let mut end = bytes.len();
    while end >= 2 {
        if bytes[end - 2] == b'\n' && bytes[end - 1] == b'\n' {
            return Some(end - 2);
        }
        end -= 1;
    }
    None
}

/// The text of a note, with its last newline, and the signature part: the parts before and after the last blank line.
pub fn parts_of(whole: &str) -> Option<(&str, &str)>
    ensures found { IfSome result (λ x. IsNoteSplit whole.now x.0.now x.1.now) }
    ensures none { IfNone result ((text signed : List ℕ) → ¬ IsNoteSplit whole.now text signed) }
{
    let at = blank_line(whole.as_bytes())?;
    Some((&whole[..at + 1], &whole[at + 2..]))
}

/// The number of lines of a signature part. A last line without its newline counts.
pub fn count_lines(signed: &[u8]) -> usize
    requires { length signed.now ≤ MAX_NOTE_LEN }
    ensures { result ≡ line_count signed.now }
{
    let ended = signed.iter().filter(|b| **b == b'\n').count();
    if signed.is_empty() || signed[signed.len() - 1] == b'\n' {
        ended
    } else {
        ended + 1
    }
}

/// Reads the lines of a signature part.
///
/// # Errors
///
/// `BadSignatureLine` if the part is not signature lines, each with its newline. `OutOfMemory` if memory was refused.
pub fn read_lines(alloc: Global, signed: &str) -> Result<Vec<SignatureLine>, NoteFault>
    ensures { ReadsSignatureLines signed.now (seen (λ v. v.items) result) }
{
    let mut lines = Vec::new(alloc);
    let mut rest = signed;
    while !rest.is_empty() {
        let Some((line, after)) = rest.split_once('\n') else {
            return Err(NoteFault::BadSignatureLine);
        };
        lines.push(read_line(alloc, line)?)?;
        rest = after;
    }
    Ok(lines)
}
