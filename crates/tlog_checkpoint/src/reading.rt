//! Reads checkpoints from text.

ghost use Rattle.std.specs.Prelude.{◌≡◌, ◌==◌, ◌≢◌, ℕ, List, Ok, Err, [], ◌∷◌, ◌++◌, length, map, IfOk, MatchOption};
ghost use Rattle.std.specs.List.{list_any, slice_split};
ghost use Rattle.tlog_text.specs.Answers.{seen};
ghost use Rattle.tlog_checkpoint.specs.Lines.{is_newline};
ghost use Rattle.tlog_checkpoint.specs.Grammar.{IsCheckpoint, IsWritableCheckpoint};
ghost use Rattle.tlog_checkpoint.specs.Parts.{ReadsCheckpointLines, ReadsFields};
ghost use Rattle.tlog_checkpoint.specs.declared.Checkpoint.{Checkpoint};
ghost use Rattle.tlog_checkpoint.specs.Reading.{ReadsCheckpoint};

use crate::Checkpoint;
use crate::fault::CheckpointFault;
use crate::fields::{root_of, size_of};
use crate::text::{Line, Lines};
use std::alloc::{AllocError, Global};

/// The text without its last newline, if it ends in one.
fn without_last_newline(text: &str) -> Option<&str>
    ensures { MatchOption result ((front : List ℕ) → text.now ≢ front ++ 10 ∷ []) (λ body. text.now
        ≡ body.now ++ 10 ∷ []) }
{
    text.strip_suffix('\n')
}

/// The parts of the text between newlines.
fn parts_of(alloc: Global, text: &str) -> Result<Vec<&str>, AllocError>
    ensures { IfOk result (λ v. map (λ part. part.now) v.items ≡ slice_split is_newline text.now) }
{
    text.split('\n').collect(alloc)
}

/// The lines of the text. Each line ends in a newline.
fn lines_of(alloc: Global, text: &str) -> Result<Vec<&str>, CheckpointFault>
    ensures { ReadsCheckpointLines text.now (seen (λ v. map (λ line. line.now) v.items) result) }
{
    let Some(body) = without_last_newline(text) else {
        return Err(CheckpointFault::TooFewLines);
    };
    Ok(parts_of(alloc, body)?)
}

/// Whether some line is empty.
fn has_empty_line(lines: &[&str]) -> bool
    ensures { result ≡ list_any (λ line. length line.now == 0) lines.now }
{
    lines.iter().any(|line| line.is_empty())
}

/// Copies the lines.
fn copy_lines(alloc: Global, lines: &[&str]) -> Result<Lines, AllocError>
    ensures { IfOk result (λ copies. copies ≡ map (λ line. line.now) lines.now) }
{
    let mut copies = Vec::new(alloc);
    for line in lines {
        copies.push(String::from_str(alloc, line)?)?;
    }
    Ok(Lines::new(copies))
}

/// The checkpoint of these lines.
fn checkpoint_of(
    alloc: Global,
    origin: &str,
    size_line: &str,
    root_line: &str,
    extensions: &[&str],
) -> Result<Checkpoint, CheckpointFault>
    ensures { ReadsFields origin.now size_line.now root_line.now
        (map (λ line. line.now) extensions.now) result }
{
    let size = size_of(size_line)?;
    let root = root_of(root_line)?;
    let origin = Line::new(String::from_str(alloc, origin)?);
    let extensions = copy_lines(alloc, extensions)?;
    Ok(Checkpoint {
        origin,
        size,
        root,
        extensions,
    })
}

/// The result of `read`, whose other clauses follow from this one.
fn checkpoint_in(alloc: Global, text: &str) -> Result<Checkpoint, CheckpointFault>
    ensures { ReadsCheckpoint text.now result }
{
    let lines = lines_of(alloc, text)?;
    let [origin, size, root, extensions @ ..] = lines.as_slice() else {
        return Err(CheckpointFault::TooFewLines);
    };
    if has_empty_line(&lines) {
        return Err(CheckpointFault::EmptyLine);
    }
    checkpoint_of(alloc, origin, size, root, extensions)
}

/// Reads a checkpoint (C2SP tlog-checkpoint, "Note text").
///
/// The result is `Ok` exactly if the whole text is a checkpoint by the grammar.
///
/// # Errors
///
/// The first of these that applies:
///
/// - `TooFewLines`: fewer than three lines, or bytes after the last newline;
/// - `EmptyLine`: some line is empty, extension lines included;
/// - `BadSize`: the second line is not decimal digits, or has a leading zero before another digit;
/// - `SizeTooLarge`: its number is over 9223372036854775807, however many digits it has;
/// - `BadRoot`: the third line is not the standard base64 of exactly 32 bytes, padded and canonical.
///
/// `OutOfMemory` may be returned for any text. A carriage return is an ordinary byte of its line.
pub fn read(alloc: Global, text: &str) -> Result<Checkpoint, CheckpointFault>
    // The result is a checkpoint with that text, or the first refusal that applies.
    ensures answer { ReadsCheckpoint text.now result }
    // The text of a checkpoint is read as that checkpoint, unless memory was refused.
    ensures only { (c : Checkpoint) → IsCheckpoint text.now c.origin c.size c.root c.extensions
        → result ≢ Err CheckpointFault.OutOfMemory → result ≡ Ok c }
    // A checkpoint that was read can be written.
    ensures writable { IfOk result IsWritableCheckpoint }
{
    checkpoint_in(alloc, text)
}
