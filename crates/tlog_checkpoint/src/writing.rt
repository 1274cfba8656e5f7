//! Writes checkpoints as text.

ghost use Rattle.std.specs.Prelude.{◌≡◌, ◌++◌, IfOk, OnOk, map, string_bytes};
ghost use Rattle.tlog_checkpoint.specs.Lines.{ended, text_of};
ghost use Rattle.std.specs.Fmt.{decimal};
ghost use Rattle.tlog_text.specs.Number.{IsDecimal};
ghost use Rattle.tlog_text.specs.Hash.{base64_of, IsHashText};
ghost use Rattle.tlog_checkpoint.specs.Grammar.{IsCheckpoint, IsWritableCheckpoint};

use crate::Checkpoint;
use std::alloc::{AllocError, Global};
use tlog_hash::Hash;
use tlog_text::{push_hash, push_number};

/// Appends the line and a newline.
fn add_line(text: &mut String, line: &str) -> Result<(), AllocError>
    ensures { OnOk result (string_bytes text.new ≡ string_bytes text.old ++ ended line.now) }
{
    text.push_str(line)?;
    text.push('\n')
}

/// Appends the line of the size.
fn add_size(text: &mut String, size: u64) -> Result<(), AllocError>
    ensures ok { OnOk result (string_bytes text.new ≡ string_bytes text.old
        ++ ended (decimal size)) }
    ensures spelled { OnOk result (IsDecimal (decimal size) size) }
{
    push_number(text, size)?;
    text.push('\n')
}

/// Appends the line of the root.
fn add_root(text: &mut String, root: &Hash) -> Result<(), AllocError>
    ensures ok { OnOk result (string_bytes text.new ≡ string_bytes text.old
        ++ ended (base64_of root.now)) }
    ensures spelled { OnOk result (IsHashText (base64_of root.now) root.now) }
{
    push_hash(text, root)?;
    text.push('\n')
}

/// Appends the lines, each with a newline.
fn add_lines(text: &mut String, lines: &[String]) -> Result<(), AllocError>
    ensures { OnOk result (string_bytes text.new ≡ string_bytes text.old
        ++ text_of (map string_bytes lines.now)) }
{
    for line in lines {
        add_line(text, line.as_str())?;
    }
    Ok(())
}

/// The only text of the checkpoint, which `read` reads as the same checkpoint.
///
/// The origin and the extension lines must not be empty or contain a newline. The size must be at
/// most 9223372036854775807.
///
/// # Errors
///
/// Memory was refused.
pub fn write(alloc: Global, checkpoint: &Checkpoint) -> Result<String, AllocError>
    requires { IsWritableCheckpoint checkpoint.now }
    ensures { IfOk result (λ text. IsCheckpoint (string_bytes text) checkpoint.now.origin
        checkpoint.now.size checkpoint.now.root checkpoint.now.extensions) }
{
    let mut text = String::new(alloc);
    add_line(&mut text, checkpoint.origin.as_str())?;
    add_size(&mut text, checkpoint.size)?;
    add_root(&mut text, &checkpoint.root)?;
    add_lines(&mut text, checkpoint.extensions.as_slice())?;
    Ok(text)
}
