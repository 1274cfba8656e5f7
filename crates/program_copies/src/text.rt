//! The text of the result of `follow`.
ghost use Rattle.std.specs.Prelude.{◌≡◌, ◌++◌, ◌∷◌, ◌⊎◌, [], IfOk, OnOk, string_bytes};
ghost use Rattle.std.specs.List.{flat_map};
ghost use Rattle.mirror_model.specs.Texts.{point_text};
ghost use Rattle.program_copies.specs.Text.{behind_line, copy_line, followed_line, followed_lines, followed_status_of, fork_line, larger_line};

use copy_follow::Followed;
use copy_places::ForkLine;
use std::alloc::{AllocError, Global};
use tlog_hash::Hash;
use tlog_text::{push_hash, push_number};

/// The result of `follow`, with these lines. First the copy's size, root and old size, unless it was empty and still is. Then each fork,
/// with the smaller checkpoint first. Then each larger candidate to which the copy could not be brought. Last the greatest candidate, if
/// all are smaller. Roots are in standard base64.
///
/// ```text
/// followed 257 Vtr95bs6bTEAwKWkpA8ePu37C9grbzipJ/t/5Cf4fos= from 257
/// fork 257 Vtr95bs6bTEAwKWkpA8ePu37C9grbzipJ/t/5Cf4fos= 300 yLkhyCkirhBIPDWdbKzWEl0M7mUNhhrqa6beCGubPR4=
/// ```
///
/// # Errors
///
/// `AllocError`: memory was refused.
pub fn followed_text(alloc: Global, followed: &Followed) -> Result<String, AllocError>
    ensures { IfOk result (λ text. string_bytes text ≡ followed_lines followed.now) }
{
    let mut text = String::new(alloc);
    push_copy(&mut text, &followed.copy, followed.old)?;
    push_forks(&mut text, &followed.forks)?;
    push_larger(&mut text, &followed.larger)?;
    push_behind(&mut text, &followed.behind)?;
    Ok(text)
}

/// The exit status: 3 if there is a fork, or a larger candidate to which the copy could not be brought, else 0.
///
/// ```text
/// followed_status(&done) // 0
/// ```
pub fn followed_status(followed: &Followed) -> u8
    ensures is { result ≡ followed_status_of followed.now }
    ensures some { (result ≡ 0) ⊎ (result ≡ 3) }
{
    if !followed.forks.is_empty() {
        return 3;
    }
    if !followed.larger.is_empty() {
        return 3;
    }
    0
}

// Adds a size and a root, with a space between.
fn push_point(text: &mut String, size: u64, root: &Hash) -> Result<(), AllocError>
    ensures { OnOk result (string_bytes text.new ≡ string_bytes text.old
        ++ point_text size root.now) }
{
    push_number(text, size)?;
    text.push_str(" ")?;
    push_hash(text, root)
}

// Adds the line of the copy: its size, root and old size.
fn push_followed(text: &mut String, size: u64, root: &Hash, old: u64) -> Result<(), AllocError>
    ensures { OnOk result (string_bytes text.new ≡ string_bytes text.old
        ++ followed_line size root.now old) }
{
    text.push_str("followed ")?;
    push_point(text, size, root)?;
    text.push_str(" from ")?;
    push_number(text, old)?;
    text.push_str("\n")
}

// Adds the line of the copy, if there is one.
fn push_copy(text: &mut String, copy: &Option<(u64, Hash)>, old: u64) -> Result<(), AllocError>
    ensures { OnOk result (string_bytes text.new ≡ string_bytes text.old
        ++ copy_line copy.now old) }
{
    match copy {
        Some(point) => push_followed(text, point.0, &point.1, old),
        None => Ok(()),
    }
}

// Adds the line of a fork.
fn push_fork(text: &mut String, line: &ForkLine) -> Result<(), AllocError>
    ensures { OnOk result (string_bytes text.new ≡ string_bytes text.old ++ fork_line line.now) }
{
    text.push_str("fork ")?;
    push_point(text, line.small.size.0, &line.small.root)?;
    text.push_str(" ")?;
    push_point(text, line.large.size.0, &line.large.root)?;
    text.push_str("\n")
}

// Adds a line for each fork.
fn push_forks(text: &mut String, lines: &[ForkLine]) -> Result<(), AllocError>
    ensures { OnOk result (string_bytes text.new ≡ string_bytes text.old
        ++ flat_map fork_line lines.now) }
{
    for line in lines {
        push_fork(text, line)?;
    }
    Ok(())
}

// Adds a line with a word, a size and a root.
fn push_line(text: &mut String, word: &str, size: u64, root: &Hash) -> Result<(), AllocError>
    ensures { OnOk result (string_bytes text.new ≡ string_bytes text.old
        ++ (word.now ++ (point_text size root.now ++ 10 ∷ []))) }
{
    text.push_str(word)?;
    push_point(text, size, root)?;
    text.push_str("\n")
}

// Adds a line for each larger candidate to which the copy could not be brought.
fn push_larger(text: &mut String, points: &[(u64, Hash)]) -> Result<(), AllocError>
    ensures { OnOk result (string_bytes text.new ≡ string_bytes text.old
        ++ flat_map larger_line points.now) }
{
    for point in points {
        push_line(text, "larger ", point.0, &point.1)?;
    }
    Ok(())
}

// Adds the line of the greatest candidate, if all are smaller.
fn push_behind(text: &mut String, behind: &Option<(u64, Hash)>) -> Result<(), AllocError>
    ensures { OnOk result (string_bytes text.new ≡ string_bytes text.old
        ++ behind_line behind.now) }
{
    match behind {
        Some(point) => push_line(text, "behind ", point.0, &point.1),
        None => Ok(()),
    }
}
