//! The status of a copy.
ghost use Rattle.std.specs.Prelude.{◌≡◌, ◌++◌, IfOk, OnOk, option_map, string_bytes};
ghost use Rattle.std.specs.List.{flat_map};
ghost use Rattle.mirror_model.specs.Texts.{head_line, point_text, served_line};
ghost use Rattle.copy_reader.specs.Statuses.{copy_heads, copy_status, point_of};

use std::alloc::{AllocError, Global};
use tlog_hash::Hash;
use tlog_text::{push_hash, push_number};

// Adds a size and a root, with a space between.
fn push_point(text: &mut String, size: u64, root: &Hash) -> Result<(), AllocError>
    ensures { OnOk result (string_bytes text.new ≡ string_bytes text.old
        ++ point_text size root.now) }
{
    push_number(text, size)?;
    text.push_str(" ")?;
    push_hash(text, root)
}

// Adds the line of a complete tree head, if there is one.
fn push_head(text: &mut String, point: &Option<(u64, Hash)>) -> Result<(), AllocError>
    ensures { OnOk result (string_bytes text.new ≡ string_bytes text.old
        ++ flat_map head_line (copy_heads (option_map point_of point.now))) }
{
    match point {
        Some(point) => {
            text.push_str("head ")?;
            push_point(text, point.0, &point.1)?;
            text.push_str(" complete\n")
        }
        None => Ok(()),
    }
}

// Adds the line of the served tree head.
fn push_served(text: &mut String, point: &Option<(u64, Hash)>) -> Result<(), AllocError>
    ensures { OnOk result (string_bytes text.new ≡ string_bytes text.old
        ++ served_line (option_map point_of point.now)) }
{
    match point {
        Some(point) => {
            text.push_str("served ")?;
            push_point(text, point.0, &point.1)?;
            text.push_str("\n")
        }
        None => text.push_str("served none\n"),
    }
}

/// The text of the status of a copy of that size and root, or of an empty copy. It is that of a mirror with only the checkpoint's tree
/// head, which is complete.
///
/// ```text
/// status_text(alloc, "example.com/log", &None)?
/// // origin example.com/log
/// // served none
/// ```
///
/// # Errors
///
/// `AllocError`: memory was refused.
pub fn status_text(
    alloc: Global,
    origin: &str,
    point: &Option<(u64, Hash)>,
) -> Result<String, AllocError>
    ensures { IfOk result (λ text. string_bytes text
        ≡ copy_status origin.now (option_map point_of point.now)) }
{
    let mut text = String::from_str(alloc, "origin ")?;
    text.push_str(origin)?;
    text.push_str("\n")?;
    push_head(&mut text, point)?;
    push_served(&mut text, point)?;
    Ok(text)
}
