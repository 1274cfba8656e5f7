//! The texts of reports.
ghost use Rattle.std.specs.Prelude.{◌≡◌, ◌++◌, IfOk, OnOk, string_bytes};
ghost use Rattle.std.specs.Option.{option_map};
ghost use Rattle.std.specs.List.{flat_map};
ghost use Rattle.mirror_model.specs.Texts.{fork_line, forks_text, head_line, missing_text, path_line, point_text, served_line, status_text};
ghost use Rattle.mirror_trees.specs.Marked.{point_of};

use mirror_model::{Fork, Head};
use std::alloc::{AllocError, Global};
use tlog_hash::Hash;
use tlog_text::{push_hash, push_number};
use tlog_tiles::{Path, print};

/// An origin, tree heads with their state, and the served size and root, a line each: `origin O`,
/// `head SIZE ROOT complete` or `head SIZE ROOT partial`, and `served SIZE ROOT` or `served none`.
///
/// ```text
/// status_text(alloc, "ex", &[], &None)?   // "origin ex\nserved none\n"
/// ```
///
/// # Errors
///
/// Memory was refused.
pub fn status_text(
    alloc: Global,
    origin: &str,
    heads: &[Head],
    served: &Option<(u64, Hash)>,
) -> Result<String, AllocError>
    ensures { IfOk result (λ text. string_bytes text ≡ status_text origin.now heads.now
        (option_map point_of served.now)) }
{
    let mut text = String::from_str(alloc, "origin ")?;
    text.push_str(origin)?;
    text.push_str("\n")?;
    push_heads(&mut text, heads)?;
    push_served(&mut text, served)?;
    Ok(text)
}

/// The forks, a line each, the smaller tree head first: `fork SIZE ROOT SIZE ROOT`. The text is empty if there is no
/// fork.
///
/// ```text
/// forks_text(alloc, &[])?   // ""
/// ```
///
/// # Errors
///
/// Memory was refused.
pub fn forks_text(alloc: Global, forks: &[Fork]) -> Result<String, AllocError>
    ensures { IfOk result (λ text. string_bytes text ≡ forks_text forks.now) }
{
    let mut text = String::new(alloc);
    push_forks(&mut text, forks)?;
    Ok(text)
}

/// The paths, a line each (C2SP tlog-tiles).
///
/// ```text
/// missing_text(alloc, &[Path::Entries { index: 0, width: 3 }])?   // "tile/entries/000.p/3\n"
/// ```
///
/// # Errors
///
/// Memory was refused.
pub fn missing_text(alloc: Global, paths: &[Path]) -> Result<String, AllocError>
    ensures { IfOk result (λ text. string_bytes text ≡ missing_text paths.now) }
{
    let mut text = String::new(alloc);
    push_paths(alloc, &mut text, paths)?;
    Ok(text)
}

// Adds a size and a root, with a space between.
pub(crate) fn push_point(text: &mut String, size: u64, root: &Hash) -> Result<(), AllocError>
    ensures { OnOk result (string_bytes text.new ≡ string_bytes text.old
        ++ point_text size root.now) }
{
    push_number(text, size)?;
    text.push_str(" ")?;
    push_hash(text, root)
}

fn push_head(text: &mut String, head: &Head) -> Result<(), AllocError>
    ensures { OnOk result (string_bytes text.new ≡ string_bytes text.old ++ head_line head.now) }
{
    text.push_str("head ")?;
    push_point(text, head.size, &head.root)?;
    text.push_str(if head.complete {
        " complete\n"
    } else {
        " partial\n"
    })
}

fn push_heads(text: &mut String, heads: &[Head]) -> Result<(), AllocError>
    ensures { OnOk result (string_bytes text.new ≡ string_bytes text.old
        ++ flat_map head_line heads.now) }
{
    for head in heads {
        push_head(text, head)?;
    }
    Ok(())
}

fn push_served(text: &mut String, served: &Option<(u64, Hash)>) -> Result<(), AllocError>
    ensures { OnOk result (string_bytes text.new ≡ string_bytes text.old
        ++ served_line (option_map point_of served.now)) }
{
    match served {
        Some(point) => {
            text.push_str("served ")?;
            push_point(text, point.0, &point.1)?;
            text.push_str("\n")
        }
        None => text.push_str("served none\n"),
    }
}

fn push_fork(text: &mut String, fork: &Fork) -> Result<(), AllocError>
    ensures { OnOk result (string_bytes text.new ≡ string_bytes text.old ++ fork_line fork.now) }
{
    text.push_str("fork ")?;
    push_point(text, fork.small.0, &fork.small.1)?;
    text.push_str(" ")?;
    push_point(text, fork.large.0, &fork.large.1)?;
    text.push_str("\n")
}

fn push_forks(text: &mut String, forks: &[Fork]) -> Result<(), AllocError>
    ensures { OnOk result (string_bytes text.new ≡ string_bytes text.old ++ forks_text forks.now) }
{
    for fork in forks {
        push_fork(text, fork)?;
    }
    Ok(())
}

fn push_paths(alloc: Global, text: &mut String, paths: &[Path]) -> Result<(), AllocError>
    ensures { OnOk result (string_bytes text.new ≡ string_bytes text.old
        ++ missing_text paths.now) }
{
    for path in paths {
        push_path(alloc, text, path)?;
    }
    Ok(())
}

fn push_path(alloc: Global, text: &mut String, path: &Path) -> Result<(), AllocError>
    ensures { OnOk result (string_bytes text.new ≡ string_bytes text.old ++ path_line path.now) }
{
    let line = print(alloc, path)?;
    text.push_str(line.as_str())?;
    text.push_str("\n")
}
