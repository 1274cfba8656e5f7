//! Tree heads compared with the entries of a list. This needs one hash of each, and not its entries.
ghost use Rattle.std.specs.Prelude.{◌≡◌, ◌++◌, ◌∷◌, [], ℕ, List, map, All, IfOk, OnOk, string_bytes};
ghost use Rattle.mirror_model.specs.Texts.{point_text};
ghost use Rattle.mirror_trees.specs.Marked.{point_of};
ghost use Rattle.tlog_mirror.specs.Compared.{IsCompared, compared_line, compared_point, compared_text};
ghost use Rattle.tlog_mirror.specs.declared.compared.Compared.TheVariants.{Fork};

use crate::report_texts::push_point;
use std::alloc::{AllocError, Global};
use tlog_hash::Hash;
use tlog_proof::Ranges;
use tlog_text::push_hash;

/// A tree head, compared with the served entries.
///
/// ```
/// let forked = compared.iter().any(|one| matches!(one, Compared::Fork { .. }));
/// ```
#[derive(Clone, Copy)]
pub enum Compared {
    /// The first `size` served entries have its root.
    Same {
        /// The number of entries of its tree.
        size: u64,
        /// The tree hash of its entries.
        root: Hash,
    },
    /// The first `size` served entries have another root: a log that made both has forked.
    Fork {
        /// The number of entries of its tree.
        size: u64,
        /// The tree hash of its entries.
        root: Hash,
        /// The tree hash of the first `size` served entries.
        own: Hash,
    },
    /// Its size is over the number of served entries: nothing is known.
    Larger {
        /// The number of entries of its tree.
        size: u64,
        /// The tree hash of its entries.
        root: Hash,
    },
}

/// Compares each of these sizes and roots with the entries of the ranges (RFC 6962, section 2.1), in order: by one hash
/// of a range for each.
///
/// ```text
/// compare_all(alloc, &ranges, &[(400, root)])?   // [Fork { size: 400, root, own }]
/// ```
///
/// # Errors
///
/// Memory was refused.
pub fn compare_all<R: Ranges>(
    alloc: Global,
    ranges: &R,
    heads: &[(u64, Hash)],
) -> Result<Vec<Compared>, AllocError>
    ensures heads { IfOk result (λ compared. map compared_point compared.items
        ≡ map point_of heads.now) }
    ensures each { (entries : List (List ℕ)) → R.lists ranges.now entries
        → IfOk result (λ compared. All (IsCompared R.digest entries) compared.items) }
{
    let mut compared = Vec::with_capacity(alloc, heads.len())?;
    for head in heads {
        compared.push(compare_one(ranges, head.0, &head.1))?;
    }
    Ok(compared)
}

// Compares a tree head with the entries of the ranges.
fn compare_one<R: Ranges>(ranges: &R, size: u64, root: &Hash) -> Compared
    ensures head { compared_point result ≡ record { size = size; root = root.now } }
    ensures is { (entries : List (List ℕ)) → R.lists ranges.now entries
        → IsCompared R.digest entries result }
{
    let root = *root;
    match ranges.hash(0, size) {
        None => Compared::Larger { size, root },
        Some(own) => {
            if own == root {
                Compared::Same { size, root }
            } else {
                Compared::Fork { size, root, own }
            }
        }
    }
}

/// The text of the comparisons, one line each: `same SIZE ROOT`, `fork SIZE ROOT OWN` or `larger SIZE ROOT`, in decimal
/// and standard base64. The text is empty if there are no tree heads.
///
/// ```text
/// comparison_text(alloc, &[Compared::Larger { size: 3, root }])?
/// // larger 3 rra8/idLcKFPsGel5VeCZNsPqbUa9eC6FZFY8yngbnc=
/// ```
///
/// # Errors
///
/// Memory was refused.
pub fn comparison_text(alloc: Global, compared: &[Compared]) -> Result<String, AllocError>
    ensures { IfOk result (λ text. string_bytes text ≡ compared_text compared.now) }
{
    let mut text = String::new(alloc);
    for one in compared {
        push_compared(&mut text, one)?;
    }
    Ok(text)
}

// Adds the line of a comparison.
fn push_compared(text: &mut String, one: &Compared) -> Result<(), AllocError>
    ensures { OnOk result (string_bytes text.new ≡ string_bytes text.old ++ compared_line one.now) }
{
    match one {
        Compared::Same { size, root } => push_line(text, "same ", *size, root),
        Compared::Larger { size, root } => push_line(text, "larger ", *size, root),
        Compared::Fork { size, root, own } => push_fork(text, *size, root, own),
    }
}

// Adds a word, a size and a root, on a line of their own.
fn push_line(text: &mut String, word: &str, size: u64, root: &Hash) -> Result<(), AllocError>
    ensures { OnOk result (string_bytes text.new ≡ string_bytes text.old
        ++ (word.now ++ point_text size root.now ++ 10 ∷ [])) }
{
    text.push_str(word)?;
    push_point(text, size, root)?;
    text.push_str("\n")
}

// Adds the line of a fork: its size and root, and the root of the served entries.
fn push_fork(text: &mut String, size: u64, root: &Hash, own: &Hash) -> Result<(), AllocError>
    ensures { OnOk result (string_bytes text.new ≡ string_bytes text.old
        ++ compared_line (Fork size root.now own.now)) }
{
    text.push_str("fork ")?;
    push_point(text, size, root)?;
    text.push_str(" ")?;
    push_hash(text, own)?;
    text.push_str("\n")
}
