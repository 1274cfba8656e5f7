//! The name of a note of a state text.
ghost use Rattle.std.specs.Prelude.{◌≡◌, ◌<◌, ◌++◌, take, string_bytes, IfOk, OnOk};
ghost use Rattle.mirror_files.specs.Naming.{checkpoint_name, note_name, NamesNote};
ghost use Rattle.tlog_text.specs.Hash.{base64_of};

use base64::engine::general_purpose::STANDARD;
use mirror_model::checkpoint_of;
use std::alloc::{AllocError, Global};
use tlog_hash::Hash;

// The number of a root's bytes that a name has.
const FRONT_LEN: usize = 3;

/// A note of a state text, for which the text is not loaded.
#[derive(Drop)]
pub enum RefusedNote {
    /// A checkpoint of this size and root; its signer and its log do not matter.
    Checkpoint(u64, Hash),
    /// No checkpoint: the number of the note. The first number is 1.
    Note(usize),
}

impl RefusedNote {
    /// Gives `checkpoint 700 uzuW..`, with the size and the first three bytes of the root in base64, or `note 3`.
    ///
    /// # Errors
    ///
    /// Memory was refused.
    pub fn name(&self, alloc: Global) -> Result<String, AllocError>
        ensures { IfOk result (λ text. string_bytes text ≡ note_name self.now) }
    {
        match self {
            RefusedNote::Checkpoint(size, root) => checkpoint_text(alloc, *size, root),
            RefusedNote::Note(number) => format!(in alloc; "note {number}"),
        }
    }
}

fn checkpoint_text(alloc: Global, size: u64, root: &Hash) -> Result<String, AllocError>
    ensures { IfOk result (λ text. string_bytes text ≡ checkpoint_name size root.now) }
{
    let mut text = format!(in alloc; "checkpoint {size} ")?;
    push_front(&mut text, root)?;
    text.push_str("..")?;
    Ok(text)
}

// Adds the first bytes of a root.
#[tactic(auto, unfolding(tlog_text::specs::Hash::base64_of))]
fn push_front(text: &mut String, root: &Hash) -> Result<(), AllocError>
    ensures { OnOk result (string_bytes text.new ≡ string_bytes text.old
        ++ base64_of (take 3 root.now)) }
{
    STANDARD.encode_string(&root[..FRONT_LEN], text)
}

/// The name of the note with that index: the size and the root of its checkpoint, or its number if it is no checkpoint.
///
/// # Errors
///
/// Memory was refused.
pub fn name_of(alloc: Global, index: usize, note: &[u8]) -> Result<RefusedNote, AllocError>
    requires { index < 18446744073709551615 }
    ensures { IfOk result (λ name. NamesNote index note.now name) }
{
    match checkpoint_of(alloc, note)? {
        Some(checkpoint) => {
            let size = checkpoint.size;
            let root = checkpoint.root;
            Ok(RefusedNote::Checkpoint(size, root))
        }
        None => Ok(RefusedNote::Note(index + 1)),
    }
}
