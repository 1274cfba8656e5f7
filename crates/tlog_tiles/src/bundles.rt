//! The entries in the form of bundles, in order.
ghost use Rattle.std.specs.Prelude.{◌≡◌, ◌<◌, ◌^◌, ◌++◌, ◌∷◌, [], All, length, map, IfOk, OnOk};
ghost use Rattle.tlog_tiles.specs.Bundle.{bundle_text, entry_text};
ghost use Rattle.tlog_tiles.specs.Layout.{ends_of};

use std::alloc::{AllocError, Global};

/// The entries, each after its length of two bytes, and the end of each.
pub(crate) fn bundles_of(
    alloc: Global,
    entries: &[&[u8]],
) -> Result<(Vec<u8>, Vec<usize>), AllocError>
    requires { All (λ e. length e.now < 2 ^ 16) entries.now }
    ensures text { IfOk result (λ made. made.0.items ≡ bundle_text (map (λ e. e.now) entries.now)) }
    ensures ends { IfOk result (λ made. made.1.items ≡ ends_of 0 (map (λ e. e.now) entries.now)) }
{
    let mut text = Vec::new(alloc);
    let mut ends = Vec::new(alloc);
    for entry in entries {
        push_entry(&mut text, &mut ends, entry)?;
    }
    Ok((text, ends))
}

// Adds an entry after its length, and its end.
fn push_entry(text: &mut Vec<u8>, ends: &mut Vec<usize>, entry: &[u8]) -> Result<(), AllocError>
    requires { length entry.now < 2 ^ 16 }
    ensures text { OnOk result (text.new.items ≡ text.old.items ++ entry_text entry.now) }
    ensures ends { OnOk result (ends.new.items ≡ ends.old.items ++ length text.new.items ∷ []) }
{
    let len = entry.len() as u16;
    text.extend_from_slice(&len.to_be_bytes())?;
    text.extend_from_slice(entry)?;
    ends.push(text.len())?;
    Ok(())
}
