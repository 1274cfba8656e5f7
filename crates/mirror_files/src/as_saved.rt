//! Whether a state text is as it would be saved.
ghost use Rattle.std.specs.Prelude.{◌≡◌, ◌↔◌, codes, take, IsTrue};
ghost use Rattle.mirror_files.specs.AsSaved.{IsAsSaved};

use crate::is_new;

/// Whether the bytes begin like a state text of version 2. A view that is loaded from such bytes is saved as these
/// bytes. So a mirror that gained nothing need not be saved again.
///
/// ```text
/// let mirror: Mirror<Sha256Tree> = load_bytes(alloc, "example.com/log", &keys, &bytes)?;
/// is_as_saved(&bytes)   // true if `save` writes these bytes for it
/// ```
pub fn is_as_saved(bytes: &[u8]) -> bool
    ensures begins { IsTrue result ↔ (take 8 bytes.now ≡ codes "TLMIRR02") }
    ensures saved { IsTrue result → IsAsSaved bytes.now }
{
    if bytes.len() < 8 {
        return false;
    }
    let (magic, _) = bytes.split_at(8);
    is_new(magic)
}
