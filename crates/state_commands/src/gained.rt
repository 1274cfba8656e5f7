//! Whether a mirror gained something.
ghost use Rattle.std.specs.Prelude.{◌≡◌, ◌≢◌, ◌↔◌, IfOk, IsTrue};
ghost use Rattle.std.specs.FinSet as set;
ghost use Rattle.mirror_model.specs.Complete.{IsLawful};
ghost use Rattle.mirror_model.specs.View.{View, IsSubview};
ghost use Rattle.state_commands.specs.Gained.{IsHolding};

use std::alloc::AllocError;
use tlog_hash::TreeHash;
use tlog_mirror::Mirror;

/// The number of notes and strings in a mirror.
#[derive(Drop, Clone, Copy)]
pub struct HeldCounts {
    /// The number of notes.
    pub notes: usize,
    /// The number of strings.
    pub strings: usize,
}

fn count_notes<H: TreeHash>(mirror: &Mirror<H>) -> Result<usize, AllocError>
    ensures { IfOk result (λ count. count ≡ set.len mirror.now.view.notes) }
{
    for i in 0..usize::MAX {
        let Some(_) = mirror.note_at(i) else {
            return Ok(i);
        };
    }
    // No memory can hold that many.
    Err(AllocError)
}

/// The number of notes and strings in the mirror. The mirror is lawful. This allocates nothing.
///
/// ```text
/// let before = holding_of(&mirror)?;
/// // the mirror takes some items
/// if has_gained(&mirror, &before) { /* it holds at least one more note or string */ }
/// ```
///
/// # Errors
///
/// The mirror has more notes than a `usize` counts, which no memory can hold.
pub fn holding_of<H: TreeHash>(mirror: &Mirror<H>) -> Result<HeldCounts, AllocError>
    ensures holds { IfOk result (IsHolding mirror.now.view) }
    ensures lawful { IsLawful H.digest mirror.now.view }
{
    let strings = mirror.strings().len();
    let notes = count_notes(mirror)?;
    Ok(HeldCounts { notes, strings })
}

/// Whether a mirror has gained a note or a string since it held these numbers. It must still hold all that it held then. This
/// allocates nothing.
pub fn has_gained<H: TreeHash>(mirror: &Mirror<H>, before: &HeldCounts) -> bool
    ensures gained { (old : View) → IsHolding old before.now → IsSubview old mirror.now.view
        → (IsTrue result ↔ (mirror.now.view ≢ old)) }
    ensures same { (old : View) → IsHolding old before.now → IsSubview old mirror.now.view
        → (¬ IsTrue result) → mirror.now.view ≡ old }
{
    mirror.strings().len() != before.strings || mirror.note_at(before.notes).is_some()
}
