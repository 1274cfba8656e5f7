//! Why a mirror does not take an item, or is not merged.
//!
//! A call returns the first fault that applies, in the order below. `OutOfMemory` may come before any of them.

use signed_note::NoteFault;
use std::fmt;
use tlog_checkpoint::CheckpointFault;

/// Why an item is not taken. A tree head has the first seven faults or a collision. A tile or a bundle has those of its
/// length or a collision.
#[derive(Debug, Drop, PartialEq, Eq, Clone, Copy)]
pub enum TakeFault {
    /// The bytes are not a note. The inner fault is never `OutOfMemory`.
    Note(NoteFault),
    /// The text of the note is not a checkpoint. The inner fault is never `OutOfMemory`.
    Checkpoint(CheckpointFault),
    /// The checkpoint, or the other mirror of a merge, has another origin.
    OtherOrigin,
    /// No key of the list accepts a line of the note.
    NoTrustedSignature,
    /// The number of edge rows is not the number of partial tiles of the size.
    EdgeCount,
    /// An edge row does not have 32 bytes for each hash of its tile.
    EdgeLength,
    /// The edge rows do not lead to the root.
    EdgeMismatch,
    /// The number of bytes is not 32 times the width.
    RowLength,
    /// The bytes do not begin with a bundle of that width.
    BundleShort,
    /// The bytes begin with a bundle of that width, and more bytes follow it.
    BundleLong,
    /// Two different strings share a digest; both are held or would be added.
    Collision,
    /// Memory was refused.
    OutOfMemory,
}

/// Prints the name of the innermost variant. A derived one takes the checker seconds more.
impl fmt::Display for TakeFault {
    fn fmt<W: fmt::Write>(&self, f: &mut fmt::Formatter<W>) -> fmt::Result {
        match self {
            TakeFault::Note(fault) => fmt::Display::fmt(fault, f),
            TakeFault::Checkpoint(fault) => fmt::Display::fmt(fault, f),
            _ => fmt::Debug::fmt(self, f),
        }
    }
}

impl std::error::Error for TakeFault {}

/// Why a mirror is not merged with another.
#[derive(Debug, Drop, PartialEq, Eq, Clone, Copy)]
pub enum MergeFault {
    /// The other mirror has another origin.
    OtherOrigin,
    /// Two different strings that the two mirrors hold share a digest.
    Collision,
    /// Memory was refused.
    OutOfMemory,
}

/// Prints the name of the variant. A derived one takes the checker longer.
impl fmt::Display for MergeFault {
    fn fmt<W: fmt::Write>(&self, f: &mut fmt::Formatter<W>) -> fmt::Result {
        fmt::Debug::fmt(self, f)
    }
}

impl std::error::Error for MergeFault {}

impl From<MergeFault> for TakeFault {
    ghost use Rattle.std.specs.Prelude.{◌≡◌};
    ghost use Rattle.mirror_model.specs.Answered.{take_fault_of};

    ghost from_gives = { λ m t. t ≡ take_fault_of m };

    fn from(fault: MergeFault) -> TakeFault {
        match fault {
            MergeFault::OtherOrigin => TakeFault::OtherOrigin,
            MergeFault::Collision => TakeFault::Collision,
            MergeFault::OutOfMemory => TakeFault::OutOfMemory,
        }
    }
}
