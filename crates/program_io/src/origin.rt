//! The origin of a command. It is checked before any file is opened.
ghost use Rattle.std.specs.Prelude.{◌≡◌, OnOk};
ghost use Rattle.mirror_model.specs.Origin.{IsOrigin};

use std::alloc::Global;
use tlog_hash::Sha256Tree;
use tlog_mirror::{Mirror, NewFault};

/// Checks that a mirror may have that origin, by the rule of `Mirror::new`.
///
/// ```text
/// check_origin(alloc, "example.com/log")?;
/// check_origin(alloc, "")                   // Err(NewFault::BadOrigin)
/// ```
///
/// # Errors
///
/// `BadOrigin` exactly if the origin is empty, has more than 65,535 bytes, or has a character below U+0020.
/// `OutOfMemory` if memory was refused.
pub fn check_origin(alloc: Global, origin: &str) -> Result<(), NewFault>
    ensures lawful { OnOk result (IsOrigin origin.now) }
    ensures bad_origin { result ≡ Err NewFault.BadOrigin → ¬ IsOrigin origin.now }
{
    drop(Mirror::<Sha256Tree>::new(alloc, origin)?);
    Ok(())
}
