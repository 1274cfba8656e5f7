//! Reads a state text of a known origin.
ghost use Rattle.std.specs.Prelude.{◌≡◌, ℕ, List};
ghost use Rattle.tlog_text.specs.Answers.{seen};
ghost use Rattle.mirror_files.specs.Checking.{ChecksLists, load_fault_of};
ghost use Rattle.mirror_files.specs.StateText.{IsText};
ghost use Rattle.mirror_files.specs.Stands.{parts_of};

use crate::lists::Lists;
use crate::load_fault::LoadFault;
use crate::parts::{PartsFault, read_parts};
use std::alloc::Global;

// The fault for lists that cannot be read.
fn load_fault(fault: PartsFault) -> LoadFault
    ensures { result ≡ load_fault_of fault }
{
    match fault {
        PartsFault::StateMagic => LoadFault::StateMagic,
        PartsFault::StateShort => LoadFault::StateShort,
        PartsFault::StateLong => LoadFault::StateLong,
        PartsFault::StateDigest => LoadFault::StateDigest,
        PartsFault::OutOfMemory => LoadFault::OutOfMemory,
    }
}

/// The lists of a state text of that origin, in order and with strings of trees. They are borrowed from its bytes.
///
/// # Errors
///
/// The first that applies, in the order of `LoadFault`: `StateMagic` to `StateString`. `OutOfMemory` if memory was
/// refused, before any of them or after.
pub fn checked_lists<'a>(
    alloc: Global,
    origin: &[u8],
    bytes: &'a [u8],
) -> Result<Lists<'a>, LoadFault>
    ensures { ChecksLists origin.now bytes.now (seen parts_of result) }
{
    match read_parts(alloc, bytes) {
        Ok(lists) => match check_lists(origin, &lists) {
            Ok(()) => Ok(lists),
            Err(fault) => {
                drop(lists);
                Err(fault)
            }
        },
        Err(fault) => Err(load_fault(fault)),
    }
}

// Checks that the lists have that origin, are in order, and have strings of trees.
fn check_lists(origin: &[u8], lists: &Lists) -> Result<(), LoadFault>
    ensures { (bytes : List ℕ) → IsText bytes (parts_of lists.now)
        → ChecksLists origin.now bytes (seen (λ done. parts_of lists.now) result) }
{
    if lists.origin() != origin {
        return Err(LoadFault::OtherOrigin);
    }
    if !lists.all_rise() {
        return Err(LoadFault::StateOrder);
    }
    if !lists.all_tagged_well() {
        return Err(LoadFault::StateString);
    }
    Ok(())
}
