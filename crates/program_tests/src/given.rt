//! The key of the tests, and mirrors that are loaded from states.
use crate::states::COMPLETE;
use mirror_files::{LoadFault, SaveFault, load, save};
use program_io::check_origin;
use signed_note::{HmacKey, KeyFault, Verifier};
use std::alloc::Global;
use std::io::{Read, Write};
use std::test::Fail;
use tlog_hash::TreeHash;
use tlog_mirror::Mirror;

// The key `ex`, id 1, secret 00.
pub(crate) fn key(alloc: Global) -> Result<HmacKey, KeyFault> {
    HmacKey::new(alloc, "ex", 1, &[0])
}

// Only that key.
pub(crate) fn keys(alloc: Global) -> Result<Vec<Box<dyn Verifier>>, Fail> {
    let mut keys: Vec<Box<dyn Verifier>> = Vec::new(alloc);
    keys.push(Box::new(alloc, key(alloc)?)?)?;
    Ok(keys)
}

// Loads a mirror of origin `ex` from the reader.
pub(crate) fn load_example<H: TreeHash, R: Read>(
    alloc: Global,
    keys: &[Box<dyn Verifier>],
    reader: &mut R,
) -> Result<Mirror<H>, LoadFault> {
    match check_origin(alloc, "ex") {
        Ok(()) => load(alloc, "ex", keys, reader),
        Err(_) => Err(LoadFault::OutOfMemory),
    }
}

// The mirror of the log of three entries. Its owners give it to `drop`: a drop in place has a step for each of its fields,
// and is slow to check.
pub(crate) fn complete<H: TreeHash>(alloc: Global) -> Result<Mirror<H>, Fail> {
    let keys = keys(alloc)?;
    let mut text = COMPLETE;
    Ok(load_example(alloc, &keys, &mut text)?)
}

// Saves a mirror. It ensures nothing, so that its callers are fast to check.
pub(crate) fn save_to<H: TreeHash, W: Write>(
    alloc: Global,
    mirror: &Mirror<H>,
    writer: &mut W,
) -> Result<(), SaveFault> {
    save(alloc, mirror, writer)
}
