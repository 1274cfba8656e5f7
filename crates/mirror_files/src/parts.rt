//! Reads the lists of a state text.
ghost use Rattle.std.specs.Prelude.{◌≡◌, ◌↔◌, codes, IsTrue};
ghost use Rattle.tlog_text.specs.Answers.{seen};
ghost use Rattle.mirror_files.specs.Reading.{ReadsParts};
ghost use Rattle.mirror_files.specs.Stands.{parts_of, FindsLists, EndsAs};
ghost use Rattle.mirror_files.specs.declared.parts.PartsFault.TheVariants.{OutOfMemory};

use crate::lists::{Lists, parted_at, tagged_at};
use sha2::{Digest, Sha256};
use std::alloc::{AllocError, Global};

/// Why bytes are not the text of a state, for reasons that the bytes alone decide.
#[derive(Clone, Copy)]
pub enum PartsFault {
    /// The bytes begin like a state text of neither version.
    StateMagic,
    /// Too few bytes are left for an item, a list or the digest.
    StateShort,
    /// Bytes follow the digest.
    StateLong,
    /// The digest is not that of the bytes before it.
    StateDigest,
    /// Memory was refused.
    OutOfMemory,
}

impl From<AllocError> for PartsFault {
    ghost from_gives = { λ _ e. e ≡ OutOfMemory };

    fn from(_e: AllocError) -> PartsFault {
        PartsFault::OutOfMemory
    }
}

// Checks that after the lists there is the digest of the body before it, and nothing more.
fn check_end(body: &[u8], end: &[u8]) -> Result<(), PartsFault>
    ensures { EndsAs body.now end.now result }
{
    if end.len() < 32 {
        return Err(PartsFault::StateShort);
    }
    if end.len() > 32 {
        return Err(PartsFault::StateLong);
    }
    let digest = Sha256::digest(body);
    if digest.as_slice() != end {
        return Err(PartsFault::StateDigest);
    }
    Ok(())
}

/// Whether the first eight bytes of a state text are those of version 2.
pub fn is_new(magic: &[u8]) -> bool
    ensures { IsTrue result ↔ (magic.now ≡ codes "TLMIRR02") }
{
    magic == b"TLMIRR02".as_slice()
}

// Whether the first eight bytes are those of version 1.
fn is_old(magic: &[u8]) -> bool
    ensures { IsTrue result ↔ (magic.now ≡ codes "TLMIRR01") }
{
    magic == b"TLMIRR01".as_slice()
}

// The lists after the eight bytes of the version, and the bytes that follow the lists.
fn lists_at(alloc: Global, bytes: &[u8]) -> Result<(Lists<'_>, &[u8]), PartsFault>
    ensures { FindsLists bytes.now (seen (λ x. (parts_of x.0, x.1.now)) result) }
{
    if bytes.len() < 8 {
        return Err(PartsFault::StateMagic);
    }
    let (magic, after) = bytes.split_at(8);
    if is_new(magic) {
        let Some(found) = parted_at(alloc, after)? else {
            return Err(PartsFault::StateShort);
        };
        return Ok(found);
    }
    if is_old(magic) {
        let Some(found) = tagged_at(alloc, after)? else {
            return Err(PartsFault::StateShort);
        };
        return Ok(found);
    }
    Err(PartsFault::StateMagic)
}

// The lists of a state text, borrowed from its bytes.
pub(crate) fn read_parts(alloc: Global, bytes: &[u8]) -> Result<Lists<'_>, PartsFault>
    ensures { ReadsParts bytes.now (seen parts_of result) }
{
    let (lists, end) = lists_at(alloc, bytes)?;
    let (body, _) = bytes.split_at(bytes.len() - end.len());
    check_end(body, end)?;
    Ok(lists)
}
