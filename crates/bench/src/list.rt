//! A log of numbered entries.
ghost use Rattle.std.specs.Prelude.{◌≡◌, length, map, IfOk};
ghost use Rattle.mirror_model.specs.TrueLaws.{AreShort};

use crate::clock::now;
use mirror_pull::ListSource;
use signed_note::{HmacKey, KeyFault};
use std::alloc::{AllocError, Global};
use std::time::CpuClock;
use tlog_hash::{Hash, TreeHash, tree_hash};

/// The origin of the log.
pub(crate) const ORIGIN: &str = "bench";

/// The key that signs the log, with the origin as its name, id 1 and the secret `00`.
pub(crate) fn key(alloc: Global) -> Result<HmacKey, KeyFault> {
    HmacKey::new(alloc, ORIGIN, 1, &[0])
}

// The entry with that number: 100 bytes, the number in four of them and then twos.
fn entry_of(number: u32) -> [u8; 100] {
    let mut entry = [2u8; 100];
    let bytes = number.to_be_bytes();
    for i in 0..4usize {
        entry[i] = bytes[i];
    }
    entry
}

/// The first `count` entries.
pub(crate) fn entries_of(alloc: Global, count: u32) -> Result<Vec<Vec<u8>>, AllocError>
    ensures short { IfOk result (λ entries. AreShort (map (λ e. e.items) entries.items)) }
    ensures count { IfOk result (λ entries. length entries.items ≡ count) }
{
    let mut entries = Vec::new(alloc);
    for number in 0..count {
        entries.push(Vec::from_slice(alloc, entry_of(number).as_slice())?)?;
    }
    Ok(entries)
}

/// The time to hash the tree of the entries, and its hash.
pub(crate) fn hash_tree<H: TreeHash, R: AllocGlobal + CpuClock>(
    rt: &R,
    entries: &[Vec<u8>],
) -> Result<(u128, Hash), AllocError> {
    let mut lent: Vec<&[u8]> = Vec::new(rt.alloc());
    for entry in entries {
        lent.push(entry.as_slice())?;
    }
    let start = now(rt);
    let root = tree_hash::<H>(lent.as_slice());
    Ok((now(rt).saturating_sub(start), root))
}

/// A source over the entries.
pub(crate) fn source_of<H: TreeHash>(
    alloc: Global,
    entries: Vec<Vec<u8>>,
) -> anyhow::Result<ListSource<H>>
    requires { AreShort (map (λ e. e.items) entries.items) }
{
    Ok(ListSource::new(alloc, ORIGIN, entries, key(alloc)?)?)
}
