//! Whether there is room to lay out the served entries.
use crate::top_ranges::TopRanges;
use node_store::{Store, Tagged};
use std::alloc::{AllocError, Global};
use tlog_hash::TreeHash;
use tlog_proof::Ranges;

// Whether all entries take at most that number of bytes: each its own bytes in its bundle, and some 40 more for hashes
// and offsets.
pub(crate) fn is_within<H: TreeHash>(
    alloc: Global,
    top: &TopRanges<'_, H>,
    most: u64,
) -> Result<bool, AllocError> {
    let size = top.size();
    let mut left = most;
    for index in 0..size / 256 + 1 {
        let width = (size - 256 * index).min(256) as u32;
        let Some(bundle) = top.bundle(alloc, index, width)? else {
            return Ok(true);
        };
        let taken = (bundle.len() as u64).saturating_add(40 * u64::from(width));
        if taken > left {
            return Ok(false);
        }
        left -= taken;
    }
    Ok(true)
}

// The number of bytes that the strings take: an entry its own, a pair its two hashes, and each some 64 for its slot.
pub(crate) fn room_of<H: TreeHash>(strings: &Store<H>) -> u64 {
    let mut room = 0u64;
    for string in strings.iter() {
        let bytes = match string {
            Tagged::Leaf(entry) => entry.len() as u64,
            Tagged::Pair(_, _) => 64,
        };
        room = room.saturating_add(bytes).saturating_add(64);
    }
    room
}
