//! The form in which strings are kept: the bytes of entries in one pool, and the hashes of pairs in the map.
ghost use Rattle.std.specs.Prelude.{◌≡◌, ◌+◌, ◌<◌, ◌≤◌, ◌++◌, length, vec_len, nat_eq, OnOk};
ghost use Rattle.std.specs.Vec.{vec_capacity};
ghost use Rattle.std.specs.Cmp.Lexicographic.{pointwise};
ghost use Rattle.std.specs.HashMap.{IsReordered, IsUnique, spare};
ghost use Rattle.node_store.specs.Strings.{string_of};
ghost use Rattle.node_store.specs.Slots.{bytes_at, held_string, end_of, IsSized, pooled_bytes};

use crate::key::DigestKey;
use crate::strings::Tagged;
use std::alloc::AllocError;
use std::collections::HashMap;
use tlog_hash::Hash;

// The place of an entry in the pool.
#[derive(Clone, Copy)]
pub(crate) struct PoolSpan {
    start: usize,
    len: usize,
}

// The value of the map for a digest: the place of the entry in the pool, or the two hashes.
#[derive(Clone, Copy)]
pub(crate) enum Slot {
    Entry(PoolSpan),
    Hashes(Hash, Hash),
}

pub(crate) fn bytes_at(pool: &[u8], place: PoolSpan) -> &[u8]
    requires { place.start + place.len ≤ length pool.now }
    ensures { result.now ≡ bytes_at pool.now place }
{
    let start = place.start;
    let end = start + place.len;
    &pool[start..end]
}

// The string of the slot, borrowed from the slot and the pool.
pub(crate) fn borrow_string<'a>(slot: &'a Slot, pool: &'a [u8]) -> Tagged<'a>
    requires { end_of slot.now ≤ length pool.now }
    ensures { string_of result ≡ held_string pool.now slot.now }
{
    match slot {
        Slot::Entry(place) => Tagged::Leaf(bytes_at(pool, *place)),
        Slot::Hashes(left, right) => Tagged::Pair(left, right),
    }
}

// Makes room for a new string, and changes nothing else.
pub(crate) fn make_room(
    held: &mut HashMap<DigestKey, Slot>,
    pool: &mut Vec<u8>,
    string: Tagged,
) -> Result<(), AllocError>
    ensures same_pool { pool.new.items ≡ pool.old.items }
    ensures same_held { IsReordered (pointwise nat_eq) held.old held.new }
    ensures unique { IsUnique (pointwise nat_eq) held.new }
    ensures pool_room { OnOk result (vec_len pool.new + length (pooled_bytes string.entry)
        ≤ vec_capacity pool.new) }
    ensures held_room { OnOk result (0 < spare held.new) }
{
    held.reserve(1)?;
    match string {
        Tagged::Leaf(entry) => pool.reserve(entry.len()),
        Tagged::Pair(_, _) => Ok(()),
    }
}

// Appends the string's bytes to the pool, which has room for them.
pub(crate) fn keep(pool: &mut Vec<u8>, string: Tagged) -> Slot
    requires { vec_len pool.old + length (pooled_bytes string) ≤ vec_capacity pool.old }
    ensures pool { pool.new.items ≡ pool.old.items ++ pooled_bytes string.entry }
    ensures string { held_string pool.new.items result ≡ string_of string.entry }
    ensures within { end_of result ≤ length pool.new.items }
    ensures sized { IsSized result }
{
    match string {
        Tagged::Leaf(entry) => {
            let start = pool.len();
            let Ok(()) = pool.extend_from_slice(entry) else {
                unreachable!()
            };
            let len = entry.len();
            Slot::Entry(PoolSpan { start, len })
        }
        Tagged::Pair(left, right) => held_pair(left, right),
    }
}

// The two hashes as a slot.
fn held_pair(left: &Hash, right: &Hash) -> Slot
    ensures value { result ≡ Slot.Hashes left.now right.now }
    ensures sized { IsSized result }
{
    Slot::Hashes(*left, *right)
}
