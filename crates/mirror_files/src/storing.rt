//! Puts the strings that a state text lists into a store.
ghost use Rattle.std.specs.Prelude.{◌≡◌, ◌∷◌, ◌++◌, Err, length, map, All, OnOk};
ghost use Rattle.std.specs.FinSet as set;
ghost use Rattle.node_store.specs.Strings.{Clashes, NoClash};
ghost use Rattle.mirror_files.specs.Content.{IsStateString, listed_strings};
ghost use Rattle.mirror_files.specs.Stands.{parts_of};
ghost use Rattle.mirror_files.specs.Storing.{AddsListed, AreListable, IsListable, MakesStore, tagged_as};

use crate::lists::Lists;
use node_store::{AddFault, Store, Tagged};
use std::alloc::Global;
use tlog_hash::{Hash, TreeHash};

// The ways to list strings.
#[derive(Clone, Copy)]
pub(crate) enum Kind {
    // As entries.
    Entries,
    // As pairs of hashes.
    Pairs,
    // With their tags.
    Strings,
}

// The 32 bytes as a hash.
fn hash_of(bytes: &[u8]) -> Hash
    requires { length bytes.now ≡ 32 }
    ensures { result ≡ bytes.now }
{
    let mut hash = [0u8; 32];
    hash.copy_from_slice(bytes);
    hash
}

// Adds the string that is listed in that way.
fn add_item<H: TreeHash>(store: &mut Store<H>, kind: Kind, item: &[u8]) -> Result<(), AddFault>
    requires { IsListable kind item.now }
    ensures ok { OnOk result ((store.new ≡ set.insert store.old (tagged_as kind item.now))
        × NoClash H.digest store.new) }
    ensures collision { result ≡ Err AddFault.Collision
        → Clashes H.digest store.old (tagged_as kind item.now) }
{
    match kind {
        Kind::Entries => store.add(Tagged::Leaf(item)),
        Kind::Pairs => add_pair(store, item),
        Kind::Strings => add_tagged(store, item),
    }
}

// Adds the string of a pair of hashes.
fn add_pair<H: TreeHash>(store: &mut Store<H>, pair: &[u8]) -> Result<(), AddFault>
    requires { length pair.now ≡ 64 }
    ensures ok { OnOk result ((store.new ≡ set.insert store.old (1 ∷ pair.now))
        × NoClash H.digest store.new) }
    ensures collision { result ≡ Err AddFault.Collision
        → Clashes H.digest store.old (1 ∷ pair.now) }
{
    let (left, right) = pair.split_at(32);
    let left = hash_of(left);
    let right = hash_of(right);
    store.add(Tagged::Pair(&left, &right))
}

// Adds a string that is listed with its tag.
fn add_tagged<H: TreeHash>(store: &mut Store<H>, string: &[u8]) -> Result<(), AddFault>
    requires { IsStateString string.now }
    ensures ok { OnOk result ((store.new ≡ set.insert store.old string.now)
        × NoClash H.digest store.new) }
    ensures collision { result ≡ Err AddFault.Collision → Clashes H.digest store.old string.now }
{
    let (tag, rest) = string.split_at(1);
    if tag[0] == 0 {
        store.add(Tagged::Leaf(rest))
    } else {
        add_pair(store, rest)
    }
}

// Adds all strings that are listed in that way.
fn add_listed<H: TreeHash>(
    store: &mut Store<H>,
    kind: Kind,
    items: &[&[u8]],
) -> Result<(), AddFault>
    requires listable { All (IsListable kind) (map (λ x. x.now) items.now) }
    requires no_clash { NoClash H.digest store.old }
    ensures { AddsListed H.digest store.old (map (tagged_as kind) (map (λ x. x.now) items.now))
        result store.new }
{
    for item in items {
        add_item(store, kind, item)?;
    }
    Ok(())
}

// The number of listed strings. The text has the bytes of each, so no text reserves memory for more strings than it
// has.
fn count_of(lists: &Lists) -> usize {
    match lists {
        Lists::VersionTwo(_, _, pairs, entries) => pairs.len().saturating_add(entries.len()),
        Lists::VersionOne(_, _, strings) => strings.len(),
    }
}

/// The listed strings as a store, which is made at its final size.
///
/// # Errors
///
/// `Collision` if two of them have one digest, `OutOfMemory` if memory was refused.
pub fn store_of<H: TreeHash>(alloc: Global, lists: &Lists) -> Result<Store<H>, AddFault>
    requires { AreListable (parts_of lists.now) }
    ensures { MakesStore H.digest (listed_strings (parts_of lists.now)) result }
{
    let Ok(mut store) = Store::<H>::with_capacity(alloc, count_of(lists)) else {
        return Err(AddFault::OutOfMemory);
    };
    add_lists(&mut store, lists)?;
    Ok(store)
}

// Adds the listed strings.
fn add_lists<H: TreeHash>(store: &mut Store<H>, lists: &Lists) -> Result<(), AddFault>
    requires listable { AreListable (parts_of lists.now) }
    requires no_clash { NoClash H.digest store.old }
    ensures { AddsListed H.digest store.old (listed_strings (parts_of lists.now)) result store.new }
{
    match lists {
        Lists::VersionTwo(_, _, pairs, entries) => add_both(store, pairs, entries),
        Lists::VersionOne(_, _, strings) => add_strings(store, strings),
    }
}

// Adds strings that are listed with their tags.
fn add_strings<H: TreeHash>(store: &mut Store<H>, strings: &[&[u8]]) -> Result<(), AddFault>
    requires listable { All IsStateString (map (λ x. x.now) strings.now) }
    requires no_clash { NoClash H.digest store.old }
    ensures { AddsListed H.digest store.old (map (λ x. x.now) strings.now) result store.new }
{
    add_listed(store, Kind::Strings, strings)
}

// Adds the strings of entries and of pairs.
fn add_both<H: TreeHash>(
    store: &mut Store<H>,
    pairs: &[&[u8]],
    entries: &[&[u8]],
) -> Result<(), AddFault>
    requires entries { All (IsListable Kind.Entries) (map (λ x. x.now) entries.now) }
    requires pairs { All (IsListable Kind.Pairs) (map (λ x. x.now) pairs.now) }
    requires no_clash { NoClash H.digest store.old }
    ensures { AddsListed H.digest store.old (map (λ e. 0 ∷ e) (map (λ x. x.now) entries.now)
        ++ map (λ p. 1 ∷ p) (map (λ x. x.now) pairs.now)) result store.new }
{
    add_listed(store, Kind::Entries, entries)?;
    add_listed(store, Kind::Pairs, pairs)
}
