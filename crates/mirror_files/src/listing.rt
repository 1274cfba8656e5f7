//! The strings of a store, in the order in which a state text lists them.
ghost use Rattle.std.specs.Prelude.{◌≡◌, ◌↔◌, ◌∷◌, ◌++◌, ℕ, List, [], map, All, IfOk, OnOk};
ghost use Rattle.std.specs.List.{Contains};
ghost use Rattle.node_store.specs.Strings.{Strings, string_of};
ghost use Rattle.mirror_files.specs.Content.{Rises};
ghost use Rattle.mirror_files.specs.Listing.{HasGathered, HasNone, ListsStrings};
ghost use Rattle.mirror_files.specs.Putting.{pair_bytes, IsKeyed};

use node_store::{Store, Tagged};
use std::alloc::{AllocError, Global};
use tlog_hash::{Hash, TreeHash};

/// Two hashes after the first eight bytes of the first one, as a number. The number decides the order of nearly all
/// pairs, so a sort rarely reads the hashes, which are scattered in memory.
pub(crate) type KeyedPair<'a> = (u64, (&'a Hash, &'a Hash));

/// The strings of a store, each list in its order.
#[derive(Drop)]
pub struct Sorted<'a> {
    pub(crate) pairs: Vec<KeyedPair<'a>>,
    pub(crate) entries: Vec<&'a [u8]>,
}

/// The sorted strings of the store.
///
/// # Errors
///
/// Memory was refused.
pub fn sort_strings<H: TreeHash>(alloc: Global, store: &Store<H>) -> Result<Sorted<'_>, AllocError>
    ensures { IfOk result (λ held. ListsStrings store.now held) }
{
    let mut held = Sorted {
        pairs: Vec::new(alloc),
        entries: Vec::new(alloc),
    };
    match list_strings(&mut held, store) {
        Ok(()) => Ok(held),
        Err(AllocError) => {
            drop(held);
            Err(AllocError)
        }
    }
}

// Adds the strings of the store to empty lists, and sorts them.
fn list_strings<'a, H: TreeHash>(
    held: &mut Sorted<'a>,
    store: &'a Store<H>,
) -> Result<(), AllocError>
    requires { HasNone held.old }
    ensures { OnOk result (ListsStrings store.now held.new) }
{
    add_strings(held, store)?;
    sort_pairs(&mut held.pairs)?;
    sort_entries(&mut held.entries)
}

// Adds the strings of the store to empty lists, in any order.
fn add_strings<'a, H: TreeHash>(
    held: &mut Sorted<'a>,
    store: &'a Store<H>,
) -> Result<(), AllocError>
    requires { HasNone held.old }
    ensures { OnOk result (HasGathered store.now held.new []) }
{
    for string in store.iter() {
        add_string(held, string)?;
    }
    Ok(())
}

// Adds the next string to its list.
fn add_string<'a>(held: &mut Sorted<'a>, string: Tagged<'a>) -> Result<(), AllocError>
    ensures { OnOk result ((strings : Strings) (left : List (List ℕ))
        → HasGathered strings held.old (string_of string.entry ∷ left)
        → HasGathered strings held.new left) }
{
    match string {
        Tagged::Leaf(entry) => held.entries.push(entry)?,
        Tagged::Pair(left, right) => held.pairs.push(pair_of(left, right))?,
    }
    Ok(())
}

// Sorts entries and removes duplicates. A store that was loaded gives them in order, apart from those that came later.
// So the stable sort looks at each entry of such a list about once.
fn sort_entries(entries: &mut Vec<&[u8]>) -> Result<(), AllocError>
    ensures rises { OnOk result (Rises (map (λ e. e.now) entries.new.items)) }
    ensures same { OnOk result ((e : List ℕ) → Contains (map (λ e. e.now) entries.new.items) e
        ↔ Contains (map (λ e. e.now) entries.old.items) e) }
{
    entries.sort()?;
    entries.dedup();
    Ok(())
}

// The two hashes, after the first eight bytes of the left one.
fn pair_of<'a>(left: &'a Hash, right: &'a Hash) -> KeyedPair<'a>
    ensures bytes { pair_bytes result ≡ left.now ++ right.now }
    ensures keyed { IsKeyed result }
{
    let key = u64::from_be_bytes([
        left[0], left[1], left[2], left[3], left[4], left[5], left[6], left[7],
    ]);
    (key, (left, right))
}

// Sorts pairs and removes duplicates.
fn sort_pairs(pairs: &mut Vec<KeyedPair<'_>>) -> Result<(), AllocError>
    requires { All IsKeyed pairs.old.items }
    ensures rises { OnOk result (Rises (map pair_bytes pairs.new.items)) }
    ensures same { OnOk result ((p : List ℕ) → Contains (map pair_bytes pairs.new.items) p
        ↔ Contains (map pair_bytes pairs.old.items) p) }
{
    pairs.sort()?;
    pairs.dedup();
    Ok(())
}
