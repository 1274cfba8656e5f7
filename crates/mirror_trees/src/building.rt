//! Builds trees in a store, in one pass from the leaves up: each string is hashed once, and the result is the hash of
//! the node above it.
ghost use Rattle.std.specs.Prelude.{◌≡◌, ◌<◌, length, map, IfOk, OnOk, OnErr};
ghost use Rattle.std.specs.FinSet as set;
ghost use Rattle.node_store.specs.Strings.{IsWithout, NoClash, Strings};
ghost use Rattle.tlog_hash.specs.Tree.{fold_of, joins, mth, strings};
ghost use Rattle.mirror_model.specs.Edge.{root_from, strings_from};
ghost use Rattle.mirror_model.specs.Strings.{HasClash};
ghost use Rattle.mirror_trees.specs.Building.{HasGained};

use node_store::{AddFault, Store, Tagged};
use std::alloc::Global;
use tlog_hash::{Hash, TreeHash};
use tlog_shape::split;

/// Adds the strings that join the hashes of a row, and gives the hash over them. That is the tree hash of a list with
/// these leaf hashes (RFC 6962, section 2.1), as over the row of a full tile (C2SP tlog-tiles).
///
/// It hashes each string once, and looks it up in the store once.
///
/// # Errors
///
/// `Collision` only if the strings of the store and of the row collide; `OutOfMemory` if memory was refused. If the
/// strings collide, the answer is one of the two. After either fault the store has all its earlier strings, and some
/// strings of the row may be added.
pub fn add_row<H: TreeHash>(store: &mut Store<H>, row: &[Hash]) -> Result<Hash, AddFault>
    requires some { 0 < length row.now }
    requires no_clash { NoClash H.digest store.old }
    ensures hash { IfOk result (λ hash. hash ≡ fold_of H.digest row.now) }
    ensures ok { OnOk result (store.new
        ≡ set.union store.old (set.from_list (joins H.digest row.now))) }
    ensures collision { result ≡ Err AddFault.Collision
        → HasClash H.digest (set.union store.old (set.from_list (joins H.digest row.now))) }
    ensures gained { HasGained store.old (joins H.digest row.now) store.new }
    ensures no_clash { NoClash H.digest store.new }
{
    if row.len() == 1 {
        return Ok(row[0]);
    }
    let k = split(row.len() as u64) as usize;
    let left = add_row(store, &row[..k])?;
    let right = add_row(store, &row[k..])?;
    store.insert(Tagged::Pair(&left, &right))
}

/// Adds the strings that the tree hash of a list of entries hashes, and gives that hash (RFC 6962, section 2.1). The
/// hash of no entries is that of no bytes, and is not added.
///
/// It hashes each string once, and looks it up in the store once. It copies each entry once, into the store.
///
/// # Errors
///
/// `Collision` only if the strings of the store and of the tree collide; `OutOfMemory` if memory was refused. If the
/// strings collide, the answer is one of the two. After either fault the store is unchanged.
pub fn add_entries<H: TreeHash>(
    alloc: Global,
    store: &mut Store<H>,
    entries: &[&[u8]],
) -> Result<Hash, AddFault>
    requires { NoClash H.digest store.old }
    ensures hash { IfOk result (λ hash. hash ≡ mth H.digest (map (λ e. e.now) entries.now)) }
    ensures ok { OnOk result (store.new
        ≡ set.union store.old (set.from_list (strings H.digest (map (λ e. e.now) entries.now)))) }
    ensures collision { result ≡ Err AddFault.Collision
        → HasClash H.digest (set.union store.old
        (set.from_list (strings H.digest (map (λ e. e.now) entries.now)))) }
    ensures err { OnErr result (store.new ≡ store.old) }
    ensures no_clash { NoClash H.digest store.new }
{
    let Ok(mut added) = Vec::with_capacity(alloc, 2 * entries.len()) else {
        return Err(AddFault::OutOfMemory);
    };
    match add_part(store, entries, &mut added) {
        Ok(hash) => Ok(hash),
        Err(fault) => {
            store.take_out(&added);
            Err(fault)
        }
    }
}

// Adds the strings of the tree of these entries, and gives its hash. It notes the digests of the new strings.
fn add_part<H: TreeHash>(
    store: &mut Store<H>,
    entries: &[&[u8]],
    added: &mut Vec<Hash>,
) -> Result<Hash, AddFault>
    requires { NoClash H.digest store.old }
    ensures hash { IfOk result (λ hash. hash ≡ mth H.digest (map (λ e. e.now) entries.now)) }
    ensures ok { OnOk result (store.new
        ≡ set.union store.old (set.from_list (strings H.digest (map (λ e. e.now) entries.now)))) }
    ensures collision { result ≡ Err AddFault.Collision
        → HasClash H.digest (set.union store.old
        (set.from_list (strings H.digest (map (λ e. e.now) entries.now)))) }
    ensures noted { (before : Strings) → IsWithout H.digest store.old added.old.items before
        → IsWithout H.digest store.new added.new.items before }
    ensures no_clash { NoClash H.digest store.new }
{
    match entries {
        [] => Ok(H::empty()),
        [entry] => store.insert_noted(Tagged::Leaf(entry), added),
        _ => {
            let k = split(entries.len() as u64) as usize;
            let left = add_part(store, &entries[..k], added)?;
            let right = add_part(store, &entries[k..], added)?;
            store.insert_noted(Tagged::Pair(&left, &right), added)
        }
    }
}

/// Adds the strings of rows, lowest first, and gives the value to which they lead. Each row has the value so far as one
/// more hash at its end. The value so far is `start` at first, and then the hash over the row before.
///
/// For example, take the rows of the partial tiles at the right edge of a tree (C2SP tlog-tiles), without the lowest
/// one. They lead from the hash over the lowest one to the root.
///
/// # Errors
///
/// `Collision` only if the strings of the store and of the rows collide; `OutOfMemory` if memory was refused. If the
/// strings collide, the answer is one of the two. After either fault the store has all its earlier strings, and some
/// strings of the rows may be added.
pub fn add_above<H: TreeHash>(
    store: &mut Store<H>,
    start: Hash,
    rows: Vec<Vec<Hash>>,
) -> Result<Hash, AddFault>
    requires { NoClash H.digest store.old }
    ensures hash { IfOk result (λ hash. hash
        ≡ root_from H.digest start (map (λ row. row.items) rows.items)) }
    ensures ok { OnOk result (store.new
        ≡ set.union store.old (set.from_list
        (strings_from H.digest start (map (λ row. row.items) rows.items)))) }
    ensures collision { result ≡ Err AddFault.Collision
        → HasClash H.digest (set.union store.old
        (set.from_list (strings_from H.digest start (map (λ row. row.items) rows.items)))) }
    ensures gained { HasGained store.old
        (strings_from H.digest start (map (λ row. row.items) rows.items)) store.new }
    ensures no_clash { NoClash H.digest store.new }
{
    let mut value = start;
    for mut row in rows {
        let Ok(()) = row.push(value) else {
            return Err(AddFault::OutOfMemory);
        };
        match add_row(store, row.as_slice()) {
            Ok(hash) => value = hash,
            Err(fault) => return Err(fault),
        }
    }
    Ok(value)
}
