//! The store of hashed strings (`node_store`), if memory is refused.

use node_store::{AddFault, Store, Tagged};
use std::alloc::Global;
use std::process::Abort;
use tlog_hash::{Sha256Tree, TreeHash};

// The calls of a store. The tests need no clause of them.
fn empty<H: TreeHash>(alloc: Global) -> Store<H> {
    Store::new(alloc)
}

fn add<H: TreeHash>(store: &mut Store<H>, string: Tagged) -> Result<(), AddFault> {
    store.add(string)
}

fn add_all<H: TreeHash>(store: &mut Store<H>, other: &Store<H>) -> Result<(), AddFault> {
    store.add_all(other)
}

fn holds<H: TreeHash>(store: &Store<H>, string: Tagged) -> bool {
    store.holds(string)
}

// Adds a string that is new. If the store cannot grow, as by `rt try --test --fail-alloc N`, nothing has changed, and a
// second call adds the string.
fn add_at_last<H: TreeHash>(rt: &impl Abort, store: &mut Store<H>, string: Tagged) {
    let before = store.len();
    let mut added = add(store, string);
    if added.is_err() {
        assert!(rt; added == Err(AddFault::OutOfMemory));
        assert!(rt; store.len() == before);
        assert!(rt; !holds(store, string));
        added = add(store, string);
    }
    assert!(rt; added == Ok(()));
    assert!(rt; holds(store, string));
    assert!(rt; add(store, string) == Ok(()));
}

#[test]
fn add_again_after_want_of_memory(rt: HostRuntime) {
    let ten = [10u8; 32];
    let mut store: Store<Sha256Tree> = empty(rt.alloc());
    for byte in 0..10u8 {
        add_at_last(&rt, &mut store, Tagged::Leaf(&[byte; 40]));
        let left = [byte; 32];
        let pair = Tagged::Pair(&left, &ten);
        add_at_last(&rt, &mut store, pair);
    }
    assert!(rt; store.len() == 20);
    let mut copy: Store<Sha256Tree> = empty(rt.alloc());
    let mut added = add_all(&mut copy, &store);
    if added.is_err() {
        assert!(rt; added == Err(AddFault::OutOfMemory));
        assert!(rt; copy.len() < 20);
        added = add_all(&mut copy, &store);
    }
    assert!(rt; added == Ok(()));
    assert!(rt; copy.len() == 20);
    drop(copy);
    drop(store);
}
