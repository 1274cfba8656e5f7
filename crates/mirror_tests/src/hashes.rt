//! Tree hashes of rows (`tlog_hash`).

use crate::tlog_given::{
    LEAF_OF_00, LEAF_OF_10, LEAF_OF_NO_BYTES, ROOT_OF_THREE, ROOT_OF_TWO, hash,
};
use std::test::Fail;
use tlog_hash::{Sha256Tree, fold, pairs};

#[test]
fn fold_and_pairs_of_leaf_hashes(rt: HostRuntime) -> Result<(), Fail> {
    let (none, zero) = (hash(&rt, LEAF_OF_NO_BYTES), hash(&rt, LEAF_OF_00));
    let (ten, two) = (hash(&rt, LEAF_OF_10), hash(&rt, ROOT_OF_TWO));
    let row = [none, zero, ten];
    assert!(rt; fold::<Sha256Tree>(&row) == hash(&rt, ROOT_OF_THREE));
    let joined = pairs::<Sha256Tree>(rt.alloc(), &row)?;
    assert!(rt; joined.as_slice() == [(none, zero), (two, ten)].as_slice());
    Ok(())
}
