//! A state with colliding strings.
use mirror_files::{LoadFault, load_bytes};
use std::alloc::Global;
use std::test::Fail;
use tlog_hash::{Sha256Tree, SumTree, TreeHash};
use tlog_mirror::{Mirror, NewFault};

// The state of the entries `01 02` and `02 01`, whose bytes have one sum. The digest was computed by a program of another language.
const ONE_SUM: &[u8] = b"\
TLMIRR02\x00\x02ex\x00\x00\x00\x00\x00\x00\x00\x00\x00\x00\x00\x00\x00\x00\x00\x00\
\x00\x00\x00\x00\x00\x00\x00\x02\x00\x02\x01\x02\x00\x02\x02\x01\
\x8cW/\x16y(\x90W\xb6\xfc\xa75\x85\xba\xc7\x12\x81\xc0\xb7\x9b\x8066k\xb6\xc0,W\xf7\xa7\xc6P";

// With SHA-256 the state is loaded. Under the digest that sums bytes, its strings share a digest, and the fault is
// Collision, not OutOfMemory.
#[test]
fn colliding_state(rt: HostRuntime) -> Result<(), Fail> {
    assert!(rt; fault_of::<Sha256Tree>(rt.alloc())?.is_none());
    assert!(rt; fault_of::<SumTree>(rt.alloc())? == Some(LoadFault::Collision));
    Ok(())
}

// The fault of that state.
fn fault_of<H: TreeHash>(alloc: Global) -> Result<Option<LoadFault>, NewFault> {
    // A mirror can have that origin, as `load_bytes` requires.
    let made = Mirror::<H>::new(alloc, "ex")?;
    drop(made);
    Ok(load_bytes::<H>(alloc, "ex", &[], ONE_SUM).err())
}
