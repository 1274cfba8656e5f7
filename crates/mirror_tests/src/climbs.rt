//! Paths of proofs in lists of the greatest size (`tlog_proof`).

use std::alloc::Global;
use tlog_hash::Hash;
use tlog_proof::{ProofFault, Ranges, consistency, inclusion};
use tlog_shape::MAX_SIZE;

// The calls that make paths. The tests need no clause of them.
fn included<R: Ranges>(
    alloc: Global,
    ranges: &R,
    size: u64,
    index: u64,
) -> Result<Vec<Hash>, ProofFault> {
    inclusion(alloc, ranges, size, index)
}

fn grown<R: Ranges>(
    alloc: Global,
    ranges: &R,
    first: u64,
    second: u64,
) -> Result<Vec<Hash>, ProofFault> {
    consistency(alloc, ranges, first, second)
}

// The number of hashes of the path.
fn len_of(path: Result<Vec<Hash>, ProofFault>) -> Result<usize, ProofFault> {
    Ok(path?.len())
}

// A list of the greatest size, with the same hash for each range.
#[derive(Drop)]
struct Same;

impl Ranges for Same {
    ghost lists = { λ _ _. ⊥ };

    ghost digest = { λ bytes. bytes };

    fn size(&self) -> u64 {
        MAX_SIZE
    }

    fn hash(&self, _start: u64, _len: u64) -> Option<Hash> {
        Some([7; 32])
    }
}

// Proofs in trees of over 2^62 entries, with enough memory.
#[test]
fn large_lists(rt: HostRuntime) {
    assert!(rt; len_of(included(rt.alloc(), &Same, MAX_SIZE, 0)) == Ok(63));
    assert!(rt; len_of(included(rt.alloc(), &Same, MAX_SIZE, MAX_SIZE - 1)) == Ok(62));
    assert!(rt; len_of(grown(rt.alloc(), &Same, (1 << 62) + 1, MAX_SIZE)) == Ok(64));
}
