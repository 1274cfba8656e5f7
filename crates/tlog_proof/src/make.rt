//! Makes paths from the hashes of ranges of a list.
ghost use Rattle.std.specs.Prelude.{◌≡◌, ℕ, List, IfOk, IfErr};
ghost use Rattle.tlog_proof.specs.Answers.{AnswersAs};
ghost use Rattle.tlog_proof.specs.Made.{inclusion_in, consistency_in};
ghost use Rattle.tlog_proof.specs.Ranges.{HashesRange, LacksRange};
ghost use Rattle.tlog_proof.specs.declared.make.ProofFault.TheVariants.{OutOfMemory};

use crate::making::{MakeFault, try_consistency, try_inclusion};
use crate::ranges::Ranges;
use crate::sure::{NoRange, Sure};
use std::alloc::{AllocFailed, Global};
use std::error::Error;
use std::fmt;
use tlog_hash::Hash;

/// Why no proof was made, in the order in which the faults are found. For three entries,
/// `Ask::Inclusion { size: 4, index: 0 }` is `NoSuchSize`, and `{ size: 3, index: 3 }` is `NoSuchIndex`.
#[derive(Debug, Drop, PartialEq, Eq, Clone, Copy)]
pub enum ProofFault {
    /// The list has fewer entries than the requested size, or second size.
    NoSuchSize,
    /// The index is not below the size.
    NoSuchIndex,
    /// The first tree is empty, and no consistency proof begins with it.
    FirstIsZero,
    /// The first size is greater than the second.
    Backwards,
    /// Memory was refused.
    OutOfMemory,
}

/// Prints the name of the variant. A derived one takes the checker seconds more.
impl fmt::Display for ProofFault {
    fn fmt<W: fmt::Write>(&self, f: &mut fmt::Formatter<W>) -> fmt::Result {
        fmt::Debug::fmt(self, f)
    }
}

impl Error for ProofFault {}

impl<T: Drop> From<AllocFailed<T>> for ProofFault {
    ghost from_gives = { λ _ e. e ≡ OutOfMemory };

    fn from(_e: AllocFailed<T>) -> ProofFault {
        ProofFault::OutOfMemory
    }
}

/// The path that shows the entry with that index in the tree of the first `size` entries: PATH of RFC 6962, section 2.1.1.
///
/// # Errors
///
/// The first that applies: `NoSuchSize` if the list has fewer entries, `NoSuchIndex` if the index is not below the size.
/// `OutOfMemory` may come at any step.
pub fn inclusion<R: Ranges>(
    alloc: Global,
    ranges: &R,
    size: u64,
    index: u64,
) -> Result<Vec<Hash>, ProofFault>
    ensures { (entries : List (List ℕ)) → R.lists ranges.now entries
        → AnswersAs ProofFault.OutOfMemory (λ v. v.items) result
        (inclusion_in R.digest entries size index) }
{
    if size > ranges.size() {
        return Err(ProofFault::NoSuchSize);
    }
    if index >= size {
        return Err(ProofFault::NoSuchIndex);
    }
    let mut sure = Sure { ranges };
    match try_inclusion(alloc, &mut sure, size, index) {
        Ok(path) => Ok(path),
        Err(MakeFault::Ranges(NoRange)) => Err(ProofFault::NoSuchSize),
        Err(MakeFault::OutOfMemory) => Err(ProofFault::OutOfMemory),
    }
}

/// The path that shows that the tree of the first `first` entries is a prefix of the tree of the first `second`. It is PROOF
/// of RFC 6962, section 2.1.2, or the empty path for equal sizes.
///
/// # Errors
///
/// The first that applies: `NoSuchSize` if the list has fewer than `second` entries, `FirstIsZero` if `first` is 0,
/// `Backwards` if `first` is the greater. `OutOfMemory` may come at any step.
pub fn consistency<R: Ranges>(
    alloc: Global,
    ranges: &R,
    first: u64,
    second: u64,
) -> Result<Vec<Hash>, ProofFault>
    ensures { (entries : List (List ℕ)) → R.lists ranges.now entries
        → AnswersAs ProofFault.OutOfMemory (λ v. v.items) result
        (consistency_in R.digest entries first second) }
{
    if second > ranges.size() {
        return Err(ProofFault::NoSuchSize);
    }
    if first == 0 {
        return Err(ProofFault::FirstIsZero);
    }
    if first > second {
        return Err(ProofFault::Backwards);
    }
    let mut sure = Sure { ranges };
    match try_consistency(alloc, &mut sure, first, second) {
        Ok(path) => Ok(path),
        Err(MakeFault::Ranges(NoRange)) => Err(ProofFault::NoSuchSize),
        Err(MakeFault::OutOfMemory) => Err(ProofFault::OutOfMemory),
    }
}

/// The tree hash of a range.
pub(crate) fn hash_of<R: Ranges>(ranges: &R, start: u64, len: u64) -> Result<Hash, ProofFault>
    ensures ok { IfOk result (HashesRange (R.lists ranges.now) start len R.digest) }
    ensures err { IfErr result (λ _. LacksRange (R.lists ranges.now) start len) }
{
    match ranges.hash(start, len) {
        Some(hash) => Ok(hash),
        None => Err(ProofFault::NoSuchSize),
    }
}
