//! The reports of a mirror about its log: tree heads and forks.
use tlog_hash::Hash;

/// A tree head that is held: the size and the root of a checkpoint, and whether all strings of its tree are held.
///
/// ```
/// let partial = heads.iter().filter(|head| !head.complete).count();
/// ```
#[derive(Clone, Copy)]
pub struct Head {
    /// The number of entries of the tree.
    pub size: u64,
    /// The root hash of the tree.
    pub root: Hash,
    /// Whether the tree head is complete.
    pub complete: bool,
}

/// Two tree heads that no single append-only log can have made. Each is a size and a root. The smaller size comes first, and
/// for equal sizes the lesser root by bytes.
///
/// ```
/// let same_size = forks.iter().filter(|fork| fork.small.0 == fork.large.0).count();
/// ```
#[derive(Clone, Copy)]
pub struct Fork {
    /// The smaller tree head.
    pub small: (u64, Hash),
    /// The larger tree head.
    pub large: (u64, Hash),
}
