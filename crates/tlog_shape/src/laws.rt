//! Laws of the split and of the greatest size of a tree, for the definitions that the contracts
//! cite.
//!
//! A law is a function with an empty body: only its contract counts.
ghost use Rattle.tlog_shape.specs.Laws.{SplitIsLargestPower, GreatestSizeHas63Bits};

/// The split of `n`, for `n` of at least 2, is the largest power of two smaller than `n`.
pub fn split_law()
    ensures { SplitIsLargestPower }
{}

/// `MAX_SIZE` is `2^63 - 1`.
pub fn limits_law()
    ensures { GreatestSizeHas63Bits }
{}
