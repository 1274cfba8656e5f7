//! The sizes of hashes. The bodies do nothing: the contracts state what follows from the type.
ghost use Rattle.std.specs.List.{AllByRecursion};
ghost use Rattle.log_reader.specs.EdgeRows.{HasWidths};
ghost use Rattle.log_reader.specs.Ways.{HasEdgeHashes};
ghost use Rattle.tlog_text.specs.Hash.{Is32Bytes};

use log_reader::EdgeRows;
use tlog_hash::Hash;

/// The number of bytes of a hash, which is 32.
pub(crate) fn hash_len(hash: &Hash) -> usize
    ensures { Is32Bytes hash.now }
{
    hash.as_slice().len()
}

/// Each hash of a path has 32 bytes.
pub(crate) fn see_path(path: &[Hash])
    ensures { AllByRecursion Is32Bytes path.now }
{
    for hash in path {
        hash_len(hash);
    }
}

/// Each hash of an edge has 32 bytes.
pub(crate) fn see_edge(edge: &EdgeRows)
    requires { HasWidths edge.now }
    ensures { HasEdgeHashes edge.now }
{
    for level in 0..8u32 {
        see_path(edge.row(level));
    }
}
