//! Laws of the definitions that the contracts cite.
ghost use Rattle.log_reader.specs.Holding.{HasFirstTiles};
ghost use Rattle.log_reader.specs.Truth.{ShownBundlesAreTrue, ShownPrefixesAreTrue, ShownRowsAreTrue};

use mirror_sources::Source;
use tlog_hash::TreeHash;

/// A shown row is the true row of each list of entries of the tree's size and root. Premise: no two different strings of the list's tree,
/// of the edge and of the way share a digest.
pub fn shown_rows_law()
    ensures { ShownRowsAreTrue }
{}

/// The root of a prefix is the tree hash of the first entries of each list of entries of the tree's size and root. Premise: no two
/// different strings of the list's tree, of the edge and of a way to one of the prefix's rows share a digest.
pub fn shown_prefixes_law()
    ensures { ShownPrefixesAreTrue }
{}

/// A shown bundle has the true entries of each list of entries of the tree's size and root. Premise: no two different strings of the list's
/// tree, of the edge, of the way up from the bundle and of the tree of the bundle's own entries share a digest.
pub fn shown_bundles_law()
    ensures { ShownBundlesAreTrue }
{}

/// A source that has the files of a log has the full tiles of its first entries. So with that source, the reader of `prefix` gives true
/// rows and proofs.
pub fn first_tiles_law<H: TreeHash, S: Source>(_source: &S)
    ensures { HasFirstTiles H.digest (S.may_answer _source.now) }
{}
