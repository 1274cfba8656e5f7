//! Laws of the strings of tiles and bundles (C2SP tlog-tiles).
ghost use Rattle.mirror_model.specs.TreeLaws.{BundleStringsAreNodes, FullRowJoinsAreNodes};

/// The strings that the fold of a true full row of level L hashes are those of the nodes in the row's range with more than
/// `256^L` entries.
pub fn full_row_law()
    ensures { FullRowJoinsAreNodes }
{}

/// The strings of a bundle of entries, as wide as the size of the log allows, are those of the nodes in its range.
pub fn bundle_law()
    ensures { BundleStringsAreNodes }
{}
