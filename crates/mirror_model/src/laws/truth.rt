//! Laws of items of true bytes, as a log serves them (C2SP tlog-tiles).
ghost use Rattle.mirror_model.specs.TrueLaws.{TrueBundlesAreGood, EdgeHasEachPartialTile, TrueEdgesLeadToRoot, FrontIsWidest, FrontIsWithin, PrefixesServeSame, TrueTilesAreGood, TrueStringsAreOfTree};
ghost use Rattle.mirror_model.specs.ServedLaws.{ServedBundlesAreAllEntries, AllEntriesAreInBundles};

/// The true tiles and bundles of a list of entries are valid, and their strings are those of its tree there. Its true edge
/// rows lead to its tree hash.
pub fn true_items_law()
    ensures tiles { TrueTilesAreGood }
    ensures bundles { TrueBundlesAreGood }
    ensures edges { TrueEdgesLeadToRoot }
    ensures paths { EdgeHasEachPartialTile }
{}

/// If the strings of the right edge are held, each path of the front is within the entries, and its true bytes have only
/// strings of their tree.
pub fn true_fronts_law()
    ensures within { FrontIsWithin }
    ensures widest { FrontIsWidest }
    ensures tree { TrueStringsAreOfTree }
{}

/// A file within the first entries of a list is the same for these entries and for the whole list.
pub fn prefix_law()
    ensures { PrefixesServeSame }
{}

/// A client reads the served bundles in order, each as wide as it is served, until no bundle is served. It reads exactly the
/// served entries, and such bundles exist.
pub fn bundles_law()
    ensures all { ServedBundlesAreAllEntries }
    ensures served { AllEntriesAreInBundles }
{}
