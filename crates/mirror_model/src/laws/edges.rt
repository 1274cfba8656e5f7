//! Laws of the right edge of a tree (C2SP tlog-tiles).
ghost use Rattle.mirror_model.specs.TreeLaws.{EdgeRootIsRoot, EdgeRowsAreWide, EdgeStringsAreOfTree};
ghost use Rattle.mirror_model.specs.EdgeLaws.{EdgeIsOne, LawfulEdgeIsTrue};

/// The true edge rows of a list of entries have the widths of the right edge for its length.
pub fn edge_rows_law()
    ensures { EdgeRowsAreWide }
{}

/// The true edge rows of a list of entries lead to its tree hash. So checking edge rows against the root of a checkpoint,
/// without any state, checks them against the root of the log.
pub fn edge_root_law()
    ensures { EdgeRootIsRoot }
{}

/// The strings that the edge rows hash are also strings of the entries' tree.
pub fn edge_strings_law()
    ensures { EdgeStringsAreOfTree }
{}

/// As long as the held strings do not collide, a size and a root have at most one list of edge rows with held strings. So
/// edge rows of a complete tree head of a lawful view are the true rows of its entries, if their strings are held.
pub fn lawful_edge_law()
    ensures one { EdgeIsOne }
    ensures of_entries { LawfulEdgeIsTrue }
{}
