//! Laws of RFC 6962 for the definitions of the tree that the contracts cite.
//!
//! A law is a function with an empty body: only its contract counts.
ghost use Rattle.tlog_hash.specs.Laws.{MthIsTreeHash, FoldMeetsEquations, StringsFollowSplit, TreeGoesByBlocks, NodesAreStrings};

/// MTH meets the equations of RFC 6962, section 2.1, and it is the only such function.
pub fn tree_hash_law()
    ensures { MthIsTreeHash }
{}

/// `fold_of` meets the equations of the tree hash for rows of hashes, and it is the only such function for rows that are not
/// empty.
pub fn fold_law()
    ensures { FoldMeetsEquations }
{}

/// The tree hash of two or more entries hashes the strings of both parts, and the string that joins the hashes of the two
/// parts.
pub fn strings_law()
    ensures { StringsFollowSplit }
{}

/// The tree of a list is the tree of its blocks, each replaced by its own tree, if each block has the same power of two of
/// items. So the row of a tile can replace the entries below it.
pub fn blocks_law()
    ensures { TreeGoesByBlocks }
{}

/// The tree hash hashes exactly the strings of the tree's nodes.
pub fn nodes_law()
    ensures { NodesAreStrings }
{}
