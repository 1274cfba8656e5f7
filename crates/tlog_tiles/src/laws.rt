//! Laws of the file formats and of tiles, for the definitions that the contracts cite.
//!
//! A law is a function with an empty body: only its contract counts.
ghost use Rattle.tlog_tiles.specs.Laws.{BundlesAreShort, CutsAreFirst, CutsOfTrueBytes, EdgeIsPartialTiles, EdgeLevelsRise, LevelsFoldToTreeHash, OneBundleAnswer, OnePathAnswer, OneRowAnswer, PathsAreSpelled, TrueBytesAreRead};

/// Reading bytes as a bundle of a width has one answer, apart from `OutOfMemory`. The bytes determine the entries, and the
/// three outcomes exclude one another.
pub fn one_bundle_law()
    ensures { OneBundleAnswer }
{}

/// A bundle of 256 entries or fewer has at most `MAX_BUNDLE_LEN` bytes.
pub fn bundle_length_law()
    ensures { BundlesAreShort }
{}

/// Reading bytes as a row of a width has one answer, apart from `OutOfMemory`.
pub fn one_row_law()
    ensures { OneRowAnswer }
{}

/// Reading a text as a path has one answer: the text determines the path, and the outcomes exclude one another.
pub fn one_path_law()
    ensures { OnePathAnswer }
{}

/// A text spells a path exactly if the path is lawful and the text is the printed path. So a path that was read is printed
/// as it was, and the text of a lawful path is read back.
pub fn spelling_law()
    ensures { PathsAreSpelled }
{}

/// The right edge of a tree has its partial tiles: those within the tree that are the widest at their index.
pub fn edge_law()
    ensures { EdgeIsPartialTiles }
{}

/// The levels of the right edge rise, so each level has at most one tile.
pub fn edge_order_law()
    ensures { EdgeLevelsRise }
{}

/// The true hashes of a tile fold to the tree hash of the entries below it.
pub fn row_fold_law()
    ensures { LevelsFoldToTreeHash }
{}

/// The true bytes of each tile and bundle are read as a row or a bundle.
pub fn served_law()
    ensures { TrueBytesAreRead }
{}

/// A file begins with its cut at a path, and has no other one. Where the file has the format of its width, each file of the
/// path's format that it begins with is the cut.
pub fn cut_law()
    ensures { CutsAreFirst }
{}

/// The true bytes of a partial tile or bundle are the cut of the true bytes of a wider one.
pub fn true_cut_law()
    ensures { CutsOfTrueBytes }
{}
