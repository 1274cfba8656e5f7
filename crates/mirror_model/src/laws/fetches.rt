//! Laws of fetching the files of a log, and of a view with an item (C2SP tlog-tiles).
ghost use Rattle.mirror_model.specs.FetchLaws.{AnsweredIsNotAgain, FullBundleServesPartial, FullTileBeginsWithPartial, MissingIsFrontList, MissingIsWithin, PlusHoldsJustBoth};
ghost use Rattle.mirror_model.specs.CompleteLaws.{MissingIsNone};

/// A log may delete a partial file when the full one exists. The first hashes of a full tile are the partial tile with the
/// same level and index. The strings of the last, partial bundle of the first entries are in the full bundle with its index,
/// or in the right edge of the first entries.
pub fn full_files_law()
    ensures tile { FullTileBeginsWithPartial }
    ensures bundle { FullBundleServesPartial }
{}

/// If the strings of the right edge are held, a path whose true bytes were taken is in no later front.
pub fn answered_law()
    ensures { AnsweredIsNotAgain }
{}

/// A tree head of a lawful view is complete exactly if the walk from its root fails nowhere. So if it is not complete, a
/// missing path is named. Each named path is within the size of the tree head, and is the widest with its level and index: a
/// full tile, or a bundle as wide as the size allows.
pub fn missing_law()
    ensures none { MissingIsNone }
    ensures within { MissingIsWithin }
{}

/// The list of missing paths of a tree head is the list of the front, if some entries have its size and tree hash. The
/// premise is that the held strings and the tree of the entries do not collide.
pub fn missing_list_law()
    ensures { MissingIsFrontList }
{}

/// A view with an item holds exactly the strings and notes of the view and of the item.
pub fn plus_law()
    ensures { PlusHoldsJustBoth }
{}
