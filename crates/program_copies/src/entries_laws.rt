//! Laws of the definitions that the contracts cite.
ghost use Rattle.program_copies.specs.EntriesLaws.{ShownEntriesAreTrue};

/// The entries that `entries_of_copy` wrote are those of each list of the copy's size and root: at Ok the range, at a fault a prefix of its
/// text. Premise: for each of them, no two different strings of the list's tree, of the edge, of the way up from the entry's bundle and of
/// the tree of the bundle's own entries share a digest.
pub fn shown_entries_law()
    ensures { ShownEntriesAreTrue }
{}
