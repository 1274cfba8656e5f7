//! Laws of the definitions that the contracts cite.
ghost use Rattle.copy_follow.specs.Copies.{BringingBeginsEmpty, BringingMakesCopy, BringingStaysCopy, BroughtRowsLeadToRoot, CopiesAreSame, NewFilesKeepCopies};
ghost use Rattle.copy_follow.specs.Exported.{CopiesAreExported, PrunedCopiesAreSame};
ghost use Rattle.copy_follow.specs.Pruned.{CopiesArePruned};
ghost use Rattle.copy_follow.specs.Repaired.{RepairKeepsTrue};

/// At each moment, if only new files were put, the old copy is unchanged.
pub fn new_files_law()
    ensures { NewFilesKeepCopies }
{}

/// A copy that was brought to a larger checkpoint is a copy of more entries, under the new note.
pub fn makes_copy_law()
    ensures { BringingMakesCopy }
{}

/// At each moment of the call, the shelf has the old copy or the new copy.
pub fn stays_copy_law()
    ensures { BringingStaysCopy }
{}

/// The edge rows lead to the tree hash of the entries that were put.
pub fn root_law()
    ensures { BroughtRowsLeadToRoot }
{}

/// Two copies of one size and root have the same files, except the checkpoint. They are those that an export of a state puts, if it serves
/// entries of that size and root. This also holds of copies whose partial files were replaced by full ones. Premise: no two different
/// strings of the two trees share a digest.
pub fn same_copy_law()
    ensures same { CopiesAreSame }
    ensures pruned { PrunedCopiesAreSame }
    ensures exported { CopiesAreExported }
{}

/// A copy with all its files is also a copy whose partial files may be replaced by full files.
pub fn pruned_copy_law()
    ensures { CopiesArePruned }
{}

/// The call may start from an empty shelf.
pub fn empty_tip_law()
    ensures { BringingBeginsEmpty }
{}

/// At each moment of a repair, each file of the copy that was true is true.
pub fn repair_keeps_law()
    ensures { RepairKeepsTrue }
{}
