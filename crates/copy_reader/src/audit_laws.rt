//! Laws of the definitions that the contracts cite.
ghost use Rattle.copy_reader.specs.First.{VerifiedFilesAreTrue};

/// The first files of `file_order` that were read and verify are the true ones of each list of entries of that size and root. The rows of
/// the edge are among them, and lead to the root. So a file below the edge that `audit` names is the first false or missing one. Premise:
/// no two different strings of the list's tree, and of the edge or of one of these files, share a digest.
pub fn verified_files_law()
    ensures { VerifiedFilesAreTrue }
{}
