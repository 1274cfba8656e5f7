//! Laws of the definitions that the contracts cite.
//!
//! A law is the contract of a function with an empty body: it consists of its proof.
ghost use Rattle.mirror_folders.specs.FileLaws.{FilesAreAll};
ghost use Rattle.mirror_folders.specs.SinceLaws.{FilesOfSteps, FilesSinceAreNew};

/// The files of a log are its checkpoint and, for each level and index with a tile or a bundle, the
/// widest one.
pub fn files_law()
    ensures { FilesAreAll }
{}

/// The files that an update puts since m entries are the files of the log that a log of m entries lacks, and its
/// checkpoint. Since no entries, they are all files.
pub fn files_since_law()
    ensures { FilesSinceAreNew }
{}

/// The files that are put from 3 to 5, from 255 to 256 and from 256 to 257 entries.
pub fn files_since_example()
    ensures { FilesOfSteps }
{}
