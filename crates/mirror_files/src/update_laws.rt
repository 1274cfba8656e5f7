//! A law of the definitions that the contracts cite.
//!
//! A law is the contract of a function with an empty body: it consists of its proof.
ghost use Rattle.mirror_files.specs.UpdateLaws.{UpdatesStayWhole};

/// At each moment of an update a complete log is in the folder. Let every tile and bundle of the first m entries be
/// there with true bytes. Then after each put, all files of the log are there with true bytes beside its checkpoint, or
/// the earlier checkpoint is there with all of its files. A file whose bytes were true did not change, and neither did
/// a file that is not put. With m = 0 the folder may be empty, and this is an export.
pub fn update_law()
    ensures { UpdatesStayWhole }
{}
