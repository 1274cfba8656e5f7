//! Laws of the files that `notes` leaves.
ghost use Rattle.state_commands.specs.NoteLaws.{KeepsFiles, NotesStand, PutsMissing};

/// Each file keeps its bytes while notes are put.
pub fn kept_files_law()
    ensures { KeepsFiles }
{}

/// After notes were put, each is in its file.
pub fn standing_notes_law()
    ensures { NotesStand }
{}

/// Only files that were missing are put: no note is written again.
pub fn missing_files_law()
    ensures { PutsMissing }
{}
