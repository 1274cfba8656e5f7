//! The commands that report their progress.

/// A command that reports its progress. `Task::Pull`, for example, reports the files that it
/// fetched.
#[derive(Drop, PartialEq, Eq, Clone, Copy)]
pub enum Task {
    /// Builds a log and puts its files.
    Build,
    /// Fetches files.
    Pull,
    /// Puts files.
    Export,
    /// Brings a copy to a larger checkpoint and puts its files.
    Follow,
    /// Reads the files of a whole copy, and puts those that are missing or false.
    Repair,
    /// Reads the files of a whole log.
    Audit,
}
