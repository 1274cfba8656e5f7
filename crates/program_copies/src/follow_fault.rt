//! The reasons why a run of `follow` ended early.
use copy_follow::FollowFault;
use program_io::NamedFault;
use std::fmt;

/// The reason why a run of `follow` ended early, in the order of its steps. It prints as the name of the innermost variant.
#[derive(Debug, Drop, Clone, Copy)]
pub enum FollowRunFault {
    /// The file of the given note was not read.
    File(NamedFault),
    /// Another run holds the folder of the copy.
    CopyInUse,
    /// Memory for the folder's name was refused.
    OutOfMemory,
    /// `follow` ended with this fault, or memory for the text was refused.
    Follow(FollowFault),
    /// The output could not be written.
    WriteFault,
    /// A file of a fork's evidence was not put or flushed. The output was written.
    Evidence(NamedFault),
    /// A file of a fork's evidence was not put or flushed, and the output could not be written either.
    EvidenceAndOutput(NamedFault),
}

/// Prints the name of the innermost variant. A derived one takes the checker seconds more.
impl fmt::Display for FollowRunFault {
    fn fmt<W: fmt::Write>(&self, f: &mut fmt::Formatter<W>) -> fmt::Result {
        match self {
            FollowRunFault::File(fault) => fmt::Display::fmt(fault, f),
            FollowRunFault::Follow(fault) => fmt::Display::fmt(fault, f),
            FollowRunFault::Evidence(fault) => fmt::Display::fmt(fault, f),
            FollowRunFault::EvidenceAndOutput(fault) => fmt::Display::fmt(fault, f),
            _ => fmt::Debug::fmt(self, f),
        }
    }
}

impl std::error::Error for FollowRunFault {}
