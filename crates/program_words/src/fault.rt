//! Why words are those of no command.
ghost use Rattle.std.specs.Prelude.{◌≡◌};
ghost use Rattle.program_words.specs.declared.fault.CommandFault.TheVariants.{OutOfMemory};

use std::alloc::{AllocError, AllocFailed};
use std::fmt;

/// Why the words are those of no command. It prints its text, or its variant's name.
#[derive(Debug, Drop)]
pub enum CommandFault {
    /// Help or the version was asked for. This is its text.
    Help(String),
    /// The words are no command line of this program. The text says why.
    Words(String),
    /// A word has a wrong spelling, or its value is out of range.
    BadArgument,
    /// Memory was refused.
    OutOfMemory,
}

/// Prints the text, or the name of the variant. A derived one takes the checker seconds more.
impl fmt::Display for CommandFault {
    fn fmt<W: fmt::Write>(&self, f: &mut fmt::Formatter<W>) -> fmt::Result {
        match self {
            CommandFault::Help(text) | CommandFault::Words(text) => f.write_str(text.as_str()),
            CommandFault::BadArgument => f.write_str("BadArgument"),
            CommandFault::OutOfMemory => f.write_str("OutOfMemory"),
        }
    }
}

impl std::error::Error for CommandFault {}

impl From<AllocError> for CommandFault {
    ghost from_gives = { λ _ e. e ≡ OutOfMemory };

    fn from(_e: AllocError) -> CommandFault {
        CommandFault::OutOfMemory
    }
}

impl<T: Drop> From<AllocFailed<T>> for CommandFault {
    ghost from_gives = { λ _ e. e ≡ OutOfMemory };

    fn from(_e: AllocFailed<T>) -> CommandFault {
        CommandFault::OutOfMemory
    }
}
