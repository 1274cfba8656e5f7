//! The faults in the options of a command, which are read in order.
ghost use Rattle.std.specs.Prelude.{◌≡◌, is_some, true};
ghost use Rattle.program_words.specs.Refusals.{judged_as, no_refusals};

use crate::bad::BadWord;
use crate::commands::Command;
use crate::fault::CommandFault;

/// Why a command is refused, by the options that were read so far. The reader of a bad option notes it and returns
/// some value. Then the next options are read. In the end `judged` refuses the command.
#[derive(Drop)]
pub struct Refusals {
    /// The first bad option or word.
    pub bad: Option<BadWord>,
    /// Whether memory was refused.
    pub out_of_memory: bool,
}

impl Refusals {
    /// Nothing is refused yet.
    pub fn none() -> Refusals
        ensures { result ≡ no_refusals }
    {
        Refusals {
            bad: None,
            out_of_memory: false,
        }
    }

    /// Notes that this word is bad.
    pub fn note(&mut self, bad: BadWord)
        ensures { is_some self.new.bad ≡ true }
    {
        if self.bad.is_none() {
            self.bad = Some(bad);
        }
    }

    /// Notes that memory was refused.
    pub fn lack_memory(&mut self)
        ensures { (self.new.bad ≡ self.old.bad) × (self.new.out_of_memory ≡ true) }
    {
        self.out_of_memory = true;
    }
}

/// The command, if nothing was refused.
///
/// # Errors
///
/// `OutOfMemory` if memory was refused, else `BadArgument` if a word is bad.
pub fn judged<'a>(refusals: &Refusals, command: Command<'a>) -> Result<Command<'a>, CommandFault>
    ensures { result ≡ judged_as refusals.now command.entry }
{
    if refusals.out_of_memory {
        drop(command);
        Err(CommandFault::OutOfMemory)
    } else if refusals.bad.is_some() {
        drop(command);
        Err(CommandFault::BadArgument)
    } else {
        Ok(command)
    }
}
