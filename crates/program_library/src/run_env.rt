//! What a run needs of its environment.
use crate::fault::Error;
use crate::keys::Keys;
use program_io::why::{FailedStreams, Why};
use program_words::Command;
use signed_note::KeyLine;
use std::alloc::Global;

/// What a run needs of its environment. A function over it is checked in a few seconds, one over an `Env` with all its bounds in
/// half a minute.
pub trait RunEnv {
    ghost use Rattle.std.specs.Prelude.{◌≡◌, ℕ, map, option_map};
    ghost use Rattle.tlog_text.specs.Answers.{seen};
    ghost use Rattle.sha2.specs.Sha256.{sha256};
    ghost use Rattle.program_library.specs.Commands.{Executes, IsDoable, IsWriteFault};
    ghost use Rattle.program_io.specs.Performing.{Ends};
    ghost use Rattle.program_io.specs.Moment.{Moment};
    ghost use Rattle.program_io.specs.Places.{World};
    ghost use Rattle.program_library.specs.Runs.{ReadsKeyLines};

    /// The parts that contracts see.
    ghost moment: { Self → Moment };

    /// The places that it opens.
    ghost world: { Self → World };

    /// Which streams it borrows.
    ghost input: { Self → ℕ };

    ghost output: { Self → ℕ };

    ghost errors: { Self → ℕ };

    /// The allocator.
    fn alloc(&self) -> Global;

    /// The bytes of the key file of that name, and its lines. All pins of one name and id are joined into one.
    ///
    /// # Errors
    ///
    /// `KeyFile` if the file cannot be read. `KeyLines` if its lines are no keys, or memory was refused for them.
    fn key_lines(&self, name: Option<&str>) -> Result<(Vec<u8>, Vec<KeyLine>), Error>
        ensures { ReadsKeyLines (moment self.now).files (option_map (λ name. name.now) name.entry)
            (seen (λ keys. (keys.0.items, keys.1.items)) result) };

    /// Runs the command, and returns the exit status.
    ///
    /// # Errors
    ///
    /// Those of the command, with the thing that each is about.
    fn run_command(&mut self, keys: &Keys<'_>, command: &Command<'_>) -> Result<u8, Error>
        requires { IsDoable command.now }
        ensures same { (input self.new ≡ input self.old) × (output self.new ≡ output self.old)
            × (errors self.new ≡ errors self.old) }
        ensures does { Executes (world self.old) sha256
            (map (λ k. key k) keys.now.verifiers.now) keys.now.bytes.now
            (moment self.old) (moment self.new) command.now result }
        ensures ends { Ends IsWriteFault (moment self.old).output (moment self.new).output result };

    /// Writes the line of `--why` to standard error, if the words ask for it and a thing is known.
    fn print_why(&mut self, asked: bool, why: Option<Why>, streams: FailedStreams)
        ensures same { (input self.new ≡ input self.old) × (output self.new ≡ output self.old)
            × (errors self.new ≡ errors self.old) }
        ensures moment { moment self.new ≡ moment self.old };
}

/// An environment that keeps why a standard stream failed. It does not stand on `RunEnv`: what it needs of an `Env` would be checked
/// twice for each call of `run`.
pub trait WatchedEnv {
    /// The failures of the standard streams.
    fn failed_streams(&self) -> FailedStreams;
}
