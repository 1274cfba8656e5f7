//! The key file of a copy's log. `serve` reads it anew for each new checkpoint.

use program_copies::{CopyKeys, KeysFault};
use program_io::{NamedFault, RunFiles};
use signed_note::{KeyFileFault, KeyLine, join_pins, read_keys};
use std::alloc::Global;

/// A key file, by its name.
#[derive(Drop)]
pub(crate) struct KeyFile<'a, F: RunFiles> {
    /// The files.
    pub files: &'a F,
    /// The name of the key file.
    pub name: &'a str,
}

impl<'a, F: RunFiles> CopyKeys for KeyFile<'a, F> {
    ghost use Rattle.copy_commands.specs.KeyFiles.{AreFileKeys, FailsFileKeys};

    ghost are_keys = { λ file keys. AreFileKeys (F.puts file.files.now) file.name.now keys };

    ghost may_fail = { λ file fault. FailsFileKeys (F.puts file.files.now) file.name.now fault };

    fn read_keys(&self, alloc: Global) -> Result<Vec<KeyLine>, KeysFault> {
        let bytes = match self.files.read(self.name) {
            Ok(bytes) => bytes,
            Err(NamedFault::FileFault) => return Err(KeysFault::FileFault),
            Err(NamedFault::OutOfMemory) => return Err(KeysFault::OutOfMemory),
        };
        let lines = match read_keys(alloc, &bytes) {
            Ok(lines) => lines,
            Err(KeyFileFault::BadKeyLine(number)) => return Err(KeysFault::BadKeyLine(number)),
            Err(KeyFileFault::OutOfMemory) => return Err(KeysFault::OutOfMemory),
        };
        match join_pins(alloc, lines) {
            Ok(joined) => Ok(joined),
            Err(_) => Err(KeysFault::OutOfMemory),
        }
    }
}
