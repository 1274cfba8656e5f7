//! The keys of a copy's log.

use signed_note::KeyLine;
use std::alloc::Global;
use std::fmt;

/// The reason why the keys of a copy's log were not read.
#[derive(Drop, Clone, Copy)]
pub enum KeysFault {
    /// The key file cannot be read.
    FileFault,
    /// A line of it, counted from 1, is no key.
    BadKeyLine(usize),
    /// Memory was refused.
    OutOfMemory,
}

/// Prints the name of the variant, as the fault of a command's key file.
impl fmt::Display for KeysFault {
    fn fmt<W: fmt::Write>(&self, f: &mut fmt::Formatter<W>) -> fmt::Result {
        let name = match self {
            KeysFault::FileFault => "FileFault",
            KeysFault::BadKeyLine(_) => "BadKeyLine",
            KeysFault::OutOfMemory => "OutOfMemory",
        };
        f.write_str(name)
    }
}

/// Where the keys of a copy's log are read. They are read anew for each new checkpoint, since a new pin may come with it.
///
/// ```text
/// keys.read_keys(alloc)?   // the keys of the key file, as it is now
/// ```
pub trait CopyKeys {
    ghost use Rattle.std.specs.Prelude.{IfErr, IfOk, List};
    ghost use Rattle.signed_note.specs.declared.key_line.KeyLine.{KeyLine};
    ghost use Rattle.program_copies.specs.declared.keys.KeysFault.{KeysFault};

    /// The keys that a read may give.
    ghost are_keys: { Self → List KeyLine → Type 0 };

    /// The faults at which a read may end.
    ghost may_fail: { Self → KeysFault → Type 0 };

    /// The keys.
    ///
    /// # Errors
    ///
    /// `FileFault`: the key file cannot be read. `BadKeyLine`: a line is no key. `OutOfMemory`: memory was refused.
    fn read_keys(&self, alloc: Global) -> Result<Vec<KeyLine>, KeysFault>
        ensures keys { IfOk result (λ keys. are_keys self.now keys.items) }
        ensures fault { IfErr result (may_fail self.now) };
}
