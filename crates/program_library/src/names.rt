//! The key file that the words name.
ghost use Rattle.std.specs.Prelude.{map, option_map, string_bytes};
ghost use Rattle.tlog_text.specs.Answers.{seen};
ghost use Rattle.program_library.specs.Named.{NamesKeyFile};

use crate::RunFault;
use program_words::read_line;
use std::alloc::Global;

/// The name of the key file in the words: the word after `--keys`, or None for `root` and `check`, which have none.
///
/// ```text
/// key_file(alloc, &words)   // Ok(Some("keys"))
/// ```
///
/// # Errors
///
/// `Command` with the fault or the help of `clap`, but never with `BadArgument`: this call checks no other option.
/// `OutOfMemory` if memory was refused for the name.
pub fn key_file(alloc: Global, words: &[String]) -> Result<Option<String>, RunFault>
    ensures { NamesKeyFile (map string_bytes words.now) (seen (option_map string_bytes) result) }
{
    let line = match read_line(alloc, words) {
        Ok(line) => line,
        Err(fault) => return Err(RunFault::Command(fault)),
    };
    let keys = line.keys;
    drop(line);
    match keys {
        Some(name) => match String::from_str(alloc, name) {
            Ok(name) => Ok(Some(name)),
            Err(_) => Err(RunFault::OutOfMemory),
        },
        None => Ok(None),
    }
}
