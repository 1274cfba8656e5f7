//! The key file that the words name.
ghost use Rattle.std.specs.Prelude.{option_map};
ghost use Rattle.tlog_text.specs.Answers.{seen};
ghost use Rattle.program_library.specs.Runs.{FindsKeys, ReadsJoined, ReadsKeyLines};

use crate::fault::{Error, RunFault};
use program_io::RunFiles;
use program_io::why::{Why, of_named};
use signed_note::{KeyFileFault, KeyLine, Verifier, join_pins, read_keys};
use std::alloc::Global;

/// The keys of a run: the bytes of the key file, and its keys. Both are empty if the command has no keys.
///
/// ```text
/// let keys = Keys { bytes: &key_bytes, verifiers: &keys };
/// ```
#[derive(Drop)]
pub struct Keys<'a> {
    /// The bytes of the key file. `build` reads its signing key from them.
    pub bytes: &'a [u8],
    /// Its keys.
    pub verifiers: &'a [Box<dyn Verifier>],
}

// The bytes of the key file of that name; no bytes if the command has no keys.
fn key_bytes<F: RunFiles>(files: &F, alloc: Global, name: Option<&str>) -> Result<Vec<u8>, Error>
    ensures { FindsKeys (F.puts files.now) (option_map (λ name. name.now) name.entry)
        (seen (λ bytes. bytes.items) result) }
{
    match name {
        Some(name) => match files.read(name) {
            Ok(bytes) => Ok(bytes),
            Err(fault) => {
                let why = of_named(alloc, files, fault);
                Err(Error::new(RunFault::KeyFile(fault), why))
            }
        },
        None => Ok(Vec::new(alloc)),
    }
}

/// The bytes of the key file of that name, and its lines. All pins of one name and id are joined into one.
///
/// # Errors
///
/// `KeyFile` if the file cannot be read. `KeyLines` if its lines are no keys, or memory was refused for them.
pub(crate) fn key_lines<F: RunFiles>(
    files: &F,
    alloc: Global,
    name: Option<&str>,
) -> Result<(Vec<u8>, Vec<KeyLine>), Error>
    ensures { ReadsKeyLines (F.puts files.now) (option_map (λ name. name.now) name.entry)
        (seen (λ keys. (keys.0.items, keys.1.items)) result) }
{
    let bytes = match key_bytes(files, alloc, name) {
        Ok(bytes) => bytes,
        Err(error) => return Err(error),
    };
    match joined_lines(alloc, &bytes) {
        Ok(lines) => Ok((bytes, lines)),
        Err(fault) => {
            let why = why_of_lines(alloc, &bytes, name, fault);
            Err(Error::new(RunFault::KeyLines(fault), why))
        }
    }
}

// The lines of the key file, with their pins joined.
fn joined_lines(alloc: Global, key_bytes: &[u8]) -> Result<Vec<KeyLine>, KeyFileFault>
    ensures { ReadsJoined key_bytes.now (seen (λ lines. lines.items) result) }
{
    let lines = match read_keys(alloc, key_bytes) {
        Ok(lines) => lines,
        Err(fault) => return Err(fault),
    };
    match join_pins(alloc, lines) {
        Ok(lines) => Ok(lines),
        Err(_) => Err(KeyFileFault::OutOfMemory),
    }
}

// The thing that a fault of the key file's lines is about: the number of the bad line, and the common mistake in it.
fn why_of_lines(
    alloc: Global,
    key_bytes: &[u8],
    name: Option<&str>,
    fault: KeyFileFault,
) -> Option<Why> {
    match fault {
        KeyFileFault::BadKeyLine(number) => {
            let mistake = mistake_in(key_bytes, number);
            match format!(in alloc; "line {number}{mistake}") {
                Ok(line) => Why::of_reason(alloc, name?, &line),
                Err(_) => None,
            }
        }
        KeyFileFault::OutOfMemory => None,
    }
}

// The common mistake in the line of that number, counted from 1; empty if it is none, or if the bytes are no text.
fn mistake_in(key_bytes: &[u8], number: usize) -> &'static str {
    let Ok(mut rest) = str::from_utf8(key_bytes) else {
        return "";
    };
    for _ in 1..number {
        let Some((_, after)) = rest.split_once('\n') else {
            return "";
        };
        rest = after;
    }
    match rest.split_once('\n') {
        Some((line, _)) => mistake_of(line),
        None => " lacks its newline",
    }
}

// The common mistake in a complete line; empty if it is none.
fn mistake_of(line: &str) -> &'static str {
    if line.is_empty() {
        " is empty"
    } else if line.ends_with('\r') {
        " ends in a carriage return"
    } else if line.starts_with('#') {
        " is a comment"
    } else if is_verifier_key(line) {
        " is a verifier key, which is not read"
    } else {
        ""
    }
}

// Whether the line has the shape of a verifier key of a signed note: `NAME+ID+KEY`, where ID has eight digits.
fn is_verifier_key(line: &str) -> bool {
    match line.split_once('+') {
        Some((name, rest)) => match rest.split_once('+') {
            Some((id, _)) => !name.contains(' ') && id.len() == 8,
            None => false,
        },
        None => false,
    }
}
