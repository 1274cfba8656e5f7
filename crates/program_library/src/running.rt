//! One run: the words, the key file, and the command.
ghost use Rattle.std.specs.Prelude.{◌≡◌, IfErr, IfOk, List, map, string_bytes, ℕ};
ghost use Rattle.std.specs.Io.KnownBytes.{Keeps};
ghost use Rattle.sha2.specs.Sha256.{sha256};
ghost use Rattle.program_words.specs.Program.{AsksFor};
ghost use Rattle.program_words.specs.Lines.{IsLine};
ghost use Rattle.program_library.specs.Commands.{IsDoable, IsWriteFault};
ghost use Rattle.program_io.specs.Performing.{Ends};
ghost use Rattle.program_library.specs.Runs.{AreKeyBytes, JoinsLines, RunsKeyed};
ghost use Rattle.program_io.specs.Performing.{IsStatus};

use crate::answers::{printed, refused};
use crate::fault::{Error, RunFault};
use crate::keys::Keys;
use crate::run_env::{RunEnv, WatchedEnv};
use program_words::{Command, Line, read_line};
use signed_note::{KeyFileFault, KeyLine, Verifier};

/// Runs the command of the words over any files and folders that have names, with the keys of the key file that the words name. It
/// returns the exit status: 0 for success, and 3 for the other answer, such as no.
///
/// # Errors
///
/// In this order: a fault or help from `clap`, the key file, `BadArgument`, and those of the command.
///
/// After a fault nothing was written to the output, with a few exceptions (`IsWriteFault`). One is a write that failed. The
/// others are faults after a first text: `serve` prints its port first, `entries` writes what it reads, and `follow` puts its
/// evidence last. With `--repair`, `follow` writes the line of the repair before it goes on.
///
/// With `--why`, one line on `errors` names the thing that the fault is about. It includes what the system said of a stream.
pub fn run<C: RunEnv + WatchedEnv>(env: &mut C, words: &[String]) -> Result<u8, RunFault>
    ensures same { (C.input env.new ≡ C.input env.old) × (C.output env.new ≡ C.output env.old)
        × (C.errors env.new ≡ C.errors env.old) }
    ensures answer { RunsKeyed (C.world env.old) sha256 (map string_bytes words.now)
        (C.moment env.old) (C.moment env.new) result }
    ensures status { IfOk result IsStatus }
    ensures quiet { IfErr result (λ fault. (¬ IsWriteFault fault)
        → Keeps (C.moment env.old).output (C.moment env.new).output) }
{
    match read_line(env.alloc(), words) {
        Ok(line) => {
            let asked = line.why;
            let answer = run_line(env, line);
            let streams = env.failed_streams();
            printed(env, asked, answer, streams)
        }
        Err(fault) => Err(RunFault::Command(fault)),
    }
}

// Runs the command of the line, with the keys of the key file that it names.
fn run_line<C: RunEnv>(env: &mut C, line: Line<'_>) -> Result<u8, Error>
    requires { IfOk line.command IsDoable }
    ensures same { (C.input env.new ≡ C.input env.old) × (C.output env.new ≡ C.output env.old)
        × (C.errors env.new ≡ C.errors env.old) }
    ensures runs { (words : List (List ℕ)) → IsLine words line.entry → RunsKeyed
        (C.world env.old) sha256 words (C.moment env.old) (C.moment env.new) result }
    ensures ends { Ends IsWriteFault (C.moment env.old).output (C.moment env.new).output result }
{
    let bad = line.bad;
    let asked = line.command;
    match env.key_lines(line.keys) {
        Ok((bytes, lines)) => match asked {
            Ok(command) => run_keyed(env, &bytes, lines, &command),
            Err(fault) => Err(refused(env.alloc(), bad, fault)),
        },
        Err(error) => Err(error),
    }
}

// Runs the command with the keys of these lines.
fn run_keyed<C: RunEnv>(
    env: &mut C,
    key_bytes: &[u8],
    lines: Vec<KeyLine>,
    command: &Command<'_>,
) -> Result<u8, Error>
    requires { IsDoable command.now }
    ensures same { (C.input env.new ≡ C.input env.old) × (C.output env.new ≡ C.output env.old)
        × (C.errors env.new ≡ C.errors env.old) }
    ensures runs { (words : List (List ℕ)) → AsksFor words command.now
        → AreKeyBytes (C.moment env.old).files words key_bytes.now
        → JoinsLines key_bytes.now lines.items → RunsKeyed
        (C.world env.old) sha256 words (C.moment env.old) (C.moment env.new) result }
    ensures ends { Ends IsWriteFault (C.moment env.old).output (C.moment env.new).output result }
{
    let mut keys: Vec<Box<dyn Verifier>> = Vec::new(env.alloc());
    for line in lines {
        match line {
            KeyLine::Hmac(key) => {
                let Ok(key) = Box::new(env.alloc(), key) else {
                    return Err(no_memory());
                };
                let Ok(()) = keys.push(key) else {
                    return Err(no_memory());
                };
            }
            KeyLine::Pin(texts) => {
                let Ok(texts) = Box::new(env.alloc(), texts) else {
                    return Err(no_memory());
                };
                let Ok(()) = keys.push(texts) else {
                    return Err(no_memory());
                };
            }
        }
    }
    let keys = Keys {
        bytes: key_bytes,
        verifiers: &keys,
    };
    env.run_command(&keys, command)
}

// The error if memory is refused for the keys.
fn no_memory() -> Error
    ensures { result ≡ RunFault.KeyLines KeyFileFault.OutOfMemory }
{
    Error {
        fault: RunFault::KeyLines(KeyFileFault::OutOfMemory),
        why: None,
    }
}
