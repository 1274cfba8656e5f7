//! A run with given keys.
ghost use Rattle.std.specs.Prelude.{◌≡◌, IfErr, IfOk, List, map, string_bytes, ℕ};
ghost use Rattle.std.specs.Io.KnownBytes.{Keeps};
ghost use Rattle.sha2.specs.Sha256.{sha256};
ghost use Rattle.program_words.specs.Lines.{IsLine};
ghost use Rattle.program_library.specs.Commands.{IsDoable, IsWriteFault};
ghost use Rattle.program_io.specs.Moment.{on_system, seen_of};
ghost use Rattle.program_io.specs.Places.{system_world, world_of};
ghost use Rattle.program_io.specs.Performing.{Ends};
ghost use Rattle.program_library.specs.Runs.{Runs};
ghost use Rattle.program_io.specs.Performing.{IsStatus};

use crate::{Error, Keys, RunEnv, RunFault, printed, refused, system_folders};
use program_io::why::FailedStreams;
use program_io::{Env, RunFiles, RunFolders, RunPlaces, SystemFiles, SystemPlaces};
use program_words::{Line, read_line};
use signed_note::Verifier;
use std::alloc::Global;
use std::fs::{File, Files};
use std::io::{Read, Write};
use std::net::{Net, TcpListener, TcpStream};
use std::rt::Clock;

/// Runs the command of the words with given keys: the bytes of the key file, and its keys, which the caller has boxed. Both
/// are empty if the command has no keys. It returns 0, or 3 for the other answer. The files and folders are those of the
/// system. `serve` writes to `errors`. With `--why`, one line on `errors` names the thing that a fault is about.
///
/// ```text
/// run_words(&rt, alloc, &words, &key_bytes, &keys, &mut input, &mut output, &mut errors)   // Ok(0)
/// ```
///
/// # Errors
///
/// `Command` if the words are those of no command. The others are those of the command's own call.
#[allow(clippy::too_many_arguments)]
pub fn run_words<R, I: Read, O: Write, E: Write>(
    rt: &R,
    alloc: Global,
    words: &[String],
    key_bytes: &[u8],
    keys: &[Box<dyn Verifier>],
    input: &mut I,
    output: &mut O,
    errors: &mut E,
) -> Result<u8, RunFault>
where
    R: Files<File = File> + Clock + Eprint + Net<Stream = TcpStream, Listener = TcpListener>,
    ensures answer { Runs system_world sha256 (map (λ k. key k) keys.now) key_bytes.now
        (map string_bytes words.now)
        (on_system (I.remaining input.old) (O.contents output.old))
        (on_system (I.remaining input.new) (O.contents output.new)) result }
    ensures status { IfOk result IsStatus }
    ensures quiet { IfErr result (λ fault. (¬ IsWriteFault fault) → Keeps (O.contents output.old)
        (O.contents output.new)) }
{
    run_words_over(rt, rt, alloc, words, key_bytes, keys, input, output, errors)
}

// Runs the same over this net. Over any net it is checked much faster than over a reference to the runtime.
#[allow(clippy::too_many_arguments)]
fn run_words_over<R, N, I: Read, O: Write, E: Write>(
    rt: &R,
    net: N,
    alloc: Global,
    words: &[String],
    key_bytes: &[u8],
    keys: &[Box<dyn Verifier>],
    input: &mut I,
    output: &mut O,
    errors: &mut E,
) -> Result<u8, RunFault>
where
    R: Files<File = File> + Clock + Eprint + Net<Stream = TcpStream, Listener = TcpListener>,
    N: Net<Stream = TcpStream> + Clock + Clone + Drop,
    ensures answer { Runs system_world sha256 (map (λ k. key k) keys.now) key_bytes.now
        (map string_bytes words.now)
        (on_system (I.remaining input.old) (O.contents output.old))
        (on_system (I.remaining input.new) (O.contents output.new)) result }
    ensures status { IfOk result IsStatus }
    ensures quiet { IfErr result (λ fault. (¬ IsWriteFault fault) → Keeps (O.contents output.old)
        (O.contents output.new)) }
{
    let files = SystemFiles::new(rt, alloc);
    let folders = system_folders(rt, alloc);
    let places = SystemPlaces::new(rt, net);
    run_words_on(
        rt, alloc, files, folders, places, key_bytes, keys, words, input, output, errors,
    )
}

// Runs the same over these files, folders and places, and drops them.
#[allow(clippy::too_many_arguments)]
fn run_words_on<
    R,
    F: RunFiles + Drop,
    D: RunFolders + Drop,
    P: RunPlaces + Drop,
    I: Read,
    O: Write,
    E: Write,
>(
    rt: &R,
    alloc: Global,
    files: F,
    folders: D,
    places: P,
    key_bytes: &[u8],
    keys: &[Box<dyn Verifier>],
    words: &[String],
    input: &mut I,
    output: &mut O,
    errors: &mut E,
) -> Result<u8, RunFault>
where
    R: Files<File = File> + Clock + Eprint + Net<Stream = TcpStream, Listener = TcpListener>,
    ensures answer { (left : F) × (left_folders : D) × Runs
        (world_of (P.at places) P.Place.may_answer P.Place.asked P.Place.failed) sha256
        (map (λ k. key k) keys.now) key_bytes.now (map string_bytes words.now)
        (seen_of F.puts D.held D.puts files folders (I.remaining input.old)
        (O.contents output.old))
        (seen_of F.puts D.held D.puts left left_folders (I.remaining input.new)
        (O.contents output.new)) result }
    ensures status { IfOk result IsStatus }
    ensures quiet { IfErr result (λ fault. (¬ IsWriteFault fault) → Keeps (O.contents output.old)
        (O.contents output.new)) }
{
    let mut env = Env {
        rt,
        alloc,
        files,
        folders,
        places,
        input,
        output,
        errors,
    };
    let answer = run_given(&mut env, key_bytes, keys, words);
    env.let_go();
    answer
}

// Runs the same over any environment.
fn run_given<C: RunEnv>(
    env: &mut C,
    key_bytes: &[u8],
    keys: &[Box<dyn Verifier>],
    words: &[String],
) -> Result<u8, RunFault>
    ensures same { (C.input env.new ≡ C.input env.old) × (C.output env.new ≡ C.output env.old)
        × (C.errors env.new ≡ C.errors env.old) }
    ensures answer { Runs (C.world env.old) sha256 (map (λ k. key k) keys.now) key_bytes.now
        (map string_bytes words.now) (C.moment env.old) (C.moment env.new) result }
    ensures status { IfOk result IsStatus }
    ensures quiet { IfErr result (λ fault. (¬ IsWriteFault fault)
        → Keeps (C.moment env.old).output (C.moment env.new).output) }
{
    match read_line(env.alloc(), words) {
        Ok(line) => {
            let asked = line.why;
            let answer = obey(env, key_bytes, keys, line);
            printed(env, asked, answer, FailedStreams::none())
        }
        Err(fault) => Err(RunFault::Command(fault)),
    }
}

// Runs the command of the line.
fn obey<C: RunEnv>(
    env: &mut C,
    key_bytes: &[u8],
    keys: &[Box<dyn Verifier>],
    line: Line<'_>,
) -> Result<u8, Error>
    requires { IfOk line.command IsDoable }
    ensures same { (C.input env.new ≡ C.input env.old) × (C.output env.new ≡ C.output env.old)
        × (C.errors env.new ≡ C.errors env.old) }
    ensures runs { (words : List (List ℕ)) → IsLine words line.entry → Runs
        (C.world env.old) sha256
        (map (λ k. key k) keys.now) key_bytes.now words (C.moment env.old)
        (C.moment env.new) result }
    ensures ends { Ends IsWriteFault (C.moment env.old).output (C.moment env.new).output result }
{
    let bad = line.bad;
    let asked = line.command;
    match asked {
        Ok(command) => {
            let keys = Keys {
                bytes: key_bytes,
                verifiers: keys,
            };
            env.run_command(&keys, &command)
        }
        Err(fault) => Err(refused(env.alloc(), bad, fault)),
    }
}
