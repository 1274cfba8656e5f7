//! The command `build`: it makes a log from the entries on standard input.
ghost use Rattle.std.specs.Prelude.{◌≡◌, map};
ghost use Rattle.sha2.specs.Sha256.{sha256};
ghost use Rattle.program_io.specs.Envs.{IsSameEnv, moment};
ghost use Rattle.program_io.specs.Performing.{KeepsFiles, Performs};
ghost use Rattle.state_commands.specs.Faults.{IsLate};
ghost use Rattle.state_commands.specs.Builds.{BuildsFrom, DoesBuild};

use crate::fault::{Error, StateRunFault};
use crate::{BuildFault, EntriesFault, build_log, read_entries, signing_key};
use mirror_files::ExportFault;
use program_io::why::{Why, of_folder, of_origin};
use program_io::{Env, RunFiles, RunFolders, Task, check_origin, report_end, report_puts};
use program_words::commands::build::Build;
use signed_note::{Verifier, read_keys};
use std::alloc::Global;
use std::io::{Read, Write};
use tlog_hash::Sha256Tree;

/// Makes a log from the entries on the input, and writes it to the folder. The first shared secret among the lines of the key
/// file signs the checkpoint.
///
/// # Errors
///
/// In this order: `NoSigningKey`, `BadOrigin`, those of `read_entries`, and those of the folder.
pub fn run<R, F: RunFiles, D: RunFolders, P, I: Read, O: Write, E: Write>(
    env: &mut Env<'_, '_, '_, '_, R, F, D, P, I, O, E>,
    key_bytes: &[u8],
    keys: &[Box<dyn Verifier>],
    build: &Build<'_>,
) -> Result<u8, Error>
    ensures same { IsSameEnv env.old env.new }
    ensures does { Performs (DoesBuild key_bytes.now) IsLate KeepsFiles sha256
        (map (λ k. key k) keys.now)
        (moment F.puts D.held D.puts I.remaining O.contents env.old)
        (moment F.puts D.held D.puts I.remaining O.contents env.new) build.now result }
{
    match build_into(
        &mut env.folders,
        env.alloc,
        build,
        key_bytes,
        keys,
        env.input,
    ) {
        Ok(()) => Ok(0),
        Err(error) => Err(error),
    }
}

// Makes the log from the entries of this input, and writes it to the folder.
fn build_into<D: RunFolders, I: Read>(
    folders: &mut D,
    alloc: Global,
    build: &Build<'_>,
    key_bytes: &[u8],
    keys: &[Box<dyn Verifier>],
    input: &mut I,
) -> Result<(), Error>
    ensures { BuildsFrom sha256 build.now.log.origin.now
        (map (λ k. key k) keys.now) key_bytes.now
        (D.held folders.old build.now.folder.now) (D.puts folders.old) (D.puts folders.new)
        (I.remaining input.old) result }
{
    // The lines of keys were read before, so only memory can be lacking.
    let Ok(lines) = read_keys(alloc, key_bytes) else {
        return Err(Error::new(StateRunFault::OutOfMemory, None));
    };
    let Some(key) = signing_key(lines) else {
        let why = Why::of_thing(alloc, build.log.keys);
        return Err(Error::new(StateRunFault::NoSigningKey, why));
    };
    let origin = build.log.origin;
    match check_origin(alloc, origin) {
        Ok(()) => {}
        Err(fault) => return Err(Error::new(StateRunFault::Origin(fault), of_origin(alloc, fault))),
    }
    let entries = match read_entries(alloc, input) {
        Ok(entries) => entries,
        Err(fault) => return Err(Error::new(StateRunFault::Entries(fault), of_input(fault))),
    };
    match folders.open(build.folder) {
        Ok(()) => {}
        Err(_) => return Err(Error::new(StateRunFault::OutOfMemory, None)),
    }
    report_puts(folders, build.progress, Task::Build);
    match build_log::<Sha256Tree, D>(alloc, origin, keys, key, entries, folders) {
        Ok(()) => {
            report_end(folders, build.progress);
            Ok(())
        }
        Err(fault) => Err(not_built(alloc, folders, build.folder, fault)),
    }
}

// The error for a log that was not built in that folder.
fn not_built<D: RunFolders>(alloc: Global, folders: &D, folder: &str, fault: BuildFault) -> Error
    ensures { result ≡ StateRunFault.Build fault }
{
    Error::new(
        StateRunFault::Build(fault),
        why_of(alloc, folders, folder, fault),
    )
}

// The thing that a fault of the input is about.
fn of_input(fault: EntriesFault) -> Option<Why> {
    match fault {
        EntriesFault::OutOfMemory => None,
        _ => Some(Why::Input),
    }
}

// The thing that a fault of the build is about: the origin, the entries, or the folder.
fn why_of<D: RunFolders>(
    alloc: Global,
    folders: &D,
    folder: &str,
    fault: BuildFault,
) -> Option<Why> {
    match fault {
        BuildFault::BadOrigin => Why::of_thing(alloc, "--origin"),
        BuildFault::Pull(_) => Some(Why::Input),
        BuildFault::Export(ExportFault::ShelfInUse) => Why::of_thing(alloc, folder),
        BuildFault::Export(ExportFault::ShelfFault) => of_folder(alloc, folders, folder),
        _ => None,
    }
}
