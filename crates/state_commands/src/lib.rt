//! The commands of `tlogmirror` that change a state, or write files from a state or of a new log: one module for each command.
//!
//! ```text
//! state_commands::run(&mut env, &key_bytes, &keys, &command)? // 0, or 3 if the pull is partial
//! ```
#![tactic(auto)]

mod build;
mod build_fault;
mod building;
mod entries;
mod export;
mod exporting;
mod fault;
mod gained;
mod item;
mod laws;
mod merge;
mod merging;
mod note_list;
mod noted;
mod notes;
mod pull;
mod pulling;
mod putting;
mod signing;
mod take;
mod taking;
mod update;
mod work_fault;

ghost use Rattle.std.specs.Prelude.{map};
ghost use Rattle.sha2.specs.Sha256.{sha256};
ghost use Rattle.program_io.specs.Envs.{IsSameEnv, moment};
ghost use Rattle.program_io.specs.Performing.{Ends};
ghost use Rattle.state_commands.specs.Commands.{ExecutesState, IsStateDoable};
ghost use Rattle.state_commands.specs.Faults.{IsLate};

pub use fault::{Error, StateRunFault};
use program_io::{Env, RunFiles, RunFolders};
use program_words::StateCommand;
use signed_note::Verifier;
use std::fs::Files;
use std::io::{Read, Write};
use std::net::{Net, TcpStream};
use std::rt::Clock;

/// Carries out the command, and returns the exit status: 0, or 3 for no. The key file of `build` has these bytes.
///
/// # Errors
///
/// Those of the command, each with the thing that it is about. After a late one (`IsLate`) text may have been written.
pub fn run<R, F: RunFiles, D: RunFolders, P, I: Read, O: Write, E: Write>(
    env: &mut Env<'_, '_, '_, '_, R, F, D, P, I, O, E>,
    key_bytes: &[u8],
    keys: &[Box<dyn Verifier>],
    command: &StateCommand<'_>,
) -> Result<u8, Error>
where
    R: Files + Clock + Eprint + Net<Stream = TcpStream>,
    requires { IsStateDoable command.now }
    ensures same { IsSameEnv env.old env.new }
    ensures does { ExecutesState key_bytes.now sha256 (map (λ k. key k) keys.now)
        (moment F.puts D.held D.puts I.remaining O.contents env.old)
        (moment F.puts D.held D.puts I.remaining O.contents env.new) command.now result }
    ensures ends { Ends IsLate (O.contents env.old.output.now) (O.contents env.new.output.now)
        result }
{
    match command {
        StateCommand::Build(build) => build::run(env, key_bytes, keys, build),
        StateCommand::Take(take) => take::run(env, keys, take),
        StateCommand::Merge(merge) => merge::run(env, keys, merge),
        StateCommand::Pull(pull) => pull::run(env, keys, pull),
        StateCommand::Export(export) => export::run(env, keys, export),
        StateCommand::Update(export) => export::run_with_update(env, keys, export),
        StateCommand::Notes(notes) => notes::run(env, keys, notes),
    }
}

pub use build_fault::BuildFault;
pub use building::build_log;
pub use entries::{EntriesFault, read_entries};
pub use exporting::run_export;
pub use gained::{HeldCounts, has_gained, holding_of};
pub use item::ItemFiles;
pub use laws::{kept_files_law, missing_files_law, standing_notes_law};
pub use merging::run_merge;
pub use note_list::{NoteFile, note_files};
pub use noted::run_notes;
pub use signing::signing_key;
pub use taking::run_take;
pub use update::run_update;
pub use work_fault::{FolderFault, MergeFilesFault, NotesFault, TakeFilesFault};
