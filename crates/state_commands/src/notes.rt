//! The command `notes`: it writes each signed note to a file of a folder.
ghost use Rattle.std.specs.Prelude.{map};
ghost use Rattle.sha2.specs.Sha256.{sha256};
ghost use Rattle.program_io.specs.Envs.{IsSameEnv, moment};
ghost use Rattle.program_io.specs.Performing.{KeepsFolders, Performs};
ghost use Rattle.state_commands.specs.Faults.{IsLate};
ghost use Rattle.state_commands.specs.Notes.{DoesNotes};

use crate::fault::{Error, StateRunFault};
use crate::{NotesFault, run_notes};
use program_io::why::{Why, of_named, of_state};
use program_io::{Env, NamedFault, RunFiles, RunFolders};
use program_words::commands::notes::Notes;
use signed_note::Verifier;
use std::alloc::Global;
use std::io::{Read, Write};
use tlog_hash::Sha256Tree;

/// Writes the notes to the folder, and makes the folder if it is missing.
///
/// # Errors
///
/// Those of `run_notes`.
pub fn run<R, F: RunFiles, D: RunFolders, P, I: Read, O: Write, E: Write>(
    env: &mut Env<'_, '_, '_, '_, R, F, D, P, I, O, E>,
    keys: &[Box<dyn Verifier>],
    notes: &Notes<'_>,
) -> Result<u8, Error>
    ensures same { IsSameEnv env.old env.new }
    ensures does { Performs DoesNotes IsLate KeepsFolders sha256 (map (λ k. key k) keys.now)
        (moment F.puts D.held D.puts I.remaining O.contents env.old)
        (moment F.puts D.held D.puts I.remaining O.contents env.new) notes.now result }
{
    match run_notes::<Sha256Tree, F>(
        &mut env.files,
        env.alloc,
        notes.mirror.log.origin,
        keys,
        notes.mirror.state,
        notes.folder,
    ) {
        Ok(()) => Ok(0),
        Err(fault) => {
            let why = why_of(env.alloc, &env.files, notes, fault);
            Err(Error::new(StateRunFault::Notes(fault), why))
        }
    }
}

fn why_of<F: RunFiles>(
    alloc: Global,
    files: &F,
    notes: &Notes<'_>,
    fault: NotesFault,
) -> Option<Why> {
    match fault {
        NotesFault::State(fault) => of_state(alloc, files, Some(notes.mirror.state), fault),
        NotesFault::Folder(fault) | NotesFault::Flush(fault) => of_named(alloc, files, fault),
        NotesFault::Note(NamedFault::FileFault) => match of_named(
            alloc,
            files,
            NamedFault::FileFault,
        ) {
            Some(why) => Some(why),
            // The file of a note has other bytes. For every other fault the files keep the reason.
            None => Why::of_thing(alloc, notes.folder),
        },
        NotesFault::Note(NamedFault::OutOfMemory) | NotesFault::OutOfMemory => None,
    }
}
