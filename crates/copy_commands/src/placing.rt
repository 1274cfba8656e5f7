//! Carries out a command over places.
ghost use Rattle.std.specs.Prelude.{map};
ghost use Rattle.sha2.specs.Sha256.{sha256};
ghost use Rattle.program_io.specs.Envs.{IsSameEnv, moment, world};
ghost use Rattle.program_io.specs.Performing.{Ends};
ghost use Rattle.copy_commands.specs.PlaceCommands.{ExecutesPlace};
ghost use Rattle.copy_commands.specs.PlaceFaults.{IsLate};

use crate::place_fault::PlaceError;
use program_io::{Env, RunFiles, RunFolders, RunPlaces};
use program_words::PlaceCommand;
use signed_note::Verifier;
use std::fs::{File, Files};
use std::io::{Read, Write};
use std::rt::Clock;

/// Carries out the command, and returns the exit status: 0, or 3 for no.
///
/// # Errors
///
/// Those of the command, each with the thing that it is about. After a late one (`IsLate`) text may have been written.
pub fn run_place<R, F: RunFiles, D: RunFolders, P: RunPlaces, I: Read, O: Write, E: Write>(
    env: &mut Env<'_, '_, '_, '_, R, F, D, P, I, O, E>,
    keys: &[Box<dyn Verifier>],
    command: &PlaceCommand<'_>,
) -> Result<u8, PlaceError>
where
    R: Files<File = File> + Clock + Eprint,
    ensures same { IsSameEnv env.old env.new }
    ensures does { ExecutesPlace
        (world P.at P.Place.may_answer P.Place.asked P.Place.failed env.old) sha256
        (map (λ k. key k) keys.now)
        (moment F.puts D.held D.puts I.remaining O.contents env.old)
        (moment F.puts D.held D.puts I.remaining O.contents env.new) command.now result }
    ensures ends { Ends IsLate (O.contents env.old.output.now) (O.contents env.new.output.now)
        result }
{
    match command {
        PlaceCommand::Follow(follow) => crate::follow::run(env, keys, follow),
        PlaceCommand::Audit(audit) => crate::audit::run(env, keys, audit),
    }
}
