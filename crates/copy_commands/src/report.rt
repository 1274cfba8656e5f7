//! Carries out a command over a state, a bundle or a proof.
ghost use Rattle.std.specs.Prelude.{map};
ghost use Rattle.sha2.specs.Sha256.{sha256};
ghost use Rattle.program_io.specs.Envs.{IsSameEnv, moment};
ghost use Rattle.program_io.specs.Performing.{Ends};
ghost use Rattle.copy_commands.specs.StateCommands.{ExecutesReport, IsReportDoable};
ghost use Rattle.copy_commands.specs.Faults.{IsLate};

use crate::fault::ReportError;
use crate::state_ask::run_ask;
use crate::state_compare::run_compare;
use program_io::{Env, RunFiles, RunFolders};
use program_reports::Question;
use program_words::ReportCommand;
use signed_note::Verifier;
use std::io::{Read, Write};
use std::net::{Net, TcpListener, TcpStream};
use std::rt::Clock;

/// Carries out the command, and returns the exit status: 0, or 3 for no.
///
/// # Errors
///
/// Those of the command, each with the thing that it is about. After a late one (`IsLate`) text may have been written.
pub fn run_report<R, F: RunFiles, D: RunFolders, P, I: Read, O: Write, E: Write>(
    env: &mut Env<'_, '_, '_, '_, R, F, D, P, I, O, E>,
    keys: &[Box<dyn Verifier>],
    command: &ReportCommand<'_>,
) -> Result<u8, ReportError>
where
    R: Clock + Net<Stream = TcpStream, Listener = TcpListener>,
    requires { IsReportDoable command.now }
    ensures same { IsSameEnv env.old env.new }
    ensures does { ExecutesReport sha256 (map (λ k. key k) keys.now)
        (moment F.puts D.held D.puts I.remaining O.contents env.old)
        (moment F.puts D.held D.puts I.remaining O.contents env.new) command.now result }
    ensures ends { Ends IsLate (O.contents env.old.output.now) (O.contents env.new.output.now)
        result }
{
    let alloc = env.alloc;
    match command {
        ReportCommand::Root(root) => crate::root::run(env, keys, root),
        ReportCommand::Check => crate::check::run(env, keys),
        ReportCommand::Status(status) => {
            let question = Question::Status;
            run_ask(&env.files, alloc, status, keys, &question, env.output)
        }
        ReportCommand::Missing(missing) => {
            let question = Question::Missing {
                size: missing.size,
                root: missing.root,
            };
            run_ask(
                &env.files,
                alloc,
                &missing.mirror,
                keys,
                &question,
                env.output,
            )
        }
        ReportCommand::Forks(forks) => {
            run_ask(&env.files, alloc, forks, keys, &Question::Forks, env.output)
        }
        ReportCommand::Compare(compare) => {
            run_compare(&env.files, alloc, compare, keys, env.output)
        }
        ReportCommand::Prove(prove) => {
            let question = Question::Proof(prove.ask);
            run_ask(
                &env.files,
                alloc,
                &prove.mirror,
                keys,
                &question,
                env.output,
            )
        }
        ReportCommand::Entries(entries) => crate::state_entries::run(env, keys, entries),
        ReportCommand::Serve(serve) => crate::state_serve::run(env, keys, serve),
    }
}
