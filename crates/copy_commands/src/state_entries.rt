//! The command `entries --state`: it writes entries that a mirror serves.
ghost use Rattle.std.specs.Prelude.{◌≡◌, map};
ghost use Rattle.std.specs.Result.{result_map_both};
ghost use Rattle.sha2.specs.Sha256.{sha256};
ghost use Rattle.program_io.specs.Envs.{IsSameEnv, moment};
ghost use Rattle.program_io.specs.Performing.{Performs, Stays};
ghost use Rattle.copy_commands.specs.StateEntries.{DoesEntries};
ghost use Rattle.copy_commands.specs.Faults.{IsLate};

use crate::fault::{ReportError, ReportRunFault};
use crate::state_ask::served_size;
use program_copies::{StateEntriesFault, entries_of_state};
use program_io::served::{of_backwards, of_size};
use program_io::why::{Why, of_state};
use program_io::{Env, RunFiles, RunFolders, open_state};
use program_words::commands::entries::{Entries, EntryRange};
use signed_note::Verifier;
use std::alloc::Global;
use std::io::{Read, Write};
use tlog_hash::{Sha256Tree, TreeHash};
use tlog_mirror::Mirror;

/// Writes entries of the mirror in the state file, one entry bundle after another.
///
/// # Errors
///
/// In this order: those of `open_state`, and those of `entries_of_state`.
pub fn run<R, F: RunFiles, D: RunFolders, P, I: Read, O: Write, E: Write>(
    env: &mut Env<'_, '_, '_, '_, R, F, D, P, I, O, E>,
    keys: &[Box<dyn Verifier>],
    entries: &Entries<'_>,
) -> Result<u8, ReportError>
    ensures same { IsSameEnv env.old env.new }
    ensures does { Performs DoesEntries IsLate Stays sha256 (map (λ k. key k) keys.now)
        (moment F.puts D.held D.puts I.remaining O.contents env.old)
        (moment F.puts D.held D.puts I.remaining O.contents env.new) entries.now result }
{
    let mirror = &entries.mirror;
    match open_state::<Sha256Tree, F>(
        &env.files,
        env.alloc,
        mirror.log.origin,
        keys,
        mirror.state,
    ) {
        Ok(mut opened) => {
            let range = &entries.range;
            let answer = entries_of_state::<Sha256Tree, O>(
                env.alloc,
                &mut opened,
                range,
                env.output,
            );
            let why = why_of(env.alloc, mirror.state, &opened, range, &answer);
            drop(opened);
            written(answer, why)
        }
        Err(fault) => {
            let why = of_state(env.alloc, &env.files, Some(mirror.state), fault);
            Err(ReportError::new(ReportRunFault::State(fault), why))
        }
    }
}

// The answer of the command from the answer of the writer.
fn written(answer: Result<(), StateEntriesFault>, why: Option<Why>) -> Result<u8, ReportError>
    ensures { result ≡ result_map_both (λ _. 0) (λ fault. ReportRunFault.StateEntries fault)
        answer }
{
    match answer {
        Ok(()) => Ok(0),
        Err(fault) => Err(ReportError::new(ReportRunFault::StateEntries(fault), why)),
    }
}

// The thing that a fault of these entries is about, in the mirror of that state file.
fn why_of<H: TreeHash>(
    alloc: Global,
    state: &str,
    mirror: &Mirror<H>,
    range: &EntryRange,
    answer: &Result<(), StateEntriesFault>,
) -> Option<Why> {
    match answer {
        Err(StateEntriesFault::NothingComplete) => Why::of_thing(alloc, state),
        Err(StateEntriesFault::NoSuchSize) => {
            of_size(alloc, state, range.to, served_size(mirror))
        }
        Err(StateEntriesFault::Backwards) => of_backwards(alloc, state, range.from, range.to),
        Err(StateEntriesFault::WriteFault) => Some(Why::Output),
        _ => None,
    }
}
