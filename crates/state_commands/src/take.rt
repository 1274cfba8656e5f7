//! The command `take`: it takes files into a mirror.
ghost use Rattle.std.specs.Prelude.{◌≤◌, ◌∷◌, length, map};
ghost use Rattle.sha2.specs.Sha256.{sha256};
ghost use Rattle.state_commands.specs.Takes.{NamesWidth};
ghost use Rattle.program_io.specs.Envs.{IsSameEnv, moment};
ghost use Rattle.program_io.specs.Performing.{KeepsFolders, Performs};
ghost use Rattle.state_commands.specs.Faults.{IsLate};
ghost use Rattle.state_commands.specs.Take.{AsksItem, DoesTake};

use crate::fault::{Error, StateRunFault};
use crate::{ItemFiles, TakeFilesFault, run_take};
use program_io::served::{of_edge_count, of_edge_length, of_note};
use program_io::why::{Why, of_named, of_state};
use program_io::{Env, RunFiles, RunFolders};
use program_words::commands::take::{Kind, Take};
use signed_note::Verifier;
use std::alloc::Global;
use std::io::{Read, Write};
use tlog_hash::Sha256Tree;
use tlog_mirror::TakeFault;

/// Takes the item into the mirror of the state file, or into an empty one, and writes the state.
///
/// # Errors
///
/// Those of `run_take`.
pub fn run<R, F: RunFiles, D: RunFolders, P, I: Read, O: Write, E: Write>(
    env: &mut Env<'_, '_, '_, '_, R, F, D, P, I, O, E>,
    keys: &[Box<dyn Verifier>],
    take: &Take<'_>,
) -> Result<u8, Error>
    requires least { 1 ≤ take.now.width }
    requires most { take.now.width ≤ 256 }
    requires some { 1 ≤ length take.now.files.items }
    ensures same { IsSameEnv env.old env.new }
    ensures does { Performs DoesTake IsLate KeepsFolders sha256 (map (λ k. key k) keys.now)
        (moment F.puts D.held D.puts I.remaining O.contents env.old)
        (moment F.puts D.held D.puts I.remaining O.contents env.new) take.now result }
{
    // The words name at least one file.
    let names = take.files.as_slice();
    let item = item_of(take.kind, take.width, names[0], &names[1..]);
    let origin = take.mirror.log.origin;
    let out = take.mirror.out;
    match run_take::<Sha256Tree, F>(
        &mut env.files,
        env.alloc,
        origin,
        keys,
        take.state,
        item,
        out,
    ) {
        Ok(()) => Ok(0),
        Err(fault) => {
            let why = why_of(env.alloc, &env.files, take, fault);
            Err(Error::new(StateRunFault::Take(fault), why))
        }
    }
}

// The files of the item. For a head: the note, and then the files of the rows.
fn item_of<'a>(kind: Kind, width: u32, first: &'a str, rest: &'a [&'a str]) -> ItemFiles<'a>
    requires least { 1 ≤ width }
    requires most { width ≤ 256 }
    ensures within { NamesWidth result }
    ensures item { AsksItem kind width (first.entry.now ∷ map (λ name. name.now) rest.entry.now)
        result }
{
    match kind {
        Kind::Head => ItemFiles::Head {
            note: first,
            rows: rest,
        },
        Kind::Tile => ItemFiles::Tile { width, file: first },
        Kind::Bundle => ItemFiles::Bundle { width, file: first },
    }
}

fn why_of<F: RunFiles>(
    alloc: Global,
    files: &F,
    take: &Take<'_>,
    fault: TakeFilesFault,
) -> Option<Why> {
    match fault {
        TakeFilesFault::State(fault) => of_state(alloc, files, take.state, fault),
        TakeFilesFault::Item(fault) | TakeFilesFault::Out(fault) => of_named(alloc, files, fault),
        TakeFilesFault::Take(fault) => {
            let (note, rows) = take.files.split_first()?;
            of_item(alloc, files, note, rows, fault)
        }
    }
}

// The thing that a fault of an item is about: its first file, or the row whose length is not that of its tile.
fn of_item<F: RunFiles>(
    alloc: Global,
    files: &F,
    note: &str,
    rows: &[&str],
    fault: TakeFault,
) -> Option<Why> {
    match fault {
        TakeFault::EdgeCount => of_edge_count(alloc, files, note, rows.len()),
        TakeFault::EdgeLength => of_edge_length(alloc, files, note, rows),
        _ => of_note(alloc, files, note, fault),
    }
}
