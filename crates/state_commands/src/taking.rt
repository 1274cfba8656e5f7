//! The command `take`: it takes files into a mirror.
ghost use Rattle.std.specs.Prelude.{◌≤◌, List, map, option_map};
ghost use Rattle.signed_note.specs.Keys.{Key};
ghost use Rattle.tlog_text.specs.Answers.{seen};
ghost use Rattle.state_commands.specs.Takes.{NamesWidth, LeavesTaken, MakesTaken, TakesHeld};
ghost use Rattle.state_commands.specs.declared.item.ItemFiles.TheVariants.{Bundle, Head, Tile};

use crate::item::ItemFiles;
use crate::work_fault::TakeFilesFault;
use program_io::{NamedFiles, open_or_new, read_files, write_state};
use signed_note::Verifier;
use std::alloc::Global;
use tlog_hash::TreeHash;
use tlog_mirror::Mirror;

/// Takes an item from files into the mirror of the state file, or into an empty one if no state file is named. It writes the
/// state to the file `out`.
///
/// ```text
/// let item = ItemFiles::Bundle { width: 3, file: "log/tile/entries/000.p/3" };
/// run_take::<Sha256Tree, _>(&mut files, alloc, "example.com/log", &keys, None, item, "log.state")?;
/// ```
///
/// # Errors
///
/// In this order: `State`, those of `open_or_new`; `Item` if a file of the item is not read; `Take`, as for the mirror's own
/// calls; `Out` if the state is not written. After a fault all files are unchanged.
pub fn run_take<H: TreeHash, F: NamedFiles>(
    files: &mut F,
    alloc: Global,
    origin: &str,
    keys: &[Box<dyn Verifier>],
    state: Option<&str>,
    item: ItemFiles<'_>,
    out: &str,
) -> Result<(), TakeFilesFault>
    requires { NamesWidth item }
    ensures { LeavesTaken H.digest origin.now (map (λ k. key k) keys.now) (F.puts files.old)
        (option_map (λ name. name.now) state.entry) item.entry out.now (F.puts files.new) result }
{
    let mirror = mirror_with_item::<H, F>(files, alloc, origin, keys, state, item)?;
    let written = write_state(files, alloc, out, &mirror);
    drop(mirror);
    match written {
        Ok(()) => Ok(()),
        Err(fault) => Err(TakeFilesFault::Out(fault)),
    }
}

// The first mirror, after it took the item in the files.
fn mirror_with_item<H: TreeHash, F: NamedFiles>(
    files: &F,
    alloc: Global,
    origin: &str,
    keys: &[Box<dyn Verifier>],
    state: Option<&str>,
    item: ItemFiles<'_>,
) -> Result<Mirror<H>, TakeFilesFault>
    requires { NamesWidth item }
    ensures { MakesTaken H.digest origin.now (map (λ k. key k) keys.now) (F.puts files.now)
        (option_map (λ name. name.now) state.entry) item.entry
        (seen (λ mirror. mirror.view) result) }
{
    let mut mirror = match open_or_new::<H, F>(files, alloc, origin, keys, state) {
        Ok(mirror) => mirror,
        Err(fault) => return Err(TakeFilesFault::State(fault)),
    };
    match take_item(files, alloc, &mut mirror, keys, item) {
        Ok(()) => Ok(mirror),
        Err(fault) => {
            drop(mirror);
            Err(fault)
        }
    }
}

// Takes the item in the files.
fn take_item<H: TreeHash, F: NamedFiles>(
    files: &F,
    alloc: Global,
    mirror: &mut Mirror<H>,
    keys: &[Box<dyn Verifier>],
    item: ItemFiles<'_>,
) -> Result<(), TakeFilesFault>
    requires { NamesWidth item }
    ensures { TakesHeld H.digest (map (λ k. key k) keys.now) (F.puts files.now) mirror.old.view
        item.entry mirror.new.view result }
{
    match item {
        ItemFiles::Head { note, rows } => take_head(files, alloc, mirror, keys, note, rows),
        ItemFiles::Tile { width, file } => take_tile(files, alloc, mirror, width, file),
        ItemFiles::Bundle { width, file } => take_bundle(files, alloc, mirror, width, file),
    }
}

// Takes a checkpoint: the file of its note, and the files of its right edge's rows.
fn take_head<H: TreeHash, F: NamedFiles>(
    files: &F,
    alloc: Global,
    mirror: &mut Mirror<H>,
    keys: &[Box<dyn Verifier>],
    note: &str,
    rows: &[&str],
) -> Result<(), TakeFilesFault>
    ensures { TakesHeld H.digest (map (λ k. key k) keys.now) (F.puts files.now) mirror.old.view
        (Head note.entry rows.entry) mirror.new.view result }
{
    let bytes = match files.read(note) {
        Ok(bytes) => bytes,
        Err(fault) => return Err(TakeFilesFault::Item(fault)),
    };
    let edge = match read_files(files, alloc, rows) {
        Ok(edge) => edge,
        Err(fault) => return Err(TakeFilesFault::Item(fault)),
    };
    match mirror.take_head_rows(alloc, keys, &bytes, &edge) {
        Ok(()) => Ok(()),
        Err(fault) => Err(TakeFilesFault::Take(fault)),
    }
}

// Takes a tile. It needs no keys, so the contract holds for all keys.
fn take_tile<H: TreeHash, F: NamedFiles>(
    files: &F,
    alloc: Global,
    mirror: &mut Mirror<H>,
    width: u32,
    file: &str,
) -> Result<(), TakeFilesFault>
    requires least { 1 ≤ width }
    requires most { width ≤ 256 }
    ensures { (keys : List Key) → TakesHeld H.digest keys (F.puts files.now) mirror.old.view
        (Tile width file.entry) mirror.new.view result }
{
    let bytes = match files.read(file) {
        Ok(bytes) => bytes,
        Err(fault) => return Err(TakeFilesFault::Item(fault)),
    };
    match mirror.take_tile(alloc, width, &bytes) {
        Ok(()) => Ok(()),
        Err(fault) => Err(TakeFilesFault::Take(fault)),
    }
}

// Takes an entry bundle. It needs no keys, so the contract holds for all keys.
fn take_bundle<H: TreeHash, F: NamedFiles>(
    files: &F,
    alloc: Global,
    mirror: &mut Mirror<H>,
    width: u32,
    file: &str,
) -> Result<(), TakeFilesFault>
    requires least { 1 ≤ width }
    requires most { width ≤ 256 }
    ensures { (keys : List Key) → TakesHeld H.digest keys (F.puts files.now) mirror.old.view
        (Bundle width file.entry) mirror.new.view result }
{
    let bytes = match files.read(file) {
        Ok(bytes) => bytes,
        Err(fault) => return Err(TakeFilesFault::Item(fault)),
    };
    match mirror.take_bundle(alloc, width, &bytes) {
        Ok(()) => Ok(()),
        Err(fault) => Err(TakeFilesFault::Take(fault)),
    }
}
