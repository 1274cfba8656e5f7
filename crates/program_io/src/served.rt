//! The lines of `--why` about things that are asked for but not served, and about a note with another origin.
use crate::failing::RunFiles;
use crate::why::{Why, of_named};
use crate::{HeadFilesFault, checkpoint_origin, checkpoint_size};
use mirror_model::TakeFault;
use std::alloc::Global;
use tlog_proof::{Ask, ProofFault};
use tlog_tiles::{Path, edge_paths};

/// Says that the requested size is larger than the served one, and names both.
pub fn of_size(alloc: Global, thing: &str, size: u64, served: u64) -> Option<Why> {
    match format!(in alloc; "size {size} is asked for, {served} is served") {
        Ok(reason) => Why::of_reason(alloc, thing, &reason),
        Err(_) => None,
    }
}

/// Says that the range of entries ends before it begins, and names both numbers.
pub fn of_backwards(alloc: Global, thing: &str, from: u64, to: u64) -> Option<Why> {
    match format!(in alloc; "entries from {from} to {to} are asked for") {
        Ok(reason) => Why::of_reason(alloc, thing, &reason),
        Err(_) => None,
    }
}

/// Says that the mirror of the state file `thing` does not hold a checkpoint of that size.
pub fn of_unheld(alloc: Global, thing: &str, size: u64) -> Option<Why> {
    match format!(in alloc; "no checkpoint of size {size} and that root is held") {
        Ok(reason) => Why::of_reason(alloc, thing, &reason),
        Err(_) => None,
    }
}

/// Says which number of a proof request is wrong. For some faults the name of the fault already says it.
pub fn of_proof(
    alloc: Global,
    thing: &str,
    ask: Ask,
    fault: ProofFault,
    served: u64,
) -> Option<Why> {
    let (size, index) = match ask {
        Ask::Inclusion { size, index } => (size, index),
        Ask::Consistency { second, .. } => (second, 0),
    };
    match fault {
        ProofFault::NoSuchSize => of_size(alloc, thing, size, served),
        ProofFault::NoSuchIndex => {
            match format!(in alloc; "index {index} is asked for, of size {size}") {
                Ok(reason) => Why::of_reason(alloc, thing, &reason),
                Err(_) => None,
            }
        }
        _ => Why::of_thing(alloc, thing),
    }
}

/// The size of the copy in the folder by its checkpoint, or 0 if that cannot be read.
pub fn copy_size<F: RunFiles>(alloc: Global, files: &F, folder: &str) -> u64 {
    let Ok(name) = format!(in alloc; "{folder}/checkpoint") else {
        return 0;
    };
    match files.read(&name) {
        Ok(note) => checkpoint_size(alloc, &note).unwrap_or(0),
        Err(_) => 0,
    }
}

/// Names the file of a refused note. If the note has another origin, the reason says which.
pub fn of_note<F: RunFiles>(alloc: Global, files: &F, name: &str, fault: TakeFault) -> Option<Why> {
    match fault {
        TakeFault::OutOfMemory => None,
        TakeFault::OtherOrigin => match files.read(name) {
            Ok(note) => of_origin_in(alloc, name, &note),
            Err(_) => Why::of_thing(alloc, name),
        },
        _ => Why::of_thing(alloc, name),
    }
}

/// Names the file of a checkpoint that was not read, or the one whose note is refused. For a refused note `read_heads` gave the
/// reason to the files.
pub fn of_heads<F: RunFiles>(alloc: Global, files: &F, fault: HeadFilesFault) -> Option<Why> {
    match fault {
        HeadFilesFault::File(fault) => of_named(alloc, files, fault),
        HeadFilesFault::Head(TakeFault::OutOfMemory) => None,
        HeadFilesFault::Head(_) => Why::of_failed(alloc, "", files.last_failed()?),
    }
}

/// Names a note, and says its origin.
pub fn of_origin_in(alloc: Global, name: &str, note: &[u8]) -> Option<Why> {
    let origin = checkpoint_origin(alloc, note)?;
    match format!(in alloc; "its origin is {origin}") {
        Ok(reason) => Why::of_reason(alloc, name, &reason),
        Err(_) => None,
    }
}

// The size of the checkpoint in a file, and the partial tiles of its right edge.
fn edge_of<F: RunFiles>(alloc: Global, files: &F, note: &str) -> Option<(u64, Vec<Path>)> {
    let Ok(bytes) = files.read(note) else {
        return None;
    };
    let size = checkpoint_size(alloc, &bytes)?;
    match edge_paths(alloc, size) {
        Ok(paths) => Some((size, paths)),
        Err(_) => None,
    }
}

/// Says how many rows the checkpoint in a file needs, and how many were given.
pub fn of_edge_count<F: RunFiles>(
    alloc: Global,
    files: &F,
    note: &str,
    given: usize,
) -> Option<Why> {
    let (size, paths) = edge_of(alloc, files, note)?;
    let due = paths.len();
    match format!(in alloc; "size {size} has {due} partial tiles, {given} rows are given") {
        Ok(reason) => Why::of_reason(alloc, note, &reason),
        Err(_) => None,
    }
}

/// Names the first row whose length is not that of its partial tile, and this tile.
pub fn of_edge_length<F: RunFiles>(
    alloc: Global,
    files: &F,
    note: &str,
    rows: &[&str],
) -> Option<Why> {
    let (_, paths) = edge_of(alloc, files, note)?;
    for (path, row) in paths.iter().zip(rows) {
        if !has_width(files, row, *path) {
            return match format!(in alloc; "it is not as long as {path}") {
                Ok(reason) => Why::of_reason(alloc, row, &reason),
                Err(_) => None,
            };
        }
    }
    None
}

// Whether the number of hashes in a file is the width of the tile. True if the file cannot be read.
fn has_width<F: RunFiles>(files: &F, name: &str, path: Path) -> bool {
    match (files.read(name), path) {
        (Ok(bytes), Path::Tile { width, .. }) => bytes.len() == width as usize * 32,
        _ => true,
    }
}
