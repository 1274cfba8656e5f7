//! Files: a mirror is saved, loaded again, and put onto a shelf.
use crate::clock::{now, report_since};
use crate::list::ORIGIN;
use mirror_files::{ExportFault, LoadFault, export, load_bytes, save};
use mirror_folders::MemShelf;
use signed_note::Verifier;
use std::alloc::Global;
use std::time::CpuClock;
use tlog_hash::TreeHash;
use tlog_mirror::Mirror;

/// Saves a settled mirror to memory and loads it again, and exports it onto a shelf in memory.
pub(crate) fn measure_files<H: TreeHash, R: AllocGlobal + CpuClock + Print + Eprint>(
    rt: &R,
    mirror: &Mirror<H>,
    keys: &[Box<dyn Verifier>],
    hashing: u128,
) -> anyhow::Result<()> {
    let start = now(rt);
    let mut text = Vec::new(rt.alloc());
    save(rt.alloc(), mirror, &mut text)?;
    report_since(rt, "  saving, ns", start, hashing);
    let start = now(rt);
    let strings = load_count::<H>(rt.alloc(), keys, text.as_slice())?;
    report_since(rt, "  loading, ns", start, hashing);
    let bytes = text.len();
    drop(text);
    let start = now(rt);
    let files = export_count(rt.alloc(), mirror)?;
    report_since(rt, "  an export, ns", start, hashing);
    println!(rt; "{bytes} bytes saved\n{strings} strings loaded\n{files} files exported")?;
    Ok(())
}

// Loads a mirror from a state text, and returns the number of strings that it holds.
fn load_count<H: TreeHash>(
    alloc: Global,
    keys: &[Box<dyn Verifier>],
    text: &[u8],
) -> Result<usize, LoadFault> {
    let mirror = load_bytes::<H>(alloc, ORIGIN, keys, text)?;
    let strings = mirror.strings().len();
    drop(mirror);
    Ok(strings)
}

// Exports the mirror onto a shelf in memory, and returns the number of files.
fn export_count<H: TreeHash>(alloc: Global, mirror: &Mirror<H>) -> Result<usize, ExportFault> {
    let mut shelf = MemShelf::new(alloc);
    let answer = export(alloc, mirror, &mut shelf);
    let files = shelf.puts().len();
    drop(shelf);
    answer?;
    Ok(files)
}
