//! The evidence of forks, as files.
ghost use Rattle.std.specs.Prelude.{◌≡◌, ◌≢◌, ◌↔◌, ◌∷◌, [], ℕ, IfOk, IsTrue, List, None, Option, false, map, option_map, string_bytes};
ghost use Rattle.std.specs.List.{flat_map};
ghost use Rattle.signed_note.specs.Keys.{Key};
ghost use Rattle.mirror_model.specs.Forks.{Point};
ghost use Rattle.mirror_model.specs.Heads.{IsOpenHead};
ghost use Rattle.program_copies.specs.Evidence.{LooksFor, PutsFiles, Serves, evidence_of, fork_files, is_writable_fork, note_as, note_file, note_place, proof_file, proof_files, proof_place, wanted_file};

use copy_places::{Candidate, ForkLine};
use log_reader::open_head;
use mirror_model::TakeFault;
use program_io::{NamedFault, NamedFiles};
use signed_note::Verifier;
use std::alloc::{AllocError, Global};
use tlog_checkpoint::Checkpoint;
use tlog_proof::{Proof, write_text};
use tlog_shape::MAX_SIZE;

// The maximum number of hashes in a proof that is written.
const MOST_HASHES: usize = 64;

// The path of a checkpoint's note in a folder.
fn place_of_note(alloc: Global, folder: &str, note: &Candidate) -> Result<String, AllocError>
    ensures { IfOk result (λ place. string_bytes place
        ≡ note_place folder.now note.now.size.0 note.now.root) }
{
    let size = note.size.0;
    let root = hex::encode(alloc, note.root.as_slice())?;
    format!(in alloc; "{folder}/{size}-{root}-0.note")
}

// The path of a fork's proof in a folder.
fn place_of_proof(alloc: Global, folder: &str, line: &ForkLine) -> Result<String, AllocError>
    ensures { IfOk result (λ place. string_bytes place ≡ proof_place folder.now line.now) }
{
    let small = line.small.size.0;
    let large = line.large.size.0;
    let small_root = hex::encode(alloc, line.small.root.as_slice())?;
    let large_root = hex::encode(alloc, line.large.root.as_slice())?;
    format!(in alloc; "{folder}/{small}-{small_root}-{large}-{large_root}.proof")
}

// Whether a proof can be written: a text can have its sizes and its path. This holds for each accepted consistency proof.
fn is_writable(proof: &Proof) -> bool
    ensures { result ≡ is_writable_fork proof.now }
{
    match proof {
        Proof::Inclusion { .. } => false,
        Proof::Consistency {
            first,
            second,
            path,
            ..
        } => *first <= MAX_SIZE && *second <= MAX_SIZE && path.as_slice().len() <= MOST_HASHES,
    }
}

fn is_same(there: &[u8], bytes: &[u8]) -> bool
    ensures { IsTrue result ↔ (there.now ≡ bytes.now) }
{
    there == bytes
}

// Whether a checkpoint has the size and root of a candidate.
fn is_at(checkpoint: &Checkpoint, note: &Candidate) -> bool
    ensures { IsTrue result ↔ ((checkpoint.now.size ≡ note.now.size.0)
        × (checkpoint.now.root ≡ note.now.root)) }
{
    checkpoint.size == note.size.0 && checkpoint.root == note.root
}

// The note does not open, unless memory was refused.
fn refused(fault: TakeFault) -> Result<bool, AllocError>
    ensures { IfOk result (λ opens. (opens ≡ false) × (fault ≢ TakeFault.OutOfMemory)) }
{
    match fault {
        TakeFault::OutOfMemory => Err(AllocError),
        _ => Ok(false),
    }
}

// Whether bytes are a note that opens under the keys, with the size and root of a candidate.
fn opens_as(
    alloc: Global,
    origin: &str,
    keys: &[Box<dyn Verifier>],
    note: &Candidate,
    there: &[u8],
) -> Result<bool, AllocError>
    ensures { IfOk result (λ opens. IsTrue opens ↔ IsOpenHead there.now origin.now
        (map (λ k. key k) keys.now) note.now.size.0 note.now.root) }
{
    match open_head(alloc, origin, keys, there) {
        Ok(checkpoint) => {
            let is_there = is_at(&checkpoint, note);
            drop(checkpoint);
            Ok(is_there)
        }
        Err(fault) => refused(fault),
    }
}

// Whether bytes serve as the note of a candidate: they are that note, or one that opens with its size and root.
fn serves(
    alloc: Global,
    origin: &str,
    keys: &[Box<dyn Verifier>],
    note: &Candidate,
    there: &[u8],
) -> Result<bool, AllocError>
    ensures { (name : List ℕ) → IfOk result (λ serves. IsTrue serves ↔ Serves origin.now
        (map (λ k. key k) keys.now) (note_as name note.now) there.now) }
{
    if is_same(there, &note.note) {
        return Ok(true);
    }
    opens_as(alloc, origin, keys, note, there)
}

// Whether a file that serves as the note stands at the place.
fn finds_note<F: NamedFiles>(
    files: &F,
    alloc: Global,
    origin: &str,
    keys: &[Box<dyn Verifier>],
    place: &str,
    note: &Candidate,
) -> Result<bool, NamedFault>
    ensures { LooksFor origin.now (map (λ k. key k) keys.now) (F.puts files.now)
        (note_as place.now note.now) result }
{
    match files.find(place) {
        Ok(Some(there)) => match serves(alloc, origin, keys, note, &there) {
            Ok(serves) => Ok(serves),
            Err(_) => Err(NamedFault::OutOfMemory),
        },
        Ok(None) => Ok(false),
        Err(fault) => Err(fault),
    }
}

// Whether a file with these bytes stands at the place.
fn finds_bytes<F: NamedFiles>(files: &F, place: &str, bytes: &[u8]) -> Result<bool, NamedFault>
    ensures { (origin : List ℕ) (keys : List Key) → LooksFor origin keys (F.puts files.now)
        (wanted_file place.now bytes.now None) result }
{
    match files.find(place) {
        Ok(Some(there)) => Ok(is_same(&there, bytes)),
        Ok(None) => Ok(false),
        Err(fault) => Err(fault),
    }
}

// Puts a file, unless one that serves stands at its place. That one is flushed to the device, as it may be of a run that was killed.
fn put_unless<F: NamedFiles>(
    files: &mut F,
    place: &str,
    bytes: &[u8],
    serves: Result<bool, NamedFault>,
) -> Result<(), NamedFault>
    ensures { (origin : List ℕ) (keys : List Key) (point : Option Point) → LooksFor origin keys
        (F.puts files.old) (wanted_file place.now bytes.now point) serves → PutsFiles origin keys
        (wanted_file place.now bytes.now point ∷ []) (F.puts files.old) (F.puts files.new)
        result }
{
    match serves {
        Ok(true) => files.flush_file(place),
        Ok(false) => files.replace(place, bytes),
        Err(fault) => Err(fault),
    }
}

// Puts the note of a checkpoint at the place.
fn put_note_at<F: NamedFiles>(
    files: &mut F,
    alloc: Global,
    origin: &str,
    keys: &[Box<dyn Verifier>],
    place: &str,
    note: &Candidate,
) -> Result<(), NamedFault>
    ensures { PutsFiles origin.now (map (λ k. key k) keys.now) (note_as place.now note.now ∷ [])
        (F.puts files.old) (F.puts files.new) result }
{
    let serves = finds_note(files, alloc, origin, keys, place, note);
    put_unless(files, place, &note.note, serves)
}

// Puts the note of a checkpoint into the folder.
fn put_note<F: NamedFiles>(
    files: &mut F,
    alloc: Global,
    origin: &str,
    keys: &[Box<dyn Verifier>],
    folder: &str,
    note: &Candidate,
) -> Result<(), NamedFault>
    ensures { PutsFiles origin.now (map (λ k. key k) keys.now) (note_file folder.now note.now ∷ [])
        (F.puts files.old) (F.puts files.new) result }
{
    let Ok(place) = place_of_note(alloc, folder, note) else {
        return Err(NamedFault::OutOfMemory);
    };
    put_note_at(files, alloc, origin, keys, &place, note)
}

// Puts these bytes at the place.
fn put_bytes<F: NamedFiles>(files: &mut F, place: &str, bytes: &[u8]) -> Result<(), NamedFault>
    ensures { (origin : List ℕ) (keys : List Key) → PutsFiles origin keys
        (wanted_file place.now bytes.now None ∷ []) (F.puts files.old) (F.puts files.new) result }
{
    let serves = finds_bytes(files, place, bytes);
    put_unless(files, place, bytes, serves)
}

// Puts the text of a proof into the folder.
fn put_text<F: NamedFiles>(
    files: &mut F,
    alloc: Global,
    folder: &str,
    line: &ForkLine,
    proof: &Proof,
) -> Result<(), NamedFault>
    ensures { (origin : List ℕ) (keys : List Key) → PutsFiles origin keys
        (proof_file folder.now line.now proof.now) (F.puts files.old) (F.puts files.new) result }
{
    if !is_writable(proof) {
        return Ok(());
    }
    let Ok(place) = place_of_proof(alloc, folder, line) else {
        return Err(NamedFault::OutOfMemory);
    };
    let Ok(text) = write_text(alloc, proof) else {
        return Err(NamedFault::OutOfMemory);
    };
    put_bytes(files, &place, text.as_bytes())
}

// Puts the proof of a fork into the folder, if the fork has one.
fn put_proof<F: NamedFiles>(
    files: &mut F,
    alloc: Global,
    folder: &str,
    line: &ForkLine,
) -> Result<(), NamedFault>
    ensures { (origin : List ℕ) (keys : List Key) → PutsFiles origin keys
        (proof_files folder.now line.now line.now.proof) (F.puts files.old) (F.puts files.new)
        result }
{
    match &line.proof {
        Some(proof) => put_text(files, alloc, folder, line, proof),
        None => Ok(()),
    }
}

// Puts the evidence of a fork into the folder: both notes and the proof.
fn put_fork<F: NamedFiles>(
    files: &mut F,
    alloc: Global,
    origin: &str,
    keys: &[Box<dyn Verifier>],
    folder: &str,
    line: &ForkLine,
) -> Result<(), NamedFault>
    ensures { PutsFiles origin.now (map (λ k. key k) keys.now) (fork_files folder.now line.now)
        (F.puts files.old) (F.puts files.new) result }
{
    put_note(files, alloc, origin, keys, folder, &line.small)?;
    put_note(files, alloc, origin, keys, folder, &line.large)?;
    put_proof(files, alloc, folder, line)
}

// Puts the evidence of each fork into the folder.
fn put_forks<F: NamedFiles>(
    files: &mut F,
    alloc: Global,
    origin: &str,
    keys: &[Box<dyn Verifier>],
    folder: &str,
    lines: &[ForkLine],
) -> Result<(), NamedFault>
    ensures { PutsFiles origin.now (map (λ k. key k) keys.now)
        (flat_map (fork_files folder.now) lines.now) (F.puts files.old) (F.puts files.new)
        result }
{
    for line in lines {
        put_fork(files, alloc, origin, keys, folder, line)?;
    }
    Ok(())
}

// Makes the folder, and puts the evidence of each fork into it. Then it flushes the folder, and those above it.
fn put_into<F: NamedFiles>(
    files: &mut F,
    alloc: Global,
    origin: &str,
    keys: &[Box<dyn Verifier>],
    folder: &str,
    lines: &[ForkLine],
) -> Result<(), NamedFault>
    ensures { PutsFiles origin.now (map (λ k. key k) keys.now)
        (flat_map (fork_files folder.now) lines.now) (F.puts files.old) (F.puts files.new)
        result }
{
    match files.make_folder(folder) {
        Ok(()) => {}
        Err(fault) => return Err(fault),
    }
    match put_forks(files, alloc, origin, keys, folder, lines) {
        Ok(()) => files.flush(folder),
        Err(fault) => {
            // The files that were put stay. The fault of the put is more important than one of this flush.
            let _flushed = files.flush(folder);
            Err(fault)
        }
    }
}

/// Writes the evidence of forks into a folder. The folder is made if it is missing. For each fork it puts both notes as `SIZE-ROOT-0.note`,
/// and a proof, if there is one, as `SMALL-ROOT-LARGE-ROOT.proof`. The roots are 64 hexadecimal digits in lower case. What stands there stays
/// if it is the proof, the note, or another note that opens under the keys with that size and root; else it is replaced. Each file is flushed
/// to the device, then the folder. Without forks, or without a folder, nothing is changed.
///
/// # Errors
///
/// `FileFault`: the folder could not be made, a file could not be written, a file's name belongs to something else than a plain file or to
/// a file of over 16,777,472 bytes, or one could not be flushed. `OutOfMemory`: memory was refused. Files that were put before stay.
pub(crate) fn write_evidence<F: NamedFiles>(
    files: &mut F,
    alloc: Global,
    origin: &str,
    keys: &[Box<dyn Verifier>],
    folder: Option<&str>,
    lines: &[ForkLine],
) -> Result<(), NamedFault>
    ensures { PutsFiles origin.now (map (λ k. key k) keys.now)
        (evidence_of (option_map (λ name. name.now) folder.entry) lines.now)
        (F.puts files.old) (F.puts files.new) result }
{
    let Some(folder) = folder else {
        return Ok(());
    };
    if lines.is_empty() {
        return Ok(());
    }
    put_into(files, alloc, origin, keys, folder, lines)
}
