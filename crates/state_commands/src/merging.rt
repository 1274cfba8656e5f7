//! The command `merge`: it merges a second mirror into a first.
ghost use Rattle.std.specs.Prelude.{ℕ, List, map};
ghost use Rattle.tlog_text.specs.Answers.{seen};
ghost use Rattle.state_commands.specs.Merges.{LeavesMerged, MakesMerged};
ghost use Rattle.program_io.specs.States.{OpensFile};

use crate::work_fault::MergeFilesFault;
use program_io::{NamedFiles, open_state, write_state};
use signed_note::Verifier;
use std::alloc::Global;
use tlog_hash::TreeHash;
use tlog_mirror::Mirror;

/// Merges the mirror of the second state file into that of the first, and writes the state of the result to the file `out`.
///
/// ```text
/// run_merge::<Sha256Tree, _>(&mut files, alloc, "example.com/log", &keys, "a.state", "b.state", "both.state")?;
/// ```
///
/// # Errors
///
/// In this order: `First`, those of `open_state` for the first file; `Second`, those for the second; `Merge`, with `Collision`
/// if two different strings of the two mirrors share a digest; `Out` if the state is not written. After a fault all files are
/// unchanged.
pub fn run_merge<H: TreeHash, F: NamedFiles>(
    files: &mut F,
    alloc: Global,
    origin: &str,
    keys: &[Box<dyn Verifier>],
    first: &str,
    second: &str,
    out: &str,
) -> Result<(), MergeFilesFault>
    ensures { LeavesMerged H.digest origin.now (map (λ k. key k) keys.now) (F.puts files.old)
        first.now second.now out.now (F.puts files.new) result }
{
    let mirror = mirror_of_both::<H, F>(files, alloc, origin, keys, first, second)?;
    let written = write_state(files, alloc, out, &mirror);
    drop(mirror);
    match written {
        Ok(()) => Ok(()),
        Err(fault) => Err(MergeFilesFault::Out(fault)),
    }
}

// The mirror of the first file, after that of the second was merged into it.
fn mirror_of_both<H: TreeHash, F: NamedFiles>(
    files: &F,
    alloc: Global,
    origin: &str,
    keys: &[Box<dyn Verifier>],
    first: &str,
    second: &str,
) -> Result<Mirror<H>, MergeFilesFault>
    ensures { MakesMerged H.digest origin.now (map (λ k. key k) keys.now) (F.puts files.now)
        first.now second.now (seen (λ mirror. mirror.view) result) }
{
    let mut mirror = match open_state::<H, F>(files, alloc, origin, keys, first) {
        Ok(mirror) => mirror,
        Err(fault) => return Err(MergeFilesFault::First(fault)),
    };
    match merge_file(files, alloc, &mut mirror, origin, keys, second) {
        Ok(()) => Ok(mirror),
        Err(fault) => {
            drop(mirror);
            Err(fault)
        }
    }
}

// Merges the mirror of the second file into the first mirror.
fn merge_file<H: TreeHash, F: NamedFiles>(
    files: &F,
    alloc: Global,
    mirror: &mut Mirror<H>,
    origin: &str,
    keys: &[Box<dyn Verifier>],
    second: &str,
) -> Result<(), MergeFilesFault>
    ensures { (first : List ℕ) → OpensFile H.digest origin.now (map (λ k. key k) keys.now)
        (F.puts files.now) first (Ok mirror.old.view) → MakesMerged H.digest origin.now
        (map (λ k. key k) keys.now) (F.puts files.now) first second.now
        (seen (λ _. mirror.new.view) result) }
{
    let other = match open_state::<H, F>(files, alloc, origin, keys, second) {
        Ok(other) => other,
        Err(fault) => return Err(MergeFilesFault::Second(fault)),
    };
    let merged = mirror.merge(alloc, &other);
    drop(other);
    match merged {
        Ok(()) => Ok(()),
        Err(fault) => Err(MergeFilesFault::Merge(fault)),
    }
}
