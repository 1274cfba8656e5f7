//! The command `compare`: it compares checkpoints with the one that a state file's mirror serves.
ghost use Rattle.std.specs.Prelude.{◌≡◌, IfErr, IfOk, map, option_map};
ghost use Rattle.std.specs.Io.KnownBytes.{Keeps};
ghost use Rattle.sha2.specs.Sha256.{sha256};
ghost use Rattle.tlog_text.specs.Answers.{seen};
ghost use Rattle.program_io.specs.Performing.{IsStatus};
ghost use Rattle.copy_commands.specs.Compare.{ComparesState, ComparesView, FindsHeads};
ghost use Rattle.copy_commands.specs.Faults.{IsLate};

use crate::fault::{ReportError, ReportRunFault};
use crate::state_ask::{asked, why_of_report};
use program_io::served::of_heads;
use program_io::why::of_state;
use program_io::{HeadFilesFault, RunFiles, open_state, read_heads};
use program_reports::print_comparison;
use program_words::commands::compare::Compare;
use signed_note::Verifier;
use std::alloc::Global;
use std::io::Write;
use tlog_hash::{Hash, Sha256Tree, TreeHash};
use tlog_mirror::Mirror;

/// Compares the checkpoints in the files with the served entries of the mirror in the state file, prints the result, and
/// returns the exit status. If no file is named, it compares the checkpoints that the mirror holds.
///
/// # Errors
///
/// In this order: those of `open_state`, those of `read_heads`, and those of `print_comparison`. Only after a `WriteFault`
/// text may have been written.
pub(crate) fn run_compare<F: RunFiles, W: Write>(
    files: &F,
    alloc: Global,
    compare: &Compare<'_>,
    keys: &[Box<dyn Verifier>],
    output: &mut W,
) -> Result<u8, ReportError>
    ensures answer { ComparesState sha256 (map (λ k. key k) keys.now) (F.puts files.now)
        compare.now.mirror.state.now compare.now.mirror.log.origin.now
        (map (λ name. name.now) compare.now.files.items) (W.contents output.old)
        (W.contents output.new) result }
    ensures status { IfOk result IsStatus }
    ensures quiet { IfErr result (λ fault. (¬ IsLate fault) → Keeps (W.contents output.old)
        (W.contents output.new)) }
{
    let args = &compare.mirror;
    match open_state::<Sha256Tree, F>(files, alloc, args.log.origin, keys, args.state) {
        Ok(mut mirror) => {
            let answer = compare_mirror(files, alloc, &mut mirror, compare, keys, output);
            drop(mirror);
            answer
        }
        Err(fault) => {
            let why = of_state(alloc, files, Some(args.state), fault);
            Err(ReportError::new(ReportRunFault::State(fault), why))
        }
    }
}

// Prints the comparison with the checkpoints in the files, or with those that the mirror holds.
fn compare_mirror<H: TreeHash, F: RunFiles, W: Write>(
    files: &F,
    alloc: Global,
    mirror: &mut Mirror<H>,
    compare: &Compare<'_>,
    keys: &[Box<dyn Verifier>],
    output: &mut W,
) -> Result<u8, ReportError>
    ensures answer { ComparesView H.digest (map (λ k. key k) keys.now) (F.puts files.now)
        (map (λ name. name.now) compare.now.files.items) (W.contents output.old)
        (W.contents output.new) mirror.old.view result }
    ensures status { IfOk result IsStatus }
    ensures quiet { IfErr result (λ fault. (¬ IsLate fault) → Keeps (W.contents output.old)
        (W.contents output.new)) }
{
    let heads = match heads_of(files, alloc, mirror, keys, compare.files.as_slice()) {
        Ok(heads) => heads,
        Err(fault) => {
            let why = of_heads(alloc, files, fault);
            return Err(ReportError::new(ReportRunFault::Heads(fault), why));
        }
    };
    let answer = print_comparison(alloc, mirror, lend(&heads), output);
    let why = why_of_report(alloc, compare.mirror.state, &answer);
    asked(answer, why)
}

// The heads in the files, or None if no file is named.
fn heads_of<H: TreeHash, F: RunFiles>(
    files: &F,
    alloc: Global,
    mirror: &Mirror<H>,
    keys: &[Box<dyn Verifier>],
    names: &[&str],
) -> Result<Option<Vec<(u64, Hash)>>, HeadFilesFault>
    ensures { FindsHeads (map (λ k. key k) keys.now) (F.puts files.now) mirror.now.view.origin
        (map (λ name. name.now) names.now) (seen (option_map (λ heads. heads.items)) result) }
{
    if names.is_empty() {
        return Ok(None);
    }
    match read_heads(files, alloc, mirror, keys, names) {
        Ok(heads) => Ok(Some(heads)),
        Err(fault) => Err(fault),
    }
}

// The given heads as a slice.
fn lend(heads: &Option<Vec<(u64, Hash)>>) -> Option<&[(u64, Hash)]>
    ensures { option_map (λ given. given.now) result ≡ option_map (λ heads. heads.items) heads.now }
{
    match heads {
        Some(heads) => Some(heads.as_slice()),
        None => None,
    }
}
