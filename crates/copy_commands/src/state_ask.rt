//! The questions of `status`, `missing`, `forks` and `prove` to the mirror in a state file.
ghost use Rattle.std.specs.Prelude.{◌≡◌, IfErr, IfOk, map};
ghost use Rattle.std.specs.Result.{result_map_both};
ghost use Rattle.std.specs.Io.KnownBytes.{Keeps};
ghost use Rattle.sha2.specs.Sha256.{sha256};
ghost use Rattle.program_io.specs.Performing.{IsStatus};
ghost use Rattle.copy_commands.specs.StateAsks.{AsksState};
ghost use Rattle.copy_commands.specs.Faults.{IsLate};

use crate::fault::{ReportError, ReportRunFault};
use program_io::served::{of_proof, of_unheld};
use program_io::why::{Why, of_state};
use program_io::{RunFiles, open_state};
use program_reports::{AskFault, Question, ReportFault, print_report};
use program_words::StateArgs;
use signed_note::Verifier;
use std::alloc::Global;
use std::io::Write;
use tlog_hash::{Sha256Tree, TreeHash};
use tlog_mirror::Mirror;
use tlog_proof::Ranges;

/// Prints the report on the question about the mirror in the state file, and returns the exit status.
///
/// # Errors
///
/// In this order: those of `open_state`, and those of `print_report`. Only after a `WriteFault` text
/// may have been written.
pub(crate) fn run_ask<F: RunFiles, W: Write>(
    files: &F,
    alloc: Global,
    args: &StateArgs<'_>,
    keys: &[Box<dyn Verifier>],
    question: &Question,
    output: &mut W,
) -> Result<u8, ReportError>
    ensures answer { AsksState sha256 (map (λ k. key k) keys.now) (F.puts files.now)
        args.now.state.now args.now.log.origin.now question.now (W.contents output.old)
        (W.contents output.new) result }
    ensures status { IfOk result IsStatus }
    ensures quiet { IfErr result (λ fault. (¬ IsLate fault) → Keeps (W.contents output.old)
        (W.contents output.new)) }
{
    match open_state::<Sha256Tree, F>(files, alloc, args.log.origin, keys, args.state) {
        Ok(mut mirror) => {
            let answer = print_report::<Sha256Tree, W>(alloc, &mut mirror, question, output);
            let why = why_of(alloc, args.state, &mirror, question, &answer);
            drop(mirror);
            asked(answer, why)
        }
        Err(fault) => {
            let why = of_state(alloc, files, Some(args.state), fault);
            Err(ReportError::new(ReportRunFault::State(fault), why))
        }
    }
}

/// The answer of a command from the answer of a reporter, with the thing that a fault is about.
pub(crate) fn asked(answer: Result<u8, AskFault>, why: Option<Why>) -> Result<u8, ReportError>
    ensures { result ≡ result_map_both (λ status. status) (λ fault. ReportRunFault.Ask fault)
        answer }
{
    match answer {
        Ok(status) => Ok(status),
        Err(fault) => Err(ReportError::new(ReportRunFault::Ask(fault), why)),
    }
}

/// The thing that a reporter's fault is about, if the state file names the mirror.
pub(crate) fn why_of_report(
    alloc: Global,
    state: &str,
    answer: &Result<u8, AskFault>,
) -> Option<Why> {
    match answer {
        Err(AskFault::WriteFault) => Some(Why::Output),
        Err(AskFault::Report(ReportFault::NothingComplete)) => Why::of_thing(alloc, state),
        _ => None,
    }
}

// The thing that a fault of the report is about. For a size that is not served, the reason names the served size.
fn why_of<H: TreeHash>(
    alloc: Global,
    state: &str,
    mirror: &Mirror<H>,
    question: &Question,
    answer: &Result<u8, AskFault>,
) -> Option<Why> {
    match answer {
        Err(AskFault::Report(ReportFault::Proof(fault))) => {
            let Question::Proof(ask) = question else {
                return None;
            };
            of_proof(alloc, state, *ask, *fault, served_size(mirror))
        }
        Err(AskFault::Report(ReportFault::NoSuchHead)) => {
            let Question::Missing { size, .. } = question else {
                return None;
            };
            of_unheld(alloc, state, *size)
        }
        _ => why_of_report(alloc, state, answer),
    }
}

/// The served size, or 0 if nothing is served.
pub(crate) fn served_size<H: TreeHash>(mirror: &Mirror<H>) -> u64 {
    match mirror.top_ranges() {
        Some(top) => top.size(),
        None => 0,
    }
}
