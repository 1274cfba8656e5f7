//! The command `audit`: it reads a complete log at a place, file by file.
ghost use Rattle.std.specs.Prelude.{◌≡◌, map};
ghost use Rattle.std.specs.Result.{result_map_both};
ghost use Rattle.sha2.specs.Sha256.{sha256};
ghost use Rattle.program_io.specs.Envs.{IsSameEnv, moment, world};
ghost use Rattle.program_io.specs.Performing.{Stays, Performs};
ghost use Rattle.copy_commands.specs.PlaceFaults.{IsLate};
ghost use Rattle.copy_commands.specs.Audit.{AnswersPlace, DoesAudit};
ghost use Rattle.program_copies.specs.Audits.{BlamesRun, RunsAudit};

use crate::place_fault::{PlaceError, PlaceRunFault};
use copy_reader::AuditFault;
use mirror_sources::Source;
use program_copies::{AuditRunFault, run_audit};
use program_io::places::{of_edge, of_file, of_refused, of_source, place_name};
use program_io::why::{Why, of_origin};
use program_io::{
    CountingSource, Env, Failing, Progress, RunFiles, RunFolders, RunPlaces, StandardError, Task,
    WatchedPlace, WatchedSource, check_origin, print_waited,
};
use program_words::Place;
use program_words::commands::audit::Audit;
use signed_note::Verifier;
use std::alloc::Global;
use std::io::{Read, Write};
use std::rt::Clock;
use tlog_hash::Sha256Tree;
use tlog_tiles::Path;

/// Reads a complete log at the place, file by file, and prints its size and root if every file has its true bytes.
///
/// # Errors
///
/// `BadOrigin` before anything is read; then those of `run_audit`.
pub fn run<R, F: RunFiles, D: RunFolders, P: RunPlaces, I: Read, O: Write, E: Write>(
    env: &mut Env<'_, '_, '_, '_, R, F, D, P, I, O, E>,
    keys: &[Box<dyn Verifier>],
    audit: &Audit<'_>,
) -> Result<u8, PlaceError>
where
    R: Clock + Eprint,
    ensures same { IsSameEnv env.old env.new }
    ensures does { Performs
        (DoesAudit (world P.at P.Place.may_answer P.Place.asked P.Place.failed env.old)) IsLate
        Stays sha256 (map (λ k. key k) keys.now)
        (moment F.puts D.held D.puts I.remaining O.contents env.old)
        (moment F.puts D.held D.puts I.remaining O.contents env.new) audit.now result }
{
    match check_origin(env.alloc, audit.log.origin) {
        Ok(()) => {}
        Err(fault) => {
            let why = of_origin(env.alloc, fault);
            return Err(PlaceError::new(PlaceRunFault::Origin(fault), why));
        }
    }
    match env.places.open(env.alloc, &audit.place, audit.pace) {
        Ok(source) => audit_any(env, keys, audit, source),
        Err(_) => Err(PlaceError::new(PlaceRunFault::OutOfMemory, None)),
    }
}

// Audits that place.
fn audit_any<R, F: RunFiles, D: RunFolders, P, I: Read, O: Write, E: Write, S>(
    env: &mut Env<'_, '_, '_, '_, R, F, D, P, I, O, E>,
    keys: &[Box<dyn Verifier>],
    audit: &Audit<'_>,
    source: S,
) -> Result<u8, PlaceError>
where
    R: Clock + Eprint,
    S: WatchedPlace + Failing + Drop,
    ensures same { IsSameEnv env.old env.new }
    ensures stays { Stays (moment F.puts D.held D.puts I.remaining O.contents env.old)
        (moment F.puts D.held D.puts I.remaining O.contents env.new) }
    ensures does { AnswersPlace sha256 S.may_answer S.asked S.failed (map (λ k. key k) keys.now)
        (moment F.puts D.held D.puts I.remaining O.contents env.old)
        (moment F.puts D.held D.puts I.remaining O.contents env.new) source audit.now result }
{
    let source = WatchedSource::new(env.alloc, source);
    let (answer, source) = audit_source(env.rt, env.alloc, audit, keys, source, env.output);
    write_waited(env.alloc, audit, source.source.waited(), env.errors);
    audited(env.alloc, audit, source, answer)
}

// Writes the line about a wait for a busy place, if the words ask for lines.
fn write_waited<E: Write>(alloc: Global, words: &Audit<'_>, seconds: u64, errors: &mut E) {
    if words.progress {
        if let Ok(name) = place_name(alloc, &words.place) {
            print_waited(alloc, Task::Audit, seconds, &name, errors);
        }
    }
}

// The answer of the command from the answer of the audit.
fn audited<S: Source + Failing + Drop>(
    alloc: Global,
    words: &Audit<'_>,
    source: WatchedSource<S>,
    answer: Result<u8, AuditRunFault>,
) -> Result<u8, PlaceError>
    ensures { result ≡ result_map_both (λ status. status) (λ fault. PlaceRunFault.Audit fault)
        answer }
{
    match answer {
        Ok(status) => Ok(status),
        Err(fault) => {
            let why = why_of(alloc, &words.place, &source, fault);
            Err(PlaceError::new(PlaceRunFault::Audit(fault), why))
        }
    }
}

// Audits the source, and reports the progress if the words ask for it. Returns the source, too.
fn audit_source<S: Source + Drop, R: Clock + Eprint, W: Write>(
    rt: &R,
    alloc: Global,
    words: &Audit<'_>,
    keys: &[Box<dyn Verifier>],
    mut source: S,
    output: &mut W,
) -> (Result<u8, AuditRunFault>, S)
    ensures audits { RunsAudit sha256 words.now.log.origin.now (map (λ k. key k) keys.now)
        (S.may_answer source) (S.may_answer result.1) (S.asked source) (S.asked result.1)
        (W.contents output.old) (W.contents output.new) result.0 }
    ensures blamed { BlamesRun (S.failed source) (S.failed result.1) result.0 }
{
    let origin = words.log.origin;
    if words.progress {
        return audit_counted(rt, alloc, origin, keys, source, output);
    }
    let answer = run_audit::<Sha256Tree, S, W>(alloc, origin, keys, &mut source, output);
    (answer, source)
}

// Audits the source, with progress reports. Returns the source, too.
fn audit_counted<S: Source + Drop, R: Clock + Eprint, W: Write>(
    rt: &R,
    alloc: Global,
    origin: &str,
    keys: &[Box<dyn Verifier>],
    source: S,
    output: &mut W,
) -> (Result<u8, AuditRunFault>, S)
    ensures audits { RunsAudit sha256 origin.now (map (λ k. key k) keys.now)
        (S.may_answer source) (S.may_answer result.1) (S.asked source) (S.asked result.1)
        (W.contents output.old) (W.contents output.new) result.0 }
    ensures blamed { BlamesRun (S.failed source) (S.failed result.1) result.0 }
{
    let mut progress = Progress::new(alloc, rt, StandardError::new(rt));
    progress.begin(Task::Audit);
    let mut source = CountingSource::new(source, progress);
    let answer = run_audit::<Sha256Tree, _, W>(alloc, origin, keys, &mut source, output);
    if answer.is_ok() {
        source.progress.report_done();
    }
    (answer, source.into_source())
}

// The thing that the fault is about: a file of the place.
fn why_of<S: Failing + Drop>(
    alloc: Global,
    place: &Place<'_>,
    source: &WatchedSource<S>,
    fault: AuditRunFault,
) -> Option<Why> {
    match fault {
        AuditRunFault::WriteFault => Some(Why::Output),
        AuditRunFault::Audit(fault) => match fault {
            AuditFault::NoFile(path) => of_file(alloc, place, &path, "not found"),
            AuditFault::FalseFile(path) => of_file(alloc, place, &path, "false"),
            AuditFault::NoCheckpoint => of_file(alloc, place, &Path::Checkpoint, "not found"),
            AuditFault::Head(fault) => of_refused(alloc, place, source, fault),
            AuditFault::NoEdge => of_edge(alloc, place, source),
            AuditFault::Source => of_source(alloc, place, source),
            AuditFault::OutOfMemory => None,
        },
    }
}
