//! The command `follow`: it brings a copy to the newest checkpoint of its places.
ghost use Rattle.std.specs.Prelude.{[], ◌≡◌, map};
ghost use Rattle.std.specs.Result.{result_map_both};
ghost use Rattle.sha2.specs.Sha256.{sha256};
ghost use Rattle.program_io.specs.Envs.{IsSameEnv, moment, world};
ghost use Rattle.program_io.specs.Performing.{MayLeave, Performs};
ghost use Rattle.copy_commands.specs.PlaceFaults.{IsLate};
ghost use Rattle.copy_commands.specs.Follow.{AnswersAmong, DoesFollow};

use crate::place_fault::{PlaceError, PlaceRunFault};
use crate::places::places_of;
use copy_follow::{BringFault, FollowFault, Repaired};
use copy_places::{ForkLine, Places};
use mirror_sources::Source;
use program_copies::{
    FollowRunFault, Following, Hold, RepairFault, RepairRunFault, SystemHold, follow_why,
    run_follow, run_repair,
};
use program_io::served::of_note;
use program_io::why::{FailedStreams, Why, of_folder, of_named, of_origin, print_why};
use program_io::{
    Env, RunFiles, RunFolders, RunPlaces, Task, WatchedPlace, check_origin, print_waited,
    system_reason, write_front,
};
use program_words::commands::follow::Follow;
use signed_note::Verifier;
use std::alloc::Global;
use std::fs::{File, Files};
use std::io;
use std::io::{Read, Write};
use tlog_hash::Sha256Tree;
use tlog_tiles::Path;

/// Brings the copy in the folder to the newest checkpoint of the places, and prints the result. The status is 3 if there is a
/// fork, or a checkpoint that could not be reached. With `--repair` the copy is repaired first. With `--why`, a line on standard error
/// names the first fault of each place.
///
/// # Errors
///
/// `BadOrigin` before anything is read; then those of `run_follow`, or of `run_repair` with `--repair`.
pub fn run<R, F: RunFiles, D: RunFolders, P: RunPlaces, I: Read, O: Write, E: Write>(
    env: &mut Env<'_, '_, '_, '_, R, F, D, P, I, O, E>,
    keys: &[Box<dyn Verifier>],
    follow: &Follow<'_>,
) -> Result<u8, PlaceError>
where
    R: Files<File = File>,
    ensures same { IsSameEnv env.old env.new }
    ensures does { Performs
        (DoesFollow (world P.at P.Place.may_answer P.Place.asked P.Place.failed env.old)) IsLate
        MayLeave sha256 (map (λ k. key k) keys.now)
        (moment F.puts D.held D.puts I.remaining O.contents env.old)
        (moment F.puts D.held D.puts I.remaining O.contents env.new) follow.now result }
{
    match check_origin(env.alloc, follow.copy.log.origin) {
        Ok(()) => {}
        Err(fault) => {
            let why = of_origin(env.alloc, fault);
            return Err(PlaceError::new(PlaceRunFault::Origin(fault), why));
        }
    }
    match places_of(&env.places, env.alloc, &follow.places, follow.pace) {
        Ok(places) => follow_among(env, keys, follow, places),
        Err(_) => Err(PlaceError::new(PlaceRunFault::OutOfMemory, None)),
    }
}

// Follows these places.
fn follow_among<
    R,
    F: RunFiles,
    D: RunFolders,
    P,
    I: Read,
    O: Write,
    E: Write,
    S: WatchedPlace + Drop,
>(
    env: &mut Env<'_, '_, '_, '_, R, F, D, P, I, O, E>,
    keys: &[Box<dyn Verifier>],
    follow: &Follow<'_>,
    mut places: Places<S>,
) -> Result<u8, PlaceError>
where
    R: Files<File = File>,
    ensures same { IsSameEnv env.old env.new }
    ensures does { AnswersAmong sha256 S.may_answer S.failed S.asked (map (λ k. key k) keys.now)
        (moment F.puts D.held D.puts I.remaining O.contents env.old)
        (moment F.puts D.held D.puts I.remaining O.contents env.new) places follow.now result }
{
    let mut hold = SystemHold::new(env.rt, env.alloc);
    let mut repaired = Repaired::new(env.alloc);
    let mut forks = Vec::new(env.alloc);
    let answer = repair_or_follow(
        env,
        keys,
        follow,
        &mut places,
        &mut hold,
        &mut repaired,
        &mut forks,
    );
    write_unlocked(follow, env.alloc, hold.unlocked(), env.errors);
    drop(hold);
    write_waits(follow.progress, env.alloc, &places, env.errors);
    write_whys::<D, S, E>(
        follow,
        env.alloc,
        keys,
        &env.folders,
        &places,
        &repaired,
        &forks,
        env.errors,
    );
    drop(forks);
    let lacked = lacked_of(places, &repaired);
    followed(env, follow, lacked, answer)
}

// Follows the places, after a repair if the words ask for one. `forks` gets the forks of the result.
fn repair_or_follow<
    R,
    F: RunFiles,
    D: RunFolders,
    P,
    I: Read,
    O: Write,
    E: Write,
    S: Source + Drop,
    L: Hold,
>(
    env: &mut Env<'_, '_, '_, '_, R, F, D, P, I, O, E>,
    keys: &[Box<dyn Verifier>],
    follow: &Follow<'_>,
    places: &mut Places<S>,
    hold: &mut L,
    repaired: &mut Repaired,
    forks: &mut Vec<ForkLine>,
) -> Result<u8, PlaceRunFault>
    requires { (repaired.old.put ≡ 0) × (repaired.old.damaged.items ≡ []) }
    ensures same { IsSameEnv env.old env.new }
    ensures does { AnswersAmong sha256 S.may_answer S.failed S.asked (map (λ k. key k) keys.now)
        (moment F.puts D.held D.puts I.remaining O.contents env.old)
        (moment F.puts D.held D.puts I.remaining O.contents env.new) places.old follow.now result }
{
    let following = Following {
        origin: follow.copy.log.origin,
        folder: follow.copy.folder,
        checkpoint: follow.checkpoint,
        forks: follow.forks,
        progress: follow.progress,
    };
    if follow.repair {
        match run_repair::<Sha256Tree, F, D, S, L, O>(
            &mut env.files,
            &mut env.folders,
            env.alloc,
            keys,
            &following,
            places,
            hold,
            env.output,
            repaired,
            forks,
        ) {
            Ok(status) => Ok(status),
            Err(fault) => Err(PlaceRunFault::Repair(fault)),
        }
    } else {
        match run_follow::<Sha256Tree, F, D, S, L, O>(
            &mut env.files,
            &mut env.folders,
            env.alloc,
            keys,
            &following,
            places,
            hold,
            env.output,
            forks,
        ) {
            Ok(status) => Ok(status),
            Err(fault) => Err(PlaceRunFault::Follow(fault)),
        }
    }
}

// The path of the first file that no place gave, if there is one: one of the repair comes first. Then the greatest candidate, whose fault is
// returned, has the first turn. Drops the places.
fn lacked_of<S: Source + Drop>(places: Places<S>, repaired: &Repaired) -> Option<Path> {
    let lacked = places.first_lacked();
    drop(places);
    match repaired.lacked() {
        Some(path) => Some(path),
        None => lacked,
    }
}

// The answer of the command, with the thing that a fault is about.
fn followed<R, F: RunFiles, D: RunFolders, P, I, O, E>(
    env: &Env<'_, '_, '_, '_, R, F, D, P, I, O, E>,
    follow: &Follow<'_>,
    lacked: Option<Path>,
    answer: Result<u8, PlaceRunFault>,
) -> Result<u8, PlaceError>
    ensures { result ≡ result_map_both (λ status. status) (λ fault. fault) answer }
{
    match answer {
        Ok(status) => Ok(status),
        Err(fault) => {
            let why = why_of(env, follow, lacked, &fault);
            Err(PlaceError::new(fault, why))
        }
    }
}

// The thing that a fault is about.
fn why_of<R, F: RunFiles, D: RunFolders, P, I, O, E>(
    env: &Env<'_, '_, '_, '_, R, F, D, P, I, O, E>,
    follow: &Follow<'_>,
    lacked: Option<Path>,
    fault: &PlaceRunFault,
) -> Option<Why> {
    match fault {
        PlaceRunFault::Follow(fault) => why_of_run(env, follow, lacked, *fault),
        PlaceRunFault::Repair(fault) => why_of_repair(env, follow, lacked, *fault),
        _ => None,
    }
}

// The thing that a fault of a run with a repair is about.
fn why_of_repair<R, F: RunFiles, D: RunFolders, P, I, O, E>(
    env: &Env<'_, '_, '_, '_, R, F, D, P, I, O, E>,
    follow: &Follow<'_>,
    lacked: Option<Path>,
    fault: RepairRunFault,
) -> Option<Why> {
    match fault {
        RepairRunFault::Early(fault)
        | RepairRunFault::Followed(fault)
        | RepairRunFault::Unprinted(fault) => why_of_run(env, follow, lacked, fault),
        RepairRunFault::Repair(fault) | RepairRunFault::RepairAndOutput(fault) => {
            why_of_unrepaired(env, follow, lacked, fault)
        }
        RepairRunFault::OutOfMemory => None,
    }
}

// The thing that a fault of the repair is about: a file of the folder, or the folder.
fn why_of_unrepaired<R, F: RunFiles, D: RunFolders, P, I, O, E>(
    env: &Env<'_, '_, '_, '_, R, F, D, P, I, O, E>,
    follow: &Follow<'_>,
    lacked: Option<Path>,
    fault: RepairFault,
) -> Option<Why> {
    let folder = follow.copy.folder;
    match fault {
        RepairFault::Note(_)
        | RepairFault::Copy(BringFault::BadCheckpoint)
        | RepairFault::Copy(BringFault::CopyDamaged) => {
            Why::of_made(env.alloc, format!(in env.alloc; "{folder}: checkpoint"))
        }
        RepairFault::Copy(BringFault::CopyInUse) => Why::of_thing(env.alloc, folder),
        RepairFault::Copy(BringFault::ShelfFault) => of_folder(env.alloc, &env.folders, folder),
        RepairFault::Copy(BringFault::NoFile) | RepairFault::Copy(BringFault::Source) => {
            let path = lacked?;
            Why::of_made(env.alloc, format!(in env.alloc; "{path}"))
        }
        RepairFault::Copy(_) => None,
    }
}

// The thing that a fault of a run is about: a named file, the given note, a file of the folder, or the folder.
fn why_of_run<R, F: RunFiles, D: RunFolders, P, I, O, E>(
    env: &Env<'_, '_, '_, '_, R, F, D, P, I, O, E>,
    follow: &Follow<'_>,
    lacked: Option<Path>,
    fault: FollowRunFault,
) -> Option<Why> {
    match fault {
        FollowRunFault::File(fault)
        | FollowRunFault::Evidence(fault)
        | FollowRunFault::EvidenceAndOutput(fault) => of_named(env.alloc, &env.files, fault),
        FollowRunFault::WriteFault => Some(Why::Output),
        FollowRunFault::CopyInUse => Why::of_thing(env.alloc, follow.copy.folder),
        FollowRunFault::OutOfMemory => None,
        FollowRunFault::Follow(FollowFault::Head(fault)) => {
            of_note(env.alloc, &env.files, follow.checkpoint?, fault)
        }
        FollowRunFault::Follow(fault) => why_of_copy(env, follow.copy.folder, lacked, fault),
    }
}

// The thing that a fault of the copy or of its places is about.
fn why_of_copy<R, F: RunFiles, D: RunFolders, P, I, O, E>(
    env: &Env<'_, '_, '_, '_, R, F, D, P, I, O, E>,
    folder: &str,
    lacked: Option<Path>,
    fault: FollowFault,
) -> Option<Why> {
    match fault {
        // A damaged file has its line before this one.
        FollowFault::CopyDamaged => match env.folders.first_damaged() {
            Some(_) => None,
            None => Why::of_thing(env.alloc, folder),
        },
        FollowFault::CopyInUse => Why::of_thing(env.alloc, folder),
        FollowFault::ShelfFault => of_folder(env.alloc, &env.folders, folder),
        FollowFault::Contradiction => {
            Why::of_reason(
                env.alloc,
                "checkpoint",
                "no entries, and not the empty list's root",
            )
        }
        FollowFault::NoFile | FollowFault::Source => {
            let path = lacked?;
            Why::of_made(env.alloc, format!(in env.alloc; "{path}"))
        }
        _ => None,
    }
}

// Writes a line about each busy place that was waited for, if the words ask for lines.
fn write_waits<S: WatchedPlace + Drop, E: Write>(
    asked: bool,
    alloc: Global,
    places: &Places<S>,
    errors: &mut E,
) {
    if asked {
        for place in places.list() {
            let source = place.source();
            print_waited(alloc, Task::Follow, source.waited(), source.name(), errors);
        }
    }
}

// Writes the lines about the copy and the places if the words ask for them, or a prefix of that text if the stream fails.
fn write_whys<D: RunFolders, S: WatchedPlace + Drop, E: Write>(
    follow: &Follow<'_>,
    alloc: Global,
    keys: &[Box<dyn Verifier>],
    folders: &D,
    places: &Places<S>,
    repaired: &Repaired,
    forks: &[ForkLine],
    errors: &mut E,
) {
    if follow.why {
        let repaired = repaired.damaged();
        let origin = follow.copy.log.origin;
        let folder = follow.copy.folder;
        // Without a folder for evidence, nothing hangs on the copy's note.
        let put: &[ForkLine] = match follow.forks {
            Some(_) => forks,
            None => &forks[..0],
        };
        if let Ok(text) = follow_why::<D, S>(
            alloc, origin, folder, keys, folders, places, repaired, put,
        ) {
            write_front(errors, text.as_bytes());
        }
    }
}

// Writes a line if the system did not lock the folder of the copy, and the words ask for lines.
fn write_unlocked<E: Write>(
    follow: &Follow<'_>,
    alloc: Global,
    unlocked: Option<&io::Error>,
    errors: &mut E,
) {
    if let Some(error) = unlocked {
        let why = why_unlocked(alloc, follow.copy.folder, error);
        print_why(alloc, follow.why, why, FailedStreams::none(), errors);
    }
}

// Names the folder of the copy, and says why it is not locked.
fn why_unlocked(alloc: Global, folder: &str, error: &io::Error) -> Option<Why> {
    let Ok(reason) = system_reason(alloc, error) else {
        return None;
    };
    match format!(in alloc; "not locked: {reason}") {
        Ok(reason) => Why::of_reason(alloc, folder, &reason),
        Err(_) => None,
    }
}
