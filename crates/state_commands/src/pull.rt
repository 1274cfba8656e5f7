//! The command `pull`: it fetches what is missing.
ghost use Rattle.std.specs.Prelude.{◌≡◌, ◌↔◌, ℕ, IfErr, IfOk, IsTrue, List, None, OnOk, Option, Result, map, option_map};
ghost use Rattle.tlog_text.specs.Answers.{seen};
ghost use Rattle.std.specs.Io.KnownBytes.{Keeps};
ghost use Rattle.sha2.specs.Sha256.{sha256};
ghost use Rattle.mirror_model.specs.Complete.{IsLawful};
ghost use Rattle.mirror_model.specs.View.{View, IsSubview};
ghost use Rattle.mirror_pull.specs.Taking.{PullsTo};
ghost use Rattle.mirror_pull.specs.declared.fault.PullFault.TheVariants.{Source};
ghost use Rattle.state_commands.specs.Gained.{IsHolding};
ghost use Rattle.mirror_client.specs.declared.limits.TheConstants.{MAX_REPLY_LEN};
ghost use Rattle.state_commands.specs.Faults.{IsLate};
ghost use Rattle.program_io.specs.Envs.{IsSameEnv, moment};
ghost use Rattle.mirror_sources.specs.Source.{IsShortAnswer};
ghost use Rattle.program_io.specs.PlaceWords.{words_of};
ghost use Rattle.state_commands.specs.Pulls.{IsHeld, LeavesEarly, DoesPull, ReadsPlace, ReadsSource, SavesPulled, PrintsPull, PrintsPulled};
ghost use Rattle.program_io.specs.Performing.{IsStatus, KeepsFolders, Performs};

use crate::fault::{Error, StateRunFault};
use crate::pulling::pull_from;
use crate::{HeldCounts, has_gained, holding_of};
use byte_streams::write_whole;
use mirror_client::{Dial, HttpSource};
use mirror_pull::{PullFault, Pulled};
use mirror_sources::Source;
use program_io::places::{of_edge, of_file, of_place, of_refused, of_source, place_name};
use program_io::why::{Why, of_named, of_state};
use program_io::{
    Env, Failing, NamedFault, PlacedSource, RunFiles, RunFolders, StandardError, Task,
    WatchedSource, folder_at, open_to_save, print_waited, server_at, write_state,
};
use program_reports::{pulled_status, pulled_text};
use program_words::Place;
use program_words::commands::pull::Pull;
use signed_note::Verifier;
use std::alloc::Global;
use std::fs::{Files, metadata};
use std::io::{Read, Write};
use std::marker::Model;
use std::net::{Net, TcpStream};
use std::rt::Clock;
use tlog_hash::{Sha256Tree, TreeHash};
use tlog_mirror::Mirror;
use tlog_tiles::Path;

/// Fetches what is missing into the mirror of the state file, or into an empty one, writes the state, and prints the result.
/// The status is 3 if the pull is partial.
///
/// If the pull gained nothing, and the file to write is the plain file that the state was read from, it already has these
/// bytes. Then it is not written.
///
/// If the place fails, the state is written only if the words ask to keep it and the pull gained something. The fault is
/// `Source` even if that write fails.
///
/// # Errors
///
/// In this order: `BadOrigin`, those of the state file, those of the pull, `FileFault` for the file to write,
/// and `WriteFault`.
pub fn run<R, F: RunFiles, D: RunFolders, P, I: Read, O: Write, E: Write>(
    env: &mut Env<'_, '_, '_, '_, R, F, D, P, I, O, E>,
    keys: &[Box<dyn Verifier>],
    pull: &Pull<'_>,
) -> Result<u8, Error>
where
    R: Files + Clock + Eprint + Net<Stream = TcpStream>,
    ensures same { IsSameEnv env.old env.new }
    ensures does { Performs DoesPull IsLate KeepsFolders sha256 (map (λ k. key k) keys.now)
        (moment F.puts D.held D.puts I.remaining O.contents env.old)
        (moment F.puts D.held D.puts I.remaining O.contents env.new) pull.now result }
{
    run_pull(env.rt, &mut env.files, env.alloc, pull, keys, env.output)
}

// The same over these files.
fn run_pull<R: Files + Clock + Eprint + Net<Stream = TcpStream>, F: RunFiles, W: Write>(
    rt: &R,
    files: &mut F,
    alloc: Global,
    words: &Pull<'_>,
    keys: &[Box<dyn Verifier>],
    output: &mut W,
) -> Result<u8, Error>
    ensures answer { PrintsPull sha256 words.now.mirror.log.origin.now (map (λ k. key k) keys.now)
        (option_map (λ name. name.now) words.now.state) words.now.place (F.puts files.old)
        words.now.keep words.now.mirror.out.now (F.puts files.new) (W.contents output.old)
        (W.contents output.new) result }
    ensures status { IfOk result IsStatus }
    ensures quiet { IfErr result (λ fault. (¬ IsLate fault) → Keeps (W.contents output.old)
        (W.contents output.new)) }
{
    let origin = words.mirror.log.origin;
    let out = words.mirror.out;
    let (mut mirror, is_saved) = match open_to_save::<Sha256Tree, F>(
        files,
        alloc,
        origin,
        keys,
        words.state,
        out,
    ) {
        Ok((mirror, is_saved)) => (mirror, is_saved),
        Err(fault) => {
            let why = of_state(alloc, files, words.state, fault);
            return Err(Error::new(StateRunFault::State(fault), why));
        }
    };
    match pull_kept(rt, files, alloc, words, keys, &mut mirror) {
        Ok((pulled, gained)) => {
            let held = is_held(rt, out, is_saved, gained);
            let answer = report_pulled(files, alloc, out, &mirror, &pulled, held, output);
            drop(mirror);
            answer
        }
        Err(stopped) => {
            drop(mirror);
            Err(stopped.into_error())
        }
    }
}

// Why a pull ended early, and what the reason is about. Contracts see only the fault.
#[derive(Drop)]
struct Stopped {
    fault: PullFault,
    why: Option<Why>,
}

impl Model for Stopped {
    ghost use Rattle.mirror_pull.specs.declared.fault.PullFault.{PullFault};

    ghost Value = { PullFault };

    ghost view = { λ s. s.fault };
}

impl Stopped {
    // A pull that ended with this fault.
    fn new(fault: PullFault, why: Option<Why>) -> Stopped
        ensures { result ≡ fault }
    {
        Stopped { fault, why }
    }

    // The error of the command.
    fn into_error(self) -> Error
        ensures { result ≡ StateRunFault.Pull self }
    {
        Error::new(StateRunFault::Pull(self.fault), self.why)
    }
}

// Whether the file to write already has the state: it had it when the pull began, and nothing was gained. Only a plain
// file counts. Anything else, such as a device, is always written.
fn is_held<R: Files>(rt: &R, out: &str, is_saved: bool, gained: bool) -> bool
    ensures saved { IsTrue result → IsTrue is_saved }
    ensures nothing { IsTrue result → ¬ IsTrue gained }
{
    is_saved && !gained && is_plain(rt, out)
}

// Whether there is a plain file of that name.
fn is_plain<R: Files>(rt: &R, name: &str) -> bool {
    match metadata(rt, name) {
        Ok(about) => about.is_file(),
        Err(_) => false,
    }
}

// Writes the state of the mirror after a pull, unless its file already has it.
fn save_pulled<H: TreeHash, F: RunFiles>(
    files: &mut F,
    alloc: Global,
    out: &str,
    mirror: &Mirror<H>,
    is_held: bool,
) -> Result<(), NamedFault>
    ensures { (state : Option (List ℕ)) (start : View)
        → (IsTrue is_held → IsHeld state start mirror.now.view out.now (F.puts files.old))
        → SavesPulled state start mirror.now.view out.now (F.puts files.old) (F.puts files.new)
        result }
{
    if is_held {
        return Ok(());
    }
    write_state(files, alloc, out, mirror)
}

// Writes the state of the mirror after a pull, unless its file already has it, and then prints the result of the pull.
fn report_pulled<H: TreeHash, F: RunFiles, W: Write>(
    files: &mut F,
    alloc: Global,
    out: &str,
    mirror: &Mirror<H>,
    pulled: &Pulled,
    is_held: bool,
    output: &mut W,
) -> Result<u8, Error>
    ensures answer { (state : Option (List ℕ)) (start : View)
        → (IsTrue is_held → IsHeld state start mirror.now.view out.now (F.puts files.old))
        → PrintsPulled state start mirror.now.view pulled.now out.now (F.puts files.old)
        (F.puts files.new) (W.contents output.old) (W.contents output.new) result }
    ensures status { IfOk result IsStatus }
    ensures quiet { IfErr result (λ fault. (¬ IsLate fault) → Keeps (W.contents output.old)
        (W.contents output.new)) }
{
    match save_pulled(files, alloc, out, mirror, is_held) {
        Ok(()) => {}
        Err(fault) => {
            let why = of_named(alloc, files, fault);
            return Err(Error::new(StateRunFault::Out(fault), why));
        }
    }
    let Ok(text) = pulled_text(alloc, pulled) else {
        return Err(Error::new(StateRunFault::OutOfMemory, None));
    };
    match write_whole(output, text.as_bytes()) {
        Ok(()) => Ok(pulled_status(pulled)),
        Err(_) => Err(Error::new(StateRunFault::WriteFault, Some(Why::Output))),
    }
}

// Pulls into the mirror. Returns whether it gained something, or the fault with the thing that it is about. If the source
// fails, the gained state is written if the words ask to keep it.
fn pull_kept<H: TreeHash, R: Files + Clock + Eprint + Net<Stream = TcpStream>, F: RunFiles>(
    rt: &R,
    files: &mut F,
    alloc: Global,
    words: &Pull<'_>,
    keys: &[Box<dyn Verifier>],
    mirror: &mut Mirror<H>,
) -> Result<(Pulled, bool), Stopped>
    ensures pulls { PullsTo H.digest (map (λ k. key k) keys.now) mirror.old.view mirror.new.view
        (seen (λ done. done.0) result) }
    ensures reads { ReadsPlace H.digest (map (λ k. key k) keys.now) words.now.place
        mirror.old.view mirror.new.view (seen (λ done. done.0) result) }
    ensures gained { IfOk result (λ done. (¬ IsTrue done.1)
        → mirror.new.view ≡ mirror.old.view) }
    ensures early { IfErr result (λ fault. (written : Result (Unit {0}) NamedFault)
        × LeavesEarly words.now.keep words.now.mirror.out.now (F.puts files.old) (F.puts files.new)
        mirror.old.view mirror.new.view fault written) }
    ensures lawful { IsLawful H.digest mirror.new.view }
    ensures same { OnOk result (F.puts files.new ≡ F.puts files.old) }
{
    let Ok(before) = holding_of(mirror) else {
        return Err(no_memory());
    };
    let (answer, why) = from_place(rt, alloc, mirror, keys, words);
    // The contents of a mirror are sound, so a state that is written from it loads again.
    let _sound = mirror.strings();
    match answer {
        Ok(pulled) => {
            let gained = has_gained(mirror, &before);
            Ok((pulled, gained))
        }
        Err(fault) => {
            // If it cannot be written, the fault is still that of the pull.
            let _ = keep_gained(files, alloc, words, mirror, &before, fault);
            Err(Stopped::new(fault, why))
        }
    }
}

// Memory was refused before a pull began.
fn no_memory() -> Stopped
    ensures { result ≡ PullFault.OutOfMemory }
{
    Stopped::new(PullFault::OutOfMemory, None)
}

// After a pull that ended with this fault: writes the state of the mirror if the words ask to keep it and something was
// gained.
fn keep_gained<H: TreeHash, F: RunFiles>(
    files: &mut F,
    alloc: Global,
    words: &Pull<'_>,
    mirror: &Mirror<H>,
    before: &HeldCounts,
    fault: PullFault,
) -> Result<(), NamedFault>
    ensures { (start : View) → IsHolding start before.now → IsSubview start mirror.now.view
        → LeavesEarly words.now.keep words.now.mirror.out.now (F.puts files.old) (F.puts files.new)
        start mirror.now.view fault result }
{
    if words.keep && is_source(fault) && has_gained(mirror, before) {
        return write_state(files, alloc, words.mirror.out, mirror);
    }
    Ok(())
}

// Whether the source failed.
fn is_source(fault: PullFault) -> bool
    ensures { IsTrue result ↔ (fault ≡ Source) }
{
    matches!(fault, PullFault::Source)
}

// Pulls from the place of the words into the mirror, and returns the thing that a fault is about.
fn from_place<'a, H: TreeHash, R: Files + Clock + Eprint + Net<Stream = TcpStream>>(
    rt: &'a R,
    alloc: Global,
    mirror: &mut Mirror<H>,
    keys: &[Box<dyn Verifier>],
    words: &'a Pull<'a>,
) -> (Result<Pulled, PullFault>, Option<Why>)
    ensures pulls { PullsTo H.digest (map (λ k. key k) keys.now) mirror.old.view mirror.new.view
        result.0 }
    ensures reads { ReadsPlace H.digest (map (λ k. key k) keys.now) words.now.place
        mirror.old.view mirror.new.view result.0 }
{
    match &words.place {
        Place::Folder(folder) => {
            let placed = folder_at(rt, alloc, folder);
            let (pulled, why, _source) = pull_placed(rt, alloc, mirror, keys, placed, words);
            (pulled, why)
        }
        Place::Server {
            host,
            prefix,
            address,
            port,
        } => {
            let site = (*host, *prefix);
            match server_at(rt, alloc, site, (*address, *port), words.pace) {
                Ok(placed) => from_server(rt, alloc, mirror, keys, placed, words),
                Err(_) => (Err(PullFault::OutOfMemory), None),
            }
        }
    }
}

// Pulls from a server into the mirror, and returns the thing that a fault is about.
fn from_server<H: TreeHash, R: Clock + Eprint, D: Dial + Drop>(
    rt: &R,
    alloc: Global,
    mirror: &mut Mirror<H>,
    keys: &[Box<dyn Verifier>],
    placed: PlacedSource<'_, HttpSource<D>>,
    words: &Pull<'_>,
) -> (Result<Pulled, PullFault>, Option<Why>)
    ensures pulls { PullsTo H.digest (map (λ k. key k) keys.now) mirror.old.view mirror.new.view
        result.0 }
    ensures reads { words_of placed.entry.place ≡ words_of words.now.place
        → ReadsSource H.digest (map (λ k. key k) keys.now) words.now.place mirror.old.view
        mirror.new.view (words_of placed.entry.place) (λ path found. IsShortAnswer MAX_REPLY_LEN found)
        None None result.0 }
{
    let (pulled, why, source) = pull_placed(rt, alloc, mirror, keys, placed, words);
    write_waited(rt, alloc, words, source.source.waited());
    (pulled, why)
}

// Pulls from that source, whose place has to be that of the words. Returns the thing that a fault is about, and the source.
fn pull_placed<H: TreeHash, R: Clock + Eprint, S: Source + Failing + Drop>(
    rt: &R,
    alloc: Global,
    mirror: &mut Mirror<H>,
    keys: &[Box<dyn Verifier>],
    placed: PlacedSource<'_, S>,
    words: &Pull<'_>,
) -> (Result<Pulled, PullFault>, Option<Why>, WatchedSource<S>)
    ensures pulls { PullsTo H.digest (map (λ k. key k) keys.now) mirror.old.view mirror.new.view
        result.0 }
    ensures reads { words_of placed.entry.place ≡ words_of words.now.place
        → ReadsSource H.digest (map (λ k. key k) keys.now) words.now.place mirror.old.view
        mirror.new.view (words_of placed.entry.place) (S.may_answer placed.entry.source.source)
        (S.asked placed.entry.source.source) (S.asked result.2.source) result.0 }
{
    let PlacedSource { place, source } = placed;
    let (pulled, source) = pull_from(rt, alloc, mirror, keys, source, words.progress);
    let why = why_of(alloc, &place, &pulled, &source);
    (pulled, why, source)
}

// Writes the line about a wait for a busy server to standard error, if the words ask for lines.
fn write_waited<R: Eprint>(rt: &R, alloc: Global, words: &Pull<'_>, seconds: u64) {
    if words.progress {
        if let Ok(name) = place_name(alloc, &words.place) {
            print_waited(
                alloc,
                Task::Pull,
                seconds,
                &name,
                &mut StandardError::new(rt),
            );
        }
    }
}

// The thing that the end of a pull is about: a file of the place, or the place.
fn why_of<S: Source + Failing + Drop>(
    alloc: Global,
    place: &Place<'_>,
    pulled: &Result<Pulled, PullFault>,
    source: &WatchedSource<S>,
) -> Option<Why> {
    match pulled {
        Err(PullFault::Source) => of_source(alloc, place, source),
        Err(PullFault::NoCheckpoint) => of_file(alloc, place, &Path::Checkpoint, "not found"),
        Err(PullFault::Head(fault)) => of_refused(alloc, place, source, *fault),
        Err(PullFault::NoEdge) => of_edge(alloc, place, source),
        Err(PullFault::Collision) => of_place(alloc, place),
        Err(PullFault::OutOfMemory) | Ok(_) => None,
    }
}
