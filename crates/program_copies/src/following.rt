//! The command `follow`: brings a copy in a folder to the newest checkpoint of some places.
ghost use Rattle.std.specs.Prelude.{◌≡◌, ◌⊎◌, All, IfErr, IfOk, List, None, Ok, Option, map, option_map};
ghost use Rattle.tlog_text.specs.Answers.{seen};
ghost use Rattle.tlog_tiles.specs.declared.paths.Path.TheVariants.{Checkpoint};
ghost use Rattle.copy_places.specs.AskedOnce.{AsksEachOnce};
ghost use Rattle.copy_places.specs.Requests.{IsGivenOrMayGive};
ghost use Rattle.copy_places.specs.GatheredFrom.{AreCandidates, AreFirstCandidates};
ghost use Rattle.copy_places.specs.Shown.{ShowsLine};
ghost use Rattle.copy_follow.specs.Blame.{CountsFollow};
ghost use Rattle.copy_follow.specs.Ending.{EndsFor, EndsOnce};
ghost use Rattle.copy_follow.specs.declared.follow_fault.FollowFault.{FollowFault};
ghost use Rattle.copy_follow.specs.OneHonestRun.{IsHonestAmong, IsHonestRun, ReachesLog, ReachesSize};
ghost use Rattle.copy_follow.specs.Runs.{FollowsCandidates};
ghost use Rattle.copy_follow.specs.Says.{Says};
ghost use Rattle.copy_follow.specs.RunStanding.{IsFollowed};
ghost use Rattle.copy_follow.specs.Told.{TellsLarger};
ghost use Rattle.mirror_folders.specs.Shelf.{Put, RecordsRead};
ghost use Rattle.program_copies.specs.Following.{EndsBefore, EndsByRunLook, LooksRun, PrintsDone, ReadsNote, RunsFollow};

use crate::evidence::write_evidence;
use crate::follow_fault::FollowRunFault;
use crate::hold::{Hold, HoldFault};
use crate::text::{followed_status, followed_text};
use byte_streams::write_whole;
use copy_follow::{FollowFault, Followed, follow};
use copy_places::{ForkLine, Places};
use mirror_sources::Source;
use program_io::{CountedFolders, NamedFault, NamedFiles, Task, report_puts};
use signed_note::Verifier;
use std::alloc::Global;
use std::io::Write;
use tlog_hash::TreeHash;

/// The log to follow, and the folders of the result.
#[derive(Clone, Copy)]
pub struct Following<'a> {
    /// The origin of the log.
    pub origin: &'a str,
    /// The folder of the copy.
    pub folder: &'a str,
    /// The file of the note to follow, if the places are not asked for checkpoints.
    pub checkpoint: Option<&'a str>,
    /// The folder for the evidence of forks, if any.
    pub forks: Option<&'a str>,
    /// Whether lines of progress are written.
    pub progress: bool,
}

// The given note: the bytes of its file, if one is named.
fn read_given<F: NamedFiles>(files: &F, name: Option<&str>) -> Result<Option<Vec<u8>>, NamedFault>
    ensures { ReadsNote (F.puts files.now) (option_map (λ name. name.now) name.entry)
        (seen (option_map (λ bytes. bytes.items)) result) }
{
    let Some(name) = name else {
        return Ok(None);
    };
    match files.read(name) {
        Ok(bytes) => Ok(Some(bytes)),
        Err(fault) => Err(fault),
    }
}

// Ends the lines of progress of an answer, if they are requested.
fn end_lines<D: CountedFolders>(
    folders: &mut D,
    progress: bool,
    done: &Result<Followed, FollowFault>,
)
    ensures puts { D.puts folders.new ≡ D.puts folders.old }
    ensures failed { D.failed folders.new ≡ D.failed folders.old }
{
    if progress {
        if let Ok(done) = done {
            if let Some(copy) = &done.copy {
                folders.end_followed(done.old, copy.0);
            }
        }
    }
}

// Follows the places into the open folder, with lines of progress if they are requested.
fn follow_reporting<H: TreeHash, D: CountedFolders, S: Source + Drop>(
    folders: &mut D,
    alloc: Global,
    keys: &[Box<dyn Verifier>],
    following: &Following<'_>,
    places: &mut Places<S>,
    given: Option<Vec<u8>>,
) -> Result<Followed, FollowFault>
    ensures whole { FollowsCandidates H.digest following.now.origin.now
        (map (λ k. key k) keys.now)
        (IsGivenOrMayGive S.may_answer (option_map (λ v. v.items) given) places.old)
        (D.puts folders.old) (D.puts folders.new) }
    ensures brought { IfOk result (IsFollowed H.digest following.now.origin.now
        (D.puts folders.old) (D.puts folders.new)) }
    ensures forks { IfOk result (λ done. All (ShowsLine H.digest) done.forks.items) }
    ensures says { IfOk result (Says H.digest following.now.origin.now
        (AreFirstCandidates S.may_answer S.failed S.asked following.now.origin.now
        (map (λ k. key k) keys.now) places.old places.new (option_map (λ v. v.items) given))
        (D.puts folders.old) (D.puts folders.new)) }
    ensures ends { IfErr result (EndsFor H.digest S.may_answer following.now.origin.now
        (map (λ k. key k) keys.now) (D.puts folders.old) places.old places.new
        (option_map (λ v. v.items) given)) }
    ensures looks { IfErr result (EndsByRunLook D.puts (IsGivenOrMayGive S.may_answer
        (option_map (λ v. v.items) given) places.old) (D.puts folders.old)) }
    ensures passed { IfErr result (EndsOnce (AsksEachOnce S.asked (λ k path. path ≡ Checkpoint)
        places.old places.new) (RecordsRead (D.puts folders.old) Checkpoint None)) }
    ensures counted { CountsFollow (D.failed folders.old) (D.failed folders.new) result }
    ensures suffices { (h : IsHonestRun H.digest S.may_answer (D.puts folders.old) places.old
        places.new following.now.origin.now (AreCandidates S.may_answer following.now.origin.now
        (map (λ k. key k) keys.now) places.old places.new (option_map (λ v. v.items) given)))
        → ReachesLog H.digest h.entries h.size result }
    ensures reaches { (h : IsHonestAmong H.digest S.may_answer (D.puts folders.new) places.old
        places.new following.now.origin.now (D.puts folders.old)
        (AreCandidates S.may_answer following.now.origin.now (map (λ k. key k) keys.now)
        places.old places.new (option_map (λ v. v.items) given))) → ReachesSize h.size result }
    ensures tells { IfOk result (TellsLarger H.digest S.may_answer S.failed S.asked
        places.old places.new) }
{
    report_puts::<D>(folders, following.progress, Task::Follow);
    let done = follow::<H, D, S>(alloc, following.origin, keys, folders, places, given);
    end_lines::<D>(folders, following.progress, &done);
    done
}

// Holds and opens the folder.
fn open_held<D: CountedFolders, L: Hold>(
    folders: &mut D,
    folder: &str,
    hold: &mut L,
) -> Result<(), HoldFault>
    ensures opened { IfOk result (λ _. D.puts folders.new ≡ D.held folders.old folder.now) }
    ensures same { IfErr result (λ _. D.puts folders.new ≡ D.puts folders.old) }
    ensures counted { D.failed folders.new ≡ D.failed folders.old }
{
    match hold.hold(folder) {
        Ok(()) => {}
        Err(fault) => return Err(fault),
    }
    match folders.open(folder) {
        Ok(()) => Ok(()),
        Err(_) => Err(HoldFault::OutOfMemory),
    }
}

/// Reads the named note, if there is one, and then holds and opens the folder of the copy.
pub(crate) fn begin_run<F: NamedFiles, D: CountedFolders, L: Hold>(
    files: &F,
    folders: &mut D,
    following: &Following<'_>,
    hold: &mut L,
) -> Result<Option<Vec<u8>>, FollowRunFault>
    ensures read { IfOk result (λ given. ReadsNote (F.puts files.now)
        (option_map (λ name. name.now) following.now.checkpoint)
        (Ok (option_map (λ v. v.items) given))) }
    ensures opened { IfOk result
        (λ _. D.puts folders.new ≡ D.held folders.old following.now.folder.now) }
    ensures early { IfErr result (EndsBefore (F.puts files.now)
        (option_map (λ name. name.now) following.now.checkpoint) (D.puts folders.old)
        (D.puts folders.new)) }
    ensures counted { D.failed folders.new ≡ D.failed folders.old }
{
    let given = match read_given(files, following.checkpoint) {
        Ok(given) => given,
        Err(fault) => return Err(FollowRunFault::File(fault)),
    };
    match open_held::<D, L>(folders, following.folder, hold) {
        Ok(()) => Ok(given),
        Err(HoldFault::CopyInUse) => Err(FollowRunFault::CopyInUse),
        Err(HoldFault::OutOfMemory) => Err(FollowRunFault::OutOfMemory),
    }
}

// Puts the evidence of the result's forks, and then writes its text, whether or not the evidence was put. Returns the exit status.
fn report_done<F: NamedFiles, W: Write>(
    files: &mut F,
    alloc: Global,
    keys: &[Box<dyn Verifier>],
    following: &Following<'_>,
    done: &Followed,
    output: &mut W,
) -> Result<u8, FollowRunFault>
    ensures tells { PrintsDone following.now.origin.now (map (λ k. key k) keys.now)
        (option_map (λ name. name.now) following.now.forks) done.now
        (F.puts files.old) (F.puts files.new) (W.contents output.old) (W.contents output.new)
        result }
    ensures status { IfOk result (λ status. (status ≡ 0) ⊎ (status ≡ 3)) }
{
    let Ok(text) = followed_text(alloc, done) else {
        return Err(FollowRunFault::Follow(FollowFault::OutOfMemory));
    };
    match write_evidence(
        files,
        alloc,
        following.origin,
        keys,
        following.forks,
        &done.forks,
    ) {
        Ok(()) => match write_whole(output, text.as_bytes()) {
            Ok(()) => Ok(followed_status(done)),
            Err(_) => Err(FollowRunFault::WriteFault),
        },
        Err(fault) => match write_whole(output, text.as_bytes()) {
            Ok(()) => Err(FollowRunFault::Evidence(fault)),
            Err(_) => Err(FollowRunFault::EvidenceAndOutput(fault)),
        },
    }
}

// The forks of a result.
fn forks_of(done: Followed) -> Vec<ForkLine> {
    let Followed {
        copy: _,
        old: _,
        forks,
        larger,
        behind: _,
    } = done;
    drop(larger);
    forks
}

/// Follows the places into the open folder, and reports the result, after the named note was read. `forks` gets the forks of the result.
pub(crate) fn follow_open<
    H: TreeHash,
    F: NamedFiles,
    D: CountedFolders,
    S: Source + Drop,
    W: Write,
>(
    files: &mut F,
    folders: &mut D,
    alloc: Global,
    keys: &[Box<dyn Verifier>],
    following: &Following<'_>,
    places: &mut Places<S>,
    given: Option<Vec<u8>>,
    output: &mut W,
    forks: &mut Vec<ForkLine>,
) -> Result<u8, FollowRunFault>
    requires { ReadsNote (F.puts files.old)
        (option_map (λ name. name.now) following.now.checkpoint)
        (Ok (option_map (λ v. v.items) given)) }
    ensures looks { LooksRun D.puts S.may_answer (F.puts files.old)
        (option_map (λ name. name.now) following.now.checkpoint) places.old
        (D.puts folders.old) result }
    ensures runs { (before : Option (List Put)) → RunsFollow H.digest S.may_answer S.failed S.asked
        following.now.origin.now (map (λ k. key k) keys.now) places.old places.new
        (option_map (λ name. name.now) following.now.checkpoint)
        (option_map (λ name. name.now) following.now.forks) (D.puts folders.old)
        before (D.puts folders.new) (D.failed folders.old) (D.failed folders.new)
        (F.puts files.old) (F.puts files.new) (W.contents output.old) (W.contents output.new)
        result }
{
    match follow_reporting::<H, D, S>(folders, alloc, keys, following, places, given) {
        Ok(done) => {
            let answer = report_done(files, alloc, keys, following, &done, output);
            *forks = forks_of(done);
            answer
        }
        Err(fault) => Err(FollowRunFault::Follow(fault)),
    }
}

/// Brings the copy in the folder to the newest checkpoint that the places give, as `copy_follow::follow` does. Then, if a folder for
/// evidence is named, writes the evidence of each fork: both notes as `SIZE-ROOT-0.note`, and the proof, which the command `check` reads, as
/// `SMALL-ROOT-LARGE-ROOT.proof`. A file that stands there stays if it serves: it is the proof, the note, or another note of that size and root
/// that opens under the keys. Else it is replaced. Last writes the result to the output, in the form of `followed_text`, also if the evidence
/// was not written. Returns the exit status: 3 if there is a fork, or a larger candidate to which the copy could not be brought, else 0.
///
/// If the file of a note is named, that note is the only candidate, and no place is asked for its checkpoint. Once it was read, the folder of
/// the copy is held, before it is read. `forks` gets the forks of the result.
///
/// ```text
/// let following = Following { origin: "ex", folder: "log", checkpoint: None, forks: Some("forks"), progress: false };
/// let mut hold = SystemHold::new(&rt, alloc);
/// run_follow::<Sha256Tree, _, _, _, _, _>(&mut files, &mut folders, alloc, &keys, &following, &mut places, &mut hold, &mut output, &mut forks)? // 0
/// ```
///
/// # Errors
///
/// In this order. `File`: the named file of a note could not be read. `CopyInUse`: another run holds the folder. `OutOfMemory`: memory for the
/// folder's name was refused. Nothing is put at these three. `Follow`, with the faults of `copy_follow::follow`: files that were put before stay; or memory for the text was
/// refused, and no evidence is put. `Evidence`: not all of the evidence was put or flushed, but the output was written.
/// `EvidenceAndOutput`: neither was. `WriteFault`: the output could not be written, but the evidence was.
pub fn run_follow<
    H: TreeHash,
    F: NamedFiles,
    D: CountedFolders,
    S: Source + Drop,
    L: Hold,
    W: Write,
>(
    files: &mut F,
    folders: &mut D,
    alloc: Global,
    keys: &[Box<dyn Verifier>],
    following: &Following<'_>,
    places: &mut Places<S>,
    hold: &mut L,
    output: &mut W,
    forks: &mut Vec<ForkLine>,
) -> Result<u8, FollowRunFault>
    ensures looks { LooksRun D.puts S.may_answer (F.puts files.old)
        (option_map (λ name. name.now) following.now.checkpoint) places.old
        (D.held folders.old following.now.folder.now) result }
    ensures runs { RunsFollow H.digest S.may_answer S.failed S.asked following.now.origin.now
        (map (λ k. key k) keys.now) places.old places.new
        (option_map (λ name. name.now) following.now.checkpoint)
        (option_map (λ name. name.now) following.now.forks)
        (D.held folders.old following.now.folder.now) (D.puts folders.old) (D.puts folders.new)
        (D.failed folders.old) (D.failed folders.new) (F.puts files.old) (F.puts files.new)
        (W.contents output.old) (W.contents output.new) result }
{
    let given = match begin_run::<F, D, L>(files, folders, following, hold) {
        Ok(given) => given,
        Err(fault) => return Err(fault),
    };
    follow_open::<H, F, D, S, W>(
        files, folders, alloc, keys, following, places, given, output, forks,
    )
}
