//! A run of `follow` that repairs the copy first.
ghost use Rattle.std.specs.Prelude.{◌≡◌, ℕ, List, IfErr, IfOk, Ok, OnOk, Option, Some, map, option_map, string_bytes};
ghost use Rattle.tlog_text.specs.Answers.{seen};
ghost use Rattle.signed_note.specs.Keys.{Key};
ghost use Rattle.tlog_tiles.specs.declared.paths.Path.TheVariants.{Checkpoint};
ghost use Rattle.mirror_folders.specs.Shelf.{Put, RecordsRead};
ghost use Rattle.mirror_sources.specs.Recorded.{KeepsRecord};
ghost use Rattle.program_copies.specs.Following.{ReadsNote, RunsFollow};
ghost use Rattle.program_copies.specs.Repairing.{CountsRepair, FollowsLost, IsRefused, Opens, OpensOwn, PrintsRepair, RepairsCopy, RunsOpen, RunsRepair, repaired_line};

use crate::follow_fault::FollowRunFault;
use crate::following::{Following, begin_run, follow_open};
use crate::hold::Hold;
use crate::repair_fault::{RepairFault, RepairRunFault};
use byte_streams::write_whole;
use copy_follow::{BringFault, Repaired, repair_copy};
use copy_places::{ForkLine, Places};
use log_reader::open_head;
use mirror_folders::{ReadableShelf, ShelfError};
use mirror_model::TakeFault;
use mirror_sources::Source;
use program_io::{CountedFolders, NamedFiles, Task, report_end, report_puts};
use signed_note::Verifier;
use std::alloc::{AllocError, Global};
use std::io::Write;
use tlog_hash::TreeHash;
use tlog_text::push_number;
use tlog_tiles::Path;

// The line of a repair, with the number of files that were put.
fn repaired_text(alloc: Global, put: u64) -> Result<String, AllocError>
    ensures { IfOk result (λ text. string_bytes text ≡ repaired_line put) }
{
    let mut text = String::new(alloc);
    text.push_str("repaired ")?;
    push_number(&mut text, put)?;
    text.push_str("\n")?;
    Ok(text)
}

// The bytes of the checkpoint in the open folder, if there is one.
fn read_own<D: ReadableShelf>(folders: &mut D) -> Result<Option<Vec<u8>>, RepairFault>
    ensures same { KeepsRecord (D.puts folders.old) (D.puts folders.new) }
    ensures counted { CountsRepair (D.failed folders.old) (D.failed folders.new) result }
    ensures read { IfOk result (λ found. RecordsRead (D.puts folders.old) Checkpoint
        (option_map (λ v. v.items) found)) }
    ensures refused { IfErr result (λ e. (origin : List ℕ) (keys : List Key)
        → IsRefused origin keys (D.puts folders.old) e) }
{
    match folders.read(&Path::Checkpoint) {
        Ok(found) => Ok(found),
        Err(ShelfError::Failed) => Err(RepairFault::Copy(BringFault::ShelfFault)),
        Err(ShelfError::OutOfMemory) => Err(RepairFault::Copy(BringFault::OutOfMemory)),
    }
}

// Opens the note under the keys.
fn open_note(
    alloc: Global,
    origin: &str,
    keys: &[Box<dyn Verifier>],
    note: &[u8],
) -> Result<(), RepairFault>
    ensures opens { OnOk result (Opens origin.now (map (λ k. key k) keys.now) note.now) }
    ensures counted { (n : ℕ) → CountsRepair n n result }
    ensures refused { IfErr result (λ e. (held : Option (List Put))
        → RecordsRead held Checkpoint (Some note.now)
        → IsRefused origin.now (map (λ k. key k) keys.now) held e) }
{
    match open_head(alloc, origin, keys, note) {
        Ok(checkpoint) => {
            drop(checkpoint);
            Ok(())
        }
        Err(TakeFault::OutOfMemory) => Err(RepairFault::Copy(BringFault::OutOfMemory)),
        Err(fault) => Err(RepairFault::Note(fault)),
    }
}

// The bytes of the checkpoint in the open folder, which opens under the keys. None: the folder has none.
fn open_own<D: ReadableShelf>(
    folders: &mut D,
    alloc: Global,
    origin: &str,
    keys: &[Box<dyn Verifier>],
) -> Result<Option<Vec<u8>>, RepairFault>
    ensures same { KeepsRecord (D.puts folders.old) (D.puts folders.new) }
    ensures counted { CountsRepair (D.failed folders.old) (D.failed folders.new) result }
    ensures opens { OpensOwn origin.now (map (λ k. key k) keys.now) (D.puts folders.old)
        (seen (option_map (λ v. v.items)) result) }
{
    let note = match read_own::<D>(folders) {
        Ok(Some(note)) => note,
        Ok(None) => return Ok(None),
        Err(fault) => return Err(fault),
    };
    match open_note(alloc, origin, keys, &note) {
        Ok(()) => Ok(Some(note)),
        Err(fault) => Err(fault),
    }
}

// Repairs the copy in the open folder. A folder without a checkpoint has nothing to repair.
fn repair_open<H: TreeHash, D: ReadableShelf, S: Source + Drop>(
    folders: &mut D,
    alloc: Global,
    origin: &str,
    keys: &[Box<dyn Verifier>],
    places: &mut Places<S>,
    repaired: &mut Repaired,
) -> Result<(), RepairFault>
    ensures { RepairsCopy H.digest S.may_answer S.failed S.asked origin.now
        (map (λ k. key k) keys.now) places.old places.new (D.puts folders.old)
        (D.puts folders.new) (D.failed folders.old) (D.failed folders.new) repaired.old
        repaired.new result }
{
    let note = match open_own::<D>(folders, alloc, origin, keys) {
        Ok(Some(note)) => note,
        Ok(None) => return Ok(()),
        Err(fault) => return Err(fault),
    };
    match repair_copy::<H, D, S>(alloc, origin, folders, places, &note, repaired) {
        Ok(()) => Ok(()),
        Err(fault) => Err(RepairFault::Copy(fault)),
    }
}

// The same, with lines of progress if they are requested. A repair that ends early has no last line.
fn repair_reporting<H: TreeHash, D: CountedFolders, S: Source + Drop>(
    folders: &mut D,
    alloc: Global,
    keys: &[Box<dyn Verifier>],
    following: &Following<'_>,
    places: &mut Places<S>,
    repaired: &mut Repaired,
) -> Result<(), RepairFault>
    ensures { RepairsCopy H.digest S.may_answer S.failed S.asked following.now.origin.now
        (map (λ k. key k) keys.now) places.old places.new (D.puts folders.old)
        (D.puts folders.new) (D.failed folders.old) (D.failed folders.new) repaired.old
        repaired.new result }
{
    report_puts::<D>(folders, following.progress, Task::Repair);
    let answer = repair_open::<H, D, S>(folders, alloc, following.origin, keys, places, repaired);
    report_end::<D>(folders, following.progress && answer.is_ok());
    answer
}

// Writes the line of a repair with this answer. False: it was not written whole.
fn print_repair<W: Write>(
    alloc: Global,
    put: u64,
    answer: Result<(), RepairFault>,
    output: &mut W,
) -> Result<bool, RepairRunFault>
    ensures { PrintsRepair put (W.contents output.old) (W.contents output.new) answer result }
{
    let Ok(line) = repaired_text(alloc, put) else {
        return Err(RepairRunFault::OutOfMemory);
    };
    match write_whole(output, line.as_bytes()) {
        Ok(()) => match answer {
            Ok(()) => Ok(true),
            Err(fault) => Err(RepairRunFault::Repair(fault)),
        },
        Err(_) => match answer {
            Ok(()) => Ok(false),
            Err(fault) => Err(RepairRunFault::RepairAndOutput(fault)),
        },
    }
}

// Follows the places into the open folder after the line of the repair could not be written. The rest of the output goes nowhere.
fn follow_unprinted<H: TreeHash, F: NamedFiles, D: CountedFolders, S: Source + Drop>(
    files: &mut F,
    folders: &mut D,
    alloc: Global,
    keys: &[Box<dyn Verifier>],
    following: &Following<'_>,
    places: &mut Places<S>,
    given: Option<Vec<u8>>,
    forks: &mut Vec<ForkLine>,
) -> FollowRunFault
    requires { ReadsNote (F.puts files.old)
        (option_map (λ name. name.now) following.now.checkpoint)
        (Ok (option_map (λ v. v.items) given)) }
    ensures { FollowsLost H.digest S.may_answer S.failed S.asked following.now.origin.now
        (map (λ k. key k) keys.now) places.old places.new
        (option_map (λ name. name.now) following.now.checkpoint)
        (option_map (λ name. name.now) following.now.forks) (D.puts folders.old)
        (D.puts folders.new) (D.failed folders.old) (D.failed folders.new) (F.puts files.old)
        (F.puts files.new) result }
{
    let mut lost = Vec::new(alloc);
    match follow_open::<H, F, D, S, Vec<u8>>(
        files, folders, alloc, keys, following, places, given, &mut lost, forks,
    ) {
        Ok(_) => FollowRunFault::WriteFault,
        Err(fault) => fault,
    }
}

// Repairs the copy in the open folder, writes the line, and follows the places.
fn repair_and_follow<H: TreeHash, F: NamedFiles, D: CountedFolders, S: Source + Drop, W: Write>(
    files: &mut F,
    folders: &mut D,
    alloc: Global,
    keys: &[Box<dyn Verifier>],
    following: &Following<'_>,
    places: &mut Places<S>,
    given: Option<Vec<u8>>,
    output: &mut W,
    repaired: &mut Repaired,
    forks: &mut Vec<ForkLine>,
) -> Result<u8, RepairRunFault>
    requires { ReadsNote (F.puts files.old)
        (option_map (λ name. name.now) following.now.checkpoint)
        (Ok (option_map (λ v. v.items) given)) }
    ensures { RunsOpen H.digest S.may_answer S.failed S.asked following.now.origin.now
        (map (λ k. key k) keys.now) places.old places.new
        (option_map (λ name. name.now) following.now.checkpoint)
        (option_map (λ name. name.now) following.now.forks) (D.puts folders.old)
        (D.puts folders.new) (D.failed folders.old) (D.failed folders.new) (F.puts files.old)
        (F.puts files.new) (W.contents output.old) (W.contents output.new) repaired.old
        repaired.new result }
{
    let answer = repair_reporting::<H, D, S>(folders, alloc, keys, following, places, repaired);
    let printed = match print_repair(alloc, repaired.put(), answer, output) {
        Ok(printed) => printed,
        Err(fault) => return Err(fault),
    };
    if printed {
        match follow_open::<H, F, D, S, W>(
            files, folders, alloc, keys, following, places, given, output, forks,
        ) {
            Ok(status) => Ok(status),
            Err(fault) => Err(RepairRunFault::Followed(fault)),
        }
    } else {
        let fault = follow_unprinted::<H, F, D, S>(
            files, folders, alloc, keys, following, places, given, forks,
        );
        Err(RepairRunFault::Unprinted(fault))
    }
}

/// Repairs the copy in the folder, and then does what `run_follow` does. The named note is read first, if there is one, and the folder is held.
/// Then the copy's checkpoint has to open under the keys, and `copy_follow::repair_copy` repairs the copy under it. A folder without a
/// checkpoint has nothing to repair. Then the line `repaired N` is written, with the number of files that were put, 0 too. It is written
/// also where the repair fails, and it is followed by the output of `run_follow`. `repaired` gets what the repair did, and
/// `forks` the forks of the result.
///
/// If that line cannot be written, the copy is followed nevertheless, and the evidence of its forks is put.
///
/// ```text
/// let mut repaired = Repaired::new(alloc);
/// run_repair::<Sha256Tree, _, _, _, _, _>(&mut files, &mut folders, alloc, &keys, &following, &mut places, &mut hold, &mut output, &mut repaired, &mut forks)?
/// // 0, and the output is:
/// //   repaired 1
/// //   followed 600 CtTvclx+BXrchsWIiLJB6woH1kdkUrIootoUMsQZBJA= from 600
/// ```
///
/// # Errors
///
/// In this order. `Early`, with `File`, `CopyInUse` and `OutOfMemory` of `run_follow`: nothing is put or written. `OutOfMemory`: memory for the
/// line was refused, after the repair. `Repair`: the copy's checkpoint does not open (`Note`), or the folder failed, or the repair ended with its
/// fault (`Copy`); files that were put before stay. `RepairAndOutput`: the same, and the line was not written. `Followed`, with
/// `Follow`, `Evidence`, `EvidenceAndOutput` and `WriteFault` of `run_follow`, after the repair. `Unprinted`: the line was not written, and this is
/// the fault of what came after it, or `WriteFault`.
pub fn run_repair<
    H: TreeHash,
    F: NamedFiles,
    D: CountedFolders,
    S: Source + Drop,
    L: Hold,
    W: Write,
>(
    files: &mut F,
    folders: &mut D,
    alloc: Global,
    keys: &[Box<dyn Verifier>],
    following: &Following<'_>,
    places: &mut Places<S>,
    hold: &mut L,
    output: &mut W,
    repaired: &mut Repaired,
    forks: &mut Vec<ForkLine>,
) -> Result<u8, RepairRunFault>
    ensures { RunsRepair H.digest S.may_answer S.failed S.asked following.now.origin.now
        (map (λ k. key k) keys.now) places.old places.new
        (option_map (λ name. name.now) following.now.checkpoint)
        (option_map (λ name. name.now) following.now.forks)
        (D.held folders.old following.now.folder.now) (D.puts folders.old) (D.puts folders.new)
        (D.failed folders.old) (D.failed folders.new) (F.puts files.old) (F.puts files.new)
        (W.contents output.old) (W.contents output.new) repaired.old repaired.new result }
{
    let given = match begin_run::<F, D, L>(files, folders, following, hold) {
        Ok(given) => given,
        Err(fault) => return Err(RepairRunFault::Early(fault)),
    };
    repair_and_follow::<H, F, D, S, W>(
        files, folders, alloc, keys, following, places, given, output, repaired, forks,
    )
}
