//! The lines of `--why` about the copy and the places.
ghost use Rattle.std.specs.Prelude.{IfOk, OnOk, string_bytes};
ghost use Rattle.program_io.specs.FileWhy.{IsWhyLine};
ghost use Rattle.program_copies.specs.Whys.{AreWhyLines};

use base64::engine::general_purpose::STANDARD;
use copy_places::{ForkLine, Place, Places, Wrong, WrongFile};
use log_reader::open_head;
use mirror_client::Reason;
use mirror_folders::{DamagedFile, ReadableShelf};
use mirror_model::TakeFault;
use program_io::{Answered, FailedAt, WatchedPlace, system_reason, why_line};
use signed_note::Verifier;
use std::alloc::{AllocError, Global};
use tlog_hash::Hash;
use tlog_tiles::Path;

// The number of a root's bytes that a line has.
const FRONT_LEN: usize = 3;

// The reason why a file is wrong.
fn reason_of_get(alloc: Global, reason: &Reason) -> Result<String, AllocError> {
    match reason {
        Reason::Connection(error) | Reason::Stream(error) => system_reason(alloc, error),
        reason => reason.to_string(alloc),
    }
}

// The reason why the first get from a place failed.
fn reason_of_failed(alloc: Global, failed: Option<FailedAt>) -> Result<String, AllocError> {
    match failed {
        Some(FailedAt::File(file)) => system_reason(alloc, &file.error),
        Some(FailedAt::Get(get)) => reason_of_get(alloc, &get.reason),
        None => String::from_str(alloc, "failed"),
    }
}

// The reason why a file is false: it does not fit the checkpoint for which the place was asked. It may fit the place's own. In a repair that
// is the copy's, which is not named.
fn reason_of_false(alloc: Global, tried: Option<(u64, Hash)>) -> Result<String, AllocError> {
    let Some(tried) = tried else {
        return String::from_str(alloc, "false");
    };
    let size = tried.0;
    let root = tried.1;
    let mut text = format!(in alloc; "false for checkpoint {size} ")?;
    STANDARD.encode_string(&root[..FRONT_LEN], &mut text)?;
    text.push_str("..")?;
    Ok(text)
}

// The reason why the first wrong file of a place is wrong.
fn reason_of_file<S: WatchedPlace>(
    alloc: Global,
    source: &S,
    file: &WrongFile,
) -> Result<String, AllocError> {
    match file.wrong {
        Wrong::NotFound => String::from_str(alloc, "not found"),
        Wrong::False => reason_of_false(alloc, file.tried),
        Wrong::Failed => reason_of_failed(alloc, source.first_failed()),
    }
}

// The reason why a note is no checkpoint of the origin under the keys, if it is none.
fn reason_of_head(
    alloc: Global,
    origin: &str,
    keys: &[Box<dyn Verifier>],
    note: &[u8],
) -> Result<Option<String>, AllocError> {
    match open_head(alloc, origin, keys, note) {
        Ok(_) => Ok(None),
        Err(TakeFault::OutOfMemory) => Err(AllocError),
        Err(fault) => Ok(Some(fault.to_string(alloc)?)),
    }
}

// The reason why a place's checkpoint is wrong, if it is: it is missing, or its note is no candidate.
fn reason_of_note<S: WatchedPlace>(
    alloc: Global,
    origin: &str,
    keys: &[Box<dyn Verifier>],
    source: &S,
) -> Result<Option<String>, AllocError> {
    match source.answered() {
        Answered::Nothing => Ok(None),
        Answered::NotFound => Ok(Some(String::from_str(alloc, "not found")?)),
        Answered::Note(note) => reason_of_head(alloc, origin, keys, note),
    }
}

// The reason why the copy's note is no evidence under the keys, if the fork has it. Each other note is that of a candidate, which opened.
fn reason_of_fork(
    alloc: Global,
    origin: &str,
    keys: &[Box<dyn Verifier>],
    fork: &ForkLine,
) -> Result<Option<String>, AllocError> {
    match reason_of_head(alloc, origin, keys, &fork.small.note)? {
        Some(reason) => Ok(Some(reason)),
        None => reason_of_head(alloc, origin, keys, &fork.large.note),
    }
}

// The same for the first such fork.
fn reason_of_forks(
    alloc: Global,
    origin: &str,
    keys: &[Box<dyn Verifier>],
    forks: &[ForkLine],
) -> Result<Option<String>, AllocError> {
    for fork in forks {
        if let Some(reason) = reason_of_fork(alloc, origin, keys, fork)? {
            return Ok(Some(reason));
        }
    }
    Ok(None)
}

// The line about a file of a place, with a reason.
fn line_of(alloc: Global, name: &str, path: &Path, reason: &str) -> Result<String, AllocError>
    ensures { IfOk result (λ line. IsWhyLine (string_bytes line)) }
{
    let thing = format!(in alloc; "{name}: {path}")?;
    why_line(alloc, &thing, reason)
}

// Adds the line about a file of a place, with a reason.
#[tactic(auto, using(crate::proofs::Whys::whys_more))]
fn push_line(
    alloc: Global,
    text: &mut String,
    name: &str,
    path: &Path,
    reason: &str,
) -> Result<(), AllocError>
    requires { AreWhyLines (string_bytes text.old) }
    ensures { OnOk result (AreWhyLines (string_bytes text.new)) }
{
    let line = line_of(alloc, name, path, reason)?;
    text.push_str(&line)
}

// Adds the line about the first thing that was wrong at a place, if anything was.
fn push_place<S: WatchedPlace + Drop>(
    alloc: Global,
    text: &mut String,
    origin: &str,
    keys: &[Box<dyn Verifier>],
    place: &Place<S>,
) -> Result<(), AllocError>
    requires { AreWhyLines (string_bytes text.old) }
    ensures { OnOk result (AreWhyLines (string_bytes text.new)) }
{
    let source = place.source();
    if let Some(reason) = reason_of_note(alloc, origin, keys, source)? {
        return push_line(alloc, text, source.name(), &Path::Checkpoint, &reason);
    }
    let Some(file) = place.first_wrong() else {
        return Ok(());
    };
    let reason = reason_of_file(alloc, source, &file)?;
    push_line(alloc, text, source.name(), &file.path, &reason)
}

// Adds the line about a file of the copy.
fn push_damaged(
    alloc: Global,
    text: &mut String,
    folder: &str,
    damaged: &DamagedFile,
) -> Result<(), AllocError>
    requires { AreWhyLines (string_bytes text.old) }
    ensures { OnOk result (AreWhyLines (string_bytes text.new)) }
{
    let reason = if damaged.is_missing {
        "not found"
    } else {
        "false"
    };
    push_line(alloc, text, folder, &damaged.path, reason)
}

// Adds the lines about the files that a repair names.
fn push_repaired(
    alloc: Global,
    text: &mut String,
    folder: &str,
    repaired: &[DamagedFile],
) -> Result<(), AllocError>
    requires { AreWhyLines (string_bytes text.old) }
    ensures { OnOk result (AreWhyLines (string_bytes text.new)) }
{
    for damaged in repaired {
        push_damaged(alloc, text, folder, damaged)?;
    }
    Ok(())
}

// Adds the lines about the copy: the files that a repair names, or else the first file that was missing or false, if there was one.
fn push_copy<D: ReadableShelf>(
    alloc: Global,
    text: &mut String,
    folder: &str,
    shelf: &D,
    repaired: &[DamagedFile],
) -> Result<(), AllocError>
    requires { AreWhyLines (string_bytes text.old) }
    ensures { OnOk result (AreWhyLines (string_bytes text.new)) }
{
    if !repaired.is_empty() {
        return push_repaired(alloc, text, folder, repaired);
    }
    match shelf.first_damaged() {
        Some(damaged) => push_damaged(alloc, text, folder, &damaged),
        None => Ok(()),
    }
}

// Adds the line about the copy's checkpoint, if its note is in a fork and does not open under the keys. The copy was made under others. A run
// judges its files, and not its note's signatures.
fn push_forks(
    alloc: Global,
    text: &mut String,
    origin: &str,
    keys: &[Box<dyn Verifier>],
    folder: &str,
    forks: &[ForkLine],
) -> Result<(), AllocError>
    requires { AreWhyLines (string_bytes text.old) }
    ensures { OnOk result (AreWhyLines (string_bytes text.new)) }
{
    match reason_of_forks(alloc, origin, keys, forks)? {
        Some(reason) => push_line(alloc, text, folder, &Path::Checkpoint, &reason),
        None => Ok(()),
    }
}

/// The lines about the copy and the places of a run, in the order of the command's words. Each one at which something was wrong has one
/// line, about the first such thing. A false file is named with the size and the beginning of the root of the checkpoint that it does not
/// fit, unless a repair asked for it: then it does not fit the copy's. After a repair the copy has a line for each file of `repaired`, the damaged files that the repair names.
/// It has one more line if its note is in one of the forks, and does not open under the keys: then it is evidence only under those with
/// which the copy was made. Each line has at most 200 bytes with its newline, and no control character.
///
/// ```text
/// copy: tile/entries/000.p/3: false
/// copy: checkpoint: NoTrustedSignature
/// place: checkpoint: NoTrustedSignature
/// log.example:80/2026: tile/entries/001: not found
/// mirror: tile/entries/001: false for checkpoint 600 CtTv..
/// other.example:80: tile/1/000: status 503
/// ```
///
/// # Errors
///
/// `AllocError`: memory was refused.
#[tactic(auto, using(crate::proofs::Whys::no_whys))]
pub fn follow_why<D: ReadableShelf, S: WatchedPlace + Drop>(
    alloc: Global,
    origin: &str,
    folder: &str,
    keys: &[Box<dyn Verifier>],
    shelf: &D,
    places: &Places<S>,
    repaired: &[DamagedFile],
    forks: &[ForkLine],
) -> Result<String, AllocError>
    ensures { IfOk result (λ text. AreWhyLines (string_bytes text)) }
{
    let mut text = String::new(alloc);
    push_copy::<D>(alloc, &mut text, folder, shelf, repaired)?;
    push_forks(alloc, &mut text, origin, keys, folder, forks)?;
    for place in places.list() {
        push_place(alloc, &mut text, origin, keys, place)?;
    }
    Ok(text)
}
