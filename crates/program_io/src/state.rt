//! Reads mirrors from state files, and writes their states.
ghost use Rattle.std.specs.Prelude.{◌≡◌, ◌↔◌, IfOk, IsTrue, Some, map, option_map};
ghost use Rattle.mirror_files.specs.StateText.{StateText};
ghost use Rattle.tlog_text.specs.Answers.{seen};
ghost use Rattle.program_io.specs.Saved.{HoldsState, IsSaved};
ghost use Rattle.program_io.specs.States.{BeginsWith, OpensFile, SavesFile};

use crate::origin::check_origin;
use crate::state_fault::StateFault;
use crate::{NamedFault, NamedFiles};
use mirror_files::{LoadFault, is_as_saved, load_bytes, refused_note, save};
use signed_note::Verifier;
use std::alloc::{AllocError, Global};
use tlog_hash::TreeHash;
use tlog_mirror::Mirror;

/// The mirror in a state file.
///
/// ```text
/// let mirror: Mirror<Sha256Tree> = open_state(&files, alloc, "example.com/log", &keys, "log.state")?;
/// ```
///
/// # Errors
///
/// The first that applies: `Origin`, as for `Mirror::new`; `File` if the file is not read; `Load`, with the fault of
/// `mirror_files::load_bytes`. Each of them may hold `OutOfMemory`. The files keep which note a `StateHead` or a
/// `StateEdge` is about, or the origin for `OtherOrigin`.
pub fn open_state<H: TreeHash, F: NamedFiles>(
    files: &F,
    alloc: Global,
    origin: &str,
    keys: &[Box<dyn Verifier>],
    name: &str,
) -> Result<Mirror<H>, StateFault>
    ensures { OpensFile H.digest origin.now (map (λ k. key k) keys.now) (F.puts files.now) name.now
        (seen (λ mirror. mirror.view) result) }
{
    match open_as_saved::<H, F>(files, alloc, origin, keys, name) {
        Ok((mirror, _)) => Ok(mirror),
        Err(fault) => Err(fault),
    }
}

// The mirror in a state file, and whether the file has the bytes that a save of this mirror writes.
fn open_as_saved<H: TreeHash, F: NamedFiles>(
    files: &F,
    alloc: Global,
    origin: &str,
    keys: &[Box<dyn Verifier>],
    name: &str,
) -> Result<(Mirror<H>, bool), StateFault>
    ensures opens { OpensFile H.digest origin.now (map (λ k. key k) keys.now) (F.puts files.now)
        name.now (seen (λ opened. opened.0.view) result) }
    ensures saved { IfOk result (λ opened. IsTrue opened.1
        → HoldsState opened.0.view name.now (F.puts files.now)) }
{
    match check_origin(alloc, origin) {
        Ok(()) => {}
        Err(fault) => return Err(StateFault::Origin(fault)),
    }
    let state = match files.read_state(name) {
        Ok(state) => state,
        Err(fault) => return Err(StateFault::File(fault)),
    };
    let is_saved = is_as_saved(&state);
    match load_bytes::<H>(alloc, origin, keys, &state) {
        Ok(mirror) => Ok((mirror, is_saved)),
        Err(fault) => {
            keep_reason::<H, F>(files, alloc, origin, keys, (name, &state), fault);
            Err(StateFault::Load(fault))
        }
    }
}

// Keeps what is wrong with a state, which is given by its name and bytes: its origin, or one of its notes.
fn keep_reason<H: TreeHash, F: NamedFiles>(
    files: &F,
    alloc: Global,
    origin: &str,
    keys: &[Box<dyn Verifier>],
    state: (&str, &[u8]),
    fault: LoadFault,
) {
    let (name, bytes) = state;
    let reason = match fault {
        LoadFault::OtherOrigin => origin_reason(alloc, bytes),
        LoadFault::StateHead | LoadFault::StateEdge => {
            note_reason::<H>(alloc, origin, keys, bytes)
        }
        _ => None,
    };
    match reason {
        Some(reason) => files.keep_reason(name, reason),
        None => files.keep_reason(name, String::new(alloc)),
    }
}

// The reason for a state of another origin: it says which origin.
fn origin_reason(alloc: Global, state: &[u8]) -> Option<String> {
    let origin = origin_in(state)?;
    format!(in alloc; "its origin is {origin}").ok()
}

// The origin of a state. It follows the first eight bytes of the state, and its own length in two bytes.
fn origin_in(state: &[u8]) -> Option<&str> {
    if state.len() < 10 {
        return None;
    }
    let len = u16::from_be_bytes([state[8], state[9]]) as usize;
    let (_, rest) = state.split_at(10);
    if rest.len() < len {
        return None;
    }
    let (origin, _) = rest.split_at(len);
    str::from_utf8(origin).ok()
}

// The reason for a refused note of a state: it names the note.
fn note_reason<H: TreeHash>(
    alloc: Global,
    origin: &str,
    keys: &[Box<dyn Verifier>],
    state: &[u8],
) -> Option<String> {
    match refused_note::<H>(alloc, origin, keys, state) {
        Ok(Some(note)) => note.name(alloc).ok(),
        _ => None,
    }
}

/// The mirror in the named state file, or an empty one if no file is named.
///
/// ```text
/// let mirror: Mirror<Sha256Tree> = open_or_new(&files, alloc, "example.com/log", &keys, None)?;
/// ```
///
/// # Errors
///
/// Those of `open_state`.
pub fn open_or_new<H: TreeHash, F: NamedFiles>(
    files: &F,
    alloc: Global,
    origin: &str,
    keys: &[Box<dyn Verifier>],
    state: Option<&str>,
) -> Result<Mirror<H>, StateFault>
    ensures { BeginsWith H.digest origin.now (map (λ k. key k) keys.now) (F.puts files.now)
        (option_map (λ name. name.now) state.entry) (seen (λ mirror. mirror.view) result) }
{
    match state {
        Some(name) => open_state::<H, F>(files, alloc, origin, keys, name),
        None => match Mirror::new(alloc, origin) {
            Ok(mirror) => Ok(mirror),
            Err(fault) => Err(StateFault::Origin(fault)),
        },
    }
}

/// The mirror, as by `open_or_new`, and whether it is already saved in the file `out`: `out` is the file that was read, and it
/// has the bytes that a save of the mirror writes. If so, the mirror need not be saved until it gains something.
///
/// ```text
/// let (mirror, is_saved): (Mirror<Sha256Tree>, bool) =
///     open_to_save(&files, alloc, "example.com/log", &keys, Some("log.state"), "log.state")?;
/// ```
///
/// # Errors
///
/// Those of `open_state`.
pub fn open_to_save<H: TreeHash, F: NamedFiles>(
    files: &F,
    alloc: Global,
    origin: &str,
    keys: &[Box<dyn Verifier>],
    state: Option<&str>,
    out: &str,
) -> Result<(Mirror<H>, bool), StateFault>
    ensures begins { BeginsWith H.digest origin.now (map (λ k. key k) keys.now) (F.puts files.now)
        (option_map (λ name. name.now) state.entry) (seen (λ opened. opened.0.view) result) }
    ensures saved { IfOk result (λ opened. IsTrue opened.1 → IsSaved
        (option_map (λ name. name.now) state.entry) opened.0.view out.now (F.puts files.now)) }
{
    match state {
        Some(name) => open_named::<H, F>(files, alloc, origin, keys, name, out),
        None => match Mirror::new(alloc, origin) {
            Ok(mirror) => Ok((mirror, false)),
            Err(fault) => Err(StateFault::Origin(fault)),
        },
    }
}

// The same for the file of that name.
fn open_named<H: TreeHash, F: NamedFiles>(
    files: &F,
    alloc: Global,
    origin: &str,
    keys: &[Box<dyn Verifier>],
    name: &str,
    out: &str,
) -> Result<(Mirror<H>, bool), StateFault>
    ensures opens { OpensFile H.digest origin.now (map (λ k. key k) keys.now) (F.puts files.now)
        name.now (seen (λ opened. opened.0.view) result) }
    ensures saved { IfOk result (λ opened. IsTrue opened.1
        → IsSaved (Some name.now) opened.0.view out.now (F.puts files.now)) }
{
    match open_as_saved::<H, F>(files, alloc, origin, keys, name) {
        Ok((mirror, is_saved)) => Ok((mirror, is_saved && is_one(name, out))),
        Err(fault) => Err(fault),
    }
}

// Whether the two names are equal.
fn is_one(name: &str, other: &str) -> bool
    ensures { IsTrue result ↔ (name.now ≡ other.now) }
{
    name == other
}

// The text of the mirror's state. It goes to memory, so only memory can be lacking.
fn state_text<H: TreeHash>(alloc: Global, mirror: &Mirror<H>) -> Result<Vec<u8>, AllocError>
    ensures { IfOk result (λ text. StateText mirror.now.view text.items) }
{
    let mut text = Vec::new(alloc);
    match save(alloc, mirror, &mut text) {
        Ok(()) => Ok(text),
        Err(_) => Err(AllocError),
    }
}

/// Writes the mirror's state to the file of that name, which is replaced completely. The file is not touched before the whole
/// text is made.
///
/// ```text
/// write_state(&mut files, alloc, "log.state", &mirror)?;
/// ```
///
/// # Errors
///
/// `FileFault` if the file cannot be written. `OutOfMemory` if memory was refused.
pub fn write_state<H: TreeHash, F: NamedFiles>(
    files: &mut F,
    alloc: Global,
    name: &str,
    mirror: &Mirror<H>,
) -> Result<(), NamedFault>
    ensures { SavesFile mirror.now.view name.now (F.puts files.old) (F.puts files.new) result }
{
    match state_text(alloc, mirror) {
        Ok(text) => files.replace(name, &text),
        Err(_) => Err(NamedFault::OutOfMemory),
    }
}
