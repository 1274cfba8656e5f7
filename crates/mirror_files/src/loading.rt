//! Loading a mirror from its state text.
ghost use Rattle.std.specs.Prelude.{◌≡◌, ◌≢◌, ◌↔◌, ◌<◌, ℕ, List, Err, length, map, All, IfOk, IfSome, IsTrue};
ghost use Rattle.std.specs.FinSet as set;
ghost use Rattle.mirror_model.specs.Origin.{IsOrigin};
ghost use Rattle.signed_note.specs.Keys.{Key};
ghost use Rattle.tlog_mirror.specs.Opened.{SaysHead};
ghost use Rattle.tlog_text.specs.Answers.{seen};
ghost use Rattle.mirror_files.specs.Storing.{AreListable};
ghost use Rattle.mirror_files.specs.LoadSteps.{KeepsNotes, MakesMirror, stream_fault_of};
ghost use Rattle.mirror_files.specs.Opening.{AreOpened, head_bytes};
ghost use Rattle.mirror_files.specs.Content.{HasStrings, listed_notes, listed_strings};
ghost use Rattle.mirror_files.specs.Loading.{Loads};
ghost use Rattle.mirror_files.specs.Stands.{parts_of};

use crate::{Lists, LoadFault, checked_lists, open_all, store_of};
use byte_streams::{StreamFault, read_all};
use mirror_model::HeadNote;
use node_store::AddFault;
use signed_note::Verifier;
use std::alloc::{AllocError, Global};
use std::io::Read;
use tlog_hash::TreeHash;
use tlog_mirror::Mirror;

// The maximal number of reads of a reader.
const READS: u64 = 16_777_216;

/// The mirror of a state text. All the bytes of the reader have to be the text of a mirror with that origin, in version
/// 1 or 2. Each note has to open under the keys. The mirror remembers nothing for complete tree heads.
///
/// ```text
/// let mirror: Mirror<Sha256Tree> = load(alloc, "example.com/log", &keys, &mut file)?;
/// ```
///
/// # Errors
///
/// `ReadFault` if a read fails, or the reader has not ended after 16,777,216 reads of at most 65,536 bytes each. The
/// reader is read to its end first. Then the first that applies, in the order of `LoadFault`: `StateMagic` to
/// `StateEdge`. `OutOfMemory` if memory was refused, before any of them or after.
pub fn load<H: TreeHash, R: Read>(
    alloc: Global,
    origin: &str,
    keys: &[Box<dyn Verifier>],
    reader: &mut R,
) -> Result<Mirror<H>, LoadFault>
    requires { IsOrigin origin.now }
    ensures loads { IfSome (R.remaining reader.old)
        (λ bytes. Loads H.digest origin.now (map (λ k. key k) keys.now) bytes
        (seen (λ mirror. mirror.view) result)) }
    ensures remembered { IfOk result (λ mirror. mirror.remembered ≡ set.empty) }
{
    let bytes = match read_all(alloc, reader, usize::MAX, READS) {
        Ok(bytes) => bytes,
        Err(fault) => return Err(stream_fault(fault)),
    };
    let input = bytes.as_slice();
    // No memory holds more bytes than this.
    if !is_below(input) {
        return Err(LoadFault::OutOfMemory);
    }
    load_bytes(alloc, origin, keys, input)
}

// The fault for a reader that does not give all its bytes. Nothing is written.
fn stream_fault(fault: StreamFault) -> LoadFault
    ensures { result ≡ stream_fault_of fault }
{
    match fault {
        StreamFault::ReadFault | StreamFault::WriteFault => LoadFault::ReadFault,
        StreamFault::OutOfMemory => LoadFault::OutOfMemory,
    }
}

// Whether there are fewer bytes than the limit of the read.
fn is_below(bytes: &[u8]) -> bool
    ensures { IsTrue result ↔ length bytes.now < 18446744073709551615 }
{
    bytes.len() < usize::MAX
}

/// The mirror of a state text, with the same answers as `load`, from bytes that are in memory already. So the text is
/// in memory only once.
///
/// ```text
/// let mirror: Mirror<Sha256Tree> = load_bytes(alloc, "example.com/log", &keys, &bytes)?;
/// ```
///
/// # Errors
///
/// The first that applies, in the order of `LoadFault`: `StateMagic` to `StateEdge`, and never `ReadFault`.
/// `OutOfMemory` if memory was refused, before any of them or after.
pub fn load_bytes<H: TreeHash>(
    alloc: Global,
    origin: &str,
    keys: &[Box<dyn Verifier>],
    bytes: &[u8],
) -> Result<Mirror<H>, LoadFault>
    requires { IsOrigin origin.now }
    ensures loads { Loads H.digest origin.now (map (λ k. key k) keys.now) bytes.now
        (seen (λ mirror. mirror.view) result) }
    ensures remembered { IfOk result (λ mirror. mirror.remembered ≡ set.empty) }
    ensures fault { result ≢ Err LoadFault.ReadFault }
{
    match checked_lists(alloc, origin.as_bytes(), bytes) {
        Ok(lists) => {
            let loaded = load_lists(alloc, origin, keys, &lists);
            drop(lists);
            loaded
        }
        Err(fault) => Err(fault),
    }
}

// The mirror of lists that are in order.
fn load_lists<H: TreeHash>(
    alloc: Global,
    origin: &str,
    keys: &[Box<dyn Verifier>],
    lists: &Lists,
) -> Result<Mirror<H>, LoadFault>
    requires { AreListable (parts_of lists.now) }
    ensures loads { (bytes : List ℕ) → HasStrings origin.now bytes (parts_of lists.now)
        → Loads H.digest origin.now (map (λ k. key k) keys.now) bytes
        (seen (λ mirror. mirror.view) result) }
    ensures remembered { IfOk result (λ mirror. mirror.remembered ≡ set.empty) }
    ensures fault { result ≢ Err LoadFault.ReadFault }
{
    match open_all(alloc, origin, keys, lists.notes()) {
        Ok(heads) => {
            let loaded = load_opened(alloc, origin, lists, heads.as_slice());
            drop(heads);
            loaded
        }
        Err(fault) => Err(fault),
    }
}

// The mirror of lists that are in order, with the tree heads of their opened notes.
fn load_opened<H: TreeHash>(
    alloc: Global,
    origin: &str,
    lists: &Lists,
    heads: &[HeadNote],
) -> Result<Mirror<H>, LoadFault>
    requires listable { AreListable (parts_of lists.now) }
    requires said { All (SaysHead origin.now) heads.now }
    ensures loads { (bytes : List ℕ) (keys : List Key)
        → HasStrings origin.now bytes (parts_of lists.now)
        → AreOpened origin.now keys (listed_notes (parts_of lists.now)) heads.now
        → Loads H.digest origin.now keys bytes (seen (λ mirror. mirror.view) result) }
    ensures remembered { IfOk result (λ mirror. mirror.remembered ≡ set.empty) }
    ensures fault { result ≢ Err LoadFault.ReadFault }
{
    let mut mirror = match mirror_of::<H>(alloc, origin, lists) {
        Ok(mirror) => mirror,
        Err(AddFault::Collision) => return Err(LoadFault::Collision),
        Err(AddFault::OutOfMemory) => return Err(LoadFault::OutOfMemory),
    };
    match keep_all(alloc, &mut mirror, heads) {
        Ok(()) => Ok(mirror),
        Err(fault) => {
            drop(mirror);
            Err(fault)
        }
    }
}

// The mirror of the listed strings, without the notes.
pub(crate) fn mirror_of<H: TreeHash>(
    alloc: Global,
    origin: &str,
    lists: &Lists,
) -> Result<Mirror<H>, AddFault>
    requires { AreListable (parts_of lists.now) }
    ensures makes { MakesMirror H.digest origin.now (listed_strings (parts_of lists.now))
        (seen (λ mirror. mirror.view) result) }
    ensures remembered { IfOk result (λ mirror. mirror.remembered ≡ set.empty) }
{
    let strings = store_of::<H>(alloc, lists)?;
    match Mirror::of_strings(alloc, origin, strings) {
        Ok(mirror) => Ok(mirror),
        // The origin is lawful, so the only fault here is `OutOfMemory`.
        Err(_) => Err(AddFault::OutOfMemory),
    }
}

// Keeps the tree heads. `StateEdge` if the right edge of one is not held.
fn keep_all<H: TreeHash>(
    alloc: Global,
    mirror: &mut Mirror<H>,
    heads: &[HeadNote],
) -> Result<(), LoadFault>
    requires { All (SaysHead mirror.old.view.origin) heads.now }
    ensures keeps { KeepsNotes H.digest mirror.old.view (map head_bytes heads.now) result
        mirror.new.view }
    ensures remembered { mirror.new.remembered ≡ mirror.old.remembered }
{
    for head in heads {
        match mirror.keep_opened_head(alloc, head) {
            Ok(true) => {}
            Ok(false) => return Err(LoadFault::StateEdge),
            Err(AllocError) => return Err(LoadFault::OutOfMemory),
        }
    }
    Ok(())
}
