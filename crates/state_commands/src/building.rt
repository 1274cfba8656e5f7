//! Builds a log from entries.
ghost use Rattle.std.specs.Prelude.{◌≡◌, ℕ, List, IfErr, IfOk, OnOk, map};
ghost use Rattle.mirror_sources.specs.Recorded.{Rose};
ghost use Rattle.mirror_model.specs.Origin.{IsOrigin};
ghost use Rattle.mirror_model.specs.TrueLaws.{AreShort};
ghost use Rattle.mirror_model.specs.View.{nothing};
ghost use Rattle.signed_note.specs.KeyKinds.{secret_key};
ghost use Rattle.mirror_model.specs.Heads.{IsOpenHead};
ghost use Rattle.mirror_pull.specs.declared.fault.PullFault.TheVariants.{OutOfMemory};
ghost use Rattle.state_commands.specs.Building.{BuildsLogUnder, ChecksOrigin, OpensUnder};

use crate::build_fault::BuildFault;
use crate::putting::put_files;
use mirror_files::ExportFault;
use mirror_folders::Shelf;
use mirror_pull::{ListSource, PullFault};
use signed_note::{HmacKey, Verifier};
use std::alloc::Global;
use tlog_hash::TreeHash;
use tlog_mirror::Mirror;
use tlog_tiles::Path;

/// Builds a log from entries and puts it onto a shelf: all its tiles and bundles, and last a checkpoint that the key signed
/// (C2SP tlog-tiles). The checkpoint must open under `keys`, so the signing key must be among them. Each entry has at most
/// 65,535 bytes.
///
/// ```text
/// let mut shelf = MemShelf::new(alloc);
/// build_log::<Sha256Tree, _>(alloc, "example.com/log", &keys, key, entries, &mut shelf)?;
/// shelf.puts() // tile/0/000.p/3, tile/entries/000.p/3, checkpoint
/// ```
///
/// # Errors
///
/// The first that applies. `BadOrigin`: as for `Mirror::new`. `Pull`: only if the signing key is not among the keys.
/// `Export`: `ShelfInUse` if the shelf has a checkpoint, and `ShelfFault` if the shelf failed; files that were put before
/// stay. `OutOfMemory`: memory was refused, before any of them or after. The call does not check whether two strings of the
/// entries collide.
pub fn build_log<H: TreeHash, S: Shelf>(
    alloc: Global,
    origin: &str,
    keys: &[Box<dyn Verifier>],
    signer: HmacKey,
    entries: Vec<Vec<u8>>,
    shelf: &mut S,
) -> Result<(), BuildFault>
    requires short { AreShort (map (λ e. e.items) entries.items) }
    ensures builds { BuildsLogUnder H.digest origin.now (secret_key signer)
        (map (λ e. e.items) entries.items) (map (λ k. key k) keys.now) (S.puts shelf.old)
        (S.puts shelf.new) result }
    ensures bad_origin { result ≡ Err BuildFault.BadOrigin → ¬ IsOrigin origin.now }
    ensures blamed { result ≡ Err (BuildFault.Export ExportFault.ShelfFault)
        → Rose (S.failed shelf.old) (S.failed shelf.new) }
{
    let mirror = empty::<H>(alloc, origin)?;
    put_log(alloc, origin, keys, signer, entries, &mirror, shelf)
}

// Puts the whole log of the entries onto the shelf, if its checkpoint opens for an empty mirror. Each entry is hashed once.
fn put_log<H: TreeHash, S: Shelf>(
    alloc: Global,
    origin: &str,
    keys: &[Box<dyn Verifier>],
    signer: HmacKey,
    entries: Vec<Vec<u8>>,
    mirror: &Mirror<H>,
    shelf: &mut S,
) -> Result<(), BuildFault>
    requires origin { IsOrigin origin.now }
    requires short { AreShort (map (λ e. e.items) entries.items) }
    requires empty { mirror.now.view ≡ nothing origin.now }
    ensures builds { BuildsLogUnder H.digest origin.now (secret_key signer)
        (map (λ e. e.items) entries.items) (map (λ k. key k) keys.now) (S.puts shelf.old)
        (S.puts shelf.new) result }
    ensures bad_origin { ¬ (result ≡ Err BuildFault.BadOrigin) }
    ensures blamed { result ≡ Err (BuildFault.Export ExportFault.ShelfFault)
        → Rose (S.failed shelf.old) (S.failed shelf.new) }
{
    let size = entries.len() as u64;
    let source: ListSource<H> = ListSource::new(alloc, origin, entries, signer)?;
    check_note(alloc, keys, mirror, &source)?;
    put_files(alloc, &source, size, shelf)?;
    Ok(())
}

// Whether the checkpoint of the log opens under the keys, by the check of the mirror.
fn check_note<H: TreeHash>(
    alloc: Global,
    keys: &[Box<dyn Verifier>],
    mirror: &Mirror<H>,
    source: &ListSource<H>,
) -> Result<(), PullFault>
    ensures opens { OnOk result (OpensUnder source.now.note mirror.now.view.origin
        (map (λ k. key k) keys.now)) }
    ensures fault { (size : ℕ) (root : List ℕ)
        → IsOpenHead source.now.note mirror.now.view.origin (map (λ k. key k) keys.now) size root
        → IfErr result (λ fault. fault ≡ OutOfMemory) }
{
    let Some(note) = source.file_at(Path::Checkpoint) else {
        unreachable!()
    };
    mirror.check_head(alloc, keys, note)?;
    Ok(())
}

// An empty mirror.
fn empty<H: TreeHash>(alloc: Global, origin: &str) -> Result<Mirror<H>, BuildFault>
    ensures judged { ChecksOrigin origin.now result }
    ensures view { IfOk result (λ mirror. mirror.view ≡ nothing origin.now) }
{
    let mirror = Mirror::new(alloc, origin)?;
    Ok(mirror)
}
