//! A copy is opened, and its bundles are read.
ghost use Rattle.std.specs.Prelude.{◌≡◌, ◌*◌, ◌<◌, IfErr, IfOk, Some, length, map};
ghost use Rattle.tlog_tiles.specs.Tiles.{bundle_bytes};
ghost use Rattle.mirror_sources.specs.Recorded.{KeepsRecord};
ghost use Rattle.log_reader.specs.Ways.{IsShownBundle};
ghost use Rattle.copy_reader.specs.WholeCopies.{OpensWhole, ReadsCopyOf};
ghost use Rattle.program_copies.specs.Copied.{CountsCopy, IsOfFiles, IsOpenCopy, IsUndamaged, NamesFalseIn, RefusesCopy};
ghost use Rattle.program_copies.specs.Texts.{bundle_width};

use crate::entries_fault::{CopyEntriesFault, fault_of};
use copy_reader::{open_shelf, read_bundle};
use log_reader::LogReader;
use mirror_folders::ReadableShelf;
use signed_note::Verifier;
use std::alloc::Global;
use tlog_hash::TreeHash;

/// Opens the copy on the shelf: its checkpoint has to open under the keys, and the rows of its edge have to lead to its root.
#[tactic(auto, using(crate::proofs::CopyFaults::refuses_copy, crate::proofs::CopyFaults::counts_copy))]
pub(crate) fn open_copy<H: TreeHash, D: ReadableShelf>(
    shelf: &mut D,
    alloc: Global,
    origin: &str,
    keys: &[Box<dyn Verifier>],
) -> Result<LogReader<H>, CopyEntriesFault>
    ensures open { IfOk result (λ reader. IsOpenCopy H.digest origin.now (map (λ k. key k) keys.now)
        (D.puts shelf.old) reader.edge) }
    ensures refused { IfErr result (RefusesCopy H.digest origin.now (map (λ k. key k) keys.now)
        (D.puts shelf.old)) }
    ensures whole { IfOk result
        (λ reader. OpensWhole H.digest origin.now (D.puts shelf.old) (Some reader)) }
    ensures same { KeepsRecord (D.puts shelf.old) (D.puts shelf.new) }
    ensures counted { CountsCopy (D.failed shelf.old) (D.failed shelf.new) result }
{
    match open_shelf::<H, D>(alloc, shelf, origin, keys) {
        Ok(Some(reader)) => {
            let _root = reader.root();
            Ok(reader)
        }
        Ok(None) => Err(CopyEntriesFault::NothingComplete),
        Err(refused) => Err(fault_of(refused)),
    }
}

/// The verified bytes of a bundle of the copy.
#[tactic(auto, using(crate::proofs::CopyFaults::of_files, crate::proofs::CopyFaults::counts_read, crate::proofs::CopyFaults::names_false))]
pub(crate) fn bundle_on<H: TreeHash, D: ReadableShelf>(
    shelf: &mut D,
    alloc: Global,
    reader: &mut LogReader<H>,
    index: u64,
) -> Result<Vec<u8>, CopyEntriesFault>
    requires { 256 * index < reader.old.edge.size }
    ensures edge { reader.new.edge ≡ reader.old.edge }
    ensures shown { IfOk result
        (λ bytes. IsShownBundle H.digest reader.old.edge index bytes.items) }
    ensures same { KeepsRecord (D.puts shelf.old) (D.puts shelf.new) }
    ensures counted { CountsCopy (D.failed shelf.old) (D.failed shelf.new) result }
    ensures fault { IfErr result IsOfFiles }
    ensures damage { IfErr result (NamesFalseIn H.digest (D.puts shelf.old) reader.old.edge) }
    ensures honest { ReadsCopyOf IsUndamaged H.digest reader.old reader.new (D.puts shelf.old)
        result (λ entries bytes. bytes.items
        ≡ bundle_bytes entries index (bundle_width (length entries) index)) }
{
    match read_bundle::<H, D>(alloc, shelf, reader, index) {
        Ok(bytes) => Ok(bytes),
        Err(fault) => Err(fault_of(fault)),
    }
}
