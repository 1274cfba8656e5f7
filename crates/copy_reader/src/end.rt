//! The bundle at the end of a copy's log.
ghost use Rattle.std.specs.Prelude.{◌≡◌, ⊤, IfErr, OnOk};
ghost use Rattle.mirror_sources.specs.Recorded.{KeepsRecord};
ghost use Rattle.copy_reader.specs.Damage.{NamesDamage};
ghost use Rattle.copy_reader.specs.Ends.{IsEndShown};
ghost use Rattle.copy_reader.specs.Faults.{CountsRead};
ghost use Rattle.copy_reader.specs.WholeCopies.{IsShelfFailure, ReadsCopyOf};

use crate::bundle::read_bundle;
use crate::fault::CopyFault;
use log_reader::LogReader;
use mirror_folders::ReadableShelf;
use std::alloc::Global;
use tlog_hash::TreeHash;

/// Reads the bundle at the end of the log, if it is partial. The shelf's bytes have to have the leaf hashes of the edge.
///
/// ```text
/// read_end(alloc, &mut shelf, &mut reader)?   // with 257 entries: reads tile/entries/001.p/1. With 256: reads nothing
/// ```
///
/// # Errors
///
/// Those of `read_bundle`.
pub fn read_end<H: TreeHash, D: ReadableShelf>(
    alloc: Global,
    shelf: &mut D,
    reader: &mut LogReader<H>,
) -> Result<(), CopyFault>
    ensures edge { reader.new.edge ≡ reader.old.edge }
    ensures root { reader.new.root ≡ reader.old.root }
    ensures end { OnOk result (IsEndShown H.digest (D.puts shelf.old) reader.old.edge) }
    ensures same { KeepsRecord (D.puts shelf.old) (D.puts shelf.new) }
    ensures counted { CountsRead (D.failed shelf.old) (D.failed shelf.new) result }
    ensures damage { IfErr result (NamesDamage H.digest (D.puts shelf.old) reader.old.edge) }
    ensures honest { ReadsCopyOf IsShelfFailure H.digest reader.old reader.new
        (D.puts shelf.old) result (λ entries _. ⊤) }
{
    let size = reader.size();
    if size % 256 == 0 {
        return Ok(());
    }
    match read_bundle::<H, D>(alloc, shelf, reader, size / 256) {
        Ok(_bundle) => Ok(()),
        Err(fault) => Err(fault),
    }
}
