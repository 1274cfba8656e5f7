//! Opens a copy in a folder.
ghost use Rattle.std.specs.Prelude.{IfErr, IfOk, IfSome, OnOk, map};
ghost use Rattle.mirror_folders.specs.Shelf.{RecordsRead};
ghost use Rattle.mirror_sources.specs.Recorded.{KeepsRecord};
ghost use Rattle.log_reader.specs.FalseEdges.{IsEdgeGiven};
ghost use Rattle.copy_reader.specs.Copies.{LeavesPuts, OpensCopy};
ghost use Rattle.copy_reader.specs.Damage.{NamesOpenDamage};
ghost use Rattle.copy_reader.specs.Faults.{CountsCopy};
ghost use Rattle.copy_reader.specs.WholeCopies.{OpensWhole};

use copy_reader::{CopyFault, open_shelf};
use log_reader::LogReader;
use mirror_folders::NamedFolders;
use program_io::check_origin;
use signed_note::Verifier;
use std::alloc::Global;
use tlog_hash::TreeHash;
use tlog_mirror::NewFault;

/// Opens the folder and its log. The log's checkpoint has to open under the keys, and the rows of its edge have to lead to its root. None:
/// the folder has no checkpoint, so the copy is empty.
///
/// ```text
/// let opened = open_copy::<Sha256Tree, _>(&mut folders, alloc, "example.com/log", &keys, "log")?;
/// opened.map(|reader| reader.size())   // Some(257)
/// ```
///
/// # Errors
///
/// The first that applies. `BadOrigin`, as for `Mirror::new`. `ShelfFault`: a file cannot be read. `Head`, with the fault of `check_head`: the
/// checkpoint does not open. `CopyDamaged`: a partial tile is missing or false. `OutOfMemory`: memory was refused.
pub fn open_copy<H: TreeHash, D: NamedFolders>(
    folders: &mut D,
    alloc: Global,
    origin: &str,
    keys: &[Box<dyn Verifier>],
    folder: &str,
) -> Result<Option<LogReader<H>>, CopyFault>
    ensures answer { OpensCopy H.digest origin.now (map (λ k. key k) keys.now)
        (D.held folders.old folder.now) result }
    ensures given { IfOk result (λ found. IfSome found (λ reader. IsEdgeGiven
        (RecordsRead (D.held folders.old folder.now)) reader.edge.size reader.edge)) }
    ensures opened { OnOk result (KeepsRecord (D.held folders.old folder.now)
        (D.puts folders.new)) }
    ensures kept { LeavesPuts (D.held folders.old folder.now) (D.puts folders.old)
        (D.puts folders.new) }
    ensures counted { CountsCopy (D.failed folders.old) (D.failed folders.new) result }
    ensures damage { IfErr result (NamesOpenDamage H.digest (D.held folders.old folder.now)
        origin.now (map (λ k. key k) keys.now)) }
    ensures honest { IfOk result (OpensWhole H.digest origin.now (D.held folders.old folder.now)) }
{
    match check_origin(alloc, origin) {
        Ok(()) => {}
        Err(NewFault::BadOrigin) => return Err(CopyFault::BadOrigin),
        Err(NewFault::OutOfMemory) => return Err(CopyFault::OutOfMemory),
    }
    match folders.open(folder) {
        Ok(()) => open_shelf::<H, D>(alloc, folders, origin, keys),
        Err(_) => Err(CopyFault::OutOfMemory),
    }
}
