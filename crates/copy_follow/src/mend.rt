//! A verified file, put in the place of a missing or a false one.
ghost use Rattle.std.specs.Prelude.{◌≢◌, ◌≡◌, ◌⊎◌, ◌<◌, [], ◌∷◌, IfErr, IfNone, IfOk, IfSome, IsTrue, OnOk};
ghost use Rattle.tlog_tiles.specs.declared.paths.Path.TheVariants.{Checkpoint};
ghost use Rattle.mirror_sources.specs.Files.{width_named};
ghost use Rattle.mirror_sources.specs.Recorded.{KeepsRecord, AddsToRecord};
ghost use Rattle.mirror_folders.specs.Shelf.{RecordsNone};
ghost use Rattle.log_reader.specs.Holding.{GoesOn};
ghost use Rattle.copy_follow.specs.Faults.{CountsShelf};
ghost use Rattle.copy_follow.specs.Named.{AddsNamed, IsDamagedAt, NamesAt, NamesLack};
ghost use Rattle.copy_follow.specs.Repaired.{CountsPuts, RecordsHad};
ghost use Rattle.copy_follow.specs.Standing.{RecordsStands};
ghost use Rattle.copy_follow.specs.Suffices.{IsSpared};

use crate::bring_fault::BringFault;
use crate::repaired::Repaired;
use crate::same::is_same;
use mirror_folders::{DamagedFile, ReadableShelf};
use tlog_tiles::Path;

// Puts the file, and counts it.
fn put_counted<D: ReadableShelf>(
    shelf: &mut D,
    path: &Path,
    bytes: &[u8],
    repaired: &mut Repaired,
) -> Result<(), BringFault>
    requires { path.now ≢ Checkpoint }
    ensures spared { IfErr result IsSpared }
    ensures counted { CountsShelf (D.failed shelf.old) (D.failed shelf.new) result }
    ensures puts { KeepsRecord (D.puts shelf.old) (D.puts shelf.new)
        ⊎ AddsToRecord (D.puts shelf.old) (D.puts shelf.new) ((path.now, bytes.now) ∷ []) }
    ensures counts { CountsPuts repaired.old.put repaired.new.put
        (D.puts shelf.old) (D.puts shelf.new) }
    ensures same { repaired.new.damaged ≡ repaired.old.damaged }
    ensures added { OnOk result
        (AddsToRecord (D.puts shelf.old) (D.puts shelf.new) ((path.now, bytes.now) ∷ [])) }
{
    match shelf.put(path, bytes) {
        Ok(()) => {
            repaired.count();
            Ok(())
        }
        Err(fault) => Err(BringFault::from(fault)),
    }
}

// What is wrong with the file on the shelf: it is missing, or has other bytes. None: it has these bytes.
fn damaged_at<D: ReadableShelf>(
    shelf: &mut D,
    path: &Path,
    bytes: &[u8],
) -> Result<Option<DamagedFile>, BringFault>
    ensures spared { IfErr result IsSpared }
    ensures counted { CountsShelf (D.failed shelf.old) (D.failed shelf.new) result }
    ensures same { KeepsRecord (D.puts shelf.old) (D.puts shelf.new) }
    ensures there { IfOk result (λ found. IfNone found
        (RecordsStands (D.puts shelf.old) (D.puts shelf.new) path.now bytes.now)) }
    ensures damaged { IfOk result (λ found. IfSome found
        (IsDamagedAt (D.puts shelf.old) path.now bytes.now)) }
{
    match shelf.read(path)? {
        Some(there) => {
            if is_same(&there, bytes) {
                return Ok(None);
            }
            Ok(Some(DamagedFile {
                path: *path,
                is_missing: false,
            }))
        }
        None => Ok(Some(DamagedFile {
            path: *path,
            is_missing: true,
        })),
    }
}

// Names the file, then puts it, and counts it.
fn put_damaged<D: ReadableShelf>(
    shelf: &mut D,
    path: &Path,
    bytes: &[u8],
    damaged: DamagedFile,
    repaired: &mut Repaired,
) -> Result<(), BringFault>
    requires { path.now ≢ Checkpoint }
    ensures spared { IfErr result IsSpared }
    ensures counted { CountsShelf (D.failed shelf.old) (D.failed shelf.new) result }
    ensures puts { KeepsRecord (D.puts shelf.old) (D.puts shelf.new)
        ⊎ AddsToRecord (D.puts shelf.old) (D.puts shelf.new) ((path.now, bytes.now) ∷ []) }
    ensures counts { CountsPuts repaired.old.put repaired.new.put
        (D.puts shelf.old) (D.puts shelf.new) }
    ensures added { OnOk result
        (AddsToRecord (D.puts shelf.old) (D.puts shelf.new) ((path.now, bytes.now) ∷ [])) }
    ensures named { OnOk result
        (AddsNamed repaired.old.damaged.items repaired.new.damaged.items damaged) }
{
    match repaired.note_damaged(damaged) {
        Ok(()) => put_counted(shelf, path, bytes, repaired),
        Err(_) => Err(BringFault::OutOfMemory),
    }
}

/// Puts the file, if the shelf lacks it or has other bytes there, and names it. A file that stands is told to the shelf as true. It needs no
/// flush, since a repair puts no checkpoint.
pub(crate) fn mend<D: ReadableShelf>(
    shelf: &mut D,
    path: &Path,
    bytes: &[u8],
    repaired: &mut Repaired,
) -> Result<(), BringFault>
    requires { path.now ≢ Checkpoint }
    ensures spared { IfErr result IsSpared }
    ensures counted { CountsShelf (D.failed shelf.old) (D.failed shelf.new) result }
    ensures puts { KeepsRecord (D.puts shelf.old) (D.puts shelf.new)
        ⊎ AddsToRecord (D.puts shelf.old) (D.puts shelf.new) ((path.now, bytes.now) ∷ []) }
    ensures counts { CountsPuts repaired.old.put repaired.new.put
        (D.puts shelf.old) (D.puts shelf.new) }
    ensures names { OnOk result (NamesAt (D.puts shelf.old) path.now bytes.now
        repaired.old.damaged.items repaired.new.damaged.items) }
    ensures stands { OnOk result
        (RecordsStands (D.puts shelf.old) (D.puts shelf.new) path.now bytes.now) }
{
    match damaged_at(shelf, path, bytes)? {
        Some(damaged) => put_damaged(shelf, path, bytes, damaged, repaired),
        None => {
            shelf.note_true(path);
            Ok(())
        }
    }
}

// Whether there is no file at the path.
fn lacks<D: ReadableShelf>(shelf: &mut D, path: &Path) -> Result<bool, BringFault>
    ensures spared { IfErr result IsSpared }
    ensures counted { CountsShelf (D.failed shelf.old) (D.failed shelf.new) result }
    ensures same { KeepsRecord (D.puts shelf.old) (D.puts shelf.new) }
    ensures missing { IfOk result (λ b. IsTrue b → RecordsNone (D.puts shelf.old) path.now) }
{
    if shelf.has(path)? {
        Ok(false)
    } else {
        Ok(true)
    }
}

/// Notes that nobody has the file, and names it.
pub(crate) fn note_lack<D: ReadableShelf>(
    shelf: &mut D,
    path: &Path,
    repaired: &mut Repaired,
) -> Result<(), BringFault>
    ensures spared { IfErr result IsSpared }
    ensures counted { CountsShelf (D.failed shelf.old) (D.failed shelf.new) result }
    ensures same { KeepsRecord (D.puts shelf.old) (D.puts shelf.new) }
    ensures put { repaired.new.put ≡ repaired.old.put }
    ensures names { OnOk result (NamesLack (D.puts shelf.old) path.now
        repaired.old.damaged.items repaired.new.damaged.items) }
{
    repaired.note_lacked(path);
    let is_missing = lacks(shelf, path)?;
    repaired.note_damaged(DamagedFile {
        path: *path,
        is_missing,
    })?;
    Ok(())
}

// Whether a full file begins with the bytes of its partial one.
fn begins_full(path: &Path, full: &[u8], bytes: &[u8]) -> bool
    ensures { IsTrue result → GoesOn path.now bytes.now full.now }
{
    match path.cut(256, full) {
        Some(part) => is_same(part, bytes),
        None => false,
    }
}

// Whether the shelf has no file at the path, and a full file that begins with the bytes.
fn gave_way<D: ReadableShelf>(shelf: &mut D, path: &Path, bytes: &[u8]) -> Result<bool, BringFault>
    requires { width_named path.now < 256 }
    ensures spared { IfErr result IsSpared }
    ensures counted { CountsShelf (D.failed shelf.old) (D.failed shelf.new) result }
    ensures same { KeepsRecord (D.puts shelf.old) (D.puts shelf.new) }
    ensures had { IfOk result (λ b. IsTrue b
        → RecordsHad (D.puts shelf.old) (D.puts shelf.new) path.now bytes.now) }
{
    match shelf.read(path)? {
        Some(_) => return Ok(false),
        None => {}
    }
    match shelf.read(&path.full())? {
        Some(full) => Ok(begins_full(path, &full, bytes)),
        None => Ok(false),
    }
}

/// The same for a partial file. It is not missing where its full file begins with its bytes.
pub(crate) fn mend_partial<D: ReadableShelf>(
    shelf: &mut D,
    path: &Path,
    bytes: &[u8],
    repaired: &mut Repaired,
) -> Result<(), BringFault>
    requires file { path.now ≢ Checkpoint }
    requires partial { width_named path.now < 256 }
    ensures spared { IfErr result IsSpared }
    ensures counted { CountsShelf (D.failed shelf.old) (D.failed shelf.new) result }
    ensures puts { KeepsRecord (D.puts shelf.old) (D.puts shelf.new)
        ⊎ AddsToRecord (D.puts shelf.old) (D.puts shelf.new) ((path.now, bytes.now) ∷ []) }
    ensures counts { CountsPuts repaired.old.put repaired.new.put
        (D.puts shelf.old) (D.puts shelf.new) }
    ensures names { OnOk result (NamesAt (D.puts shelf.old) path.now bytes.now
        repaired.old.damaged.items repaired.new.damaged.items) }
    ensures had { OnOk result
        (RecordsHad (D.puts shelf.old) (D.puts shelf.new) path.now bytes.now) }
{
    if gave_way(shelf, path, bytes)? {
        shelf.note_true(path);
        return Ok(());
    }
    mend(shelf, path, bytes, repaired)
}
