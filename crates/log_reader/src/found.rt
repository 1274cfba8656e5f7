//! Files of a source, and what is found in them.
ghost use Rattle.std.specs.Prelude.{◌≡◌, ◌⊎◌, IfErr, IfOk, None, Some};
ghost use Rattle.mirror_sources.specs.Source.{StaysWithin};
ghost use Rattle.mirror_sources.specs.Recorded.{KeepsRecord};
ghost use Rattle.log_reader.specs.Faults.{CountsFailure, IsFailure, NamesFile, found_in};
ghost use Rattle.log_reader.specs.Parts.{IsCutGiven, IsPartGiven, LacksCut, LacksPart};
ghost use Rattle.log_reader.specs.Requested.{RequestsOnly};
ghost use Rattle.log_reader.specs.declared.fault.ReadFault.TheVariants.{NoFile};

use crate::fault::ReadFault;
use mirror_sources::Source;
use std::alloc::{AllocError, Global};
use tlog_tiles::Path;

/// The bytes of a full file.
pub(crate) fn get_file<S: Source>(source: &mut S, path: &Path) -> Result<Vec<u8>, ReadFault>
    ensures answer { IfOk result (λ bytes. S.may_answer source.old path.now (Some bytes.items)) }
    ensures lacks { IfErr result (λ fault. IsFailure fault
        ⊎ ((fault ≡ NoFile path.now) × S.may_answer source.old path.now None)) }
    ensures later { StaysWithin (S.may_answer source.old) (S.may_answer source.new) }
    ensures kept { KeepsRecord (S.files source.old) (S.files source.new) }
    ensures asks { RequestsOnly (S.asked source.old) (S.asked source.new)
        (λ p. p ≡ path.now) }
    ensures counted { CountsFailure (S.failed source.old) (S.failed source.new) result }
{
    match source.get(path)? {
        Some(bytes) => Ok(bytes),
        None => Err(ReadFault::NoFile(*path)),
    }
}

// The bytes of a partial file, cut from its full file. If there is no full file either, `NoFile` names the partial one.
fn get_cut<S: Source>(alloc: Global, source: &mut S, path: &Path) -> Result<Vec<u8>, ReadFault>
    ensures cut { IfOk result
        (λ bytes. IsCutGiven (S.may_answer source.old) path.now bytes.items) }
    ensures names { IfErr result (NamesFile (LacksCut (S.may_answer source.old) path.now)) }
    ensures later { StaysWithin (S.may_answer source.old) (S.may_answer source.new) }
    ensures kept { KeepsRecord (S.files source.old) (S.files source.new) }
    ensures counted { CountsFailure (S.failed source.old) (S.failed source.new) result }
{
    let full = path.full();
    let Some(bytes) = source.get(&full)? else {
        return Err(ReadFault::NoFile(*path));
    };
    let Some(part) = path.cut(256, &bytes) else {
        return Err(ReadFault::FalseFile(full));
    };
    Ok(Vec::from_slice(alloc, part)?)
}

/// The bytes of a partial file. A log may have deleted it: then they are cut from the full file.
#[tactic(auto, using(crate::proofs::Kept::kept_twice))]
pub(crate) fn get_partial<S: Source>(
    alloc: Global,
    source: &mut S,
    path: &Path,
) -> Result<Vec<u8>, ReadFault>
    ensures given { IfOk result
        (λ bytes. IsPartGiven (S.may_answer source.old) path.now bytes.items) }
    ensures names { IfErr result (NamesFile (LacksPart (S.may_answer source.old) path.now)) }
    ensures later { StaysWithin (S.may_answer source.old) (S.may_answer source.new) }
    ensures kept { KeepsRecord (S.files source.old) (S.files source.new) }
    ensures counted { CountsFailure (S.failed source.old) (S.failed source.new) result }
{
    let Some(bytes) = source.get(path)? else {
        return get_cut(alloc, source, path);
    };
    Ok(bytes)
}

/// What was found in the file of that path. None was found in a false file.
pub(crate) fn or_false<T: Drop>(
    found: Result<Option<T>, AllocError>,
    path: Path,
) -> Result<T, ReadFault>
    ensures { result ≡ found_in found path }
{
    match found {
        Ok(Some(value)) => Ok(value),
        Ok(None) => Err(ReadFault::FalseFile(path)),
        Err(_) => Err(ReadFault::OutOfMemory),
    }
}
