//! A partial file, or the part of the full one that replaces it.
ghost use Rattle.std.specs.Prelude.{◌≡◌, ◌<◌, ◌∷◌, [], ℕ, IfErr, IfNone, IfOk, IfSome, IsSomeAnd, List, None, length};
ghost use Rattle.mirror_model.specs.Strings.{IsDigest};
ghost use Rattle.mirror_model.specs.TrueLaws.{AreShort};
ghost use Rattle.mirror_sources.specs.Files.{full_of, width_named};
ghost use Rattle.mirror_sources.specs.Honest.{true_bytes};
ghost use Rattle.log_reader.specs.Holding.{GivesWay, IsSourceOf, IsTreeFile};
ghost use Rattle.copy_reader.specs.Edges.{IsFullGiven, IsGivenAt};
ghost use Rattle.copy_reader.specs.Answering.{AreGiven};
ghost use Rattle.copy_reader.specs.AuditFaults.{BlamesPlace, GivesTrue, IsForAbsence, MayLack};
ghost use Rattle.copy_reader.specs.Found.{NotInFull, replies_of};
ghost use Rattle.copy_reader.specs.Stops.{FindsFalse, IsFullRead, IsPartRead};
ghost use Rattle.mirror_sources.specs.Replies.{reply};

use crate::audit_fault::AuditFault;
use mirror_sources::Source;
use tlog_tiles::Path;

// The bytes of a partial file, from the start of its full file. None: the source lacks the full file.
fn get_full_part<S: Source>(source: &mut S, path: Path) -> Result<Option<Vec<u8>>, AuditFault>
    ensures none { IfOk result (λ found. IfNone found
        (S.may_answer source.old (full_of path) None)) }
    ensures counted { BlamesPlace (S.failed source.old) (S.failed source.new) result }
    ensures absent { IfErr result (IsForAbsence (S.may_answer source.old)) }
    ensures given { IfOk result (λ found. IfSome found (λ bytes. IsFullGiven path bytes.items
        (S.may_answer source.old) (S.may_answer source.new) (S.asked source.old)
        (S.asked source.new))) }
    ensures gone { IfOk result (λ found. IfNone found (AreGiven (S.may_answer source.old)
        (S.may_answer source.new) (S.asked source.old) (S.asked source.new)
        (reply (full_of path) None ∷ []))) }
    ensures read { IfOk result (λ found. IfSome found (λ bytes. IsFullRead path bytes.items
        (S.may_answer source.old) (S.may_answer source.new) (S.asked source.old)
        (S.asked source.new))) }
    ensures first { IfErr result (FindsFalse path [] (S.may_answer source.old)
        (S.may_answer source.new) (S.asked source.old) (S.asked source.new)) }
    ensures honest { (digest : List ℕ → List ℕ) (entries : List (List ℕ)) → IsDigest digest
        → AreShort entries → IsTreeFile (length entries) path
        → GivesWay digest entries (S.may_answer source.old) path
        → GivesTrue result
        (λ found. IsSomeAnd found (λ bytes. bytes.items ≡ true_bytes digest entries path)) }
{
    let Some(mut full) = source.get(&path.full())? else {
        return Ok(None);
    };
    let Some(part) = path.cut(256, &full) else {
        return Err(AuditFault::FalseFile(path));
    };
    let len = part.len();
    full.truncate(len);
    Ok(Some(full))
}

/// The bytes of a partial file. If the source lacks it, they come from the start of the full file, which may replace it (C2SP tlog-tiles,
/// "Partial Tiles"). None: the source lacks both.
pub(crate) fn get_part<S: Source>(source: &mut S, path: Path) -> Result<Option<Vec<u8>>, AuditFault>
    requires { width_named path < 256 }
    ensures counted { BlamesPlace (S.failed source.old) (S.failed source.new) result }
    ensures absent { IfErr result (IsForAbsence (S.may_answer source.old)) }
    ensures none { IfOk result (λ found. IfNone found (MayLack (S.may_answer source.old) path)) }
    ensures given { IfOk result (λ found. IfSome found (λ bytes. IsGivenAt path bytes.items
        (S.may_answer source.old) (S.may_answer source.new) (S.asked source.old)
        (S.asked source.new))) }
    ensures gone { IfOk result (λ found. IfNone found (AreGiven (S.may_answer source.old)
        (S.may_answer source.new) (S.asked source.old) (S.asked source.new)
        (replies_of path NotInFull))) }
    ensures read { IfOk result (λ found. IfSome found (λ bytes. IsPartRead path bytes.items
        (S.may_answer source.old) (S.may_answer source.new) (S.asked source.old)
        (S.asked source.new))) }
    ensures first { IfErr result (FindsFalse path (reply path None ∷ []) (S.may_answer source.old)
        (S.may_answer source.new) (S.asked source.old) (S.asked source.new)) }
    ensures honest { (digest : List ℕ → List ℕ) (entries : List (List ℕ)) → IsDigest digest
        → IsSourceOf digest entries (S.may_answer source.old) → IsTreeFile (length entries) path
        → GivesTrue result
        (λ found. IsSomeAnd found (λ bytes. bytes.items ≡ true_bytes digest entries path)) }
{
    match source.get(&path)? {
        Some(bytes) => Ok(Some(bytes)),
        None => get_full_part(source, path),
    }
}
