//! One file of a source.
ghost use Rattle.std.specs.Prelude.{◌≡◌, ◌≤◌, ◌∷◌, [], ℕ, IfErr, IfOk, List, Some, length};
ghost use Rattle.log_reader.specs.Holding.{IsSourceOf, IsTreeFile};
ghost use Rattle.mirror_sources.specs.Files.{full_of, width_named};
ghost use Rattle.mirror_sources.specs.Honest.{true_bytes};
ghost use Rattle.mirror_sources.specs.Replies.{reply};
ghost use Rattle.copy_reader.specs.Answering.{AreGiven};
ghost use Rattle.copy_reader.specs.AuditFaults.{BlamesPlace, GivesTrue, IsForAbsence};
ghost use Rattle.copy_reader.specs.Stops.{LacksFile};

use crate::audit_fault::AuditFault;
use mirror_sources::Source;
use tlog_tiles::Path;

/// The bytes of a full file.
pub(crate) fn get_file<S: Source>(source: &mut S, path: Path) -> Result<Vec<u8>, AuditFault>
    requires { full_of path ≡ path }
    ensures counted { BlamesPlace (S.failed source.old) (S.failed source.new) result }
    ensures absent { IfErr result (IsForAbsence (S.may_answer source.old)) }
    ensures missing { IfErr result (LacksFile path (S.may_answer source.old)
        (S.may_answer source.new) (S.asked source.old) (S.asked source.new)) }
    ensures given { IfOk result (λ bytes. AreGiven (S.may_answer source.old)
        (S.may_answer source.new) (S.asked source.old) (S.asked source.new)
        (reply path (Some bytes.items) ∷ [])) }
    ensures honest { (digest : List ℕ → List ℕ) (entries : List (List ℕ))
        → IsSourceOf digest entries (S.may_answer source.old) → IsTreeFile (length entries) path
        → 256 ≤ width_named path
        → GivesTrue result (λ bytes. bytes.items ≡ true_bytes digest entries path) }
{
    match source.get(&path)? {
        Some(bytes) => Ok(bytes),
        None => Err(AuditFault::NoFile(path)),
    }
}
