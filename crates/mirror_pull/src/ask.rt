//! Requests paths from a source, each at most once.
ghost use Rattle.std.specs.Prelude.{◌≡◌, ◌↔◌, IsTrue, IfOk, Contains, option_map, ◌++◌, ◌∷◌, []};
ghost use Rattle.tlog_text.specs.Answers.{seen};
ghost use Rattle.mirror_pull.specs.Asking.{AsksPaths, BlamesSource};
ghost use Rattle.mirror_pull.specs.Taking.{EndsBeforeHead, EndsAfterHead};
ghost use Rattle.mirror_pull.specs.Replying.{AskFollows};
ghost use Rattle.mirror_sources.specs.Source.{StaysWithin};

use crate::asked::AskedPaths;
use crate::fault::PullFault;
use mirror_sources::Source;
use tlog_tiles::Path;

/// Whether the path was requested before.
pub(crate) fn is_asked(asked: &AskedPaths, path: &Path) -> bool
    ensures { IsTrue result ↔ Contains asked.now.items path.now }
{
    asked.contains(path)
}

/// Requests a path. A path that was requested before counts as not found.
pub(crate) fn ask<S: Source>(
    source: &mut S,
    asked: &mut AskedPaths,
    path: Path,
) -> Result<Option<Vec<u8>>, PullFault>
    ensures recorded { AsksPaths asked.old.items asked.new.items (S.asked source.old)
        (S.asked source.new) result }
    ensures counted { BlamesSource (S.failed source.old) (S.failed source.new) result }
    ensures early { EndsBeforeHead result }
    ensures late { EndsAfterHead result }
    ensures later { StaysWithin (S.may_answer source.old) (S.may_answer source.new) }
    ensures answer { IfOk result (λ bytes. (¬ Contains asked.old.items path)
        → S.may_answer source.old path (option_map (λ v. v.items) bytes)) }
    ensures replied { AskFollows (S.may_answer source.old) (S.asked source.old) (S.asked source.new)
        asked.old.items asked.new.items path (seen (option_map (λ v. v.items)) result) }
    ensures grown { IfOk result (λ _. (¬ Contains asked.old.items path)
        → asked.new.items ≡ asked.old.items ++ path ∷ []) }
{
    if is_asked(asked, &path) {
        return Ok(None);
    }
    asked.push(path)?;
    Ok(source.get(&path)?)
}
