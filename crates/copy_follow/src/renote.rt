//! The note of a candidate replaces the copy's note.
ghost use Rattle.std.specs.Prelude.{◌≡◌, ◌≢◌, ◌↔◌, IfErr, IfOk, IsFalse, IsTrue, Some};
ghost use Rattle.copy_follow.specs.Faults.{IsOtherFound};
ghost use Rattle.copy_places.specs.Candidates.{IsOnePoint, note_of};
ghost use Rattle.copy_follow.specs.Blame.{CountsFollow};
ghost use Rattle.copy_follow.specs.Ending.{EndsAt, EndsRun};
ghost use Rattle.copy_follow.specs.Runs.{KeepsUnder};
ghost use Rattle.copy_follow.specs.Says.{IsNoteUpTo};
ghost use Rattle.copy_follow.specs.Turning.{ShowsTurn};
ghost use Rattle.copy_follow.specs.Edges.{PutsNote};
ghost use Rattle.copy_follow.specs.RunStanding.{HasStanding, IsHeadOf, StandsAfter};
ghost use Rattle.copy_follow.specs.TurnsTaken.{IsNoted, SaysTurn};

use crate::follow_fault::FollowFault;
use crate::run::Outcome;
use copy_places::Candidate;
use mirror_folders::ReadableShelf;
use tlog_hash::TreeHash;
use tlog_tiles::Path;

// Whether the first bytes come before the second.
fn is_less(first: &[u8], second: &[u8]) -> bool
    ensures less { IsTrue result → IsNoteUpTo first.now second.now }
    ensures other { IsFalse result → IsNoteUpTo second.now first.now }
{
    first < second
}

/// Whether a candidate has the copy's size and root, and a lesser note.
pub(crate) fn has_lesser_note(copy: &Candidate, candidate: &Candidate) -> bool
    ensures point { IsTrue result → IsOnePoint copy.now candidate.now }
    ensures less { IsTrue result → IsNoteUpTo (note_of candidate.now) (note_of copy.now) }
    ensures other { IsFalse result → IsNoted (Some copy.now) candidate.now }
{
    copy.is_same_point(candidate) && is_less(&candidate.note, &copy.note)
}

fn is_same(first: &[u8], second: &[u8]) -> bool
    ensures { IsTrue result ↔ (first.now ≡ second.now) }
{
    first == second
}

// Replaces the copy's note by that of a candidate, if the shelf still has it.
fn put_note<D: ReadableShelf>(
    shelf: &mut D,
    copy: &Candidate,
    candidate: &Candidate,
) -> Result<(), FollowFault>
    ensures puts { PutsNote (D.puts shelf.old) (D.puts shelf.new) (Some (note_of copy.now))
        (note_of candidate.now) result }
    ensures counted { CountsFollow (D.failed shelf.old) (D.failed shelf.new) result }
    ensures ends { IfErr result
        (EndsRun ⊥ (IsOtherFound (Some (note_of copy.now)) (D.puts shelf.old))) }
{
    let Some(there) = shelf.read(&Path::Checkpoint)? else {
        return Err(FollowFault::CopyInUse);
    };
    if !is_same(&there, &copy.note) {
        return Err(FollowFault::CopyInUse);
    }
    shelf.put(&Path::Checkpoint, &candidate.note)?;
    Ok(())
}

/// The turn of a candidate with the copy's size and root. Its note replaces the copy's note.
pub(crate) fn renote<H: TreeHash, D: ReadableShelf>(
    origin: &str,
    shelf: &mut D,
    copy: &Candidate,
    candidate: &Candidate,
) -> Result<Outcome, FollowFault>
    requires copy { IsHeadOf origin.now copy.now }
    requires candidate { IsHeadOf origin.now candidate.now }
    requires size { copy.now.size.0 ≡ candidate.now.size.0 }
    requires root { copy.now.root ≡ candidate.now.root }
    requires less { IsNoteUpTo (note_of candidate.now) (note_of copy.now) }
    ensures keeps { KeepsUnder H.digest origin.now (note_of candidate.now) (D.puts shelf.old)
        (D.puts shelf.new) }
    ensures counted { CountsFollow (D.failed shelf.old) (D.failed shelf.new) result }
    ensures after { IfOk result (λ turn. StandsAfter H.digest origin.now candidate.now
        (D.puts shelf.old) (D.puts shelf.new) turn) }
    ensures source { IfOk result (λ turn. turn ≢ Outcome.NotHad FollowFault.Source) }
    ensures shows { IfOk result (ShowsTurn H.digest (Some copy.now) candidate.now) }
    ensures says { IfOk result (SaysTurn H.digest (Some copy.now) candidate.now) }
    ensures ends { IfErr result
        (EndsAt (¬ HasStanding H.digest origin.now (Some copy.now) (D.puts shelf.old))) }
{
    put_note(shelf, copy, candidate)?;
    Ok(Outcome::Brought)
}
