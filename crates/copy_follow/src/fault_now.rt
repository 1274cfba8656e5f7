//! A fault of the copy, by a second look at its checkpoint.
ghost use Rattle.std.specs.Prelude.{◌≡◌, ◌↔◌, ℕ, IsTrue, List, Option, option_map};
ghost use Rattle.tlog_tiles.specs.declared.paths.Path.TheVariants.{Checkpoint};
ghost use Rattle.mirror_folders.specs.Shelf.{Put, RecordsRead};
ghost use Rattle.mirror_sources.specs.Recorded.{KeepsRecord};
ghost use Rattle.copy_places.specs.Candidates.{note_of};
ghost use Rattle.copy_follow.specs.Blame.{CountsFollowFault};
ghost use Rattle.copy_follow.specs.Ending.{EndsAt, EndsRun};
ghost use Rattle.copy_follow.specs.Faults.{IsOtherFound};
ghost use Rattle.copy_follow.specs.Looks.{EndsByLook};
ghost use Rattle.copy_follow.specs.OneHonestRun.{IsOfShelfOrMemory};
ghost use Rattle.copy_follow.specs.RunStanding.{HasStanding};

use crate::follow_fault::FollowFault;
use crate::same::is_same;
use copy_places::Candidate;
use mirror_folders::ReadableShelf;
use tlog_tiles::Path;

// Whether that is the checkpoint of the copy.
fn has_note(copy: &Option<Candidate>, there: &Option<Vec<u8>>) -> bool
    ensures { IsTrue result
        ↔ (option_map (λ v. v.items) there.now ≡ option_map note_of copy.now) }
{
    match (copy, there) {
        (Some(copy), Some(there)) => is_same(&copy.note, there),
        (None, None) => true,
        _ => false,
    }
}

// `CopyDamaged` if the shelf has the checkpoint of the copy, and `CopyInUse` if it has another one.
fn fault_by_look<D: ReadableShelf>(shelf: &mut D, copy: &Option<Candidate>) -> FollowFault
    ensures same { KeepsRecord (D.puts shelf.old) (D.puts shelf.new) }
    ensures counted { CountsFollowFault (D.failed shelf.old) (D.failed shelf.new) result }
    ensures ends { EndsRun (RecordsRead (D.puts shelf.old) Checkpoint (option_map note_of copy.now))
        (IsOtherFound (option_map note_of copy.now) (D.puts shelf.old)) result }
{
    match shelf.read(&Path::Checkpoint) {
        Ok(there) => {
            if has_note(copy, &there) {
                FollowFault::CopyDamaged
            } else {
                FollowFault::CopyInUse
            }
        }
        Err(fault) => FollowFault::from(fault),
    }
}

/// The fault of a turn. If it is one of the copy, a second look at the checkpoint decides which one: another run may have changed the copy.
pub(crate) fn fault_now<D: ReadableShelf>(
    shelf: &mut D,
    copy: &Option<Candidate>,
    fault: FollowFault,
) -> FollowFault
    ensures same { KeepsRecord (D.puts shelf.old) (D.puts shelf.new) }
    ensures counted { (before : ℕ) → CountsFollowFault before (D.failed shelf.old) fault
        → CountsFollowFault before (D.failed shelf.new) result }
    ensures ends { (digest : List ℕ → List ℕ) (origin : List ℕ) (held : Option (List Put))
        → EndsAt (¬ HasStanding digest origin copy.now held) fault
        → EndsAt (¬ HasStanding digest origin copy.now held) result }
    ensures spares { IsOfShelfOrMemory fault → IsOfShelfOrMemory result }
    ensures looks { EndsByLook (D.puts shelf.old) (option_map note_of copy.now) result }
{
    match fault {
        FollowFault::CopyDamaged => fault_by_look(shelf, copy),
        FollowFault::CopyInUse => fault_by_look(shelf, copy),
        fault => fault,
    }
}
