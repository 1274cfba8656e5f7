//! The order of the notes that a mirror keeps.
ghost use Rattle.std.specs.Prelude.{◌≡◌, length};
ghost use Rattle.std.specs.Cmp.Lexicographic.{slice_cmp};
ghost use Rattle.std.specs.List.Sorted.{IsBinarySearchResult, IsSearchInRange};
ghost use Rattle.std.specs.Ordering.{nat_cmp};
ghost use Rattle.tlog_mirror.specs.Kept.{note_bytes};

use mirror_trees::HeldNote;
use std::cmp::Ordering;

// The place of the note with those bytes among kept notes in rising order, or the place where it would go.
pub(crate) fn find_note(kept: &[HeldNote], bytes: &[u8]) -> Result<usize, usize>
    ensures bound { IsSearchInRange result (length kept.now) }
    ensures place { IsBinarySearchResult (λ k. slice_cmp nat_cmp (note_bytes k) bytes.now) kept.now
        result }
{
    kept.binary_search_by(|k| compare_bytes(k, bytes))
}

fn compare_bytes(kept: &HeldNote, bytes: &[u8]) -> Ordering
    ensures { result ≡ slice_cmp nat_cmp (note_bytes kept.now) bytes.now }
{
    kept.note.bytes().cmp(&bytes)
}
