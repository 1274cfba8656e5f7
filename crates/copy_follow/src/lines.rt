//! The rule of lines: what candidates that are not smaller than the copy are reported as.
ghost use Rattle.std.specs.Prelude.{◌≡◌, ◌↔◌, ◌+◌, ◌<◌, ◌∷◌, [], Contains, IfOk, IsFalse, IsTrue, OnOk, Some, length};
ghost use Rattle.std.specs.List.Sorted.{IsSorted};
ghost use Rattle.copy_places.specs.Candidates.{turn_cmp};
ghost use Rattle.copy_places.specs.Lines.{IsInLine, IsInSomeLine};
ghost use Rattle.copy_follow.specs.Lining.{AddsBeside, AddsEqual, AddsToCopy, HasEqual, HasLeft};
ghost use Rattle.copy_follow.specs.Rule.{IsLeastOf};
ghost use Rattle.copy_follow.specs.TurnsTaken.{IsLargerThan};

use crate::turns::is_repeated;
use copy_places::{Candidate, ForkLine, add_fork};
use std::alloc::{AllocError, Global};
use tlog_hash::Hash;

/// Whether a candidate has more entries than the copy. Without a copy, each one has.
pub(crate) fn exceeds(copy: &Option<Candidate>, candidate: &Candidate) -> bool
    ensures { IsTrue result ↔ IsLargerThan copy.now candidate.now }
{
    match copy {
        Some(copy) => copy.size.0 < candidate.size.0,
        None => true,
    }
}

// Adds the line of the copy and a candidate of its size, if it has another root.
fn add_beside(
    alloc: Global,
    copy: &Candidate,
    candidate: &Candidate,
    lines: &mut Vec<ForkLine>,
) -> Result<(), AllocError>
    ensures { OnOk result (AddsBeside copy.now (candidate.now ∷ []) lines.old.items
        lines.new.items) }
{
    if candidate.size.0 != copy.size.0 {
        return Ok(());
    }
    if copy.root == candidate.root {
        return Ok(());
    }
    add_fork(alloc, lines, copy, candidate, None)
}

// Adds the lines of the copy and each candidate of its size that has another root.
fn add_all_beside(
    alloc: Global,
    copy: &Candidate,
    candidates: &[Candidate],
    lines: &mut Vec<ForkLine>,
) -> Result<(), AllocError>
    ensures { OnOk result (AddsBeside copy.now candidates.now lines.old.items lines.new.items) }
{
    for candidate in candidates {
        add_beside(alloc, copy, candidate, lines)?;
    }
    Ok(())
}

/// The same, if there is a copy.
pub(crate) fn add_to_copy(
    alloc: Global,
    copy: &Option<Candidate>,
    candidates: &[Candidate],
    lines: &mut Vec<ForkLine>,
) -> Result<(), AllocError>
    ensures { OnOk result (AddsToCopy copy.now candidates.now lines.old.items lines.new.items) }
{
    match copy {
        Some(copy) => add_all_beside(alloc, copy, candidates, lines),
        None => Ok(()),
    }
}

// The first candidate with the size of that one. It has the least root.
fn least_of<'a>(candidates: &'a [Candidate], candidate: &'a Candidate) -> &'a Candidate
    requires rising { IsSorted turn_cmp candidates.now }
    requires listed { Contains candidates.now candidate.now }
    ensures { IsLeastOf candidates.now candidate.now.size.0 result.now }
{
    for other in candidates {
        if other.size.0 == candidate.size.0 {
            return other;
        }
    }
    candidate
}

// Adds the line of a candidate above the copy and the least root of its size, if it has another root.
fn add_equal(
    alloc: Global,
    copy: &Option<Candidate>,
    candidates: &[Candidate],
    candidate: &Candidate,
    lines: &mut Vec<ForkLine>,
) -> Result<(), AllocError>
    requires rising { IsSorted turn_cmp candidates.now }
    requires listed { Contains candidates.now candidate.now }
    ensures { OnOk result (AddsEqual copy.now candidates.now (candidate.now ∷ [])
        lines.old.items lines.new.items) }
{
    if !exceeds(copy, candidate) {
        return Ok(());
    }
    let least = least_of(candidates, candidate);
    if least.root == candidate.root {
        return Ok(());
    }
    add_fork(alloc, lines, least, candidate, None)
}

/// The lines of the candidates above the copy: for each size, the least root with each other one.
pub(crate) fn equal_lines(
    alloc: Global,
    copy: &Option<Candidate>,
    candidates: &[Candidate],
) -> Result<Vec<ForkLine>, AllocError>
    requires { IsSorted turn_cmp candidates.now }
    ensures { IfOk result (λ lines. HasEqual copy.now candidates.now lines.items) }
{
    let mut lines = Vec::new(alloc);
    for candidate in candidates {
        add_equal(alloc, copy, candidates, candidate, &mut lines)?;
    }
    Ok(lines)
}

// Whether a line has the size and root of a candidate.
fn is_in_line(line: &ForkLine, candidate: &Candidate) -> bool
    ensures { IsTrue result ↔ IsInLine candidate.now line.now }
{
    candidate.is_same_point(&line.small) || candidate.is_same_point(&line.large)
}

// Whether some line has them.
fn is_in_lines(lines: &[ForkLine], candidate: &Candidate) -> bool
    ensures yes { IsTrue result → IsInSomeLine lines.now candidate.now }
    ensures no { IsFalse result → ¬ IsInSomeLine lines.now candidate.now }
{
    for line in lines {
        if is_in_line(line, candidate) {
            return true;
        }
    }
    false
}

// Adds the size and root of a candidate, if it is larger than the copy and in no line. The candidates fall, so the points rise.
fn add_left(
    copy: &Option<Candidate>,
    candidates: &[Candidate],
    i: usize,
    lines: &[ForkLine],
    larger: &mut Vec<(u64, Hash)>,
) -> Result<(), AllocError>
    requires within { i < length candidates.now }
    requires rising { IsSorted turn_cmp candidates.now }
    ensures { OnOk result (HasLeft copy.now candidates.now lines.now i larger.old.items
        → HasLeft copy.now candidates.now lines.now (i + 1) larger.new.items) }
{
    if is_repeated(candidates, i) {
        return Ok(());
    }
    let candidate = &candidates[i];
    if !exceeds(copy, candidate) {
        return Ok(());
    }
    if is_in_lines(lines, candidate) {
        return Ok(());
    }
    let root = candidate.root;
    larger.insert(0, (candidate.size.0, root))?;
    Ok(())
}

/// The size and root of each candidate that is larger than the copy and in no line.
pub(crate) fn left_of(
    alloc: Global,
    copy: &Option<Candidate>,
    candidates: &[Candidate],
    lines: &[ForkLine],
) -> Result<Vec<(u64, Hash)>, AllocError>
    requires { IsSorted turn_cmp candidates.now }
    ensures { IfOk result (λ larger. HasLeft copy.now candidates.now lines.now
        (length candidates.now) larger.items) }
{
    let mut larger = Vec::new(alloc);
    for i in 0..candidates.len() {
        add_left(copy, candidates, i, lines, &mut larger)?;
    }
    Ok(larger)
}
