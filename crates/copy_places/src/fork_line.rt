//! Lines that report forks.
ghost use Rattle.std.specs.Prelude.{◌≡◌, ◌↔◌, ◌≤◌, ℕ, IfNone, IfOk, IfSome, IsFalse, IsTrue, List, OnOk};
ghost use Rattle.std.specs.declared.cmp.Ordering.TheVariants.{Less};
ghost use Rattle.mirror_model.specs.Forks.{point_cmp};
ghost use Rattle.copy_places.specs.Adding.{AddsFork, AddsLine, IsForkLine, IsPlaceOf};
ghost use Rattle.copy_places.specs.Candidates.{point_of};
ghost use Rattle.copy_places.specs.Lines.{HasLineOf, IsInLine, IsInSomeLine, KeepsLines, fork_line_cmp};
ghost use Rattle.copy_places.specs.Shown.{AreFork, IsLine, ShowsEach, ShowsLine};

use crate::candidate::Candidate;
use std::alloc::{AllocError, Global};
use std::cmp::Ordering;
use tlog_proof::Proof;

/// Two checkpoints that no log has both made. The one with the lesser size, then root, is first.
#[derive(Drop)]
pub struct ForkLine {
    /// The smaller checkpoint.
    pub small: Candidate,
    /// The larger checkpoint.
    pub large: Candidate,
    /// The consistency proof from the smaller size into the larger tree. Its first root differs from that of the smaller checkpoint. None:
    /// the sizes are equal, or the smaller one is 0.
    pub proof: Option<Proof>,
}

// The order of checkpoints: by size, then by root.
fn cmp_points(first: &Candidate, second: &Candidate) -> Ordering
    ensures { result ≡ point_cmp (point_of first.now) (point_of second.now) }
{
    first
        .size
        .0
        .cmp(&second.size.0)
        .then(first.root.cmp(&second.root))
}

// Whether the first point comes before the second: by size, then by root.
fn is_before(first: &Candidate, second: &Candidate) -> bool
    ensures before { IsTrue result → first.now.size.0 ≤ second.now.size.0 }
    ensures after { IsFalse result → second.now.size.0 ≤ first.now.size.0 }
    ensures less { IsTrue result ↔ (point_cmp (point_of first.now) (point_of second.now) ≡ Less) }
{
    cmp_points(first, second) == Ordering::Less
}

// The line of two candidates, the lesser one first.
fn line_of(
    alloc: Global,
    small: &Candidate,
    large: &Candidate,
    proof: Option<Proof>,
) -> Result<ForkLine, AllocError>
    ensures { IfOk result (IsLine small.now large.now proof) }
{
    let small = small.copy(alloc)?;
    let large = large.copy(alloc)?;
    Ok(ForkLine {
        small,
        large,
        proof,
    })
}

// The fork of two candidates, the lesser one first.
fn fork_of(
    alloc: Global,
    first: &Candidate,
    second: &Candidate,
    proof: Option<Proof>,
) -> Result<ForkLine, AllocError>
    ensures shows { IfOk result (λ line. (digest : List ℕ → List ℕ)
        → AreFork digest first.now second.now proof → ShowsLine digest line) }
    ensures both { IfOk result (λ line. IsInLine first.now line × IsInLine second.now line) }
    ensures has { IfOk result (IsForkLine first.now second.now) }
{
    if is_before(first, second) {
        return line_of(alloc, first, second, proof);
    }
    line_of(alloc, second, first, proof)
}

// The order of lines: by the smaller checkpoint, then by the larger one.
fn cmp_lines(first: &ForkLine, second: &ForkLine) -> Ordering
    ensures { result ≡ fork_line_cmp first.now second.now }
{
    cmp_points(&first.small, &second.small).then(cmp_points(&first.large, &second.large))
}

// The index of the line among rising lines. None: a line of the same two points is there.
fn place_in(lines: &[ForkLine], line: &ForkLine) -> Option<usize>
    ensures place { IfSome result (IsPlaceOf line.now lines.now) }
    ensures there { IfNone result (HasLineOf lines.now line.now) }
{
    for i in 0..lines.len() {
        match cmp_lines(line, &lines[i]) {
            Ordering::Less => return Some(i),
            Ordering::Equal => return None,
            Ordering::Greater => {}
        }
    }
    Some(lines.len())
}

// Adds a line at its index, if there is none of the same two points.
fn add_line(lines: &mut Vec<ForkLine>, line: ForkLine) -> Result<(), AllocError>
    ensures shows { OnOk result ((digest : List ℕ → List ℕ) → ShowsEach digest lines.old.items
        → ShowsLine digest line → ShowsEach digest lines.new.items) }
    ensures kept { OnOk result (KeepsLines lines.old.items lines.new.items) }
    ensures has { OnOk result (HasLineOf lines.new.items line) }
    ensures adds { OnOk result (AddsLine line lines.old.items lines.new.items) }
{
    match place_in(lines.as_slice(), &line) {
        Some(at) => lines.insert(at, line)?,
        None => drop(line),
    }
    Ok(())
}

/// Adds the fork of two candidates to rising lines, if there is no line of the same two sizes and roots. The proof leads from the smaller
/// candidate into the larger one.
///
/// ```text
/// add_fork(alloc, &mut lines, &copy, &candidate, Some(proof))?; // lines rise strictly, also now
/// ```
///
/// # Errors
///
/// `AllocError`: memory was refused.
pub fn add_fork(
    alloc: Global,
    lines: &mut Vec<ForkLine>,
    first: &Candidate,
    second: &Candidate,
    proof: Option<Proof>,
) -> Result<(), AllocError>
    ensures shows { OnOk result ((digest : List ℕ → List ℕ)
        → AreFork digest first.now second.now proof → ShowsEach digest lines.old.items
        → ShowsEach digest lines.new.items) }
    ensures kept { OnOk result (KeepsLines lines.old.items lines.new.items) }
    ensures first { OnOk result (IsInSomeLine lines.new.items first.now) }
    ensures second { OnOk result (IsInSomeLine lines.new.items second.now) }
    ensures adds { OnOk result (AddsFork first.now second.now lines.old.items lines.new.items) }
{
    let line = fork_of(alloc, first, second, proof)?;
    add_line(lines, line)
}
