//! Forks: pairs of tree heads that one log, which only grows, cannot both have made.
ghost use Rattle.std.specs.Prelude.{◌≡◌, ◌≢◌, ◌≤◌, ◌<◌, ◌+◌, ◌++◌, ◌⊎◌, [], drop, length, All, IfErr, IfOk, IsTrue, ◌↔◌, OnErr, OnOk};
ghost use Rattle.std.specs.Io.KnownBytes.{Appends};
ghost use Rattle.std.specs.List.Sorted.{IsStrictlySortedBy};
ghost use Rattle.byte_streams.specs.Streams.{AppendsPrefix};
ghost use Rattle.node_store.specs.Strings.{NoClash};
ghost use Rattle.mirror_model.specs.Texts.{fork_line, forks_text};
ghost use Rattle.mirror_trees.specs.HeldTrees.{AreKnown};
ghost use Rattle.tlog_mirror.specs.Branches.{IsSpelled, all_forks, apart_of, fork_of, forks_from, marks_from, under_of};
ghost use Rattle.tlog_mirror.specs.Forks.{AreForksOf, WritesForksOf};
ghost use Rattle.tlog_mirror.specs.Pieces.{Sends};
ghost use Rattle.tlog_mirror.specs.Points.{by_point};

use crate::branches::{Branch, branches_of};
use crate::calm::calm_of;
use crate::pieces::send;
use byte_streams::{StreamFault, write_whole};
use mirror_model::Fork;
use mirror_trees::HeldTrees;
use node_store::Store;
use std::alloc::{AllocError, Global};
use std::io::Write;
use tlog_hash::{Hash, TreeHash};

/// The forks among tree heads that rise by size and root: each pair that one log, which only grows, cannot both have
/// made, once. They are in order of the smaller tree head and then the larger one. The two have one size, or both trees
/// are held and neither list of entries is a prefix of the other (RFC 6962, section 2.1.2).
///
/// It compares hashes of held nodes, and hashes nothing.
///
/// ```text
/// forks_of(alloc, &store, &known, &[(3, root), (3, other)])?   // [Fork { small: (3, root), large: (3, other) }]
/// ```
///
/// # Errors
///
/// Memory was refused.
pub fn forks_of<H: TreeHash>(
    alloc: Global,
    store: &Store<H>,
    known: &HeldTrees,
    points: &[(u64, Hash)],
) -> Result<Vec<Fork>, AllocError>
    requires known { AreKnown H.digest store.now known.now }
    requires clean { NoClash H.digest store.now }
    requires rising { IsStrictlySortedBy by_point points.now }
    ensures { IfOk result (λ forks. AreForksOf H.digest store.now points.now forks.items) }
{
    let branches = branches_of(alloc, store, known, points)?;
    let mut marks = vec![in alloc; false; branches.len()]?;
    let calm = calm_of(alloc, branches.as_slice())?;
    list_forks(
        alloc,
        calm.as_slice(),
        marks.as_mut_slice(),
        branches.as_slice(),
    )
}

/// Writes these forks in order, a line each, the smaller tree head first: `fork SIZE ROOT SIZE ROOT`. It returns
/// whether there is a fork, and writes nothing if there is none.
///
/// It writes each line as it makes it. Memory is needed for each tree head and not for each fork, and before the first
/// byte is written. It does not flush.
///
/// ```text
/// let forked = write_forks(alloc, &mut output, &store, &known, &points)?;
/// ```
///
/// # Errors
///
/// `OutOfMemory` if memory was refused: nothing was written. `WriteFault` if a write failed or took no byte: a prefix
/// of the lines was written. There is no other fault.
pub fn write_forks<H: TreeHash, W: Write>(
    alloc: Global,
    output: &mut W,
    store: &Store<H>,
    known: &HeldTrees,
    points: &[(u64, Hash)],
) -> Result<bool, StreamFault>
    requires known { AreKnown H.digest store.now known.now }
    requires clean { NoClash H.digest store.now }
    requires rising { IsStrictlySortedBy by_point points.now }
    ensures { WritesForksOf H.digest store.now points.now (W.contents output.old)
        (W.contents output.new) result }
{
    let branches = branches_of(alloc, store, known, points)?;
    let mut marks = vec![in alloc; false; branches.len()]?;
    let calm = calm_of(alloc, branches.as_slice())?;
    write_all(
        alloc,
        output,
        calm.as_slice(),
        marks.as_mut_slice(),
        branches.as_slice(),
    )
}

// Whether the tree head at a place is a prefix of the one with this `after`.
fn is_under(marks: &[bool], at: usize, after: usize) -> bool
    requires { after ≤ length marks.now }
    ensures { result ≡ under_of at marks.now after }
{
    at < after && marks[after - 1]
}

// Whether two tree heads conflict; `under` says whether the first is a prefix of the second.
fn is_apart(a: &Branch, b: &Branch, under: bool) -> bool
    ensures { result ≡ apart_of a.now b.now under }
{
    a.head.0 == b.head.0 || (a.whole && b.whole && !under)
}

// The forks of the tree heads. There is one mark for each tree head; the marks' values before the call do not matter.
fn list_forks(
    alloc: Global,
    calm: &[bool],
    marks: &mut [bool],
    branches: &[Branch],
) -> Result<Vec<Fork>, AllocError>
    requires calm { length calm.now ≡ length branches.now }
    requires marks { length marks.old ≡ length branches.now }
    requires fits { All (λ b. b.after ≤ length branches.now) branches.now }
    ensures { IfOk result (λ forks. forks.items ≡ all_forks calm.now 0 marks.old branches.now) }
{
    let mut forks = Vec::new(alloc);
    for at in 0..branches.len() {
        push_forks(&mut forks, calm[at], marks, branches, at)?;
    }
    Ok(forks)
}

// Adds the forks whose smaller tree head is this one; a calm one has none.
fn push_forks(
    forks: &mut Vec<Fork>,
    calm: bool,
    marks: &mut [bool],
    branches: &[Branch],
    at: usize,
) -> Result<(), AllocError>
    requires within { at < length branches.now }
    requires marks { length marks.old ≡ length branches.now }
    requires fits { All (λ b. b.after ≤ length branches.now) branches.now }
    ensures forks { OnOk result (forks.new.items ≡ forks.old.items
        ++ forks_from calm at marks.old (drop at branches.now)) }
    ensures marks { OnOk result (marks.new ≡ marks_from calm at marks.old (drop at branches.now)) }
{
    if calm {
        return Ok(());
    }
    let small = &branches[at];
    marks[at] = true;
    for next in at + 1..branches.len() {
        let large = &branches[next];
        let under = is_under(marks, at, large.after);
        marks[next] = under;
        push_fork(forks, small, large, under)?;
    }
    Ok(())
}

// Adds the fork of two tree heads, if they conflict.
fn push_fork(
    forks: &mut Vec<Fork>,
    small: &Branch,
    large: &Branch,
    under: bool,
) -> Result<(), AllocError>
    ensures { OnOk result (forks.new.items ≡ forks.old.items
        ++ fork_of small.now large.now under) }
{
    if !is_apart(small, large, under) {
        return Ok(());
    }
    forks.push(Fork {
        small: small.head,
        large: large.head,
    })?;
    Ok(())
}

// Writes the forks of the tree heads, and returns whether there is one. There is one mark for each tree head; the marks'
// values before the call do not matter.
fn write_all<W: Write>(
    alloc: Global,
    output: &mut W,
    calm: &[bool],
    marks: &mut [bool],
    branches: &[Branch],
) -> Result<bool, StreamFault>
    requires calm { length calm.now ≡ length branches.now }
    requires marks { length marks.old ≡ length branches.now }
    requires fits { All (λ b. b.after ≤ length branches.now) branches.now }
    requires spelled { All IsSpelled branches.now }
    ensures ok { OnOk result (Appends (W.contents output.old) (W.contents output.new)
        (forks_text (all_forks calm.now 0 marks.old branches.now))) }
    ensures err { OnErr result (AppendsPrefix (W.contents output.old) (W.contents output.new)
        (forks_text (all_forks calm.now 0 marks.old branches.now))) }
    ensures any { IfOk result (λ any. IsTrue any
        ↔ (all_forks calm.now 0 marks.old branches.now ≢ [])) }
    ensures fault { IfErr result (λ e. e ≡ StreamFault.WriteFault) }
{
    let mut held = Vec::new(alloc);
    let mut any = false;
    for at in 0..branches.len() {
        any = write_forks_of(output, &mut held, calm[at], marks, branches, at, any)?;
    }
    write_whole(output, held.as_slice())?;
    Ok(any)
}

// Writes the forks whose smaller tree head is this one; a calm one has none. Returns whether there was a fork before or
// among these.
fn write_forks_of<W: Write>(
    output: &mut W,
    held: &mut Vec<u8>,
    calm: bool,
    marks: &mut [bool],
    branches: &[Branch],
    at: usize,
    before: bool,
) -> Result<bool, StreamFault>
    requires within { at < length branches.now }
    requires marks { length marks.old ≡ length branches.now }
    requires fits { All (λ b. b.after ≤ length branches.now) branches.now }
    requires spelled { All IsSpelled branches.now }
    ensures ok { OnOk result (Sends (W.contents output.old) (W.contents output.new) held.new.items
        (held.old.items ++ forks_text (forks_from calm at marks.old (drop at branches.now)))) }
    ensures err { OnErr result (AppendsPrefix (W.contents output.old) (W.contents output.new)
        (held.old.items ++ forks_text (forks_from calm at marks.old (drop at branches.now)))) }
    ensures marks { OnOk result (marks.new ≡ marks_from calm at marks.old (drop at branches.now)) }
    ensures any { IfOk result (λ any. IsTrue any ↔ (IsTrue before
        ⊎ (forks_from calm at marks.old (drop at branches.now) ≢ []))) }
    ensures fault { IfErr result (λ e. e ≡ StreamFault.WriteFault) }
{
    if calm {
        return Ok(before);
    }
    let small = &branches[at];
    let mut any = before;
    marks[at] = true;
    for next in at + 1..branches.len() {
        let large = &branches[next];
        let under = is_under(marks, at, large.after);
        marks[next] = under;
        any = write_fork(output, held, small, large, under, any)?;
    }
    Ok(any)
}

// Writes the fork of two tree heads, if they conflict. Returns whether there was a fork before or this is one.
fn write_fork<W: Write>(
    output: &mut W,
    held: &mut Vec<u8>,
    small: &Branch,
    large: &Branch,
    under: bool,
    before: bool,
) -> Result<bool, StreamFault>
    requires small { IsSpelled small.now }
    requires large { IsSpelled large.now }
    ensures ok { OnOk result (Sends (W.contents output.old) (W.contents output.new) held.new.items
        (held.old.items ++ forks_text (fork_of small.now large.now under))) }
    ensures err { OnErr result (AppendsPrefix (W.contents output.old) (W.contents output.new)
        (held.old.items ++ forks_text (fork_of small.now large.now under))) }
    ensures any { IfOk result (λ any. IsTrue any ↔ (IsTrue before
        ⊎ (fork_of small.now large.now under ≢ []))) }
    ensures fault { IfErr result (λ e. e ≡ StreamFault.WriteFault) }
{
    if !is_apart(small, large, under) {
        return Ok(before);
    }
    write_line(output, held, small, large)?;
    Ok(true)
}

// Writes the line of the fork of two tree heads.
fn write_line<W: Write>(
    output: &mut W,
    held: &mut Vec<u8>,
    small: &Branch,
    large: &Branch,
) -> Result<(), StreamFault>
    requires small { IsSpelled small.now }
    requires large { IsSpelled large.now }
    ensures ok { OnOk result (Sends (W.contents output.old) (W.contents output.new) held.new.items
        (held.old.items ++ fork_line (record { small = small.now.head; large = large.now.head }))) }
    ensures err { OnErr result (AppendsPrefix (W.contents output.old) (W.contents output.new)
        (held.old.items ++ fork_line (record { small = small.now.head; large = large.now.head }))) }
    ensures fault { IfErr result (λ e. e ≡ StreamFault.WriteFault) }
{
    send(output, held, small.as_small.as_bytes())?;
    send(output, held, large.as_large.as_bytes())
}
