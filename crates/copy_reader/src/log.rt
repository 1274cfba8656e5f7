//! The audit of a whole log.
ghost use Rattle.std.specs.Prelude.{◌≡◌, ◌^◌, ◌<◌, ◌≤◌, ℕ, IfErr, IfOk, List, OnOk, length, map};
ghost use Rattle.tlog_hash.specs.Tree.{mth};
ghost use Rattle.log_reader.specs.EdgeRows.{HasWidths, RowIsTrue};
ghost use Rattle.log_reader.specs.Holding.{IsSourceOf};
ghost use Rattle.copy_reader.specs.Audits.{IsAudited, IsHeadGiven, IsTreeGiven, ReadsAudited};
ghost use Rattle.copy_reader.specs.Edges.{CoversLog};
ghost use Rattle.copy_reader.specs.AuditFaults.{BlamesPlace, GivesTrue, IsFailure, IsForAbsence};
ghost use Rattle.copy_reader.specs.Found.{IsLogOf, IsReadInOrder, NamesWrong};
ghost use Rattle.copy_reader.specs.Order.{below_edge, file_order};
ghost use Rattle.copy_reader.specs.Stops.{AreRead, HasEdge, NamesHead, StopsEdge, StopsIn};
ghost use Rattle.copy_reader.specs.WholeLogs.{HasWholeLog};

use crate::audit_fault::AuditFault;
use crate::edge::audit_levels;
use crate::edge_bundle::audit_edge_bundle;
use crate::edge_rows::read_edge;
use log_reader::{EdgeRows, open_head};
use mirror_model::TakeFault;
use mirror_sources::Source;
use signed_note::Verifier;
use std::alloc::Global;
use tlog_hash::{Hash, TreeHash};
use tlog_tiles::Path;

/// The whole log at a source.
#[derive(Drop, Clone, Copy)]
pub struct Audited {
    /// The number of its entries.
    pub size: u64,
    /// The root of its tree.
    pub root: Hash,
}

// The size and root of the checkpoint in a note, which opens under the keys.
fn head_in(
    alloc: Global,
    origin: &str,
    keys: &[Box<dyn Verifier>],
    note: &[u8],
) -> Result<Audited, TakeFault>
    ensures { ReadsAudited note.now origin.now (map (λ k. key k) keys.now) result }
{
    match open_head(alloc, origin, keys, note) {
        Ok(checkpoint) => {
            let root = checkpoint.root;
            Ok(Audited {
                size: checkpoint.size,
                root,
            })
        }
        Err(fault) => Err(fault),
    }
}

// The size and root of the checkpoint.
fn read_checkpoint<S: Source>(
    alloc: Global,
    origin: &str,
    keys: &[Box<dyn Verifier>],
    source: &mut S,
) -> Result<Audited, AuditFault>
    ensures counted { BlamesPlace (S.failed source.old) (S.failed source.new) result }
    ensures absent { IfErr result (IsForAbsence (S.may_answer source.old)) }
    ensures given { IfOk result (λ a. IsHeadGiven origin.now (map (λ k. key k) keys.now)
        a.size a.root (S.may_answer source.old) (S.may_answer source.new) (S.asked source.old)
        (S.asked source.new)) }
    ensures first { IfErr result (NamesHead origin.now (map (λ k. key k) keys.now)
        (S.may_answer source.old) (S.may_answer source.new) (S.asked source.old)
        (S.asked source.new)) }
    ensures honest { (digest : List ℕ → List ℕ) (entries : List (List ℕ)) (note : List ℕ)
        → HasWholeLog digest entries origin.now (map (λ k. key k) keys.now) note
        (S.may_answer source.old) → GivesTrue result
        (λ a. (length entries ≡ a.size) × (mth digest entries ≡ a.root)) }
{
    let note = match source.get(&Path::Checkpoint)? {
        Some(note) => note,
        None => return Err(AuditFault::NoCheckpoint),
    };
    let head = head_in(alloc, origin, keys, &note)?;
    Ok(head)
}

// Reads all files below the edge.
fn audit_edge<H: TreeHash, S: Source>(
    alloc: Global,
    source: &mut S,
    edge: &EdgeRows,
) -> Result<(), AuditFault>
    requires widths { HasWidths edge.now }
    requires small { edge.now.size < 2 ^ 64 }
    ensures counted { BlamesPlace (S.failed source.old) (S.failed source.new) result }
    ensures absent { IfErr result (IsForAbsence (S.may_answer source.old)) }
    ensures covers { OnOk result (CoversLog H.digest edge.now (S.may_answer source.old)
        (S.may_answer source.new) (S.asked source.old) (S.asked source.new)) }
    ensures read { OnOk result (AreRead H.digest (HasEdge H.digest edge.now)
        (below_edge edge.now.size) (S.may_answer source.old) (S.may_answer source.new) (S.asked source.old) (S.asked source.new)) }
    ensures first { IfErr result (StopsIn H.digest (below_edge edge.now.size)
        (HasEdge H.digest edge.now) (S.may_answer source.old) (S.may_answer source.new)
        (S.asked source.old) (S.asked source.new)) }
    ensures honest { (entries : List (List ℕ))
        → IsSourceOf H.digest entries (S.may_answer source.old)
        → edge.now.size ≡ length entries
        → ((level : ℕ) → level ≤ 7 → RowIsTrue H.digest edge.now entries level)
        → IfErr result IsFailure }
{
    audit_levels::<H, S>(alloc, source, edge)?;
    audit_edge_bundle::<H, S>(alloc, source, edge)
}

// Reads all tiles and bundles of a log of that size and root.
fn audit_tree<H: TreeHash, S: Source>(
    alloc: Global,
    source: &mut S,
    size: u64,
    root: &Hash,
) -> Result<(), AuditFault>
    ensures counted { BlamesPlace (S.failed source.old) (S.failed source.new) result }
    ensures absent { IfErr result (IsForAbsence (S.may_answer source.old)) }
    ensures given { OnOk result (IsTreeGiven H.digest size root.now
        (S.may_answer source.old) (S.may_answer source.new) (S.asked source.old)
        (S.asked source.new)) }
    ensures read { OnOk result (AreRead H.digest (IsLogOf H.digest size root.now)
        (file_order size) (S.may_answer source.old) (S.may_answer source.new) (S.asked source.old) (S.asked source.new)) }
    ensures first { IfErr result (StopsEdge H.digest (file_order size) size root.now
        (S.may_answer source.old) (S.may_answer source.new) (S.asked source.old)
        (S.asked source.new)) }
    ensures honest { (entries : List (List ℕ))
        → IsSourceOf H.digest entries (S.may_answer source.old)
        → length entries ≡ size → mth H.digest entries ≡ root.now → IfErr result IsFailure }
{
    let edge = read_edge::<H, S>(alloc, source, size, root)?;
    let done = audit_edge::<H, S>(alloc, source, &edge);
    drop(edge);
    done
}

/// Reads a whole log at a source, file by file. The source has to have each file with its true bytes (C2SP tlog-tiles, "Merkle Tree", "Log
/// Entries" and "Partial Tiles"). If it lacks a partial file, the audit requests the full file, which has to begin with the partial one.
///
/// First comes the checkpoint. Then come the rows of the right edge, the lowest first; they have to lead to the root. Then come all files
/// below them, from left to right. A tile of level 1 or above comes before the files below it, and has to fold to its hash in the row
/// above. A bundle comes before its tile of level 0. Memory holds one bundle and one row a level, for all sizes of the log.
///
/// ```text
/// let audited = audit::<Sha256Tree, ListSource<Sha256Tree>>(alloc, "ex", &keys, &mut source)?;
/// audited.size // 600
/// ```
///
/// # Errors
///
/// The first fault ends the audit.
/// - `NoCheckpoint`: the source lacks a checkpoint. `Head`: it does not open under the keys, or is not one of the origin (`TakeFault`).
/// - `NoEdge`: the source lacks a partial tile of the right edge, and its full tile.
/// - `NoFile`: the source lacks another file. `FalseFile`: a file differs from that of the log of the checkpoint. If the edge rows do not
///   lead to the root, it names the lowest of them, or the checkpoint if that has no entries. A full tile or a bundle that is named is the
///   first false or missing file, if nothing collides (`verified_files_law`).
/// - `Source`: the source failed. `OutOfMemory`: memory was refused.
pub fn audit<H: TreeHash, S: Source>(
    alloc: Global,
    origin: &str,
    keys: &[Box<dyn Verifier>],
    source: &mut S,
) -> Result<Audited, AuditFault>
    ensures counted { BlamesPlace (S.failed source.old) (S.failed source.new) result }
    ensures absent { IfErr result (IsForAbsence (S.may_answer source.old)) }
    ensures named { IfErr result (NamesWrong H.digest origin.now (map (λ k. key k) keys.now)
        (S.may_answer source.old) (S.may_answer source.new) (S.asked source.old)
        (S.asked source.new)) }
    ensures ordered { IfOk result (λ a. IsReadInOrder a.size (S.may_answer source.old)
        (S.may_answer source.new) (S.asked source.old) (S.asked source.new)) }
    ensures audited { IfOk result (λ a. IsAudited H.digest origin.now (map (λ k. key k) keys.now)
        a.size a.root (S.may_answer source.old) (S.may_answer source.new) (S.asked source.old)
        (S.asked source.new)) }
    ensures honest { (entries : List (List ℕ)) (note : List ℕ)
        → HasWholeLog H.digest entries origin.now (map (λ k. key k) keys.now) note
        (S.may_answer source.old) → IfErr result IsFailure }
{
    let audited = read_checkpoint(alloc, origin, keys, source)?;
    audit_tree::<H, S>(alloc, source, audited.size, &audited.root)?;
    Ok(audited)
}
