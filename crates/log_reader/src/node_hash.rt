//! The hashes of the nodes of a tree.
ghost use Rattle.std.specs.Prelude.{◌≡◌, ◌+◌, ◌*◌, ◌^◌, ◌<◌, ◌≤◌, ◌++◌, ◌∷◌, [], ℕ, IfErr, IfOk, IsSomeAnd, List, drop, length, take};
ghost use Rattle.tlog_shape.specs.Edge.{edge_index_of, width_of};
ghost use Rattle.tlog_hash.specs.Rows.{part};
ghost use Rattle.tlog_hash.specs.Tree.{fold_of, mth};
ghost use Rattle.mirror_sources.specs.Source.{StaysWithin};
ghost use Rattle.mirror_sources.specs.Recorded.{KeepsRecord};
ghost use Rattle.log_reader.specs.EdgeRows.{RowIsTrue};
ghost use Rattle.log_reader.specs.Faults.{CountsFailure};
ghost use Rattle.log_reader.specs.FalseFiles.{NamesFalseIfFile};
ghost use Rattle.log_reader.specs.Holding.{ReadsTilesOf};
ghost use Rattle.log_reader.specs.Nodes.{IsHashFrom, IsNodeRange};
ghost use Rattle.log_reader.specs.Requested.{IsTileOverNode, RequestsOnly};

use crate::edge_root::on_top;
use crate::fault::ReadFault;
use crate::hashed_edge::HashedEdge;
use crate::reader::LogReader;
use crate::walk::go_to;
use mirror_sources::Source;
use std::alloc::{AllocError, Global};
use tlog_hash::{Hash, TreeHash, fold};
use tlog_shape::{edge_index, edge_width, is_perfect, top_level};

/// The fold of some hashes of a row. None: the row does not have them.
pub(crate) fn fold_part<H: TreeHash>(row: &[Hash], first: u32, count: u32) -> Option<Hash>
    ensures { 0 < count → first + count ≤ length row.now → IsSomeAnd result
        (λ hash. hash ≡ fold_of H.digest (take count (drop first row.now))) }
{
    let rest = row.get(first as usize..)?;
    let part = rest.get(..count as usize)?;
    if part.is_empty() {
        return None;
    }
    Some(fold::<H>(part))
}

// The hash of the last entries: those from hash `first` on in the edge row of that level, and all after that row.
fn end_hash<H: TreeHash>(
    alloc: Global,
    edge: &HashedEdge<H>,
    level: u32,
    first: u32,
) -> Result<Option<Hash>, AllocError>
    requires { level ≤ 7 }
    ensures { IfOk result (λ hash. (entries : List (List ℕ)) → edge.now.size ≡ length entries
        → ((l : ℕ) → l ≤ 7 → RowIsTrue H.digest edge.now entries l)
        → first ≤ width_of (length entries) level → IsHashFrom H.digest entries
        ((256 * edge_index_of (length entries) level + first) * 256 ^ level) hash) }
{
    match edge.rows().row(level).get(first as usize..) {
        Some(row) => on_top::<H>(alloc, edge.below(level), row),
        None => Ok(None),
    }
}

/// The hash of a node of the tree: of the `len` entries from `start` on. If `len` is a power of two, some hashes of a tile's row lead to
/// it. If not, they are the last entries of the tree.
#[tactic(auto, using(crate::proofs::Kept::kept_once))]
pub(crate) fn node_hash<H: TreeHash, S: Source>(
    alloc: Global,
    reader: &mut LogReader<H>,
    source: &mut S,
    start: u64,
    len: u64,
) -> Result<Hash, ReadFault>
    requires { IsNodeRange reader.old.edge.size start len }
    ensures edge { reader.new.edge ≡ reader.old.edge }
    ensures root { reader.new.root ≡ reader.old.root }
    ensures later { StaysWithin (S.may_answer source.old) (S.may_answer source.new) }
    ensures kept { KeepsRecord (S.files source.old) (S.files source.new) }
    ensures asks { RequestsOnly (S.asked source.old) (S.asked source.new)
        (IsTileOverNode reader.old.edge.size start len) }
    ensures counted { CountsFailure (S.failed source.old) (S.failed source.new) result }
    ensures names { IfErr result
        (NamesFalseIfFile H.digest (S.may_answer source.old) reader.old.edge) }
    ensures honest { ReadsTilesOf H.digest reader.old reader.new (S.may_answer source.old) result
        (λ entries hash. hash ≡ mth H.digest (part start len entries)) }
{
    let level = top_level(len);
    if is_perfect(len) {
        go_to::<H, S>(alloc, reader, source, level, edge_index(start, level))?;
        return reader
            .node(edge_width(start, level), edge_width(len, level))
            .ok_or(ReadFault::Collision);
    }
    let hash = end_hash::<H>(alloc, reader.edge(), level, edge_width(start, level))?;
    hash.ok_or(ReadFault::Collision)
}

/// Adds the hash of a node to a path. Returns the hash.
#[tactic(auto, using(crate::proofs::Kept::kept_once))]
pub(crate) fn add_node<H: TreeHash, S: Source>(
    alloc: Global,
    reader: &mut LogReader<H>,
    source: &mut S,
    node: (u64, u64),
    path: &mut Vec<Hash>,
) -> Result<Hash, ReadFault>
    requires { IsNodeRange reader.old.edge.size node.0 node.1 }
    ensures edge { reader.new.edge ≡ reader.old.edge }
    ensures root { reader.new.root ≡ reader.old.root }
    ensures later { StaysWithin (S.may_answer source.old) (S.may_answer source.new) }
    ensures kept { KeepsRecord (S.files source.old) (S.files source.new) }
    ensures asks { RequestsOnly (S.asked source.old) (S.asked source.new)
        (IsTileOverNode reader.old.edge.size node.0 node.1) }
    ensures counted { CountsFailure (S.failed source.old) (S.failed source.new) result }
    ensures names { IfErr result
        (NamesFalseIfFile H.digest (S.may_answer source.old) reader.old.edge) }
    ensures honest { ReadsTilesOf H.digest reader.old reader.new (S.may_answer source.old) result
        (λ entries hash. (hash ≡ mth H.digest (part node.0 node.1 entries))
        × (path.new.items ≡ path.old.items ++ hash ∷ [])) }
{
    let hash = node_hash::<H, S>(alloc, reader, source, node.0, node.1)?;
    path.push(hash)?;
    Ok(hash)
}
