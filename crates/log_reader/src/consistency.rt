//! Consistency proofs of a log, made from verified rows.
ghost use Rattle.std.specs.Prelude.{◌≡◌, ◌+◌, ◌^◌, ◌<◌, ◌≤◌, IfErr, IfOk, Ok, length};
ghost use Rattle.tlog_hash.specs.Rows.{part};
ghost use Rattle.tlog_proof.specs.Made.{Holds, asked_proof};
ghost use Rattle.tlog_proof.specs.declared.proof.Ask.TheVariants.{Consistency};
ghost use Rattle.mirror_sources.specs.Source.{StaysWithin};
ghost use Rattle.mirror_sources.specs.Recorded.{KeepsRecord};
ghost use Rattle.log_reader.specs.Faults.{CountsFailure};
ghost use Rattle.log_reader.specs.FalseFiles.{NamesFalseIfFile};
ghost use Rattle.log_reader.specs.Holding.{ReadsTilesOf};
ghost use Rattle.log_reader.specs.Nodes.{IsNodeRange, IsSubproofAdded};
ghost use Rattle.log_reader.specs.Proving.{IsConsistencyTo};
ghost use Rattle.log_reader.specs.Requested.{IsProofTile, IsWholeOrLeft, RequestsOnly};

use crate::checked::checked;
use crate::fault::ReadFault;
use crate::node_hash::{add_node, node_hash};
use crate::reader::LogReader;
use mirror_sources::Source;
use std::alloc::Global;
use tlog_hash::{Hash, TreeHash};
use tlog_proof::{HashPath, Proof};
use tlog_shape::split;

// Adds the path from the first entries of a node to all its entries: SUBPROOF of RFC 6962, section 2.1.2. If the first
// tree is the whole node, `held` is true if the checker knows its root. Returns the hash of these first entries, to which the nodes of
// the path lead.
#[tactic(auto, using(crate::proofs::Kept::kept_twice, crate::proofs::Kept::kept_once))]
fn add_subproof<H: TreeHash, S: Source>(
    alloc: Global,
    reader: &mut LogReader<H>,
    source: &mut S,
    node: (u64, u64),
    first: u64,
    held: bool,
    path: &mut Vec<Hash>,
) -> Result<Hash, ReadFault>
    requires some { 0 < first }
    requires within { first ≤ node.1 }
    requires node { IsNodeRange reader.old.edge.size node.0 node.1 }
    requires whole { first ≡ node.1 → IsWholeOrLeft reader.old.edge.size node.0 node.1 }
    requires small { node.0 + node.1 < 2 ^ 64 }
    ensures edge { reader.new.edge ≡ reader.old.edge }
    ensures root { reader.new.root ≡ reader.old.root }
    ensures later { StaysWithin (S.may_answer source.old) (S.may_answer source.new) }
    ensures kept { KeepsRecord (S.files source.old) (S.files source.new) }
    ensures asks { RequestsOnly (S.asked source.old) (S.asked source.new)
        (IsProofTile reader.old.edge.size (node.0 + first)) }
    ensures counted { CountsFailure (S.failed source.old) (S.failed source.new) result }
    ensures names { IfErr result
        (NamesFalseIfFile H.digest (S.may_answer source.old) reader.old.edge) }
    ensures honest { ReadsTilesOf H.digest reader.old reader.new (S.may_answer source.old) result
        (λ entries hash. IsSubproofAdded H.digest (part node.0 node.1 entries) first held
        path.old.items path.new.items hash) }
{
    let (start, len) = node;
    if first == len {
        if held {
            return node_hash::<H, S>(alloc, reader, source, start, len);
        }
        return add_node::<H, S>(alloc, reader, source, node, path);
    }
    let k = split(len);
    if first <= k {
        let hash = add_subproof::<H, S>(alloc, reader, source, (start, k), first, held, path)?;
        add_node::<H, S>(alloc, reader, source, (start + k, len - k), path)?;
        return Ok(hash);
    }
    let right = (start + k, len - k);
    let end = add_subproof::<H, S>(alloc, reader, source, right, first - k, false, path)?;
    let left = add_node::<H, S>(alloc, reader, source, (start, k), path)?;
    Ok(H::node(&left, &end))
}

impl<H: TreeHash> LogReader<H> {
    /// The proof that the tree of the first entries is a prefix of the tree of all (RFC 6962, section 2.1.2). It is checked before it is
    /// returned, so it holds for all answers of the source. For a proof to a smaller size, use `prefix`. It requests only full tiles
    /// inside which the first entries end.
    ///
    /// ```text
    /// reader.consistency(alloc, &mut source, 257)?                                     // from 257 entries to all
    /// reader.prefix(alloc, &mut source, 300)?.consistency(alloc, &mut source, 257)?    // from 257 to 300
    /// ```
    ///
    /// # Errors
    ///
    /// Those of `row`, and `Collision`: the rows lead to the root, but the proof made from them does not hold. If the source has the
    /// log's full tiles, `Collision` never comes.
    #[tactic(auto, using(crate::proofs::Kept::kept_twice))]
    pub fn consistency<S: Source>(
        &mut self,
        alloc: Global,
        source: &mut S,
        first: u64,
    ) -> Result<Proof, ReadFault>
        requires some { 0 < first }
        requires within { first ≤ self.old.edge.size }
        ensures edge { self.new.edge ≡ self.old.edge }
        ensures root { self.new.root ≡ self.old.root }
        ensures asked { IfOk result (IsConsistencyTo first self.old.edge.size self.old.root) }
        ensures holds { IfOk result (Holds H.digest) }
        ensures later { StaysWithin (S.may_answer source.old) (S.may_answer source.new) }
        ensures kept { KeepsRecord (S.files source.old) (S.files source.new) }
        ensures asks { RequestsOnly (S.asked source.old) (S.asked source.new)
            (IsProofTile self.old.edge.size first) }
        ensures counted { CountsFailure (S.failed source.old) (S.failed source.new) result }
        ensures names { IfErr result
            (NamesFalseIfFile H.digest (S.may_answer source.old) self.old.edge) }
        ensures honest { ReadsTilesOf H.digest self.old self.new (S.may_answer source.old) result
            (λ entries proof. asked_proof H.digest entries (Consistency first (length entries))
            ≡ Ok proof) }
    {
        let second = self.size();
        let mut path = Vec::new(alloc);
        let all = (0, second);
        let first_root = add_subproof::<H, S>(alloc, self, source, all, first, true, &mut path)?;
        let proof = Proof::Consistency {
            first,
            first_root,
            second,
            second_root: self.root(),
            path: HashPath::new(path),
        };
        checked::<H>(proof)
    }
}
