//! Inclusion proofs of a log, made from verified rows.
ghost use Rattle.std.specs.Prelude.{◌≡◌, ◌+◌, ◌++◌, ◌^◌, ◌<◌, [], IfErr, IfOk, Ok, get_or, length};
ghost use Rattle.tlog_hash.specs.Rows.{part};
ghost use Rattle.tlog_hash.specs.Tree.{leaf_hash};
ghost use Rattle.tlog_proof.specs.Inclusion.{path_of};
ghost use Rattle.tlog_proof.specs.Made.{Holds, asked_proof};
ghost use Rattle.tlog_proof.specs.declared.proof.Ask.TheVariants.{Inclusion};
ghost use Rattle.mirror_sources.specs.Source.{StaysWithin};
ghost use Rattle.mirror_sources.specs.Recorded.{KeepsRecord};
ghost use Rattle.log_reader.specs.Faults.{CountsFailure};
ghost use Rattle.log_reader.specs.FalseFiles.{NamesFalse, NamesFalseIfFile};
ghost use Rattle.log_reader.specs.Holding.{ReadsTilesOf};
ghost use Rattle.log_reader.specs.Nodes.{IsNodeRange};
ghost use Rattle.log_reader.specs.Proving.{IsInclusionIn};
ghost use Rattle.log_reader.specs.Ways.{IsShownLeaf};

use crate::checked::checked;
use crate::fault::ReadFault;
use crate::node_hash::add_node;
use crate::reader::LogReader;
use crate::walk::go_to;
use mirror_sources::Source;
use std::alloc::Global;
use tlog_hash::{Hash, TreeHash};
use tlog_proof::{HashPath, Proof};
use tlog_shape::split;
use tlog_tiles::Path;

// Adds the path for an index within a node, counted from the start of the node: PATH of RFC 6962, section 2.1.1.
#[tactic(auto, using(crate::proofs::Kept::kept_twice, crate::proofs::Kept::kept_once))]
fn add_path<H: TreeHash, S: Source>(
    alloc: Global,
    reader: &mut LogReader<H>,
    source: &mut S,
    node: (u64, u64),
    index: u64,
    path: &mut Vec<Hash>,
) -> Result<(), ReadFault>
    requires inside { index < node.1 }
    requires node { IsNodeRange reader.old.edge.size node.0 node.1 }
    requires small { node.0 + node.1 < 2 ^ 64 }
    ensures edge { reader.new.edge ≡ reader.old.edge }
    ensures root { reader.new.root ≡ reader.old.root }
    ensures later { StaysWithin (S.may_answer source.old) (S.may_answer source.new) }
    ensures kept { KeepsRecord (S.files source.old) (S.files source.new) }
    ensures counted { CountsFailure (S.failed source.old) (S.failed source.new) result }
    ensures names { IfErr result
        (NamesFalseIfFile H.digest (S.may_answer source.old) reader.old.edge) }
    ensures honest { ReadsTilesOf H.digest reader.old reader.new (S.may_answer source.old) result
        (λ entries _. path.new.items
        ≡ path.old.items ++ path_of H.digest index (part node.0 node.1 entries)) }
{
    let (start, len) = node;
    if len == 1 {
        return Ok(());
    }
    let k = split(len);
    if index < k {
        add_path::<H, S>(alloc, reader, source, (start, k), index, path)?;
        add_node::<H, S>(alloc, reader, source, (start + k, len - k), path)?;
        return Ok(());
    }
    let right = (start + k, len - k);
    add_path::<H, S>(alloc, reader, source, right, index - k, path)?;
    add_node::<H, S>(alloc, reader, source, (start, k), path)?;
    Ok(())
}

impl<H: TreeHash> LogReader<H> {
    /// The leaf hash of an entry.
    ///
    /// ```text
    /// reader.leaf(alloc, &mut source, 2)?   // the digest of 0x00 || entry
    /// ```
    ///
    /// # Errors
    ///
    /// Those of `row`.
    pub fn leaf<S: Source>(
        &mut self,
        alloc: Global,
        source: &mut S,
        index: u64,
    ) -> Result<Hash, ReadFault>
        requires { index < self.old.edge.size }
        ensures edge { self.new.edge ≡ self.old.edge }
        ensures root { self.new.root ≡ self.old.root }
        ensures shown { IfOk result (IsShownLeaf H.digest self.old.edge index) }
        ensures later { StaysWithin (S.may_answer source.old) (S.may_answer source.new) }
        ensures kept { KeepsRecord (S.files source.old) (S.files source.new) }
        ensures counted { CountsFailure (S.failed source.old) (S.failed source.new) result }
        ensures names { IfErr result (NamesFalse H.digest (S.may_answer source.old) self.old.edge) }
        ensures honest { ReadsTilesOf H.digest self.old self.new (S.may_answer source.old) result
            (λ entries hash. hash ≡ leaf_hash H.digest (get_or entries index [])) }
    {
        go_to::<H, S>(alloc, self, source, 0, index / 256)?;
        match self.here().get((index % 256) as usize) {
            Some(hash) => Ok(*hash),
            None => Err(ReadFault::NoFile(Path::Tile {
                level: 0,
                index: index / 256,
                width: 256,
            })),
        }
    }

    /// The proof that an entry is in the tree of all (RFC 6962, section 2.1.1). It is checked before it is returned, so it holds for all
    /// answers of the source. For a proof in a smaller tree, use `prefix`.
    ///
    /// ```text
    /// reader.inclusion(alloc, &mut source, 2)?                                     // entry 2 among all
    /// reader.prefix(alloc, &mut source, 3)?.inclusion(alloc, &mut source, 2)?      // among the first three
    /// ```
    ///
    /// # Errors
    ///
    /// Those of `row`, and `Collision`: the rows lead to the root, but the proof made from them does not hold. If the source has the
    /// log's full tiles, `Collision` never comes.
    #[tactic(auto, using(crate::proofs::Kept::kept_twice))]
    pub fn inclusion<S: Source>(
        &mut self,
        alloc: Global,
        source: &mut S,
        index: u64,
    ) -> Result<Proof, ReadFault>
        requires { index < self.old.edge.size }
        ensures edge { self.new.edge ≡ self.old.edge }
        ensures root { self.new.root ≡ self.old.root }
        ensures asked { IfOk result (IsInclusionIn self.old.edge.size index self.old.root) }
        ensures holds { IfOk result (Holds H.digest) }
        ensures later { StaysWithin (S.may_answer source.old) (S.may_answer source.new) }
        ensures kept { KeepsRecord (S.files source.old) (S.files source.new) }
        ensures counted { CountsFailure (S.failed source.old) (S.failed source.new) result }
        ensures names { IfErr result
            (NamesFalseIfFile H.digest (S.may_answer source.old) self.old.edge) }
        ensures honest { ReadsTilesOf H.digest self.old self.new (S.may_answer source.old) result
            (λ entries proof. asked_proof H.digest entries (Inclusion (length entries) index)
            ≡ Ok proof) }
    {
        let size = self.size();
        let leaf = self.leaf(alloc, source, index)?;
        let mut path = Vec::new(alloc);
        add_path::<H, S>(alloc, self, source, (0, size), index, &mut path)?;
        let proof = Proof::Inclusion {
            size,
            index,
            root: self.root(),
            leaf,
            path: HashPath::new(path),
        };
        checked::<H>(proof)
    }
}
