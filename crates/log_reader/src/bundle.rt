//! Verified bundles of a log.
ghost use Rattle.std.specs.Prelude.{◌≡◌, ◌↔◌, ◌*◌, ◌<◌, ◌≤◌, ℕ, IfErr, IfOk, IsTrue, List, Some, length};
ghost use Rattle.tlog_tiles.specs.Tiles.{bundle_bytes};
ghost use Rattle.tlog_tiles.specs.declared.paths.Path.TheVariants.{Entries};
ghost use Rattle.mirror_sources.specs.Source.{StaysWithin};
ghost use Rattle.mirror_sources.specs.Recorded.{KeepsRecord};
ghost use Rattle.log_reader.specs.Faults.{CountsFailure, NamesFile};
ghost use Rattle.log_reader.specs.FalseFiles.{IsFalseEnd, NamesFalse, NamesFull};
ghost use Rattle.log_reader.specs.Holding.{IsEndRow, IsSourceOf, IsTileHash, ReadsOf, ReadsTrue, row_width};
ghost use Rattle.log_reader.specs.Parts.{IsPartGiven};
ghost use Rattle.log_reader.specs.Verified.{HasLeaves, IsVerifiedBundle};
ghost use Rattle.log_reader.specs.Ways.{IsShownBundle};
ghost use Rattle.log_reader.specs.declared.verify.FullFile.TheVariants.{Bundle};

use crate::fault::ReadFault;
use crate::found::{get_file, get_partial, or_false};
use crate::reader::LogReader;
use crate::verify::{FullFile, leaves_of, verified};
use crate::walk::go_to;
use mirror_sources::Source;
use std::alloc::{AllocError, Global};
use tlog_hash::{Hash, TreeHash};
use tlog_shape::edge_index;
use tlog_tiles::Path;

// The bytes of a full bundle that has that hash.
fn read_full<H: TreeHash, S: Source>(
    alloc: Global,
    source: &mut S,
    index: u64,
    hash: &Hash,
) -> Result<Vec<u8>, ReadFault>
    ensures bytes { IfOk result (λ bytes. IsVerifiedBundle H.digest hash.now bytes.items) }
    ensures given { IfOk result
        (λ bytes. S.may_answer source.old (Entries index 256) (Some bytes.items)) }
    ensures later { StaysWithin (S.may_answer source.old) (S.may_answer source.new) }
    ensures kept { KeepsRecord (S.files source.old) (S.files source.new) }
    ensures counted { CountsFailure (S.failed source.old) (S.failed source.new) result }
    ensures names { IfErr result (NamesFull H.digest (S.may_answer source.old) Bundle hash.now
        (Entries index 256)) }
    ensures honest { (entries : List (List ℕ)) → IsTileHash H.digest entries 0 index hash.now
        → IsSourceOf H.digest entries (S.may_answer source.old) → ReadsTrue result
        (λ bytes. bytes.items ≡ bundle_bytes entries index 256) }
{
    let path = Path::Entries { index, width: 256 };
    let bytes = get_file(source, &path)?;
    let row = or_false(verified::<H>(alloc, FullFile::Bundle, hash, &bytes), path)?;
    drop(row);
    Ok(bytes)
}

fn is_same_row(first: &[Hash], second: &[Hash]) -> bool
    ensures { IsTrue result ↔ (first.now ≡ second.now) }
{
    first == second
}

// Whether the bytes are a bundle with these leaf hashes.
fn has_leaves<H: TreeHash>(alloc: Global, row: &[Hash], bytes: &[u8]) -> Result<bool, AllocError>
    requires { length row.now ≤ 256 }
    ensures { IfOk result (λ b. IsTrue b ↔ HasLeaves H.digest (length row.now) bytes.now row.now) }
{
    match leaves_of::<H>(alloc, row.len() as u32, bytes)? {
        Some(leaves) => Ok(is_same_row(&leaves, row)),
        None => Ok(false),
    }
}

// The bytes of the bundle at the end of the log, which has to have the leaf hashes of the edge.
fn read_end<H: TreeHash, S: Source>(
    alloc: Global,
    source: &mut S,
    index: u64,
    row: &[Hash],
) -> Result<Vec<u8>, ReadFault>
    requires { length row.now ≤ 256 }
    ensures bytes { IfOk result (λ bytes. HasLeaves H.digest (length row.now) bytes.items row.now) }
    ensures given { IfOk result (λ bytes. IsPartGiven (S.may_answer source.old)
        (Entries index (length row.now)) bytes.items) }
    ensures later { StaysWithin (S.may_answer source.old) (S.may_answer source.new) }
    ensures kept { KeepsRecord (S.files source.old) (S.files source.new) }
    ensures counted { CountsFailure (S.failed source.old) (S.failed source.new) result }
    ensures names { IfErr result
        (NamesFile (IsFalseEnd H.digest (S.may_answer source.old) row.now index)) }
    ensures honest { (entries : List (List ℕ)) → IsEndRow H.digest entries index row.now
        → IsSourceOf H.digest entries (S.may_answer source.old) → ReadsTrue result
        (λ bytes. bytes.items ≡ bundle_bytes entries index (length row.now)) }
{
    let path = Path::Entries {
        index,
        width: row.len() as u32,
    };
    let bytes = get_partial(alloc, source, &path)?;
    if has_leaves::<H>(alloc, row, &bytes)? {
        Ok(bytes)
    } else {
        Err(ReadFault::FalseFile(path))
    }
}

impl<H: TreeHash> LogReader<H> {
    /// The bytes of a bundle (C2SP tlog-tiles, "Log Entries"): the 256 entries from number `256 * index` on, or fewer at the end of the
    /// log. `read_bundle` of `tlog_tiles` splits them.
    ///
    /// ```text
    /// reader.bundle(alloc, &mut source, 1)?   // with 257 entries: the last entry, after its length
    /// ```
    ///
    /// # Errors
    ///
    /// Those of `row`, and `NoFile` and `FalseFile` for the bundle.
    #[tactic(auto, using(crate::proofs::Kept::kept_twice, crate::proofs::Kept::kept_once))]
    pub fn bundle<S: Source>(
        &mut self,
        alloc: Global,
        source: &mut S,
        index: u64,
    ) -> Result<Vec<u8>, ReadFault>
        requires { 256 * index < self.old.edge.size }
        ensures edge { self.new.edge ≡ self.old.edge }
        ensures root { self.new.root ≡ self.old.root }
        ensures shown { IfOk result
            (λ bytes. IsShownBundle H.digest self.old.edge index bytes.items) }
        ensures given { IfOk result (λ bytes. IsPartGiven (S.may_answer source.old)
            (Entries index (row_width self.old.edge.size 0 index)) bytes.items) }
        ensures later { StaysWithin (S.may_answer source.old) (S.may_answer source.new) }
        ensures kept { KeepsRecord (S.files source.old) (S.files source.new) }
        ensures counted { CountsFailure (S.failed source.old) (S.failed source.new) result }
        ensures names { IfErr result (NamesFalse H.digest (S.may_answer source.old) self.old.edge) }
        ensures honest { ReadsOf H.digest self.old self.new (S.may_answer source.old) result
            (λ entries bytes. bytes.items
            ≡ bundle_bytes entries index (row_width (length entries) 0 index)) }
    {
        if index == edge_index(self.size(), 0) {
            return read_end::<H, S>(alloc, source, index, self.edge().rows().row(0));
        }
        go_to::<H, S>(alloc, self, source, 1, index / 256)?;
        match self.here().get((index % 256) as usize) {
            Some(hash) => read_full::<H, S>(alloc, source, index, hash),
            None => Err(ReadFault::NoFile(Path::Entries { index, width: 256 })),
        }
    }
}
