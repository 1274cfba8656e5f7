//! Proofs of forks.
ghost use Rattle.std.specs.Prelude.{◌≡◌, ◌≢◌, ◌↔◌, ◌<◌, ◌^◌, ℕ, All, Err, IfNone, IfOk, IfSome, IsTrue, List, None, Ok, OnOk, Some, length, take, ⊤};
ghost use Rattle.tlog_proof.specs.Made.{Holds, asked_proof};
ghost use Rattle.tlog_proof.specs.declared.proof.Ask.TheVariants.{Consistency};
ghost use Rattle.tlog_proof.specs.Text.{HasHashes};
ghost use Rattle.mirror_sources.specs.Source.{StaysWithin};
ghost use Rattle.mirror_sources.specs.Recorded.{KeepsRecord};
ghost use Rattle.log_reader.specs.Faults.{CountsFailure};
ghost use Rattle.log_reader.specs.EdgeRows.{LeadsTo, hash_of_edge};
ghost use Rattle.log_reader.specs.Holding.{HasFullTiles, ReadsLog};
ghost use Rattle.log_reader.specs.Proving.{IsConsistencyTo};
ghost use Rattle.log_reader.specs.Ways.{HasEdgeHashes};
ghost use Rattle.copy_places.specs.AskedOnce.{AsksMore};
ghost use Rattle.copy_places.specs.AskedEnds.{AsksEnds};
ghost use Rattle.copy_places.specs.Faults.{CountsAsk};
ghost use Rattle.copy_places.specs.Agreeing.{Agrees};
ghost use Rattle.copy_places.specs.Candidates.{point_of};
ghost use Rattle.copy_places.specs.Checked.{HasFirstRoot};
ghost use Rattle.copy_places.specs.Forks.{HasPoint};
ghost use Rattle.copy_places.specs.Nobodys.{CannotBeHad, IsOfEnds};
ghost use Rattle.copy_places.specs.PlaceGets.{AddsAnswers};
ghost use Rattle.copy_places.specs.ReadFiles.{IsRead};
ghost use Rattle.copy_places.specs.Requests.{AsksAny};
ghost use Rattle.copy_places.specs.Shown.{ShowsLarger};
ghost use Rattle.copy_places.specs.WayFiles.{HasWanted, IsLogOfEdge};

use crate::Places;
use crate::ask_edge::ask_edge;
use crate::ask_fault::AskFault;
use crate::candidate::Candidate;
use crate::hash_sizes::{hash_len, see_edge, see_path};
use crate::proof_files::{ReadFiles, ReadSource};
use crate::way::add_way;
use log_reader::{EdgeRows, LogReader, ReadFault};
use mirror_folders::ReadableShelf;
use mirror_sources::Source;
use std::alloc::Global;
use tlog_hash::{Hash, TreeHash};
use tlog_proof::Proof;

// Whether the first root of a proof is that hash.
fn has_first_root(proof: &Proof, root: &Hash) -> bool
    ensures { IsTrue result ↔ HasFirstRoot root.now proof.now }
{
    match proof {
        Proof::Inclusion { .. } => false,
        Proof::Consistency { first_root, .. } => *first_root == *root,
    }
}

// Each hash of a proof has 32 bytes. The body does nothing: the contract states what follows from the type.
fn see_hashes(proof: &Proof)
    ensures { HasHashes proof.now }
{
    match proof {
        Proof::Inclusion {
            root,
            leaf,
            path,
            ..
        } => {
            hash_len(root);
            hash_len(leaf);
            see_path(path.as_slice());
        }
        Proof::Consistency {
            first_root,
            second_root,
            path,
            ..
        } => {
            hash_len(first_root);
            hash_len(second_root);
            see_path(path.as_slice());
        }
    }
}

// The proof from the first entries into the log of the larger candidate.
#[tactic(auto, using(log_reader::proofs::Kept::kept_twice))]
fn log_proof<H: TreeHash, S: Source>(
    alloc: Global,
    files: &mut S,
    first: u64,
    large: &Candidate,
) -> Result<Proof, ReadFault>
    requires some { 0 < first }
    requires less { first < large.now.size.0 }
    ensures later { StaysWithin (S.may_answer files.old) (S.may_answer files.new) }
    ensures kept { KeepsRecord (S.files files.old) (S.files files.new) }
    ensures counted { CountsFailure (S.failed files.old) (S.failed files.new) result }
    ensures honest { ReadsLog H.digest large.now.size.0 large.now.root (S.may_answer files.old)
        result (λ entries proof. asked_proof H.digest entries (Consistency first (length entries))
        ≡ Ok proof) }
    ensures asked { IfOk result (IsConsistencyTo first large.now.size.0 large.now.root) }
    ensures holds { IfOk result (Holds H.digest) }
{
    let mut reader: LogReader<H> = LogReader::open(alloc, files, large.size.0, &large.root)?;
    reader.consistency(alloc, files, first)
}

// The proof, if its first root is not that hash.
fn differing(proof: Proof, root: &Hash) -> Option<Proof>
    ensures hashes { HasHashes proof }
    ensures some { IfSome result (λ found. (found ≡ proof) × ¬ HasFirstRoot root.now proof) }
    ensures none { IfNone result (HasFirstRoot root.now proof) }
{
    see_hashes(&proof);
    if has_first_root(&proof, root) {
        return None;
    }
    Some(proof)
}

// The proof from the smaller point into the log of the larger one, if its first root differs from the smaller root.
fn checked_proof<H: TreeHash, S: Source>(
    alloc: Global,
    files: &mut S,
    small: &Candidate,
    large: &Candidate,
) -> Result<Option<Proof>, ReadFault>
    requires some { 0 < small.now.size.0 }
    requires less { small.now.size.0 < large.now.size.0 }
    ensures later { StaysWithin (S.may_answer files.old) (S.may_answer files.new) }
    ensures kept { KeepsRecord (S.files files.old) (S.files files.new) }
    ensures counted { CountsFailure (S.failed files.old) (S.failed files.new) result }
    ensures honest { ReadsLog H.digest large.now.size.0 large.now.root (S.may_answer files.old)
        result (λ _ _. ⊤) }
    ensures fork { IfOk result (λ found. IfSome found
        (λ proof. ShowsLarger H.digest small.now large.now (Some proof))) }
    ensures agrees { IfOk result (λ found. found ≡ None
        → Agrees H.digest (point_of small.now) (point_of large.now)) }
    ensures first { ReadsLog H.digest large.now.size.0 large.now.root (S.may_answer files.old)
        result (λ entries found. found ≡ None
        → HasPoint H.digest (point_of small.now) (take small.now.size.0 entries)) }
{
    match log_proof::<H, S>(alloc, files, small.size.0, large) {
        Ok(proof) => Ok(differing(proof, &small.root)),
        Err(fault) => Err(fault),
    }
}

/// The proof that a log of the larger candidate does not begin with the smaller one. It is made from files that lead to the larger root.
/// None: the log begins with it, or the smaller candidate has no entries, or it is not smaller.
///
/// ```text
/// fork_proof::<Sha256Tree, ListSource<Sha256Tree>>(alloc, &mut source, &small, &large)? // Some(proof): no log has both
/// ```
///
/// # Errors
///
/// Those of `LogReader::open` and `LogReader::consistency`: a file is missing or false, the source failed, or memory was refused.
#[tactic(auto, using(log_reader::proofs::Kept::kept_once))]
pub fn fork_proof<H: TreeHash, S: Source>(
    alloc: Global,
    files: &mut S,
    small: &Candidate,
    large: &Candidate,
) -> Result<Option<Proof>, ReadFault>
    ensures later { StaysWithin (S.may_answer files.old) (S.may_answer files.new) }
    ensures kept { KeepsRecord (S.files files.old) (S.files files.new) }
    ensures counted { CountsFailure (S.failed files.old) (S.failed files.new) result }
    ensures honest { ReadsLog H.digest large.now.size.0 large.now.root (S.may_answer files.old)
        result (λ _ _. ⊤) }
    ensures fork { IfOk result (λ found. IfSome found
        (λ proof. ShowsLarger H.digest small.now large.now (Some proof))) }
    ensures agrees { IfOk result (λ found. found ≡ None → 0 < small.now.size.0
        → small.now.size.0 < large.now.size.0
        → Agrees H.digest (point_of small.now) (point_of large.now)) }
    ensures first { ReadsLog H.digest large.now.size.0 large.now.root (S.may_answer files.old)
        result (λ entries found. found ≡ None → 0 < small.now.size.0
        → small.now.size.0 < large.now.size.0
        → HasPoint H.digest (point_of small.now) (take small.now.size.0 entries)) }
{
    if small.size.0 == 0 || small.size.0 >= large.size.0 {
        return Ok(None);
    }
    checked_proof::<H, S>(alloc, files, small, large)
}

// The proof from the first entries to all, from an edge that leads to the root, and from the full tiles that it wants.
fn proof_of_files<H: TreeHash>(
    alloc: Global,
    edge: EdgeRows,
    root: Hash,
    files: ReadFiles,
    first: u64,
) -> Result<Proof, AskFault>
    requires hashes { HasEdgeHashes edge }
    requires leads { hash_of_edge H.digest edge ≡ root }
    requires some { 0 < first }
    requires less { first < edge.size }
    requires small { edge.size < 2 ^ 64 }
    requires wanted { HasWanted first edge.size 0 files }
    ensures memory { (n : ℕ) → CountsAsk n n result }
    ensures never { result ≢ Err AskFault.OtherFiles }
    ensures log { result ≡ Err AskFault.NoFile → (entries : List (List ℕ))
        → IsLogOfEdge H.digest edge root entries
        → ¬ HasFullTiles H.digest entries (IsRead files) }
    ensures asked { IfOk result (IsConsistencyTo first edge.size root) }
    ensures holds { IfOk result (Holds H.digest) }
{
    let mut source = ReadSource::new(alloc, files);
    let mut reader: LogReader<H> = LogReader::of_edge(alloc, edge, root)?;
    match reader.consistency(alloc, &mut source, first) {
        Ok(proof) => Ok(proof),
        Err(ReadFault::NoFile(_)) => Err(AskFault::NoFile),
        Err(ReadFault::FalseFile(_)) => Err(AskFault::NoFile),
        Err(ReadFault::Collision) => Err(AskFault::NoFile),
        // The source has each file that is requested.
        Err(ReadFault::Source) => Err(AskFault::OtherFiles),
        Err(ReadFault::OutOfMemory) => Err(AskFault::OutOfMemory),
    }
}

// The same, if its first root is not that of the smaller candidate. The edge is that of the larger one.
fn read_proof<H: TreeHash>(
    alloc: Global,
    edge: EdgeRows,
    files: ReadFiles,
    smaller: &Candidate,
    larger: &Candidate,
) -> Result<Option<Proof>, AskFault>
    requires hashes { HasEdgeHashes edge }
    requires leads { LeadsTo H.digest larger.now.size.0 larger.now.root edge }
    requires less { smaller.now.size.0 < larger.now.size.0 }
    requires wanted { HasWanted smaller.now.size.0 edge.size 0 files }
    ensures memory { (n : ℕ) → CountsAsk n n result }
    ensures never { result ≢ Err AskFault.OtherFiles }
    ensures log { result ≡ Err AskFault.NoFile → (entries : List (List ℕ))
        → IsLogOfEdge H.digest edge larger.now.root entries
        → ¬ HasFullTiles H.digest entries (IsRead files) }
    ensures proof { IfOk result (λ found. IfSome found
        (λ proof. ShowsLarger H.digest smaller.now larger.now (Some proof))) }
    ensures agrees { IfOk result (λ found. found ≡ None → 0 < smaller.now.size.0
        → smaller.now.size.0 < larger.now.size.0
        → Agrees H.digest (point_of smaller.now) (point_of larger.now)) }
{
    if smaller.size.0 == 0 {
        return Ok(None);
    }
    match proof_of_files::<H>(alloc, edge, larger.root, files, smaller.size.0) {
        Ok(proof) => Ok(differing(proof, &smaller.root)),
        Err(fault) => Err(fault),
    }
}

// The proof of two candidates whose sizes are those of the kept answers.
fn find_proof<H: TreeHash, D: ReadableShelf, S: Source + Drop>(
    alloc: Global,
    shelf: &mut D,
    places: &mut Places<S>,
    smaller: &Candidate,
    larger: &Candidate,
) -> Result<Option<Proof>, AskFault>
    requires first { smaller.now.size.0 ≡ places.old.ends.sizes.0 }
    requires second { larger.now.size.0 ≡ places.old.ends.sizes.1 }
    requires less { smaller.now.size.0 < larger.now.size.0 }
    ensures same { KeepsRecord (D.puts shelf.old) (D.puts shelf.new) }
    ensures counted { CountsAsk (D.failed shelf.old) (D.failed shelf.new) result }
    ensures goes { AsksEnds S.may_answer S.failed S.asked places.old places.new }
    ensures proof { IfOk result (λ found. IfSome found
        (λ proof. ShowsLarger H.digest smaller.now larger.now (Some proof))) }
    ensures agrees { IfOk result (λ found. found ≡ None → 0 < smaller.now.size.0
        → smaller.now.size.0 < larger.now.size.0
        → Agrees H.digest (point_of smaller.now) (point_of larger.now)) }
    ensures never { result ≢ Err AskFault.OtherFiles }
    ensures lacks { result ≡ Err AskFault.NoFile → CannotBeHad H.digest (D.puts shelf.old)
        places.new.ends.tiles.items (length places.old.list.items) smaller.now.size.0
        (point_of larger.now) }
{
    let Some(edge) = ask_edge::<H, D, S>(alloc, shelf, places, larger.size.0, &larger.root)? else {
        return Err(AskFault::NoFile);
    };
    see_edge(&edge);
    let mut files = ReadFiles::new(alloc);
    if !add_way::<H, D, S>(alloc, shelf, places, smaller.size.0, &edge, &mut files)? {
        return Err(AskFault::NoFile);
    }
    read_proof::<H>(alloc, edge, files, smaller, larger)
}

/// The proof that a larger candidate contradicts a smaller one, whoever holds which of its files. It is for after a copy was to be brought
/// from the one to the other, and for what a place was asked then, its answer is used.
///
/// A full file counts from wherever it verifies: from the shelf first, then from each place. A full row of level 0 counts from its bundle,
/// or else from its tile. The rows of the larger candidate's edge are those of the shelf, else those of one place, else those of two mixed.
///
/// None: the files were had, and show no fork: a proof made of them shows that the two candidates agree. Or the first candidate is not
/// smaller.
///
/// ```text
/// ask_proof::<Sha256Tree, MemShelf, ListSource<Sha256Tree>>(alloc, &mut shelf, &mut places, &copy, &larger)? // Some(proof): no log has both
/// ```
///
/// # Errors
///
/// - `NoFile`: nobody has one of these files, or those that were had are of no log.
/// - `ShelfFault`: the shelf failed.
/// - `OtherFiles`: the sizes are not those of `Places::ends`.
/// - `OutOfMemory`: memory was refused.
pub fn ask_proof<H: TreeHash, D: ReadableShelf, S: Source + Drop>(
    alloc: Global,
    shelf: &mut D,
    places: &mut Places<S>,
    smaller: &Candidate,
    larger: &Candidate,
) -> Result<Option<Proof>, AskFault>
    ensures same { KeepsRecord (D.puts shelf.old) (D.puts shelf.new) }
    ensures counted { CountsAsk (D.failed shelf.old) (D.failed shelf.new) result }
    ensures asks { AsksAny S.may_answer S.failed S.asked places.old places.new }
    ensures more { AsksMore S.asked places.old places.new }
    ensures proof { IfOk result (λ found. IfSome found
        (λ proof. ShowsLarger H.digest smaller.now larger.now (Some proof))) }
    ensures agrees { IfOk result (λ found. found ≡ None → 0 < smaller.now.size.0
        → smaller.now.size.0 < larger.now.size.0
        → Agrees H.digest (point_of smaller.now) (point_of larger.now)) }
    ensures answered { AddsAnswers S.may_answer places.old places.new }
    ensures other { result ≡ Err AskFault.OtherFiles
        → ¬ IsOfEnds smaller.now larger.now places.old.ends.sizes }
    ensures lacks { result ≡ Err AskFault.NoFile → CannotBeHad H.digest (D.puts shelf.old)
        places.new.ends.tiles.items (length places.old.list.items) smaller.now.size.0
        (point_of larger.now) }
{
    let (first, second) = places.ends();
    if first != smaller.size.0 || second != larger.size.0 {
        return Err(AskFault::OtherFiles);
    }
    if first >= second {
        return Ok(None);
    }
    find_proof::<H, D, S>(alloc, shelf, places, smaller, larger)
}
