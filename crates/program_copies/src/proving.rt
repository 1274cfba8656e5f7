//! Proofs of a copy's entries, made from its files.
ghost use Rattle.std.specs.Prelude.{◌↔◌, List, ℕ, IfErr, IfNone, IfOk, IfSome, IsTrue};
ghost use Rattle.mirror_sources.specs.Recorded.{KeepsRecord};
ghost use Rattle.copy_reader.specs.Faults.{CountsRead};
ghost use Rattle.copy_reader.specs.Proofs.{IsWithin};
ghost use Rattle.program_copies.specs.Damages.{NamesProof};
ghost use Rattle.copy_reader.specs.WholeCopies.{IsShelfFailure};
ghost use Rattle.program_copies.specs.GivenProofs.{HasLogOf, IsProofGiven};

use copy_reader::{CopyFault, open_reader, read_proof_text};
use mirror_folders::ReadableShelf;
use std::alloc::Global;
use tlog_hash::{Hash, TreeHash};
use tlog_proof::Ask;

// Whether a log of that size has the requested entry or sizes.
fn is_within(ask: Ask, size: u64) -> bool
    ensures { IsTrue result ↔ IsWithin ask size }
{
    match ask {
        Ask::Inclusion { size: asked, index } => asked <= size && index < asked,
        Ask::Consistency { first, second } => second <= size && 0 < first && first <= second,
    }
}

/// The text of the requested proof in the tree of that size and root, from verified files of the shelf. It is checked before it is
/// returned. None: the log does not have the entry or the sizes.
///
/// # Errors
///
/// `CopyDamaged`: a needed file is missing or false.
#[tactic(auto, using(log_reader::proofs::Kept::kept_once, log_reader::proofs::Kept::kept_twice))]
pub(crate) fn asked_proof<H: TreeHash, D: ReadableShelf>(
    alloc: Global,
    shelf: &mut D,
    size: u64,
    root: &Hash,
    ask: Ask,
) -> Result<Option<Vec<u8>>, CopyFault>
    ensures given { IfOk result (λ o. IfSome o
        (λ text. IsProofGiven H.digest (D.puts shelf.old) size root.now ask text.items)) }
    ensures none { IfOk result (λ o. IfNone o (¬ IsWithin ask size)) }
    ensures same { KeepsRecord (D.puts shelf.old) (D.puts shelf.new) }
    ensures counted { CountsRead (D.failed shelf.old) (D.failed shelf.new) result }
    ensures damage { IfErr result (NamesProof H.digest (D.puts shelf.old) ask size root.now) }
    ensures honest { (entries : List (List ℕ))
        → HasLogOf H.digest (D.puts shelf.old) size root.now entries
        → IfErr result IsShelfFailure }
{
    if !is_within(ask, size) {
        return Ok(None);
    }
    let opened = open_reader::<H, D>(alloc, shelf, size, root)?;
    let mut reader = opened;
    let _root = reader.root();
    let text = read_proof_text::<H, D>(alloc, shelf, &mut reader, ask)?;
    Ok(Some(text.into_bytes()))
}
