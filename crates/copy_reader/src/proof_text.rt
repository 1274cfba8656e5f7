//! The texts of proofs.
ghost use Rattle.std.specs.Prelude.{◌≤◌, ◌↔◌, IfErr, IfNone, IfOk, IfSome, IsTrue, string_bytes};
ghost use Rattle.tlog_shape.specs.declared.TheConstants.{MAX_SIZE};
ghost use Rattle.tlog_proof.specs.Text.{IsProofText, IsWritableProof};
ghost use Rattle.mirror_sources.specs.Recorded.{KeepsRecord};
ghost use Rattle.copy_reader.specs.Damage.{NamesProofDamage};
ghost use Rattle.copy_reader.specs.Faults.{CountsRead};
ghost use Rattle.copy_reader.specs.Proofs.{IsProofOf, IsTrueText, IsWithin};
ghost use Rattle.copy_reader.specs.WholeCopies.{IsShelfFailure, ReadsCopyOf};

use crate::fault::CopyFault;
use crate::proving::read_proof;
use log_reader::LogReader;
use mirror_folders::ReadableShelf;
use std::alloc::{AllocError, Global};
use tlog_hash::TreeHash;
use tlog_proof::{Ask, Proof, write_text};
use tlog_shape::MAX_SIZE;
use tlog_tiles::Path;

// Whether a proof can be written as text.
fn is_writable(proof: &Proof) -> bool
    ensures { IsTrue result ↔ IsWritableProof proof.now }
{
    match proof {
        Proof::Inclusion {
            size,
            index,
            path,
            ..
        } => *size <= MAX_SIZE && *index <= MAX_SIZE && path.as_slice().len() <= 64,
        Proof::Consistency {
            first,
            second,
            path,
            ..
        } => *first <= MAX_SIZE && *second <= MAX_SIZE && path.as_slice().len() <= 64,
    }
}

// The text of a proof. None: it cannot be written.
fn proof_text(alloc: Global, proof: &Proof) -> Result<Option<String>, AllocError>
    ensures text { IfOk result
        (λ o. IfSome o (λ text. IsProofText (string_bytes text) proof.now)) }
    ensures none { IfOk result (λ o. IfNone o (¬ IsWritableProof proof.now)) }
{
    if !is_writable(proof) {
        return Ok(None);
    }
    let text = write_text(alloc, proof)?;
    Ok(Some(text))
}

/// The text of the requested proof, from the files of the shelf. It is made of verified rows. Before it is returned, it is checked against
/// the root of the checkpoint, or against the root of the requested smaller size.
///
/// ```text
/// let ask = Ask::Inclusion { size: 257, index: 2 };
/// read_proof_text(alloc, &mut shelf, &mut reader, ask)?
/// ```
///
/// # Errors
///
/// `CopyDamaged`: a tile of the proof is missing or false. It names the checkpoint only if all rows of the proof lead to the root, but it
/// does not hold. `ShelfFault`: a file cannot be read; the shelf counts it. `OutOfMemory`: memory was refused.
pub fn read_proof_text<H: TreeHash, D: ReadableShelf>(
    alloc: Global,
    shelf: &mut D,
    reader: &mut LogReader<H>,
    ask: Ask,
) -> Result<String, CopyFault>
    requires { IsWithin ask reader.old.edge.size }
    ensures text { IfOk result (λ text. IsProofOf H.digest reader.old.edge.size reader.old.root
        ask (string_bytes text)) }
    ensures same { KeepsRecord (D.puts shelf.old) (D.puts shelf.new) }
    ensures counted { CountsRead (D.failed shelf.old) (D.failed shelf.new) result }
    ensures damage { IfErr result
        (NamesProofDamage H.digest (D.puts shelf.old) reader.old.edge ask) }
    ensures honest { reader.old.edge.size ≤ MAX_SIZE
        → ReadsCopyOf IsShelfFailure H.digest reader.old reader.new (D.puts shelf.old) result
        (λ entries text. IsTrueText H.digest ask entries (string_bytes text)) }
{
    let proof = read_proof::<H, D>(alloc, shelf, reader, ask)?;
    match proof_text(alloc, &proof)? {
        Some(text) => Ok(text),
        None => Err(CopyFault::CopyDamaged(Path::Checkpoint)),
    }
}
