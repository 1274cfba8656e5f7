//! Proofs of a copy's entries.
ghost use Rattle.std.specs.Prelude.{ℕ, IfErr, IfOk, List, OnOk, map};
ghost use Rattle.mirror_sources.specs.Recorded.{KeepsRecord};
ghost use Rattle.std.specs.Io.KnownBytes.{Keeps};
ghost use Rattle.copy_reader.specs.Copies.{LeavesPuts};
ghost use Rattle.copy_reader.specs.Damage.{NamesProofDamage};
ghost use Rattle.copy_reader.specs.Faults.{CountsRead};
ghost use Rattle.copy_reader.specs.Proofs.{IsWithin};
ghost use Rattle.copy_reader.specs.WholeCopies.{IsShelfFailure};
ghost use Rattle.program_copies.specs.Damages.{NamesAsked};
ghost use Rattle.program_copies.specs.Printed.{CountsAsk, HasStatus, IsStatus, IsWriteFault, Prints};
ghost use Rattle.program_copies.specs.Proofs.{IsProvable, IsRefusedOf, PrintsProof, ReportsAsk, ReportsProof};

use crate::fault::CopyAskFault;
use crate::opened::open_copy;
use crate::printing::print_text;
use copy_reader::{CopyFault, read_proof_text};
use log_reader::LogReader;
use mirror_folders::{NamedFolders, ReadableShelf};
use program_reports::{AskFault, Report, ReportFault};
use signed_note::Verifier;
use std::alloc::Global;
use std::io::Write;
use tlog_hash::TreeHash;
use tlog_proof::{Ask, ProofFault};

// Checks that a log of that size has the requested entry or sizes.
fn refusal(ask: Ask, size: u64) -> Result<(), ProofFault>
    ensures ok { OnOk result (IsWithin ask size) }
    ensures err { IfErr result (IsRefusedOf ask size) }
{
    match ask {
        Ask::Inclusion { size: asked, index } => {
            if asked > size {
                return Err(ProofFault::NoSuchSize);
            }
            if index >= asked {
                return Err(ProofFault::NoSuchIndex);
            }
            Ok(())
        }
        Ask::Consistency { first, second } => {
            if second > size {
                return Err(ProofFault::NoSuchSize);
            }
            if first == 0 {
                return Err(ProofFault::FirstIsZero);
            }
            if first > second {
                return Err(ProofFault::Backwards);
            }
            Ok(())
        }
    }
}

// The report with the requested proof, from the files of the shelf.
fn read_report<H: TreeHash, D: ReadableShelf>(
    alloc: Global,
    shelf: &mut D,
    reader: &mut LogReader<H>,
    ask: Ask,
) -> Result<Report, CopyFault>
    requires { IsWithin ask reader.old.edge.size }
    ensures report { IfOk result (PrintsProof H.digest reader.old.edge.size reader.old.root
        (IsProvable H.digest reader.old (D.puts shelf.old)) ask) }
    ensures same { KeepsRecord (D.puts shelf.old) (D.puts shelf.new) }
    ensures counted { CountsRead (D.failed shelf.old) (D.failed shelf.new) result }
    ensures damage { IfErr result
        (NamesProofDamage H.digest (D.puts shelf.old) reader.old.edge ask) }
    ensures honest { IfErr result (λ fault. (entries : List (List ℕ))
        → IsProvable H.digest reader.old (D.puts shelf.old) entries → IsShelfFailure fault) }
{
    let text = read_proof_text::<H, D>(alloc, shelf, reader, ask)?;
    Ok(Report { text, status: 0 })
}

// That report, or the reason why the request is refused.
#[tactic(auto, using(log_reader::proofs::Kept::kept_once))]
fn ask_reader<H: TreeHash, D: ReadableShelf>(
    alloc: Global,
    shelf: &mut D,
    reader: &mut LogReader<H>,
    ask: Ask,
) -> Result<Report, CopyAskFault>
    ensures answer { ReportsAsk H.digest reader.old.edge.size reader.old.root
        (IsProvable H.digest reader.old (D.puts shelf.old)) ask result }
    ensures same { KeepsRecord (D.puts shelf.old) (D.puts shelf.new) }
    ensures counted { CountsAsk (D.failed shelf.old) (D.failed shelf.new) result }
    ensures damage { IfErr result
        (NamesAsked H.digest (D.puts shelf.old) reader.old.edge ask) }
{
    match refusal(ask, reader.size()) {
        Ok(()) => {}
        Err(fault) => return Err(CopyAskFault::Ask(AskFault::Report(ReportFault::Proof(fault)))),
    }
    match read_report::<H, D>(alloc, shelf, reader, ask) {
        Ok(report) => Ok(report),
        Err(fault) => Err(CopyAskFault::Copy(fault)),
    }
}

// The report on the copy in the folder.
#[tactic(auto, using(log_reader::proofs::Kept::kept_twice))]
fn text_of_proof<H: TreeHash, D: NamedFolders>(
    folders: &mut D,
    alloc: Global,
    origin: &str,
    keys: &[Box<dyn Verifier>],
    folder: &str,
    ask: Ask,
) -> Result<Report, CopyAskFault>
    ensures answer { ReportsProof H.digest origin.now (map (λ k. key k) keys.now)
        (D.held folders.old folder.now) ask result }
    ensures status { IfOk result HasStatus }
    ensures kept { LeavesPuts (D.held folders.old folder.now) (D.puts folders.old)
        (D.puts folders.new) }
    ensures counted { CountsAsk (D.failed folders.old) (D.failed folders.new) result }
{
    let opened = match open_copy::<H, D>(folders, alloc, origin, keys, folder) {
        Ok(opened) => opened,
        Err(fault) => return Err(CopyAskFault::Copy(fault)),
    };
    let Some(reader) = opened else {
        return Err(CopyAskFault::Ask(AskFault::Report(ReportFault::NothingComplete)));
    };
    let mut reader = reader;
    let _root = reader.root();
    ask_reader::<H, D>(alloc, folders, &mut reader, ask)
}

/// Prints a proof of the copy's entries, as `prove` does for a state with the copy's checkpoint. The proof is made of verified rows. Before
/// it is printed, it is checked against the root of the copy's checkpoint, or against the root of the requested smaller size. Returns the
/// exit status, 0.
///
/// ```text
/// let ask = Ask::Inclusion { size: 257, index: 2 };
/// prove_copy::<Sha256Tree, _, _>(&mut folders, alloc, "example.com/log", &keys, "log", ask, &mut output)?;
/// ```
///
/// # Errors
///
/// In this order:
/// - `Copy`, with the faults of `open_copy`.
/// - `Ask` with `NothingComplete`: the copy is empty.
/// - `Ask` with the first of `NoSuchSize`, `NoSuchIndex`, `FirstIsZero` and `Backwards` that applies.
/// - `Copy` with `CopyDamaged` or `ShelfFault`: a tile of the proof is missing, false or unreadable.
/// - `Ask` with `WriteFault`: a prefix of the text was written. At each other fault nothing is written.
///
/// At any time, `Copy` with `OutOfMemory`: memory was refused.
pub fn prove_copy<H: TreeHash, D: NamedFolders, W: Write>(
    folders: &mut D,
    alloc: Global,
    origin: &str,
    keys: &[Box<dyn Verifier>],
    folder: &str,
    ask: Ask,
    output: &mut W,
) -> Result<u8, CopyAskFault>
    ensures answer { Prints (ReportsProof H.digest origin.now (map (λ k. key k) keys.now)
        (D.held folders.old folder.now) ask) (W.contents output.old) (W.contents output.new)
        result }
    ensures status { IfOk result IsStatus }
    ensures quiet { IfErr result
        (λ fault. (¬ IsWriteFault fault) → Keeps (W.contents output.old) (W.contents output.new)) }
    ensures kept { LeavesPuts (D.held folders.old folder.now) (D.puts folders.old)
        (D.puts folders.new) }
    ensures counted { CountsAsk (D.failed folders.old) (D.failed folders.new) result }
{
    let recorded = text_of_proof::<H, D>(folders, alloc, origin, keys, folder, ask);
    print_text(output, recorded)
}
