//! Proofs of a copy's entries.
ghost use Rattle.std.specs.Prelude.{◌≡◌, IfErr, IfOk, OnOk};
ghost use Rattle.tlog_proof.specs.Made.{Holds};
ghost use Rattle.mirror_sources.specs.Source.{StaysWithin};
ghost use Rattle.mirror_sources.specs.Recorded.{KeepsRecord};
ghost use Rattle.log_reader.specs.FalseFiles.{NamesFalse, NamesFalseIfFile};
ghost use Rattle.log_reader.specs.Faults.{CountsFailure};
ghost use Rattle.copy_reader.specs.Damage.{AreProofRowsShown, NamesInTree, NamesProofDamage, NamesWithin};
ghost use Rattle.copy_reader.specs.Faults.{CountsRead};
ghost use Rattle.log_reader.specs.Holding.{ReadsTilesOf};
ghost use Rattle.copy_reader.specs.Proofs.{IsAsked, IsInTree, IsMadeOf, IsWithin, size_asked};
ghost use Rattle.copy_reader.specs.WholeCopies.{IsShelfFailure, ReadsCopyOf};

use crate::fault::CopyFault;
use crate::shelf_source::ShelfSource;
use log_reader::{LogReader, ReadFault};
use mirror_folders::ReadableShelf;
use mirror_sources::Source;
use std::alloc::Global;
use tlog_hash::TreeHash;
use tlog_proof::{Ask, Proof};

// The size of the tree of the proof: the greater one of two sizes.
fn tree_size(ask: Ask) -> u64
    ensures { result ≡ size_asked ask }
{
    match ask {
        Ask::Inclusion { size, .. } => size,
        Ask::Consistency { second, .. } => second,
    }
}

// Reads the rows that the requested proof is made of, in the tree of all entries.
fn read_rows<H: TreeHash, S: Source>(
    alloc: Global,
    reader: &mut LogReader<H>,
    files: &mut S,
    ask: Ask,
) -> Result<(), ReadFault>
    requires within { IsWithin ask reader.old.edge.size }
    requires whole { size_asked ask ≡ reader.old.edge.size }
    ensures shown { OnOk result (AreProofRowsShown H.digest reader.old.edge ask) }
    ensures later { StaysWithin (S.may_answer files.old) (S.may_answer files.new) }
    ensures kept { KeepsRecord (S.files files.old) (S.files files.new) }
    ensures counted { CountsFailure (S.failed files.old) (S.failed files.new) result }
    ensures names { IfErr result (NamesFalse H.digest (S.may_answer files.old) reader.old.edge) }
{
    match ask {
        Ask::Inclusion { index, .. } => match reader.leaf(alloc, files, index) {
            Ok(_leaf) => Ok(()),
            Err(fault) => Err(fault),
        },
        Ask::Consistency { first, .. } => match reader.prefix(alloc, files, first) {
            Ok(_first) => Ok(()),
            Err(fault) => Err(fault),
        },
    }
}

// The requested proof, in the tree of all entries.
fn made_proof<H: TreeHash, S: Source>(
    alloc: Global,
    reader: &mut LogReader<H>,
    files: &mut S,
    ask: Ask,
) -> Result<Proof, ReadFault>
    requires within { IsWithin ask reader.old.edge.size }
    requires whole { size_asked ask ≡ reader.old.edge.size }
    ensures asked { IfOk result (IsInTree reader.old.root ask) }
    ensures holds { IfOk result (Holds H.digest) }
    ensures edge { reader.new.edge ≡ reader.old.edge }
    ensures later { StaysWithin (S.may_answer files.old) (S.may_answer files.new) }
    ensures kept { KeepsRecord (S.files files.old) (S.files files.new) }
    ensures counted { CountsFailure (S.failed files.old) (S.failed files.new) result }
    ensures names { IfErr result
        (NamesFalseIfFile H.digest (S.may_answer files.old) reader.old.edge) }
    ensures honest { ReadsTilesOf H.digest reader.old reader.new (S.may_answer files.old) result
        (IsMadeOf H.digest ask) }
{
    match ask {
        Ask::Inclusion { index, .. } => reader.inclusion(alloc, files, index),
        Ask::Consistency { first, .. } => reader.consistency(alloc, files, first),
    }
}

// The same. If the proof does not hold, its rows are read once more, so that a file is named if one is at fault.
#[tactic(auto, using(log_reader::proofs::Kept::kept_twice))]
fn whole_proof<H: TreeHash, S: Source>(
    alloc: Global,
    reader: &mut LogReader<H>,
    files: &mut S,
    ask: Ask,
) -> Result<Proof, ReadFault>
    requires within { IsWithin ask reader.old.edge.size }
    requires whole { size_asked ask ≡ reader.old.edge.size }
    ensures asked { IfOk result (IsInTree reader.old.root ask) }
    ensures holds { IfOk result (Holds H.digest) }
    ensures later { StaysWithin (S.may_answer files.old) (S.may_answer files.new) }
    ensures kept { KeepsRecord (S.files files.old) (S.files files.new) }
    ensures counted { CountsFailure (S.failed files.old) (S.failed files.new) result }
    ensures names { IfErr result
        (NamesInTree H.digest (S.may_answer files.old) reader.old.edge ask) }
    ensures honest { ReadsTilesOf H.digest reader.old reader.new (S.may_answer files.old) result
        (IsMadeOf H.digest ask) }
{
    match made_proof(alloc, reader, files, ask) {
        Ok(proof) => Ok(proof),
        Err(ReadFault::Collision) => match read_rows(alloc, reader, files, ask) {
            Ok(()) => Err(ReadFault::Collision),
            Err(fault) => Err(fault),
        },
        Err(fault) => Err(fault),
    }
}

// The requested proof, in the tree of all entries or of the first ones.
#[tactic(auto, using(log_reader::proofs::Kept::kept_twice))]
fn proof_of<H: TreeHash, S: Source>(
    alloc: Global,
    reader: &mut LogReader<H>,
    files: &mut S,
    ask: Ask,
) -> Result<Proof, ReadFault>
    requires { IsWithin ask reader.old.edge.size }
    ensures asked { IfOk result (IsAsked H.digest reader.old.edge.size reader.old.root ask) }
    ensures holds { IfOk result (Holds H.digest) }
    ensures later { StaysWithin (S.may_answer files.old) (S.may_answer files.new) }
    ensures kept { KeepsRecord (S.files files.old) (S.files files.new) }
    ensures counted { CountsFailure (S.failed files.old) (S.failed files.new) result }
    ensures names { IfErr result
        (NamesWithin H.digest (S.may_answer files.old) reader.old.edge ask) }
    ensures honest { ReadsTilesOf H.digest reader.old reader.new (S.may_answer files.old) result
        (IsMadeOf H.digest ask) }
{
    let root = reader.root();
    let size = tree_size(ask);
    if size == reader.size() {
        return whole_proof(alloc, reader, files, ask);
    }
    let mut first = reader.prefix(alloc, files, size)?;
    let first_root = first.root();
    whole_proof(alloc, &mut first, files, ask)
}

/// The requested proof, from the files of the shelf.
#[tactic(auto, using(crate::proofs::ShelfSources::same_shelf))]
pub(crate) fn read_proof<H: TreeHash, D: ReadableShelf>(
    alloc: Global,
    shelf: &mut D,
    reader: &mut LogReader<H>,
    ask: Ask,
) -> Result<Proof, CopyFault>
    requires { IsWithin ask reader.old.edge.size }
    ensures asked { IfOk result (IsAsked H.digest reader.old.edge.size reader.old.root ask) }
    ensures holds { IfOk result (Holds H.digest) }
    ensures same { KeepsRecord (D.puts shelf.old) (D.puts shelf.new) }
    ensures counted { CountsRead (D.failed shelf.old) (D.failed shelf.new) result }
    ensures damage { IfErr result
        (NamesProofDamage H.digest (D.puts shelf.old) reader.old.edge ask) }
    ensures honest { ReadsCopyOf IsShelfFailure H.digest reader.old reader.new
        (D.puts shelf.old) result (IsMadeOf H.digest ask) }
{
    let mut files = ShelfSource::new(shelf);
    Ok(proof_of(alloc, reader, &mut files, ask)?)
}
