//! The bytes of the reply to a request.
ghost use Rattle.std.specs.Prelude.{◌≡◌, ℕ, List, [], IfErr, IfNone, IfOk, IfSome, None, Option, Some, option_map};
ghost use Rattle.mirror_folders.specs.Shelf.{Put};
ghost use Rattle.mirror_sources.specs.Recorded.{KeepsRecord};
ghost use Rattle.program_copies.specs.Bodies.{HasResource, IsBodyAt, IsBodyGiven};
ghost use Rattle.program_copies.specs.CopyHeads.{copy_head};
ghost use Rattle.program_copies.specs.Damages.{NamesAt, NamesFor};
ghost use Rattle.copy_reader.specs.Faults.{CountsRead};
ghost use Rattle.copy_reader.specs.WholeCopies.{IsShelfFailure};
ghost use Rattle.program_copies.specs.GivenProofs.{HasLogAt, HasLogOf};

use crate::file::{is_same, read_file};
use crate::proving::asked_proof;
use copy_reader::{CopyFault, status_text};
use log_reader::LogReader;
use mirror_folders::ReadableShelf;
use mirror_http::Resource;
use std::alloc::{AllocError, Global};
use tlog_hash::{Hash, TreeHash};
use tlog_tiles::Path;

// The bytes of a resource of an empty copy.
fn empty_body(
    alloc: Global,
    origin: &str,
    resource: &Resource,
) -> Result<Option<Vec<u8>>, AllocError>
    ensures found { (digest : List ℕ → List ℕ) (held : Option (List Put)) → IfOk result
        (λ o. IfSome o (λ body. IsBodyAt digest origin.now held None resource.now body.items)) }
    ensures none { IfOk result (λ o. IfNone o (¬ HasResource None resource.now)) }
{
    match *resource {
        Resource::Status => Ok(Some(status_text(alloc, origin, &None)?.into_bytes())),
        Resource::Forks => Ok(Some(Vec::new(alloc))),
        Resource::File(_) => Ok(None),
        Resource::Missing { .. } => Ok(None),
        Resource::Proof(_) => Ok(None),
    }
}

// The bytes that list the missing paths of a tree head: empty for the copy's tree head. None: it is another tree head.
fn missing_body(alloc: Global, size: u64, root: &Hash, asked: u64, hash: &Hash) -> Option<Vec<u8>>
    ensures found { IfSome result (λ body. (asked ≡ size) × (hash.now ≡ root.now)
        × (body.items ≡ [])) }
    ensures none { IfNone result (asked ≡ size → ¬ (hash.now ≡ root.now)) }
{
    if asked == size && is_same(hash, root) {
        Some(Vec::new(alloc))
    } else {
        None
    }
}

// The bytes of a resource of a copy with that checkpoint.
fn held_body<H: TreeHash, D: ReadableShelf>(
    alloc: Global,
    shelf: &mut D,
    kept: &mut Option<LogReader<H>>,
    origin: &str,
    head: (Vec<u8>, u64, Hash),
    resource: &Resource,
) -> Result<Option<Vec<u8>>, CopyFault>
    ensures found { IfOk result (λ o. IfSome o (λ body. IsBodyAt H.digest origin.now
        (D.puts shelf.old) (Some (copy_head head.0.items head.1 head.2))
        resource.now body.items)) }
    ensures none { IfOk result (λ o. IfNone o
        (¬ HasResource (Some (copy_head head.0.items head.1 head.2)) resource.now)) }
    ensures same { KeepsRecord (D.puts shelf.old) (D.puts shelf.new) }
    ensures counted { CountsRead (D.failed shelf.old) (D.failed shelf.new) result }
    ensures damage { IfErr result
        (NamesFor H.digest (D.puts shelf.old) head.1 head.2 resource.now) }
    ensures honest { (entries : List (List ℕ))
        → HasLogOf H.digest (D.puts shelf.old) head.1 head.2 entries
        → IfErr result IsShelfFailure }
{
    let (note, size, root) = head;
    match *resource {
        Resource::File(Path::Checkpoint) => Ok(Some(note)),
        Resource::File(path) => read_file::<H, D>(alloc, shelf, kept, size, &root, &path),
        Resource::Status => {
            Ok(Some(status_text(alloc, origin, &Some((size, root)))?.into_bytes()))
        }
        Resource::Forks => Ok(Some(Vec::new(alloc))),
        Resource::Missing {
            size: asked,
            root: hash,
        } => Ok(missing_body(alloc, size, &root, asked, &hash)),
        Resource::Proof(ask) => asked_proof::<H, D>(alloc, shelf, size, &root, ask),
    }
}

/// The bytes of a resource of the copy with that checkpoint. None: a mirror with only that tree head, which is complete, would not serve
/// the resource.
///
/// # Errors
///
/// `CopyDamaged`: a needed file is missing or false. `ShelfFault`: the shelf failed, and counts it. `OutOfMemory`: memory was refused.
#[tactic(auto, using(crate::proofs::Answering::body_given))]
pub(crate) fn copy_body<H: TreeHash, D: ReadableShelf>(
    alloc: Global,
    shelf: &mut D,
    kept: &mut Option<LogReader<H>>,
    origin: &str,
    head: Option<(Vec<u8>, u64, Hash)>,
    resource: &Resource,
) -> Result<Option<Vec<u8>>, CopyFault>
    ensures body { IfOk result (λ o. IsBodyGiven H.digest origin.now (D.puts shelf.old)
        (option_map (λ h. copy_head h.0.items h.1 h.2) head) resource.now
        (option_map (λ body. body.items) o)) }
    ensures same { KeepsRecord (D.puts shelf.old) (D.puts shelf.new) }
    ensures counted { CountsRead (D.failed shelf.old) (D.failed shelf.new) result }
    ensures damage { IfErr result (NamesAt H.digest (D.puts shelf.old)
        (option_map (λ h. copy_head h.0.items h.1 h.2) head) resource.now) }
    ensures honest { (entries : List (List ℕ))
        → HasLogAt H.digest (D.puts shelf.old)
        (option_map (λ h. copy_head h.0.items h.1 h.2) head) entries
        → IfErr result IsShelfFailure }
{
    match head {
        Some(head) => held_body::<H, D>(alloc, shelf, kept, origin, head, resource),
        None => match empty_body(alloc, origin, resource) {
            Ok(body) => Ok(body),
            Err(_) => Err(CopyFault::OutOfMemory),
        },
    }
}
