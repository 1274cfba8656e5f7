//! The bytes of a requested resource.
ghost use Rattle.std.specs.Prelude.{◌≡◌, ◌≢◌, ℕ, List, IfNone, IfOk, IfSome, OnOk};
ghost use Rattle.mirror_http.specs.Response.{IsBody, IsServedProofText, media_type};

use crate::resource::Resource;
use std::alloc::{AllocError, Global};
use tlog_hash::TreeHash;
use tlog_mirror::Mirror;
use tlog_proof::{Ask, ProofFault, prove, write_text};
use tlog_tiles::Path;

// The text of a proof of the served entries.
fn proof_bytes<H: TreeHash>(
    alloc: Global,
    mirror: &Mirror<H>,
    ask: Ask,
) -> Result<Option<Vec<u8>>, AllocError>
    ensures found { IfOk result (λ o.
        IfSome o (λ bytes. IsServedProofText H.digest mirror.now.view ask bytes.items)) }
    ensures none { IfOk result (λ o.
        IfNone o ((bytes : List ℕ) → ¬ IsServedProofText H.digest mirror.now.view ask bytes)) }
{
    let Some(top) = mirror.top_ranges() else {
        return Ok(None);
    };
    match prove(alloc, &top, ask) {
        Ok(proof) => Ok(Some(write_text(alloc, &proof)?.into_bytes())),
        Err(fault) => {
            check_memory(fault)?;
            Ok(None)
        }
    }
}

// Whether the proof was refused for a reason other than memory.
fn check_memory(fault: ProofFault) -> Result<(), AllocError>
    ensures { OnOk result (fault ≢ ProofFault.OutOfMemory) }
{
    match fault {
        ProofFault::OutOfMemory => Err(AllocError),
        _ => Ok(()),
    }
}

/// The bytes of a resource, or None if the mirror does not serve it.
pub fn body_of<H: TreeHash>(
    alloc: Global,
    mirror: &Mirror<H>,
    resource: &Resource,
) -> Result<Option<Vec<u8>>, AllocError>
    ensures found { IfOk result (λ o.
        IfSome o (λ body. IsBody H.digest mirror.now.view resource.now body.items)) }
    ensures none { IfOk result (λ o.
        IfNone o ((body : List ℕ) → ¬ IsBody H.digest mirror.now.view resource.now body)) }
{
    match *resource {
        Resource::File(path) => mirror.file(alloc, &path),
        Resource::Status => Ok(Some(mirror.status_text(alloc)?.into_bytes())),
        Resource::Forks => Ok(Some(mirror.forks_text(alloc)?.into_bytes())),
        Resource::Missing { size, root } => {
            let Some(text) = mirror.missing_text(alloc, size, &root)? else {
                return Ok(None);
            };
            Ok(Some(text.into_bytes()))
        }
        Resource::Proof(ask) => proof_bytes(alloc, mirror, ask),
    }
}

/// The media type of a resource.
pub fn kind_of(resource: &Resource) -> &'static str
    ensures { result.now ≡ media_type resource.now }
{
    match resource {
        Resource::File(Path::Tile { .. }) => "application/octet-stream",
        Resource::File(Path::Entries { .. }) => "application/octet-stream",
        _ => "text/plain; charset=utf-8",
    }
}
