//! Mirrors over HTTP.
mod memory;
mod streams;

ghost use Rattle.std.specs.Prelude.{codes, ◌∷◌, []};
ghost use Rattle.std.specs.Str.{bytes_eq};

use mirror_http::{HttpFault, answer};
use signed_note::Verifier;
use std::alloc::{AllocError, Global};
use std::io::{Read, Write};
use std::test::Fail;
use tlog_hash::TreeHash;
use tlog_mirror::Mirror;

// The note of the log of three entries: the empty one, and 00 and 10 in hexadecimal.
const NOTE: &str =
    "ex\n3\nrra8/idLcKFPsGel5VeCZNsPqbUa9eC6FZFY8yngbnc=\n\n\u{2014} good AQIDBAU=\n";

// The request for a bundle of two entries, and its reply.
const BUNDLE_REQUEST: &[u8] = b"GET /tile/entries/000.p/2 HTTP/1.1\r\n\r\n";

const BUNDLE_REPLY: &[u8] =
    b"HTTP/1.1 200 OK\r\nContent-Type: application/octet-stream\r\nContent-Length: 5\r\nConnection: close\r\n\r\n\x00\x00\x00\x01\x00";

// A key that accepts the signature 05 for every text.
#[derive(Drop)]
struct Five;

impl Verifier for Five {
    ghost key = { λ k. record { name = codes "good"; id = 16909060; accepts = λ text signature. bytes_eq signature (5 ∷ []) } };

    fn name(&self) -> &str {
        "good"
    }

    fn id(&self) -> u32 {
        16_909_060
    }

    fn accepts(&self, _text: &[u8], signature: &[u8]) -> bool {
        signature == [5].as_slice()
    }
}

// The leaf hashes of the three entries.
fn row_of_3<H: TreeHash>(alloc: Global) -> Result<Vec<u8>, AllocError> {
    let mut row = Vec::new(alloc);
    for entry in [b"".as_slice(), b"\x00", b"\x10"] {
        row.extend_from_slice(H::leaf(entry).as_slice())?;
    }
    Ok(row)
}

// The mirror takes the tree head of the three entries.
fn take_head_of_3<H: TreeHash>(alloc: Global, mirror: &mut Mirror<H>) -> Result<(), Fail> {
    let mut keys: Vec<Box<dyn Verifier>> = Vec::new(alloc);
    keys.push(Box::new(alloc, Five)?)?;
    let row = row_of_3::<H>(alloc)?;
    mirror.take_head(alloc, &keys, NOTE.as_bytes(), &[row.as_slice()])?;
    Ok(())
}

// The mirror takes that tree head, and then the bundle.
fn take_3<H: TreeHash>(alloc: Global, mirror: &mut Mirror<H>) -> Result<(), Fail> {
    take_head_of_3(alloc, mirror)?;
    mirror.take_bundle(alloc, 3, b"\x00\x00\x00\x01\x00\x00\x01\x10")?;
    Ok(())
}

// A mirror that is complete for the three entries.
pub(crate) fn mirror_of_3<H: TreeHash>(alloc: Global) -> Result<Mirror<H>, Fail> {
    let mut mirror = Mirror::<H>::new(alloc, "ex")?;
    let answer = take_3(alloc, &mut mirror);
    kept(mirror, answer)
}

// Answers a client. It ensures nothing, so that its callers are cheap to check.
pub(crate) fn answered<H: TreeHash, R: Read, W: Write>(
    alloc: Global,
    mirror: &Mirror<H>,
    reader: &mut R,
    writer: &mut W,
) -> Result<(), HttpFault> {
    answer(alloc, mirror, reader, writer)
}

// The value, if everything was done to it; otherwise it is dropped. It is dropped here and by `drop`, since a drop in place
// has a step for each field of a mirror or a source, and is expensive to check.
pub(crate) fn kept<T: Drop>(made: T, answer: Result<(), Fail>) -> Result<T, Fail> {
    match answer {
        Ok(()) => Ok(made),
        Err(fault) => Err(fault),
    }
}
