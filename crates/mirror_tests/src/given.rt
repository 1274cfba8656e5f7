//! Items for mirrors in tests, for any digest: the key, tree heads with their rows, and bundles.

ghost use Rattle.std.specs.Prelude.{codes, ◌∷◌, []};
ghost use Rattle.std.specs.Str.{bytes_eq};

use signed_note::Verifier;
use std::alloc::{AllocError, Global};
use std::test::Fail;
use tlog_hash::TreeHash;
use tlog_mirror::{Mirror, TakeFault};

// A key that accepts the signature 05 for every text.
#[derive(Drop)]
struct Five;

impl Verifier for Five {
    ghost key = { λ k. record { name = codes "good"; id = 16909060; accepts = λ text signature. bytes_eq signature (5 ∷ []) } };

    fn name(&self) -> &str {
        "good"
    }

    fn id(&self) -> u32 {
        16_909_060
    }

    fn accepts(&self, _text: &[u8], signature: &[u8]) -> bool {
        signature == [5].as_slice()
    }
}

// The list of that key. Like other helpers it ensures nothing, so that its callers are cheap to check.
pub(crate) fn keys(alloc: Global) -> Result<Vec<Box<dyn Verifier>>, AllocError> {
    let mut keys: Vec<Box<dyn Verifier>> = Vec::new(alloc);
    keys.push(Box::new(alloc, Five)?)?;
    Ok(keys)
}

// The answer of a mirror to that note and these rows, under the key of these tests.
pub(crate) fn answer_to_head<H: TreeHash>(
    alloc: Global,
    mirror: &mut Mirror<H>,
    note: &[u8],
    edge: &[&[u8]],
) -> Result<Result<(), TakeFault>, AllocError> {
    let keys = keys(alloc)?;
    Ok(mirror.take_head(alloc, &keys, note, edge))
}

// Takes the tree head with that size and root, with these rows of its right edge.
pub(crate) fn take_head<H: TreeHash>(
    alloc: Global,
    mirror: &mut Mirror<H>,
    head: &str,
    edge: &[&[u8]],
) -> Result<(), Fail> {
    let note = format!(in alloc; "ex\n{head}\n\n\u{2014} good AQIDBAU=\n")?;
    take_note(alloc, mirror, note.as_bytes(), edge)
}

pub(crate) fn take_note<H: TreeHash>(
    alloc: Global,
    mirror: &mut Mirror<H>,
    note: &[u8],
    edge: &[&[u8]],
) -> Result<(), Fail> {
    answer_to_head(alloc, mirror, note, edge)??;
    Ok(())
}

// Takes the tree head with that size and root, for a log of entries of one byte each.
pub(crate) fn take_log<H: TreeHash>(
    alloc: Global,
    mirror: &mut Mirror<H>,
    head: &str,
    letters: &[u8],
) -> Result<(), Fail> {
    let mut row = Vec::new(alloc);
    for letter in letters {
        row.extend_from_slice(H::leaf(&[*letter]).as_slice())?;
    }
    take_head(alloc, mirror, head, &[row.as_slice()])
}

// Takes a bundle of entries of one byte each.
pub(crate) fn take_letters<H: TreeHash>(
    alloc: Global,
    mirror: &mut Mirror<H>,
    letters: &[u8],
) -> Result<(), Fail> {
    let width = letters.len();
    if width == 0 || width > 256 {
        return Err("no width of a bundle".into());
    }
    let mut bytes = Vec::new(alloc);
    for letter in letters {
        bytes.extend_from_slice(&[0, 1, *letter])?;
    }
    mirror.take_bundle(alloc, width as u32, &bytes)?;
    Ok(())
}

// The note of the log of three entries: the empty one, `00` and `10`.
pub(crate) const HEAD_OF_3: &str =
    "ex\n3\nrra8/idLcKFPsGel5VeCZNsPqbUa9eC6FZFY8yngbnc=\n\n\u{2014} good AQIDBAU=\n";

// The bundle of these entries.
pub(crate) const BUNDLE_OF_3: &[u8] = b"\x00\x00\x00\x01\x00\x00\x01\x10";

// The tile of these entries: the leaf hashes.
pub(crate) fn tile_of_3<H: TreeHash>(alloc: Global) -> Result<Vec<u8>, AllocError> {
    let mut row = Vec::new(alloc);
    for entry in [b"".as_slice(), b"\x00".as_slice(), b"\x10".as_slice()] {
        row.extend_from_slice(H::leaf(entry).as_slice())?;
    }
    Ok(row)
}

// The value, if everything was done to it; otherwise it is dropped. It is dropped here and by `drop`, since a drop in place
// has a step for each field of a mirror or a source, and is expensive to check.
pub(crate) fn kept<T: Drop>(made: T, answer: Result<(), Fail>) -> Result<T, Fail> {
    match answer {
        Ok(()) => Ok(made),
        Err(fault) => Err(fault),
    }
}
