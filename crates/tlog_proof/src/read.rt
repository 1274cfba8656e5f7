//! Reads proofs from text.
ghost use Rattle.std.specs.Prelude.{◌≡◌, ◌≤◌, [], length, IfSome, IfOk};
ghost use Rattle.std.specs.List.{AllByRecursion};
ghost use Rattle.tlog_text.specs.Hash.{Is32Bytes};
ghost use Rattle.tlog_proof.specs.Text.{LacksNewline, line, number_line, hash_line, path_lines, ReadsProof};
ghost use Rattle.tlog_proof.specs.Reading.{AreProofLines, IsInclusionProof, IsConsistencyProof};
ghost use Rattle.tlog_proof.specs.Reading.{FindsField, FindsHash, FindsNumber, FindsPath, FindsProof};

use crate::fault::TextFault;
use crate::limits::MAX_PATH;
use crate::path::HashPath;
use crate::proof::Proof;
use std::alloc::Global;
use tlog_hash::Hash;
use tlog_shape::MAX_SIZE;
use tlog_text::{read_hash, read_number};

/// Reads the text of a proof: exactly a text that `write_text` writes.
///
/// # Errors
///
/// `BadProofText` for any other text. Examples are a leading zero, base64 that is not canonical, and a last line without a
/// newline. `OutOfMemory` may come at any step.
pub fn read_text(alloc: Global, text: &str) -> Result<Proof, TextFault>
    ensures { ReadsProof text.now result }
{
    if let Some(lines) = text.strip_prefix("inclusion\n") {
        return read_inclusion(alloc, lines);
    }
    if let Some(lines) = text.strip_prefix("consistency\n") {
        return read_consistency(alloc, lines);
    }
    Err(TextFault::BadProofText)
}

// Reads the lines after the title of an inclusion proof.
fn read_inclusion(alloc: Global, text: &str) -> Result<Proof, TextFault>
    ensures sound { IfOk result (λ proof. IsInclusionProof proof × AreProofLines text.now proof) }
    ensures complete { FindsProof IsInclusionProof text.now result }
{
    let Some((size, rest)) = number_field(text, "size ") else {
        return Err(TextFault::BadProofText);
    };
    let Some((index, rest)) = number_field(rest, "index ") else {
        return Err(TextFault::BadProofText);
    };
    let (root, rest) = hash_field(rest, "root ")?;
    let (leaf, rest) = hash_field(rest, "leaf ")?;
    let path = path_fields(alloc, rest)?;
    Ok(Proof::Inclusion {
        size,
        index,
        root,
        leaf,
        path,
    })
}

// Reads the lines after the title of a consistency proof.
fn read_consistency(alloc: Global, text: &str) -> Result<Proof, TextFault>
    ensures sound { IfOk result (λ proof. IsConsistencyProof proof × AreProofLines text.now proof) }
    ensures complete { FindsProof IsConsistencyProof text.now result }
{
    let Some((first, rest)) = number_field(text, "first ") else {
        return Err(TextFault::BadProofText);
    };
    let (first_root, rest) = hash_field(rest, "root ")?;
    let Some((second, rest)) = number_field(rest, "second ") else {
        return Err(TextFault::BadProofText);
    };
    let (second_root, rest) = hash_field(rest, "root ")?;
    let path = path_fields(alloc, rest)?;
    Ok(Proof::Consistency {
        first,
        first_root,
        second,
        second_root,
        path,
    })
}

// The value of the first line, if it begins with that name, and the text after the line.
fn field<'a>(text: &'a str, name: &str) -> Option<(&'a str, &'a str)>
    ensures sound { IfSome result (λ r. LacksNewline r.0.now
        × (text.now ≡ line name.now r.0.now r.1.now)) }
    ensures complete { FindsField (λ r. r.0.now) (λ r. r.1.now) text.now name.now result }
{
    text.strip_prefix(name)?.split_once('\n')
}

// The number on the first line, and the text after the line.
fn number_field<'a>(text: &'a str, name: &str) -> Option<(u64, &'a str)>
    ensures sound { IfSome result (λ r. (r.0 ≤ MAX_SIZE)
        × (text.now ≡ number_line name.now r.0 r.1.now)) }
    ensures complete { FindsNumber (λ r. r.0) (λ r. r.1.now) text.now name.now result }
{
    let (digits, rest) = field(text, name)?;
    match read_number(digits, MAX_SIZE) {
        Ok(n) => Some((n, rest)),
        Err(_) => None,
    }
}

// The hash on the first line, and the text after the line.
fn hash_field<'a>(text: &'a str, name: &str) -> Result<(Hash, &'a str), TextFault>
    ensures sound { IfOk result (λ r. Is32Bytes r.0 × (text.now ≡ hash_line name.now r.0 r.1.now)) }
    ensures complete { FindsHash (λ r. r.0) (λ r. r.1.now) text.now name.now result }
{
    let Some((encoded, rest)) = field(text, name) else {
        return Err(TextFault::BadProofText);
    };
    match read_hash(encoded) {
        Some(hash) => Ok((hash, rest)),
        None => Err(TextFault::BadProofText),
    }
}

// The hashes of all lines.
fn path_fields(alloc: Global, text: &str) -> Result<HashPath, TextFault>
    ensures sound { IfOk result (λ path. (text.now ≡ path_lines path []) × (length path ≤ MAX_PATH)
        × AllByRecursion Is32Bytes path) }
    ensures complete { FindsPath text.now result }
{
    let mut path = Vec::new(alloc);
    let mut rest = text;
    while !rest.is_empty() {
        if path.len() == MAX_PATH {
            return Err(TextFault::BadProofText);
        }
        let (hash, after) = hash_field(rest, "path ")?;
        path.push(hash)?;
        rest = after;
    }
    Ok(HashPath::new(path))
}
