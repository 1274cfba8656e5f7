//! Writes proofs as text.
ghost use Rattle.std.specs.Prelude.{◌≡◌, ◌++◌, [], OnOk, IfOk, string_bytes};
ghost use Rattle.std.specs.List.{AllByRecursion};
ghost use Rattle.tlog_text.specs.Hash.{Is32Bytes};
ghost use Rattle.tlog_proof.specs.Text.{number_line, hash_line, path_lines, IsWritableProof, IsProofText};

use crate::proof::Proof;
use std::alloc::{AllocError, Global};
use tlog_hash::Hash;
use tlog_text::{push_hash, push_number};

/// The text of a proof.
///
/// The first line is `inclusion` or `consistency`. The next lines are `size N`, `index I`,
/// `root ROOT` and `leaf HASH`, or `first M`, `root ROOT`, `second N` and `root ROOT`. A line
/// `path HASH` follows for each hash of the path. Each line ends in a newline. Numbers are decimal
/// without leading zeros, and hashes are standard base64 with padding.
///
/// Each size and index must be at most 9223372036854775807, and the path must have at most 64
/// hashes.
///
/// # Errors
///
/// Memory was refused.
pub fn write_text(alloc: Global, proof: &Proof) -> Result<String, AllocError>
    requires { IsWritableProof proof.now }
    ensures { IfOk result (λ text. IsProofText (string_bytes text) proof.now) }
{
    let mut text = String::new(alloc);
    match add_proof(&mut text, proof) {
        Ok(()) => Ok(text),
        Err(e) => {
            drop(text);
            Err(e)
        }
    }
}

// Writes the lines of the proof into an empty text.
fn add_proof(text: &mut String, proof: &Proof) -> Result<(), AllocError>
    requires empty { string_bytes text.old ≡ [] }
    requires writable { IsWritableProof proof.now }
    ensures { OnOk result (IsProofText (string_bytes text.new) proof.now) }
{
    match proof {
        Proof::Inclusion {
            size,
            index,
            root,
            leaf,
            path,
        } => {
            text.push_str("inclusion\n")?;
            add_number(text, "size ", *size)?;
            add_number(text, "index ", *index)?;
            add_hash(text, "root ", root)?;
            add_hash(text, "leaf ", leaf)?;
            add_hashes(text, path.as_slice())
        }
        Proof::Consistency {
            first,
            first_root,
            second,
            second_root,
            path,
        } => {
            text.push_str("consistency\n")?;
            add_number(text, "first ", *first)?;
            add_hash(text, "root ", first_root)?;
            add_number(text, "second ", *second)?;
            add_hash(text, "root ", second_root)?;
            add_hashes(text, path.as_slice())
        }
    }
}

// Appends the line of a number.
fn add_number(text: &mut String, name: &str, n: u64) -> Result<(), AllocError>
    ensures { OnOk result (string_bytes text.new
        ≡ string_bytes text.old ++ number_line name.now n []) }
{
    text.push_str(name)?;
    push_number(text, n)?;
    text.push('\n')
}

// Appends the line of a hash.
fn add_hash(text: &mut String, name: &str, hash: &Hash) -> Result<(), AllocError>
    ensures ok { OnOk result (string_bytes text.new
        ≡ string_bytes text.old ++ hash_line name.now hash.now []) }
    ensures is_hash { Is32Bytes hash.now }
{
    text.push_str(name)?;
    push_hash(text, hash)?;
    text.push('\n')?;
    Ok(())
}

// Appends the lines of a path.
fn add_hashes(text: &mut String, path: &[Hash]) -> Result<(), AllocError>
    ensures ok { OnOk result (string_bytes text.new
        ≡ string_bytes text.old ++ path_lines path.now []) }
    ensures hashes { OnOk result (AllByRecursion Is32Bytes path.now) }
{
    for hash in path {
        add_hash(text, "path ", hash)?;
    }
    Ok(())
}
