//! The command `audit`: reads a whole log at a source, and prints a line about it.
ghost use Rattle.std.specs.Prelude.{◌≡◌, IfOk, map, string_bytes};
ghost use Rattle.program_copies.specs.Audits.{BlamesRun, RunsAudit};
ghost use Rattle.program_copies.specs.Texts.{audited_line};

use crate::entries_fault::AuditRunFault;
use byte_streams::write_whole;
use copy_reader::{AuditFault, Audited, audit};
use mirror_sources::Source;
use signed_note::Verifier;
use std::alloc::{AllocError, Global};
use std::io::Write;
use tlog_hash::TreeHash;
use tlog_text::{push_hash, push_number};

// The line that an audit prints.
fn audited_text(alloc: Global, audited: &Audited) -> Result<String, AllocError>
    ensures { IfOk result (λ text. string_bytes text
        ≡ audited_line audited.now.size audited.now.root) }
{
    let mut text = String::from_str(alloc, "audited ")?;
    push_number(&mut text, audited.size)?;
    text.push_str(" ")?;
    push_hash(&mut text, &audited.root)?;
    text.push_str("\n")?;
    Ok(text)
}

/// Reads a whole log at the source, as `copy_reader::audit` does, and writes the line `audited SIZE ROOT`, with the root in standard
/// base64. Returns the exit status, which is 0.
///
/// ```text
/// run_audit::<Sha256Tree, _, _>(alloc, "example.com/log", &keys, &mut source, &mut output)?
/// // audited 600 CtTvclx+BXrchsWIiLJB6woH1kdkUrIootoUMsQZBJA=
/// ```
///
/// # Errors
///
/// `Audit`: the faults of `copy_reader::audit`, and `OutOfMemory` if memory for the line was refused. Nothing is written then.
/// `WriteFault`: a write failed, or wrote no byte. A prefix of the line may have been written.
pub fn run_audit<H: TreeHash, S: Source, W: Write>(
    alloc: Global,
    origin: &str,
    keys: &[Box<dyn Verifier>],
    source: &mut S,
    output: &mut W,
) -> Result<u8, AuditRunFault>
    ensures answer { RunsAudit H.digest origin.now (map (λ k. key k) keys.now)
        (S.may_answer source.old) (S.may_answer source.new) (S.asked source.old) (S.asked source.new)
        (W.contents output.old) (W.contents output.new) result }
    ensures blamed { BlamesRun (S.failed source.old) (S.failed source.new) result }
{
    let audited = match audit::<H, S>(alloc, origin, keys, source) {
        Ok(audited) => audited,
        Err(fault) => return Err(AuditRunFault::Audit(fault)),
    };
    let Ok(text) = audited_text(alloc, &audited) else {
        return Err(AuditRunFault::Audit(AuditFault::OutOfMemory));
    };
    match write_whole(output, text.as_bytes()) {
        Ok(()) => Ok(0),
        Err(_) => Err(AuditRunFault::WriteFault),
    }
}
