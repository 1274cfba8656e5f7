//! One client is answered from a copy.
ghost use Rattle.std.specs.Prelude.{◌≡◌, ℕ, List, IfErr, IfOk, IfSome, option_map};
ghost use Rattle.std.specs.Io.KnownBytes.{Keeps};
ghost use Rattle.byte_streams.specs.Streams.{TakesAtMost};
ghost use Rattle.mirror_http.specs.Answered.{FailsBeforeHead, IsRequestOf};
ghost use Rattle.mirror_http.specs.declared.request.Request.TheVariants as Request;
ghost use Rattle.mirror_sources.specs.Recorded.{KeepsRecord};
ghost use Rattle.program_copies.specs.CopyAnswers.{AnswersFromCopy, BlamesAnswer, BlamesBody, BlamesKeys, CountsAnswer, CountsMade, IsCopyReply, IsGiven, IsGivenFor, IsQuiet, KeepsLast, WritesError, WritesReply};
ghost use Rattle.program_copies.specs.Bodies.{IsBodyGiven};
ghost use Rattle.program_copies.specs.CopyHeads.{IsLastOpened, LacksKeys, copy_head};

use crate::body::copy_body;
use crate::checkpoint::{keep_note, read_checkpoint};
use crate::kept::KeptCopy;
use crate::keys::CopyKeys;
use crate::reply_fault::{CopyAnswerFault, answer_fault};
use byte_streams::write_whole;
use log_reader::LogReader;
use mirror_folders::ReadableShelf;
use mirror_http::{
    HttpFault, MAX_REQUEST_LEN, Request, Resource, read_request, reply_to, server_error_reply,
};
use std::alloc::{AllocError, Global};
use std::io::{Read, Write};
use tlog_hash::{Hash, TreeHash};

// The body of a resource under that checkpoint.
#[tactic(auto, using(crate::proofs::Answering::body_blames, crate::proofs::Answering::body_counts))]
fn body_under<H: TreeHash, D: ReadableShelf>(
    alloc: Global,
    shelf: &mut D,
    kept: &mut Option<LogReader<H>>,
    origin: &str,
    head: Option<(Vec<u8>, u64, Hash)>,
    resource: &Resource,
) -> Result<Option<Vec<u8>>, CopyAnswerFault>
    ensures body { IfOk result (λ o. IsBodyGiven H.digest origin.now (D.puts shelf.old)
        (option_map (λ h. copy_head h.0.items h.1 h.2) head) resource.now
        (option_map (λ body. body.items) o)) }
    ensures blames { IfErr result (BlamesBody H.digest (D.puts shelf.old)
        (option_map (λ h. copy_head h.0.items h.1 h.2) head) resource.now) }
    ensures same { KeepsRecord (D.puts shelf.old) (D.puts shelf.new) }
    ensures counted { CountsMade (D.failed shelf.old) (D.failed shelf.new) result }
{
    match copy_body::<H, D>(alloc, shelf, kept, origin, head, resource) {
        Ok(body) => Ok(body),
        Err(fault) => Err(answer_fault(fault)),
    }
}

// Keeps the note of that checkpoint as the one that opened last.
fn keep_head(
    alloc: Global,
    last: &mut Option<Vec<u8>>,
    head: &Option<(Vec<u8>, u64, Hash)>,
) -> Result<(), AllocError>
    ensures { KeepsLast (option_map (λ note. note.items) last.old)
        (option_map (λ h. copy_head h.0.items h.1 h.2) head.now)
        (option_map (λ note. note.items) last.new) }
{
    match head {
        Some(head) => keep_note(alloc, last, &head.0),
        None => Ok(()),
    }
}

// The body of a resource, under the checkpoint on the shelf.
#[tactic(auto, using(crate::proofs::Answering::given_held, crate::proofs::Blaming::blames_before, crate::proofs::Answering::last_opened, log_reader::proofs::Kept::kept_twice))]
fn body_from_copy<H: TreeHash, D: ReadableShelf, K: CopyKeys>(
    alloc: Global,
    shelf: &mut D,
    keys: &K,
    kept: &mut KeptCopy<H>,
    origin: &str,
    resource: &Resource,
) -> Result<Option<Vec<u8>>, CopyAnswerFault>
    ensures given { IfOk result (λ o. IsGiven H.digest (K.are_keys keys.now) kept.old origin.now
        (D.puts shelf.old) resource.now (option_map (λ body. body.items) o)) }
    ensures blames { IfErr result (BlamesAnswer H.digest (K.are_keys keys.now)
        (LacksKeys (K.may_fail keys.now) kept.old (D.puts shelf.old)) origin.now
        (D.puts shelf.old) (Request.Get resource.now)) }
    ensures last { IsLastOpened (K.are_keys keys.now) origin.now kept.old kept.new }
    ensures same { KeepsRecord (D.puts shelf.old) (D.puts shelf.new) }
    ensures counted { CountsMade (D.failed shelf.old) (D.failed shelf.new) result }
{
    let head = match read_checkpoint::<D, K>(alloc, shelf, keys, origin, &kept.note) {
        Ok(head) => head,
        Err(fault) => return Err(fault),
    };
    let Ok(()) = keep_head(alloc, &mut kept.note, &head) else {
        return Err(CopyAnswerFault::Http(HttpFault::OutOfMemory));
    };
    body_under::<H, D>(alloc, shelf, &mut kept.reader, origin, head, resource)
}

// The body for a request. One that names no resource needs no file.
fn body_for<H: TreeHash, D: ReadableShelf, K: CopyKeys>(
    alloc: Global,
    shelf: &mut D,
    keys: &K,
    kept: &mut KeptCopy<H>,
    origin: &str,
    request: &Request,
) -> Result<Option<Vec<u8>>, CopyAnswerFault>
    ensures given { IfOk result (λ o. IsGivenFor H.digest (K.are_keys keys.now) kept.old
        origin.now (D.puts shelf.old) request.now (option_map (λ body. body.items) o)) }
    ensures blames { IfErr result (BlamesAnswer H.digest (K.are_keys keys.now)
        (LacksKeys (K.may_fail keys.now) kept.old (D.puts shelf.old)) origin.now
        (D.puts shelf.old) request.now) }
    ensures last { IsLastOpened (K.are_keys keys.now) origin.now kept.old kept.new }
    ensures same { KeepsRecord (D.puts shelf.old) (D.puts shelf.new) }
    ensures counted { CountsMade (D.failed shelf.old) (D.failed shelf.new) result }
{
    match request {
        Request::Get(resource) => {
            body_from_copy::<H, D, K>(alloc, shelf, keys, kept, origin, resource)
        }
        _ => Ok(None),
    }
}

// The reply to the request.
fn reply_from_copy<H: TreeHash, D: ReadableShelf, K: CopyKeys>(
    alloc: Global,
    shelf: &mut D,
    keys: &K,
    kept: &mut KeptCopy<H>,
    origin: &str,
    request: &Request,
) -> Result<Vec<u8>, CopyAnswerFault>
    ensures reply { IfOk result (λ reply. (bytes : List ℕ) → IsRequestOf bytes request.now
        → IsCopyReply H.digest (K.are_keys keys.now) kept.old origin.now (D.puts shelf.old)
        bytes reply.items) }
    ensures blames { IfErr result (BlamesAnswer H.digest (K.are_keys keys.now)
        (LacksKeys (K.may_fail keys.now) kept.old (D.puts shelf.old)) origin.now
        (D.puts shelf.old) request.now) }
    ensures last { IsLastOpened (K.are_keys keys.now) origin.now kept.old kept.new }
    ensures same { KeepsRecord (D.puts shelf.old) (D.puts shelf.new) }
    ensures counted { CountsMade (D.failed shelf.old) (D.failed shelf.new) result }
{
    let body = match body_for::<H, D, K>(alloc, shelf, keys, kept, origin, request) {
        Ok(body) => body,
        Err(fault) => return Err(fault),
    };
    match reply_to(alloc, request, &body) {
        Ok(reply) => Ok(reply),
        Err(_) => Err(CopyAnswerFault::Http(HttpFault::OutOfMemory)),
    }
}

// Writes the whole reply.
fn write_reply<W: Write>(writer: &mut W, reply: &[u8]) -> Result<(), CopyAnswerFault>
    ensures { WritesReply (W.contents writer.old) (W.contents writer.new) reply.now result }
{
    match write_whole(writer, reply) {
        Ok(()) => Ok(()),
        Err(_) => Err(CopyAnswerFault::Http(HttpFault::WriteFault)),
    }
}

// Writes the reply 500, and returns the fault. If memory was refused, nothing is written.
fn write_error<W: Write>(
    alloc: Global,
    writer: &mut W,
    fault: CopyAnswerFault,
) -> Result<(), CopyAnswerFault>
    ensures { WritesError fault (W.contents writer.old) (W.contents writer.new) result }
{
    match fault {
        CopyAnswerFault::Http(_) => Err(CopyAnswerFault::Http(HttpFault::OutOfMemory)),
        _ => {
            let Ok(reply) = server_error_reply(alloc) else {
                return Err(CopyAnswerFault::Http(HttpFault::OutOfMemory));
            };
            match write_whole(writer, &reply) {
                Ok(()) => Err(fault),
                Err(_) => Err(CopyAnswerFault::Http(HttpFault::WriteFault)),
            }
        }
    }
}

/// Reads the first request of a client, and writes the reply from the copy on the shelf (RFC 9112). The reply is that of `answer` of
/// `mirror_http` for a mirror with only the checkpoint's tree head, which is complete. Requests and replies have the limits
/// of `answer`.
///
/// The checkpoint is read at each call. If its bytes are not those that opened last, the keys are read, and it has to open under them. The
/// bytes of a tile or a bundle lead up to its root: they are the first hashes of a verified row, or the first entries of a verified bundle.
/// A proof is made of verified files, and checked. So the reply is a true one, or `500 Internal Server Error`, whatever the files are. A copy
/// without a checkpoint answers like an empty mirror.
///
/// `kept` is for the next client: the note that opened last, and the rows that were read last. Memory does not grow with the log.
///
/// # Errors
///
/// `Http` of `ReadFault`, `WriteFault` and `OutOfMemory`, as for `answer`. `CopyDamaged`: a needed file is missing, or does not verify up
/// to the checkpoint's root. `ShelfFault`: a needed file cannot be read. `Head`: the checkpoint does not open. `KeyFile`: it is not the
/// one that opened last, and the keys cannot be read. At these four, `500 Internal Server Error` was written.
///
/// # Examples
///
/// `GET /tile/0/000.p/3 HTTP/1.1`, followed by an empty line, gets 96 bytes if the checkpoint has at least three entries, and 404 if it has
/// fewer. It gets 500 if the checkpoint has three entries and the file is missing or false.
#[tactic(auto, using(crate::proofs::Answering::answers_whole, crate::proofs::Answering::answers_error, crate::proofs::Answering::counts_whole, crate::proofs::Answering::counts_error, crate::proofs::Answering::quiet_whole, crate::proofs::Answering::quiet_error, crate::proofs::Answering::no_read_whole, crate::proofs::Answering::no_read_error, crate::proofs::Answering::keys_whole, crate::proofs::Answering::keys_error))]
pub fn answer_from_copy<H: TreeHash, D: ReadableShelf, K: CopyKeys, R: Read, W: Write>(
    alloc: Global,
    shelf: &mut D,
    keys: &K,
    kept: &mut KeptCopy<H>,
    origin: &str,
    reader: &mut R,
    writer: &mut W,
) -> Result<(), CopyAnswerFault>
    ensures answer { IfSome (R.remaining reader.old) (λ bytes. AnswersFromCopy H.digest
        (K.are_keys keys.now) kept.old origin.now (D.puts shelf.old) bytes
        (W.contents writer.old) (W.contents writer.new) result) }
    ensures last { IsLastOpened (K.are_keys keys.now) origin.now kept.old kept.new }
    ensures keys { IfErr result
        (BlamesKeys (LacksKeys (K.may_fail keys.now) kept.old (D.puts shelf.old))) }
    ensures quiet { IfErr result (λ e. IsQuiet e
        → Keeps (W.contents writer.old) (W.contents writer.new)) }
    ensures limit { TakesAtMost MAX_REQUEST_LEN (R.remaining reader.old) (R.remaining reader.new) }
    ensures fault { IfErr result (λ e. e ≡ CopyAnswerFault.Http HttpFault.ReadFault
        → FailsBeforeHead (R.remaining reader.old) (R.remaining reader.new)) }
    ensures same { KeepsRecord (D.puts shelf.old) (D.puts shelf.new) }
    ensures counted { CountsAnswer (D.failed shelf.old) (D.failed shelf.new) result }
{
    let request = match read_request(alloc, reader) {
        Ok(request) => request,
        Err(HttpFault::ReadFault) => return Err(CopyAnswerFault::Http(HttpFault::ReadFault)),
        Err(_) => return Err(CopyAnswerFault::Http(HttpFault::OutOfMemory)),
    };
    match reply_from_copy::<H, D, K>(alloc, shelf, keys, kept, origin, &request) {
        Ok(reply) => write_reply(writer, &reply),
        Err(fault) => write_error(alloc, writer, fault),
    }
}
