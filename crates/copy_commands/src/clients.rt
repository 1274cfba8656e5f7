//! Clients that connect one after another and get an answer, from a mirror or a copy.
ghost use Rattle.mirror_sources.specs.Recorded.{KeepsRecord};
ghost use Rattle.program_copies.specs.CopyHeads.{IsLastOpened};

use byte_streams::TimedStream;
use mirror_http::{HttpFault, answer};
use program_copies::{CopyAnswerFault, CopyKeys, KeptCopy, answer_from_copy};
use program_io::{OpenPort, RunFolders};
use std::alloc::Global;
use std::io;
use std::net::TcpStream;
use std::rt::Clock;
use std::time::Duration;
use tlog_hash::{Sha256Tree, TreeHash};
use tlog_mirror::Mirror;

// The number of seconds in which a client has to send the head of its request.
const HEAD_SECONDS: u64 = 10;

// The number of seconds for a whole exchange, so at least 60 remain for the reply.
const ALL_SECONDS: u64 = 70;

/// Clients that connect one after another. Each gets one answer.
/// The clients of a port record nothing.
pub(crate) trait Clients {
    ghost use Rattle.std.specs.Prelude.{List, Option, None};
    ghost use Rattle.sha2.specs.Sha256.{sha256};
    ghost use Rattle.mirror_sources.specs.Recorded.{KeepsRecord};
    ghost use Rattle.program_io.specs.Exchanges.{AnswersNext, Exchange};
    ghost use Rattle.program_copies.specs.CopyHeads.{IsLastOpened};
    ghost use Rattle.copy_commands.specs.Clients.{IsCopyAnswer, IsMirrorAnswer};

    /// The bytes that each client gave and the bytes that were written to it, the oldest client first, if they are recorded.
    ghost exchanges: { Self → Option (List Exchange) } = { λ _. None };

    /// Waits for the next client, and answers it from the mirror. A fault of this client is inside the `Ok`.
    ///
    /// # Errors
    ///
    /// No connection was accepted.
    fn answer_next<H: TreeHash, C: Clock>(
        &mut self,
        clock: &C,
        alloc: Global,
        mirror: &Mirror<H>,
    ) -> io::Result<Result<(), HttpFault>>
        ensures { AnswersNext (IsMirrorAnswer H.digest mirror.now.view) (exchanges self.old)
            (exchanges self.new) result };

    /// Waits for the next client, and answers it from the copy in the open folder. `kept` is what was kept since the last client. A fault of
    /// this client is inside the `Ok`.
    ///
    /// # Errors
    ///
    /// No connection was accepted.
    fn answer_next_from_copy<D: RunFolders, K: CopyKeys, C: Clock>(
        &mut self,
        clock: &C,
        alloc: Global,
        folders: &mut D,
        keys: &K,
        kept: &mut KeptCopy<Sha256Tree>,
        origin: &str,
    ) -> io::Result<Result<(), CopyAnswerFault>>
        ensures answer { IsLastOpened (K.are_keys keys.now) origin.now None kept.old
            → AnswersNext (IsCopyAnswer sha256 (K.are_keys keys.now) origin.now (D.puts folders.old))
            (exchanges self.old) (exchanges self.new) result }
        ensures last { IsLastOpened (K.are_keys keys.now) origin.now kept.old kept.new }
        ensures same { KeepsRecord (D.puts folders.old) (D.puts folders.new) };
}

impl Clients for OpenPort {
    fn answer_next<H: TreeHash, C: Clock>(
        &mut self,
        clock: &C,
        alloc: Global,
        mirror: &Mirror<H>,
    ) -> io::Result<Result<(), HttpFault>> {
        let stream = self.accept()?;
        match sides_of(clock, &stream) {
            Ok((mut reader, mut writer)) => Ok(answer(alloc, mirror, &mut reader, &mut writer)),
            Err(fault) => Ok(Err(fault)),
        }
    }

    fn answer_next_from_copy<D: RunFolders, K: CopyKeys, C: Clock>(
        &mut self,
        clock: &C,
        alloc: Global,
        folders: &mut D,
        keys: &K,
        kept: &mut KeptCopy<Sha256Tree>,
        origin: &str,
    ) -> io::Result<Result<(), CopyAnswerFault>> {
        let stream = self.accept()?;
        match sides_of(clock, &stream) {
            Ok((mut reader, mut writer)) => Ok(answer_from_copy(
                alloc,
                folders,
                keys,
                kept,
                origin,
                &mut reader,
                &mut writer,
            )),
            Err(fault) => Ok(Err(CopyAnswerFault::Http(fault))),
        }
    }
}

// A stream whose exchange ends in time, whatever its client does.
type Side<'a, C> = TimedStream<&'a TcpStream, &'a C>;

// The two sides of a connection: its request and its reply, each with a deadline. If the clock cannot be read, that is a `ReadFault`.
fn sides_of<'a, C: Clock>(
    clock: &'a C,
    stream: &'a TcpStream,
) -> Result<(Side<'a, C>, Side<'a, C>), HttpFault> {
    let Ok(request) = TimedStream::new(stream, clock, Duration::from_secs(HEAD_SECONDS)) else {
        return Err(HttpFault::ReadFault);
    };
    match TimedStream::new(stream, clock, Duration::from_secs(ALL_SECONDS)) {
        Ok(reply) => Ok((request, reply)),
        Err(_) => Err(HttpFault::ReadFault),
    }
}
