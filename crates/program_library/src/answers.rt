//! The answers of a run.
ghost use Rattle.std.specs.Prelude.{◌≡◌};

use crate::fault::{Error, RunFault};
use crate::run_env::RunEnv;
use program_io::why::{FailedStreams, Why};
use program_words::{BadWord, CommandFault};
use std::alloc::Global;

/// The answer of a run. It also writes a line on the fault if the words ask for it.
pub fn printed<C: RunEnv>(
    env: &mut C,
    asked: bool,
    answer: Result<u8, Error>,
    streams: FailedStreams,
) -> Result<u8, RunFault>
    ensures answer { result ≡ answer }
    ensures same { (C.input env.new ≡ C.input env.old) × (C.output env.new ≡ C.output env.old)
        × (C.errors env.new ≡ C.errors env.old) }
    ensures moment { C.moment env.new ≡ C.moment env.old }
{
    match answer {
        Ok(status) => Ok(status),
        Err(error) => {
            let (fault, why) = error.into_parts();
            env.print_why(asked, why, streams);
            Err(fault)
        }
    }
}

/// The words are those of no command, and this word is bad.
pub fn refused(alloc: Global, bad: Option<BadWord>, fault: CommandFault) -> Error
    ensures { result ≡ RunFault.Command fault }
{
    let why = match bad {
        Some(bad) => Why::of_reason(alloc, bad.word, bad.reason),
        None => None,
    };
    Error::new(RunFault::Command(fault), why)
}
