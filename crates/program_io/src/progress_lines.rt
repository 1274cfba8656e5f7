//! Progress reports, if the words ask for them.
ghost use Rattle.std.specs.Prelude.{◌≡◌};
ghost use Rattle.byte_streams.specs.Streams.{AppendsPrefix};
ghost use Rattle.program_io.specs.ProgressText.{line_of, waited_text};

use crate::front::write_front;
use crate::{CountedFolders, Task, waited_line};
use std::alloc::Global;
use std::io::Write;

/// From now on the folders report the number of files that were put, if the words ask for it.
pub fn report_puts<D: CountedFolders>(folders: &mut D, progress: bool, task: Task)
    ensures puts { D.puts folders.new ≡ D.puts folders.old }
    ensures held { D.held folders.new ≡ D.held folders.old }
    ensures failed { D.failed folders.new ≡ D.failed folders.old }
{
    if progress {
        folders.begin(task);
    }
}

/// The work is done: a last line reports the number of files that were put, if the words ask for it.
pub fn report_end<D: CountedFolders>(folders: &mut D, progress: bool)
    ensures puts { D.puts folders.new ≡ D.puts folders.old }
    ensures held { D.held folders.new ≡ D.held folders.old }
    ensures failed { D.failed folders.new ≡ D.failed folders.old }
{
    if progress {
        folders.end();
    }
}

/// Writes the line about the seconds that a command waited for a busy place, or a prefix of it if the stream fails. It writes
/// nothing if there was no wait, or if memory was refused.
///
/// ```text
/// print_waited(alloc, Task::Follow, 12, "log.example:80", env.errors); // follow: waited 12 s for log.example:80
/// ```
pub fn print_waited<W: Write>(alloc: Global, task: Task, seconds: u64, place: &str, errors: &mut W)
    ensures line { AppendsPrefix (W.contents errors.old) (W.contents errors.new)
        (line_of (waited_text task seconds place.now)) }
    ensures none { seconds ≡ 0 → W.contents errors.new ≡ W.contents errors.old }
{
    if seconds == 0 {
        return;
    }
    match waited_line(alloc, task, seconds, place) {
        Ok(line) => write_front(errors, &line),
        Err(_) => {}
    }
}
