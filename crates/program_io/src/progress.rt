//! Reports of long work, and their times.
ghost use Rattle.std.specs.Prelude.{◌≡◌, ◌↔◌, ℕ, List, None, Some, IfOk, IsTrue, OnErr, is_some, length, option_map};
ghost use Rattle.std.specs.Time.{instant_nanos};
ghost use Rattle.byte_streams.specs.Streams.{AppendsPrefix};
ghost use Rattle.program_io.specs.ProgressText.{with_file, line_of, grown_text, pulled_text};
ghost use Rattle.program_io.specs.ProgressView.{IsDue, IsSecondAfter, ReportsAt, ReportsOnce, printed_line};

use crate::counts::Counts;
use crate::line::{followed_line, progress_line, pulled_line};
use crate::task::Task;
use byte_streams::write_whole;
use mirror_folders::files_to_put;
use signed_note::Note;
use std::alloc::{AllocError, Global};
use std::io;
use std::io::Write;
use std::marker::Model;
use std::time::{Clock, Duration, Instant};
use tlog_checkpoint::read;
use tlog_tiles::Path;

// The least time in seconds between two lines, and before the first.
const SECONDS: u64 = 1;

/// Reports the progress of long work by lines: none in the first second, and then at most one each second.
///
/// It reports nothing before `begin`. A line is skipped if the clock cannot be read, if memory for it is refused, or if the
/// writer fails.
///
/// ```text
/// let mut progress = Progress::new(alloc, &rt, StandardError::new(&rt));
/// progress.begin(Task::Export);
/// progress.expect(7_833);
/// progress.count(96); // once a second has passed: export: 3,200 of 7,833 files
/// ```
#[derive(Drop)]
pub struct Progress<C: Clock + Drop, W: Write + Drop> {
    alloc: Global,
    clock: C,
    writer: W,
    task: Task,
    all: Option<u64>,
    counts: Counts,
    due: Option<Instant>,
    // Whether the last line reports the current counts.
    is_recorded_now: bool,
    // The length of the file that was read last.
    last_len: usize,
}

impl<C: Clock + Drop, W: Write + Drop> Model for Progress<C, W> {
    ghost use Rattle.std.specs.Prelude.{option_map};
    ghost use Rattle.std.specs.Time.{instant_nanos};
    ghost use Rattle.program_io.specs.ProgressView.{ProgressView};

    ghost Value = { ProgressView W };

    ghost view = { λ p. record { writer = p.writer; task = p.task; all = p.all; counts = p.counts; due = option_map instant_nanos p.due; last_len = p.last_len } };
}

// Whether a line may be written at that time.
fn is_due(due: Option<Instant>, now: Instant) -> bool
    ensures { IsTrue result ↔ IsDue (option_map instant_nanos due) (instant_nanos now) }
{
    match due {
        None => false,
        Some(due) => due.saturating_duration_since(now).is_zero(),
    }
}

// The time of the next line, if a line could be written or the work began at `now`.
fn next_due(now: Instant) -> Option<Instant>
    ensures { IsSecondAfter (instant_nanos now) (option_map instant_nanos result) }
{
    now.checked_add(Duration::from_secs(SECONDS))
}

// The time of the first line, by the answer of the clock when the work began.
fn first_due(begun: &io::Result<Instant>) -> Option<Instant>
    ensures second { IfOk begun.now (λ now. IsSecondAfter (instant_nanos now)
        (option_map instant_nanos result)) }
    ensures none { OnErr begun.now (result ≡ None) }
{
    match begun {
        Ok(now) => next_due(*now),
        Err(_) => None,
    }
}

// Writes a line, until the writer fails.
fn write_line<W: Write>(writer: &mut W, line: &[u8])
    ensures { AppendsPrefix (W.contents writer.old) (W.contents writer.new) line.now }
{
    match write_whole(writer, line) {
        Ok(()) | Err(_) => (),
    }
}

// Writes a line, unless memory for it was refused.
fn write_made<W: Write>(writer: &mut W, made: Result<Vec<u8>, AllocError>)
    ensures { (text : List ℕ) → IfOk made (λ line. line.items ≡ text)
        → AppendsPrefix (W.contents writer.old) (W.contents writer.new) text }
{
    match made {
        Ok(line) => write_line(writer, &line),
        Err(_) => {}
    }
}

// The number of entries of the checkpoint in a note, or None if the bytes are not such a note or memory was refused.
fn log_size(alloc: Global, note: &[u8]) -> Option<u64> {
    let Ok(note) = Note::read(alloc, note) else {
        return None;
    };
    let Ok(checkpoint) = read(alloc, note.text()) else {
        return None;
    };
    Some(checkpoint.size)
}

// The number of all files that a command reads, by the note of its checkpoint: a repair does not count the checkpoint itself. None: another
// command, or the bytes are no such note, or memory was refused.
fn files_under(alloc: Global, task: Task, note: &[u8]) -> Option<u64> {
    match task {
        Task::Audit => Some(files_to_put(log_size(alloc, note)?, 0)),
        Task::Repair => Some(files_to_put(log_size(alloc, note)?, 0).saturating_sub(1)),
        _ => None,
    }
}

impl<C: Clock + Drop, W: Write + Drop> Progress<C, W> {
    /// A `Progress` that reports nothing yet. The call allocates no memory.
    pub fn new(alloc: Global, clock: C, writer: W) -> Self
        ensures writer { result.writer ≡ writer }
        ensures silent { result.due ≡ None }
        ensures files { result.counts.files ≡ 0 }
        ensures bytes { result.counts.bytes ≡ 0 }
    {
        Progress {
            alloc,
            clock,
            writer,
            task: Task::Pull,
            all: None,
            counts: Counts::new(),
            due: None,
            is_recorded_now: false,
            last_len: 0,
        }
    }

    /// Begins to report the work of a command, from zero.
    pub fn begin(&mut self, task: Task)
        ensures task { self.new.task ≡ task }
        ensures all { self.new.all ≡ None }
        ensures files { self.new.counts.files ≡ 0 }
        ensures bytes { self.new.counts.bytes ≡ 0 }
        ensures writer { self.new.writer ≡ self.old.writer }
    {
        self.task = task;
        self.all = None;
        self.counts = Counts::new();
        self.due = first_due(&Instant::now(&self.clock));
        self.is_recorded_now = false;
    }

    /// Whether anything is reported: from `begin` on, if the clock can be read.
    pub fn is_recorded(&self) -> bool
        ensures { result ≡ is_some self.now.due }
    {
        self.due.is_some()
    }

    /// Sets the number of all files of the work.
    pub fn expect(&mut self, all: u64)
        ensures { self.new ≡ record self.old { all = Some all } }
    {
        self.all = Some(all);
        self.is_recorded_now = false;
    }

    /// Records that an audit or a repair read a file. If it is the checkpoint, the number of all files is set to the number of files of
    /// its log; a repair leaves out the checkpoint. For another command, or bytes that are not the note of a checkpoint, that number stays.
    /// The file's length is kept for `count_true`.
    pub fn expect_log(&mut self, path: &Path, bytes: &[u8])
        ensures counts { self.new.counts ≡ self.old.counts }
        ensures last { self.new.last_len ≡ length bytes.now }
        ensures task { self.new.task ≡ self.old.task }
        ensures due { self.new.due ≡ self.old.due }
        ensures writer { self.new.writer ≡ self.old.writer }
    {
        self.last_len = bytes.len();
        if *path != Path::Checkpoint {
            return;
        }
        match files_under(self.alloc, self.task, bytes) {
            Some(all) => self.expect(all),
            None => {}
        }
    }

    /// The counts of the work done.
    pub fn counts(&self) -> Counts
        ensures { result ≡ self.now.counts }
    {
        self.counts
    }

    /// Counts a file of `len` bytes, and writes a line if it is time.
    pub fn count(&mut self, len: usize)
        ensures counted { self.new.counts ≡ with_file self.old.counts len }
        ensures recorded { ReportsOnce W.contents self.old self.new }
    {
        self.counts.add(len);
        self.is_recorded_now = false;
        if !self.is_recorded() {
            return;
        }
        match Instant::now(&self.clock) {
            Ok(now) => self.report_at(now),
            Err(_) => {}
        }
    }

    /// Counts the file that was read last, which is true, and writes a line if it is time.
    pub fn count_true(&mut self)
        ensures counted { self.new.counts ≡ with_file self.old.counts self.old.last_len }
        ensures recorded { ReportsOnce W.contents self.old self.new }
    {
        self.count(self.last_len);
    }

    /// Reports the result of a pull, at any time: from the size of the largest checkpoint that was held to the size of the
    /// pulled one, or that this one is older.
    pub fn report_pulled(&mut self, held: u64, size: u64)
        ensures counts { self.new.counts ≡ self.old.counts }
        ensures line { AppendsPrefix (W.contents self.old.writer) (W.contents self.new.writer)
            (line_of (pulled_text held size self.old.counts)) }
    {
        let line = pulled_line(self.alloc, held, size, self.counts);
        write_made(&mut self.writer, line);
    }

    /// Reports the result of following, at any time: the sizes between which the copy grew.
    pub fn report_followed(&mut self, old: u64, size: u64)
        ensures counts { self.new.counts ≡ self.old.counts }
        ensures line { AppendsPrefix (W.contents self.old.writer) (W.contents self.new.writer)
            (line_of (grown_text Task.Follow old size self.old.counts)) }
    {
        let line = followed_line(self.alloc, old, size, self.counts);
        write_made(&mut self.writer, line);
    }

    /// Reports the counts, at any time, unless the last line did so.
    ///
    /// ```text
    /// progress.report_done(); // export: 7,833 of 7,833 files
    /// ```
    pub fn report_done(&mut self)
        ensures counts { self.new.counts ≡ self.old.counts }
        ensures line { AppendsPrefix (W.contents self.old.writer) (W.contents self.new.writer)
            (printed_line self.old) }
    {
        if self.is_recorded_now {
            return;
        }
        let line = progress_line(self.alloc, self.task, self.all, self.counts);
        write_made(&mut self.writer, line);
    }

    // Reports the counts, if it is time.
    fn report_at(&mut self, now: Instant)
        ensures { ReportsAt W.contents (instant_nanos now) self.old self.new }
    {
        if !is_due(self.due, now) {
            return;
        }
        self.due = next_due(now);
        self.is_recorded_now = true;
        let line = progress_line(self.alloc, self.task, self.all, self.counts);
        write_made(&mut self.writer, line);
    }
}
