//! The lines that report progress.
ghost use Rattle.std.specs.Prelude.{◌≡◌, ◌∷◌, ◌++◌, IfOk, OnOk, true};
ghost use Rattle.program_io.specs.ProgressText.{comma_before, with_commas, count_text, files_text, size_text, task_text, counts_text, bytes_text, share_text, progress_text, older_text, grown_text, pulled_text, waited_text, line_of, are_printed, IsLine};

use crate::counts::Counts;
use crate::task::Task;
use std::alloc::{AllocError, Global};

// The greatest number of columns of a line.
const COLUMNS: usize = 79;

/// The progress of a command, as one line of at most 80 bytes with its newline. The line has the number of files that were
/// fetched or put, and the number of all files if it is known. If it is not known, and for follows, repairs and audits, the line
/// also has the bytes of those files. They are in the largest decimal unit that gives at least 1, rounded down.
///
/// ```text
/// progress_line(alloc, Task::Pull, None, counts)           // pull: 1,024 files, 23 MB
/// progress_line(alloc, Task::Export, Some(7_833), counts)  // export: 3,200 of 7,833 files
/// progress_line(alloc, Task::Follow, Some(7_832), counts)  // follow: 1,024 of 7,832 files, 23 MB
/// ```
///
/// # Errors
///
/// Memory was refused.
pub fn progress_line(
    alloc: Global,
    task: Task,
    all: Option<u64>,
    counts: Counts,
) -> Result<Vec<u8>, AllocError>
    ensures text { IfOk result (λ line. line.items ≡ line_of (progress_text task all counts)) }
    ensures line { IfOk result (λ line. IsLine line.items) }
{
    let mut line = Vec::new(alloc);
    push_progress(alloc, &mut line, task, all, counts)?;
    end_line(&mut line)?;
    Ok(line)
}

/// The result of a pull, as such a line. `held` is the number of entries of the largest checkpoint that was held before (0
/// without one), and `size` that of the pulled checkpoint.
///
/// ```text
/// pulled_line(alloc, 5_000, 5_300, counts)  // pull: 5,000 to 5,300 entries, 4 files, 91 kB
/// pulled_line(alloc, 5_300, 5_000, counts)  // pull: checkpoint of 5,000 entries, older than one held of 5,300
/// ```
///
/// # Errors
///
/// Memory was refused.
pub fn pulled_line(
    alloc: Global,
    held: u64,
    size: u64,
    counts: Counts,
) -> Result<Vec<u8>, AllocError>
    ensures text { IfOk result (λ line. line.items ≡ line_of (pulled_text held size counts)) }
    ensures line { IfOk result (λ line. IsLine line.items) }
{
    let mut line = Vec::new(alloc);
    push_pulled(alloc, &mut line, held, size, counts)?;
    end_line(&mut line)?;
    Ok(line)
}

/// The result of following, as such a line: the sizes between which the copy grew, and the number of files that were put.
///
/// ```text
/// followed_line(alloc, 5_000, 5_300, counts)  // follow: 5,000 to 5,300 entries, 4 files, 91 kB
/// ```
///
/// # Errors
///
/// Memory was refused.
pub fn followed_line(
    alloc: Global,
    old: u64,
    size: u64,
    counts: Counts,
) -> Result<Vec<u8>, AllocError>
    ensures text { IfOk result
        (λ line. line.items ≡ line_of (grown_text Task.Follow old size counts)) }
    ensures line { IfOk result (λ line. IsLine line.items) }
{
    let mut line = Vec::new(alloc);
    push_grown(alloc, &mut line, Task::Follow, old, size, counts)?;
    end_line(&mut line)?;
    Ok(line)
}

/// The number of seconds that a command waited for a busy place, as a line of at most 80 bytes with its newline. The name of the
/// place is as it is given, and cut off if the line would be longer. Names of servers have only printed characters.
///
/// ```text
/// waited_line(alloc, Task::Follow, 1_200, "log.example:80/2026")  // follow: waited 1,200 s for log.example:80/2026
/// ```
///
/// # Errors
///
/// Memory was refused.
pub fn waited_line(
    alloc: Global,
    task: Task,
    seconds: u64,
    place: &str,
) -> Result<Vec<u8>, AllocError>
    ensures text { IfOk result
        (λ line. line.items ≡ line_of (waited_text task seconds place.now)) }
    ensures line { are_printed place.now ≡ true → IfOk result (λ line. IsLine line.items) }
{
    let mut line = Vec::new(alloc);
    push_waited(alloc, &mut line, task, seconds, place)?;
    end_line(&mut line)?;
    Ok(line)
}

// Cuts a text to the length of a line, and ends it with a newline.
fn end_line(text: &mut Vec<u8>) -> Result<(), AllocError>
    ensures { OnOk result (text.new.items ≡ line_of text.old.items) }
{
    text.truncate(COLUMNS);
    text.push(b'\n')?;
    Ok(())
}

fn push_progress(
    alloc: Global,
    text: &mut Vec<u8>,
    task: Task,
    all: Option<u64>,
    counts: Counts,
) -> Result<(), AllocError>
    ensures { OnOk result (text.new.items ≡ text.old.items ++ progress_text task all counts) }
{
    push_task(text, task)?;
    match all {
        None => push_counts(alloc, text, counts),
        Some(all) => push_share(alloc, text, task, all, counts),
    }
}

// The number of files done and of all files, and for some commands their bytes.
fn push_share(
    alloc: Global,
    text: &mut Vec<u8>,
    task: Task,
    all: u64,
    counts: Counts,
) -> Result<(), AllocError>
    ensures { OnOk result (text.new.items ≡ text.old.items ++ share_text task all counts) }
{
    push_count(alloc, text, counts.files)?;
    text.extend_from_slice(b" of ")?;
    push_files(alloc, text, all)?;
    push_bytes(alloc, text, task, counts.bytes)
}

// The bytes of the files, for a command whose line has them.
fn push_bytes(alloc: Global, text: &mut Vec<u8>, task: Task, bytes: u64) -> Result<(), AllocError>
    ensures { OnOk result (text.new.items ≡ text.old.items ++ bytes_text task bytes) }
{
    match task {
        Task::Build | Task::Pull | Task::Export => Ok(()),
        Task::Follow | Task::Repair | Task::Audit => {
            text.extend_from_slice(b", ")?;
            push_size(alloc, text, bytes)
        }
    }
}

fn push_pulled(
    alloc: Global,
    text: &mut Vec<u8>,
    held: u64,
    size: u64,
    counts: Counts,
) -> Result<(), AllocError>
    ensures { OnOk result (text.new.items ≡ text.old.items ++ pulled_text held size counts) }
{
    if size < held {
        push_older(alloc, text, size, held)
    } else {
        push_grown(alloc, text, Task::Pull, held, size, counts)
    }
}

// The checkpoint is older than one that is held.
fn push_older(alloc: Global, text: &mut Vec<u8>, size: u64, held: u64) -> Result<(), AllocError>
    ensures { OnOk result (text.new.items ≡ text.old.items ++ older_text size held) }
{
    text.extend_from_slice(b"pull: checkpoint of ")?;
    push_count(alloc, text, size)?;
    text.extend_from_slice(b" entries, older than one held of ")?;
    push_count(alloc, text, held)
}

// The sizes between which a command grew a log, and how much it fetched or put.
fn push_grown(
    alloc: Global,
    text: &mut Vec<u8>,
    task: Task,
    held: u64,
    size: u64,
    counts: Counts,
) -> Result<(), AllocError>
    ensures { OnOk result (text.new.items ≡ text.old.items ++ grown_text task held size counts) }
{
    push_task(text, task)?;
    push_count(alloc, text, held)?;
    text.extend_from_slice(b" to ")?;
    push_count(alloc, text, size)?;
    text.extend_from_slice(b" entries, ")?;
    push_counts(alloc, text, counts)
}

// How long a command waited, and for which place.
fn push_waited(
    alloc: Global,
    text: &mut Vec<u8>,
    task: Task,
    seconds: u64,
    place: &str,
) -> Result<(), AllocError>
    ensures { OnOk result (text.new.items ≡ text.old.items ++ waited_text task seconds place.now) }
{
    push_task(text, task)?;
    text.extend_from_slice(b"waited ")?;
    push_amount(alloc, text, seconds, b" s for ")?;
    text.extend_from_slice(place.as_bytes())
}

fn push_task(text: &mut Vec<u8>, task: Task) -> Result<(), AllocError>
    ensures { OnOk result (text.new.items ≡ text.old.items ++ task_text task) }
{
    match task {
        Task::Build => text.extend_from_slice(b"build: "),
        Task::Pull => text.extend_from_slice(b"pull: "),
        Task::Export => text.extend_from_slice(b"export: "),
        Task::Follow => text.extend_from_slice(b"follow: "),
        Task::Repair => text.extend_from_slice(b"repair: "),
        Task::Audit => text.extend_from_slice(b"audit: "),
    }
}

// The number of files, and their bytes.
fn push_counts(alloc: Global, text: &mut Vec<u8>, counts: Counts) -> Result<(), AllocError>
    ensures { OnOk result (text.new.items ≡ text.old.items ++ counts_text counts) }
{
    push_files(alloc, text, counts.files)?;
    text.extend_from_slice(b", ")?;
    push_size(alloc, text, counts.bytes)
}

fn push_files(alloc: Global, text: &mut Vec<u8>, n: u64) -> Result<(), AllocError>
    ensures { OnOk result (text.new.items ≡ text.old.items ++ files_text n) }
{
    if n == 1 {
        text.extend_from_slice(b"1 file")
    } else {
        push_amount(alloc, text, n, b" files")
    }
}

// A number of bytes, in the largest unit that gives at least 1.
fn push_size(alloc: Global, text: &mut Vec<u8>, n: u64) -> Result<(), AllocError>
    ensures { OnOk result (text.new.items ≡ text.old.items ++ size_text n) }
{
    if n < 1_000 {
        push_amount(alloc, text, n, b" B")
    } else if n < 1_000_000 {
        push_amount(alloc, text, n / 1_000, b" kB")
    } else if n < 1_000_000_000 {
        push_amount(alloc, text, n / 1_000_000, b" MB")
    } else if n < 1_000_000_000_000 {
        push_amount(alloc, text, n / 1_000_000_000, b" GB")
    } else {
        push_amount(alloc, text, n / 1_000_000_000_000, b" TB")
    }
}

// A number and its unit.
fn push_amount(alloc: Global, text: &mut Vec<u8>, n: u64, unit: &[u8]) -> Result<(), AllocError>
    ensures { OnOk result (text.new.items ≡ text.old.items ++ (count_text n ++ unit.now)) }
{
    push_count(alloc, text, n)?;
    text.extend_from_slice(unit)
}

// A number in decimal digits, in groups of three.
fn push_count(alloc: Global, text: &mut Vec<u8>, n: u64) -> Result<(), AllocError>
    ensures { OnOk result (text.new.items ≡ text.old.items ++ count_text n) }
{
    let digits = format!(in alloc; "{n}")?;
    push_with_commas(text, digits.as_bytes())
}

#[tactic(auto, using(crate::proofs::Commas::commas_more))]
fn push_with_commas(text: &mut Vec<u8>, digits: &[u8]) -> Result<(), AllocError>
    ensures { OnOk result (text.new.items ≡ text.old.items ++ with_commas digits.now) }
{
    let mut rest = digits;
    while let Some((digit, after)) = rest.split_first() {
        push_digit(text, *digit, after.len())?;
        rest = after;
    }
    Ok(())
}

// A digit with `left` more digits after it, and the comma after it if there is one.
fn push_digit(text: &mut Vec<u8>, digit: u8, left: usize) -> Result<(), AllocError>
    ensures { OnOk result (text.new.items ≡ text.old.items ++ digit ∷ comma_before left) }
{
    text.push(digit)?;
    if left > 0 && left % 3 == 0 {
        text.push(b',')?;
    }
    Ok(())
}
