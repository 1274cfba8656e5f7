//! The folders of the system.
use mirror_folders::DirShelf;
use program_io::{CountingShelf, Progress, StandardError};
use std::alloc::Global;
use std::fs::Files;
use std::rt::Clock;

/// The folders of the system. They can report on standard error how many files were put.
///
/// ```text
/// let folders = system_folders(&rt, alloc);
/// ```
pub fn system_folders<'a, R: Files + Clock + Eprint>(
    rt: &'a R,
    alloc: Global,
) -> CountingShelf<DirShelf<'a, R>, &'a R, StandardError<'a, R>> {
    let progress = Progress::new(alloc, rt, StandardError::new(rt));
    CountingShelf::new(DirShelf::new(rt, alloc, "."), progress)
}
