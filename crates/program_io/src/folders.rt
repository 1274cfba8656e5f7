//! Folders that may report the progress of long work.
use crate::task::Task;
use mirror_folders::{MemShelf, NamedFolders};

/// Folders with names that may report how many files were put. A `CountingShelf` reports it. For other folders, these calls
/// do nothing.
///
/// ```text
/// folders.begin(Task::Export);
/// folders.expect(7_833);
/// folders.open("log")?;
/// folders.put(&path, bytes)?; // once a second has passed: export: 3,200 of 7,833 files
/// folders.end();              // export: 7,833 of 7,833 files
/// ```
pub trait CountedFolders: NamedFolders {
    ghost use Rattle.std.specs.Prelude.{◌≡◌};

    /// From now on, a line from time to time reports how many files were put, under the name of that command.
    fn begin(&mut self, _task: Task)
        ensures puts { Self.puts self.new ≡ Self.puts self.old }
        ensures held { Self.held self.new ≡ Self.held self.old }
        ensures failed { Self.failed self.new ≡ Self.failed self.old }
    {}

    /// The work is done. A line reports how many files were put, unless the last line did so.
    fn end(&mut self)
        ensures puts { Self.puts self.new ≡ Self.puts self.old }
        ensures held { Self.held self.new ≡ Self.held self.old }
        ensures failed { Self.failed self.new ≡ Self.failed self.old }
    {}

    /// A copy was followed. A line reports from which size to which size it grew, and how many files were put.
    fn end_followed(&mut self, _old: u64, _size: u64)
        ensures puts { Self.puts self.new ≡ Self.puts self.old }
        ensures held { Self.held self.new ≡ Self.held self.old }
        ensures failed { Self.failed self.new ≡ Self.failed self.old }
    {}
}

// A shelf in memory reports nothing.
impl CountedFolders for MemShelf {}
