//! Counts of files and bytes.
ghost use Rattle.std.specs.Prelude.{◌≡◌};

/// The number of files that were fetched or put, and of their bytes. Each stops at its last value, 2^64 - 1.
///
/// ```text
/// let mut counts = Counts::new();
/// counts.add(96); // Counts { files: 1, bytes: 96 }
/// ```
#[derive(Clone, Copy)]
pub struct Counts {
    /// The number of files.
    pub files: u64,
    /// The number of bytes of all files.
    pub bytes: u64,
}

impl Counts {
    ghost use Rattle.program_io.specs.ProgressText.{with_file};

    /// Counts of zero.
    pub fn new() -> Counts
        ensures files { result.files ≡ 0 }
        ensures bytes { result.bytes ≡ 0 }
    {
        Counts { files: 0, bytes: 0 }
    }

    /// Counts a file of `len` bytes.
    pub fn add(&mut self, len: usize)
        ensures { self.new ≡ with_file self.old len }
    {
        self.files = self.files.saturating_add(1);
        self.bytes = self.bytes.saturating_add(len as u64);
    }
}
