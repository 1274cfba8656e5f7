//! Files by their names, as the commands see them.
use crate::file_fault::NamedFault;
use tlog_tiles::MAX_BUNDLE_LEN;

/// The greatest length of a named file in bytes; only a state may be longer. It is the length of the longest valid entry
/// bundle: 256 entries of 65,535 bytes, each after its length of two bytes.
pub const MAX_FILE_LEN: usize = MAX_BUNDLE_LEN;

/// Files that are read and replaced by their names.
///
/// Files that record what was put have no faults of their own. A read of them fails only if there is no such file, the file is
/// too long, or memory was refused.
pub trait NamedFiles {
    ghost use Rattle.std.specs.Prelude.{◌≡◌, ◌≤◌, Option, List, None, IfOk, option_map, vec_len};
    ghost use Rattle.tlog_text.specs.Answers.{seen};
    ghost use Rattle.program_io.specs.Named.{NamedFile};
    ghost use Rattle.program_io.specs.Named.{FindsFile, ReadsFile, ReadsShort, RecordsFolder, RecordsReplace};
    ghost use Rattle.program_io.specs.declared.named.TheConstants.{MAX_FILE_LEN};

    /// The puts, the oldest first, if they are recorded. The bytes of a file are those that were put last under its name.
    ghost puts: { Self → Option (List NamedFile) } = { λ _. None };

    /// The bytes of the file of that name.
    ///
    /// # Errors
    ///
    /// `FileFault` if it cannot be read, or has more than 16,777,472 bytes. `OutOfMemory` if memory was refused.
    fn read(&self, name: &str) -> Result<Vec<u8>, NamedFault>
        ensures bytes { ReadsShort (puts self.now) name.now (seen (λ bytes. bytes.items) result) }
        ensures short { IfOk result (λ bytes. vec_len bytes ≤ MAX_FILE_LEN) };

    /// The bytes of the file of a state. Their number has no limit.
    ///
    /// # Errors
    ///
    /// `FileFault` if it cannot be read. `OutOfMemory` if memory was refused.
    fn read_state(&self, name: &str) -> Result<Vec<u8>, NamedFault>
        ensures { ReadsFile (puts self.now) name.now (seen (λ bytes. bytes.items) result) };

    /// The bytes of the plain file of that name, or None if nothing has that name.
    ///
    /// # Errors
    ///
    /// `FileFault` if the name is of something else than a plain file, or if the file cannot be read or has more than
    /// 16,777,472 bytes. `OutOfMemory` if memory was refused.
    fn find(&self, name: &str) -> Result<Option<Vec<u8>>, NamedFault>
        ensures { FindsFile (puts self.now) name.now
            (seen (option_map (λ bytes. bytes.items)) result) };

    /// Replaces the complete file of that name, or makes it.
    ///
    /// # Errors
    ///
    /// `FileFault` if it cannot be written, `OutOfMemory` if memory was refused. Then a plain file is unchanged.
    fn replace(&mut self, name: &str, bytes: &[u8]) -> Result<(), NamedFault>
        ensures { RecordsReplace (puts self.old) (puts self.new) (name.now, bytes.now) result };

    /// Makes the folder of that name if it is missing, and opens it for `put`.
    ///
    /// # Errors
    ///
    /// `FileFault` if it cannot be made. `OutOfMemory` if memory was refused.
    fn make_folder(&mut self, name: &str) -> Result<(), NamedFault>
        ensures made { RecordsFolder (puts self.old) result }
        ensures same { puts self.new ≡ puts self.old };

    /// Puts the file of that name into the folder that was made last, as `replace` does. `flush` flushes it.
    ///
    /// # Errors
    ///
    /// Those of `replace`.
    fn put(&mut self, name: &str, bytes: &[u8]) -> Result<(), NamedFault>
        ensures { RecordsReplace (puts self.old) (puts self.new) (name.now, bytes.now) result };

    /// Flushes to the device the files that were put into the folder of that name since it was made, and the folder. The folders above
    /// are flushed if the system allows it, since the folder may be new there.
    ///
    /// # Errors
    ///
    /// `FileFault` if the folder cannot be flushed, `OutOfMemory` if memory was refused. The files that were put remain.
    fn flush(&mut self, folder: &str) -> Result<(), NamedFault>
        ensures flushed { RecordsFolder (puts self.old) result }
        ensures same { puts self.new ≡ puts self.old };

    /// Flushes to the device the file of that name, which was found. It need not have been put.
    ///
    /// # Errors
    ///
    /// `FileFault` if it cannot be flushed, `OutOfMemory` if memory was refused. The file remains.
    fn flush_file(&self, name: &str) -> Result<(), NamedFault>
        ensures { RecordsFolder (puts self.now) result };

    /// Says what is wrong with the bytes of the file of that name, which was read. The text is empty if no more is known. Files that
    /// report to people keep it. Contracts see nothing of it.
    fn keep_reason(&self, name: &str, reason: String);
}
