//! Files in memory.
ghost use Rattle.std.specs.Prelude.{◌≡◌, [], map, option_map, string_bytes};
ghost use Rattle.std.specs.Str.{bytes_eq};
ghost use Rattle.program_io.specs.Named.{contents_of};

use crate::file_fault::NamedFault;
use crate::named::{MAX_FILE_LEN, NamedFiles};
use std::alloc::Global;
use std::marker::Model;

/// Files in memory. They record what was put, and never fail. Contracts see them as the list of puts, the oldest first.
///
/// ```text
/// let mut files = MemoryFiles::new(alloc);
/// files.replace("a.state", &text)?;
/// run_notes::<Sha256Tree, _>(&mut files, alloc, "ex", &keys, "a.state", "notes")?;
/// files.puts() // a.state, then each note
/// ```
#[derive(Drop)]
pub struct MemoryFiles {
    puts: Vec<(String, Vec<u8>)>,
    alloc: Global,
}

impl Model for MemoryFiles {
    ghost use Rattle.std.specs.Prelude.{List, map, string_bytes};
    ghost use Rattle.program_io.specs.Named.{NamedFile};

    ghost Value = { List NamedFile };

    ghost view = { λ a. map (λ put. (string_bytes put.0, put.1.items)) a.puts.items };
}

impl MemoryFiles {
    /// No files. This allocates nothing.
    pub fn new(alloc: Global) -> Self
        ensures { result ≡ [] }
    {
        MemoryFiles {
            puts: Vec::new(alloc),
            alloc,
        }
    }

    /// The puts, the oldest first. This allocates nothing.
    pub fn puts(&self) -> &[(String, Vec<u8>)]
        ensures { map (λ put. (string_bytes put.0, put.1.items)) result.now ≡ self.now }
    {
        self.puts.as_slice()
    }
}

fn is_named(put: &(String, Vec<u8>), name: &str) -> bool
    ensures { result ≡ bytes_eq (string_bytes put.now.0) name.now }
{
    put.0.as_str() == name
}

// The bytes that were put last under the name.
fn bytes_under<'a>(puts: &'a [(String, Vec<u8>)], name: &str) -> Option<&'a [u8]>
    ensures { option_map (λ bytes. bytes.now) result
        ≡ contents_of (map (λ put. (string_bytes put.0, put.1.items)) puts.entry.now) name.now }
{
    let mut found: Option<&'a [u8]> = None;
    for put in puts {
        if is_named(put, name) {
            found = Some(put.1.as_slice());
        }
    }
    found
}

impl NamedFiles for MemoryFiles {
    ghost use Rattle.std.specs.Prelude.{Some};

    ghost puts = { λ s. Some s };

    fn read(&self, name: &str) -> Result<Vec<u8>, NamedFault> {
        match bytes_under(&self.puts, name) {
            Some(bytes) => {
                if bytes.len() > MAX_FILE_LEN {
                    return Err(NamedFault::FileFault);
                }
                match Vec::from_slice(self.alloc, bytes) {
                    Ok(copy) => Ok(copy),
                    Err(_) => Err(NamedFault::OutOfMemory),
                }
            }
            None => Err(NamedFault::FileFault),
        }
    }

    fn read_state(&self, name: &str) -> Result<Vec<u8>, NamedFault> {
        match bytes_under(&self.puts, name) {
            Some(bytes) => match Vec::from_slice(self.alloc, bytes) {
                Ok(copy) => Ok(copy),
                Err(_) => Err(NamedFault::OutOfMemory),
            },
            None => Err(NamedFault::FileFault),
        }
    }

    fn find(&self, name: &str) -> Result<Option<Vec<u8>>, NamedFault> {
        match bytes_under(&self.puts, name) {
            Some(bytes) => {
                if bytes.len() > MAX_FILE_LEN {
                    return Err(NamedFault::FileFault);
                }
                match Vec::from_slice(self.alloc, bytes) {
                    Ok(copy) => Ok(Some(copy)),
                    Err(_) => Err(NamedFault::OutOfMemory),
                }
            }
            None => Ok(None),
        }
    }

    fn replace(&mut self, name: &str, bytes: &[u8]) -> Result<(), NamedFault> {
        let Ok(name) = String::from_str(self.alloc, name) else {
            return Err(NamedFault::OutOfMemory);
        };
        let Ok(bytes) = Vec::from_slice(self.alloc, bytes) else {
            return Err(NamedFault::OutOfMemory);
        };
        match self.puts.push((name, bytes)) {
            Ok(()) => Ok(()),
            Err(_) => Err(NamedFault::OutOfMemory),
        }
    }

    fn make_folder(&mut self, _name: &str) -> Result<(), NamedFault> {
        Ok(())
    }

    fn put(&mut self, name: &str, bytes: &[u8]) -> Result<(), NamedFault> {
        self.replace(name, bytes)
    }

    fn flush(&mut self, _folder: &str) -> Result<(), NamedFault> {
        Ok(())
    }

    fn flush_file(&self, _name: &str) -> Result<(), NamedFault> {
        Ok(())
    }

    fn keep_reason(&self, _name: &str, _reason: String) {}
}
