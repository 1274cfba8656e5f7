//! The folder of a copy, which one run at a time holds.
use std::alloc::Global;
use std::fs::{File, Files, OpenOptions, TryLockError};
use std::io::ErrorKind;
use std::{fs, io};

/// Why a folder is not held.
#[derive(Debug, Drop, Clone, Copy)]
pub enum HoldFault {
    /// Another run holds it.
    CopyInUse,
    /// Memory was refused.
    OutOfMemory,
}

/// Holds the folder of a copy, so that one run at a time works on it. Contracts see nothing of it.
pub trait Hold {
    /// Holds the folder with that name until this value is dropped, or the process ends. The folder is made first if it is missing. This does
    /// not wait.
    ///
    /// # Errors
    ///
    /// `CopyInUse`: another run holds it. `OutOfMemory`: memory was refused.
    fn hold(&mut self, folder: &str) -> Result<(), HoldFault>;
}

/// Holds no folder: for one that no other run sees, as a folder in memory.
#[derive(Drop, Clone, Copy)]
pub struct NoHold;

impl Hold for NoHold {
    fn hold(&mut self, _folder: &str) -> Result<(), HoldFault> {
        Ok(())
    }
}

/// Holds a folder by an exclusive lock of the system. If the system locks no folder, it locks the file `.tlogmirror.lock` in it. If it does not
/// lock that either, other runs are not kept out, and `unlocked` has the reason. Whoever may read a folder may hold it.
///
/// ```text
/// let mut hold = SystemHold::new(&rt, alloc);
/// hold.hold("log")?;   // from now on another run gets CopyInUse
/// drop(hold);
/// ```
#[derive(Drop)]
pub struct SystemHold<'a, R: Files<File = File>> {
    files: &'a R,
    alloc: Global,
    held: Option<File>,
    unlocked: Option<io::Error>,
}

impl<'a, R: Files<File = File>> SystemHold<'a, R> {
    /// Holds no folder yet.
    pub fn new(files: &'a R, alloc: Global) -> Self {
        SystemHold {
            files,
            alloc,
            held: None,
            unlocked: None,
        }
    }

    /// The reason why the system did not lock the folder. None: it did, or it was not asked to.
    pub fn unlocked(&self) -> Option<&io::Error> {
        self.unlocked.as_ref()
    }

    // Keeps the lock, or the reason why there is none.
    fn keep(&mut self, locked: Result<File, TryLockError>) -> Result<(), HoldFault> {
        match locked {
            Ok(file) => {
                self.held = Some(file);
                Ok(())
            }
            Err(TryLockError::WouldBlock) => Err(HoldFault::CopyInUse),
            Err(TryLockError::Error(error)) => {
                self.unlocked = Some(error);
                Ok(())
            }
        }
    }
}

impl<'a, R: Files<File = File>> Hold for SystemHold<'a, R> {
    fn hold(&mut self, folder: &str) -> Result<(), HoldFault> {
        match lock_folder(self.files, folder) {
            // Some file systems, as NFS, lock nothing that is open only for reading.
            Err(TryLockError::Error(error)) => {
                if folder.is_empty() {
                    return self.keep(Err(TryLockError::Error(error)));
                }
                let Ok(place) = format!(in self.alloc; "{folder}/.tlogmirror.lock") else {
                    return Err(HoldFault::OutOfMemory);
                };
                let locked = lock_file(self.files, &place);
                self.keep(locked)
            }
            locked => self.keep(locked),
        }
    }
}

// Locks a folder, and makes it first if it is missing.
fn lock_folder<R: Files<File = File>>(files: &R, folder: &str) -> Result<File, TryLockError> {
    match fs::create_dir_all(files, folder) {
        Ok(()) => locked(File::open(files, folder)),
        Err(error) => Err(TryLockError::Error(error)),
    }
}

// Locks a file, and makes it first if it is missing.
fn lock_file<R: Files<File = File>>(files: &R, place: &str) -> Result<File, TryLockError> {
    locked(
        OpenOptions::new()
            .write(true)
            .create(true)
            .open(files, place),
    )
}

// Locks what was opened, without waiting.
fn locked(opened: io::Result<File>) -> Result<File, TryLockError> {
    match opened {
        Ok(file) => match file.try_lock() {
            Ok(()) => Ok(file),
            Err(error) => Err(error),
        },
        Err(error) => Err(TryLockError::Error(error)),
    }
}
