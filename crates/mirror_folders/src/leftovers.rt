//! Temporary files of earlier runs.
use crate::place::name_of;
use crate::temporary::{stem_of, stem_of_temporary};
use std::alloc::{AllocError, Global};
use std::fs::Files;
use std::io::Read;
use std::time::{Duration, SystemTime};

// The number of seconds during which a temporary file is left alone, since a run may still write it.
const DAY: u64 = 86_400;

// The number of bytes of names that are read at a time.
const CHUNK: usize = 32_768;

// The temporary files that were found in a folder.
#[derive(Drop)]
pub(crate) struct Leftovers {
    pub(crate) folder: String,
    places: Vec<String>,
}

impl Leftovers {
    // Those of no folder. It takes no memory.
    pub(crate) fn none(alloc: Global) -> Leftovers {
        Leftovers {
            folder: String::new(alloc),
            places: Vec::new(alloc),
        }
    }

    // Those of a folder. A folder that cannot be read counts as one without temporary files.
    pub(crate) fn of<R: Files>(
        files: &R,
        alloc: Global,
        folder: &str,
    ) -> Result<Leftovers, AllocError> {
        let mut left = Leftovers {
            folder: String::from_str(alloc, folder)?,
            places: Vec::new(alloc),
        };
        match left.find(files, alloc) {
            Ok(()) => Ok(left),
            Err(e) => {
                drop(left);
                Err(e)
            }
        }
    }

    // Adds those of the folder.
    fn find<R: Files>(&mut self, files: &R, alloc: Global) -> Result<(), AllocError> {
        // The slash makes the system follow a link to a folder.
        let place = place_in(alloc, self.folder.as_str(), "")?;
        match files.open_dir(place.as_str()) {
            Ok(mut listing) => self.read(alloc, &mut listing),
            Err(_) => Ok(()),
        }
    }

    // Adds those of a folder's list, until a read fails.
    fn read<D: Read>(&mut self, alloc: Global, listing: &mut D) -> Result<(), AllocError> {
        let mut space = vec![in alloc; 0u8; CHUNK]?;
        for _ in 0..u64::MAX {
            match listing.read(&mut space) {
                Ok(0) | Err(_) => break,
                Ok(count) => self.add_all(alloc, &space[..count])?,
            }
        }
        Ok(())
    }

    // Adds those among names that each end with a NUL.
    fn add_all(&mut self, alloc: Global, listed: &[u8]) -> Result<(), AllocError> {
        for name in listed.split(|byte| *byte == 0) {
            if let Ok(name) = std::str::from_utf8(name) {
                self.add(alloc, name)?;
            }
        }
        Ok(())
    }

    // Adds a file, if its name is that of a temporary file.
    fn add(&mut self, alloc: Global, name: &str) -> Result<(), AllocError> {
        if stem_of_temporary(name).is_some() {
            let place = place_in(alloc, self.folder.as_str(), name)?;
            self.places.push(place)?;
        }
        Ok(())
    }

    // Removes those of a file that are older than a day, if the system allows it.
    pub(crate) fn take_away<R: Files>(&self, files: &R, path: &str, now: SystemTime) {
        for place in &self.places {
            if is_temporary_of(place, path) && is_old(files, place, now) {
                let _gone = files.remove_file(place);
            }
        }
    }
}

// The path of a file in a folder.
fn place_in(alloc: Global, folder: &str, name: &str) -> Result<String, AllocError> {
    format!(in alloc; "{folder}/{name}")
}

// Whether a temporary file is one of the file at a path in its folder.
fn is_temporary_of(place: &str, path: &str) -> bool {
    stem_of_temporary(name_of(place)) == Some(stem_of(path))
}

// Whether a plain file was last written more than a day before.
fn is_old<R: Files>(files: &R, place: &str, now: SystemTime) -> bool {
    let Ok(about) = files.symlink_metadata(place) else {
        return false;
    };
    let Ok(written) = about.modified() else {
        return false;
    };
    match now.duration_since(written) {
        Ok(age) => about.is_file() && age > Duration::from_secs(DAY),
        Err(_) => false,
    }
}
