//! The places of a run: folders and servers, with their names from the command line.
ghost use Rattle.std.specs.Prelude.{◌≡◌, ◌++◌, IfOk, false, string_bytes, true};

use crate::failing::{Failed, Failing};
use mirror_client::{Dial, FailedGet, HttpSource, Pace, Site};
use mirror_folders::{DirSource, FailedFile};
use mirror_sources::{Source, SourceFault};
use std::alloc::{AllocError, Global};
use std::fs::Files;
use std::marker::Model;
use tlog_tiles::Path;

// The files of a place.
#[derive(Drop)]
enum Kind<'a, R: Files, D: Dial + Drop> {
    Folder(OwnFolder<'a, R>),
    Server(HttpSource<D>),
}

// A folder as a source, whose path is its own. A place of the words would else borrow them.
#[derive(Drop)]
struct OwnFolder<'a, R: Files> {
    files: &'a R,
    path: String,
    last_failed: Option<FailedFile>,
}

impl<'a, R: Files> OwnFolder<'a, R> {
    // Gets the file from the folder.
    fn get(&mut self, alloc: Global, path: &Path) -> Result<Option<Vec<u8>>, SourceFault>
        ensures { self.new.path ≡ self.old.path }
    {
        let mut source = DirSource::new(self.files, alloc, &self.path);
        let answer = source.get(path);
        let failed = source.last_failed();
        drop(source);
        if failed.is_some() {
            self.last_failed = failed;
        }
        answer
    }
}

/// The reason why a get from a place failed.
#[derive(Drop, Clone, Copy)]
pub enum FailedAt {
    /// A file of a folder.
    File(FailedFile),
    /// A file of a server.
    Get(FailedGet),
}

/// The answer of a place to the request for its checkpoint.
#[derive(Drop)]
pub enum Answered {
    /// There was no request, or the get failed.
    Nothing,
    /// The place lacks a checkpoint.
    NotFound,
    /// The checkpoint's bytes.
    Note(Vec<u8>),
}

/// A place that keeps what `follow_why` reports about it. Functions over any such place are checked much faster than those over the
/// places of the system.
pub trait WatchedPlace: Source {
    /// The name of the place.
    fn name(&self) -> &str;

    /// The reason why its first get failed.
    fn first_failed(&self) -> Option<FailedAt>;

    /// Its first answer for the checkpoint.
    fn answered(&self) -> &Answered;

    /// The number of seconds that were waited for it while it was busy.
    fn waited(&self) -> u64;
}

/// A place of a run: a folder, or a server. It keeps its name, the reason why its first get failed, and its answer for the checkpoint.
/// `follow_why` needs these to report what was wrong at the place. Contracts see the name that its folder or server has, and its number of failures, and state nothing about
/// its answers.
///
/// ```text
/// places.add(PlaceSource::of_folder(&rt, alloc, "log")?)?;
/// places.add(PlaceSource::of_server(alloc, Site::new(alloc, "log.example:80", "/2026")?, dial, pace)?)?;
/// ```
#[derive(Drop)]
pub struct PlaceSource<'a, R: Files, D: Dial + Drop> {
    alloc: Global,
    // That of the folder; of a server its host with its port, and the prefix. For `--why`: contracts see the kind's own.
    name: String,
    kind: Kind<'a, R, D>,
    failures: u64,
    first_failed: Option<FailedAt>,
    answered: Answered,
}

impl<'a, R: Files, D: Dial + Drop> Model for PlaceSource<'a, R, D> {
    ghost use Rattle.program_io.specs.Places.{SeenPlace};
    ghost use Rattle.program_io.specs.PlaceKinds.{kind_name};

    ghost Value = { SeenPlace };

    ghost view = { λ a. record { name = kind_name a.kind; failures = a.failures } };
}

// The name of a server.
fn server_name(alloc: Global, site: &Site) -> Result<String, AllocError>
    ensures { IfOk result (λ name. string_bytes name ≡ site.now.host ++ site.now.prefix) }
{
    let host = site.host();
    let prefix = site.prefix();
    format!(in alloc; "{host}{prefix}")
}

impl<'a, R: Files, D: Dial + Drop> PlaceSource<'a, R, D> {
    /// The folder with that path as a place. No get failed yet.
    ///
    /// # Errors
    ///
    /// `AllocError`: memory was refused.
    pub fn of_folder(files: &'a R, alloc: Global, folder: &str) -> Result<Self, AllocError>
        ensures { IfOk result (λ place. place ≡ record {
          name = record {
            is_server = false;
            text = folder.now;
          };
          failures = 0;
        }) }
    {
        let name = String::from_str(alloc, folder)?;
        let kind = Kind::Folder(OwnFolder {
            files,
            path: String::from_str(alloc, folder)?,
            last_failed: None,
        });
        Ok(PlaceSource {
            alloc,
            name,
            kind,
            failures: 0,
            first_failed: None,
            answered: Answered::Nothing,
        })
    }

    /// The server of that site as a place, asked over connections that the dial opens, at that pace. No get failed yet.
    ///
    /// # Errors
    ///
    /// `AllocError`: memory was refused.
    pub fn of_server(alloc: Global, site: Site, dial: D, pace: Pace) -> Result<Self, AllocError>
        ensures { IfOk result (λ place. place ≡ record {
          name = record {
            is_server = true;
            text = site.host ++ site.prefix;
          };
          failures = 0;
        }) }
    {
        let name = server_name(alloc, &site)?;
        let kind = Kind::Server(HttpSource::new(alloc, site, dial, pace));
        Ok(PlaceSource {
            alloc,
            name,
            kind,
            failures: 0,
            first_failed: None,
            answered: Answered::Nothing,
        })
    }

    // Gets the file from the folder or the server.
    fn fetch(&mut self, path: &Path) -> Result<Option<Vec<u8>>, SourceFault>
        ensures { self.new ≡ self.old }
    {
        match &mut self.kind {
            Kind::Folder(folder) => folder.get(self.alloc, path),
            Kind::Server(source) => source.get(path),
        }
    }

    /// The reason why the last get failed; None if none failed, or if it was not kept.
    pub fn last_failed(&self) -> Option<FailedAt> {
        match &self.kind {
            Kind::Folder(folder) => match folder.last_failed {
                Some(failed) => Some(FailedAt::File(failed)),
                None => None,
            },
            Kind::Server(source) => match source.last_failed() {
                Some(failed) => Some(FailedAt::Get(failed)),
                None => None,
            },
        }
    }

    // Keeps the first answer for the checkpoint. If memory for it is refused, nothing is kept.
    fn keep_answer(&mut self, path: &Path, found: &Option<Vec<u8>>)
        ensures { self.new ≡ self.old }
    {
        if *path != Path::Checkpoint {
            return;
        }
        let Answered::Nothing = &self.answered else {
            return;
        };
        match found {
            None => self.answered = Answered::NotFound,
            Some(bytes) => match Vec::from_slice(self.alloc, bytes) {
                Ok(note) => self.answered = Answered::Note(note),
                Err(_) => {}
            },
        }
    }
}

impl<'a, R: Files, D: Dial + Drop> Source for PlaceSource<'a, R, D> {
    ghost failed = { λ s. s.failures };

    fn get(&mut self, path: &Path) -> Result<Option<Vec<u8>>, SourceFault> {
        match self.fetch(path) {
            Ok(found) => {
                self.keep_answer(path, &found);
                Ok(found)
            }
            Err(SourceFault::OutOfMemory) => Err(SourceFault::OutOfMemory),
            Err(SourceFault::Failed) => {
                self.failures = self.failures.saturating_add(1);
                if self.first_failed.is_none() {
                    self.first_failed = self.last_failed();
                }
                Err(SourceFault::Failed)
            }
        }
    }

    fn expect(&mut self, paths: &[Path]) {
        if let Kind::Server(source) = &mut self.kind {
            source.expect(paths);
        }
    }

    fn failures(&self) -> u64 {
        self.failures
    }

    fn reply_millis(&self) -> Option<u64> {
        match &self.kind {
            Kind::Folder(_) => Some(0),
            Kind::Server(source) => source.reply_millis(),
        }
    }
}

impl<'a, R: Files, D: Dial + Drop> WatchedPlace for PlaceSource<'a, R, D> {
    fn name(&self) -> &str {
        self.name.as_str()
    }

    fn first_failed(&self) -> Option<FailedAt> {
        self.first_failed
    }

    fn answered(&self) -> &Answered {
        &self.answered
    }

    fn waited(&self) -> u64 {
        match &self.kind {
            Kind::Folder(_) => 0,
            Kind::Server(source) => source.waited(),
        }
    }
}

impl<'a, R: Files, D: Dial + Drop> Failing for PlaceSource<'a, R, D> {
    fn last_failed(&self) -> Option<Failed> {
        match PlaceSource::last_failed(self) {
            Some(FailedAt::File(failed)) => Some(Failed::File(failed)),
            Some(FailedAt::Get(failed)) => Some(Failed::Get(failed)),
            None => None,
        }
    }
}
