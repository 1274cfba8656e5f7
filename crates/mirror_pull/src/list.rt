//! A source over a list of entries.
ghost use Rattle.std.specs.Prelude.{◌≡◌, [], map, IfOk, option_map};
ghost use Rattle.signed_note.specs.KeyKinds.{secret_key};
ghost use Rattle.mirror_model.specs.Origin.{IsOrigin};
ghost use Rattle.mirror_model.specs.TrueLaws.{AreShort};
ghost use Rattle.mirror_pull.specs.ListSource.{IsListAnswer, IsHonestAnywhere};

use crate::head::head_note;
use mirror_sources::{Source, SourceFault};
use signed_note::HmacKey;
use std::alloc::{AllocError, Global};
use std::marker::Model;
use tlog_hash::TreeHash;
use tlog_tiles::{LogFiles, Path};

/// A log of a list of entries, held in memory. This source is honest, never fails, and records which paths were requested.
///
/// Its answer for a path within the list is the file that a log of these entries serves (C2SP tlog-tiles). Its checkpoint is
/// a note of the whole list, signed by its key. The answer for any other path is None. `new` hashes each entry once, and
/// `get` copies bytes from memory.
///
/// ```text
/// let key = HmacKey::new(alloc, "ex", 1, &[0])?;
/// let mut source: ListSource<Sha256Tree> = ListSource::new(alloc, "ex", entries, key)?;
/// source.get(&Path::Tile { level: 0, index: 0, width: 3 })?  // the leaf hashes of the first three
/// ```
#[derive(Drop)]
pub struct ListSource<H: TreeHash> {
    alloc: Global,
    files: LogFiles<H>,
    note: Vec<u8>,
    asked: Vec<Path>,
}

impl<H: TreeHash> Model for ListSource<H> {
    ghost use Rattle.mirror_pull.specs.ListSource.{AskedLog};

    ghost Value = { AskedLog };

    ghost view = { λ a. record { entries = a.files; note = a.note.items; asked = a.asked.items } };
}

impl<H: TreeHash> ListSource<H> {
    /// A source over those entries; the key signs its checkpoint.
    ///
    /// The origin has 1 to 65,535 bytes and no character below U+0020. Each entry has at most 65,535 bytes.
    ///
    /// # Errors
    ///
    /// Memory was refused.
    pub fn new(
        alloc: Global,
        origin: &str,
        entries: Vec<Vec<u8>>,
        key: HmacKey,
    ) -> Result<ListSource<H>, AllocError>
        requires origin { IsOrigin origin.now }
        requires short { AreShort (map (λ e. e.items) entries.items) }
        ensures entries { IfOk result (λ source. source.entries
            ≡ map (λ e. e.items) entries.items) }
        ensures honest { IfOk result (λ source. IsHonestAnywhere H.digest source.entries origin.now
            (secret_key key) source.note) }
        ensures unasked { IfOk result (λ source. source.asked ≡ []) }
    {
        let lent = lent_entries(alloc, &entries)?;
        let files: LogFiles<H> = LogFiles::new(alloc, &lent)?;
        let note = head_note(alloc, origin, files.size(), &files.root(), &key)?;
        Ok(ListSource {
            alloc,
            files,
            note,
            asked: Vec::new(alloc),
        })
    }

    /// The paths that were requested, oldest first. The call allocates no memory.
    pub fn asked(&self) -> &[Path]
        ensures { result.now ≡ self.now.asked }
    {
        &self.asked
    }

    /// The bytes that `get` copies for a path, borrowed. The call allocates no memory and does not record the path.
    ///
    /// ```text
    /// source.file_at(Path::Checkpoint)  // Some of the checkpoint note
    /// ```
    pub fn file_at(&self, path: Path) -> Option<&[u8]>
        ensures { IsListAnswer H.digest self.now.entries self.now.note path
            (option_map (λ b. b.now) result) }
    {
        match path {
            Path::Checkpoint => Some(self.note.as_slice()),
            Path::Tile {
                level,
                index,
                width,
            } => self.files.tile(level, index, width),
            Path::Entries { index, width } => self.files.bundle(index, width),
        }
    }

    fn copy_at(&self, path: Path) -> Result<Option<Vec<u8>>, AllocError>
        ensures { IfOk result (λ bytes. IsListAnswer H.digest self.now.entries self.now.note path
            (option_map (λ v. v.items) bytes)) }
    {
        match self.file_at(path) {
            Some(bytes) => Ok(Some(Vec::from_slice(self.alloc, bytes)?)),
            None => Ok(None),
        }
    }
}

impl<H: TreeHash> Source for ListSource<H> {
    ghost use Rattle.std.specs.Prelude.{Some};
    ghost use Rattle.mirror_pull.specs.ListSource.{IsListAnswer};

    ghost may_answer = { λ s. IsListAnswer H.digest s.entries s.note };

    ghost asked = { λ s. Some s.asked };

    ghost failed = { λ _. 0 };

    fn get(&mut self, path: &Path) -> Result<Option<Vec<u8>>, SourceFault> {
        let found = self.copy_at(*path)?;
        self.asked.push(*path)?;
        Ok(found)
    }

    fn failures(&self) -> u64 {
        0
    }
}

fn lent_entries(alloc: Global, entries: &[Vec<u8>]) -> Result<Vec<&[u8]>, AllocError>
    ensures { IfOk result (λ lent. map (λ e. e.now) lent.items ≡ map (λ e. e.items) entries.now) }
{
    let mut lent = Vec::new(alloc);
    for entry in entries {
        lent.push(entry.as_slice())?;
    }
    Ok(lent)
}
