//! Partial files, cut from wider ones (C2SP tlog-tiles, "Partial Tiles").
ghost use Rattle.std.specs.Prelude.{◌≡◌, ◌≤◌, ℕ, List, IfNone, IfSome, length};
ghost use Rattle.tlog_tiles.specs.Bundle.{HasBundle};
ghost use Rattle.tlog_tiles.specs.Cut.{HasEntries, HasRowLength, IsFileCut, IsPart, full_of, of_width, width_named};

use crate::bundle::split_entry;
use crate::paths::Path;

// What follows the first entries of some bytes. None: they have fewer.
fn after_entries(bytes: &[u8], count: u32) -> Option<&[u8]>
    ensures some { IfSome result (λ rest. HasBundle count bytes.now rest.now) }
    ensures none { IfNone result ((rest : List ℕ) → ¬ HasBundle count bytes.now rest) }
{
    let mut rest = bytes;
    for _ in 0..count {
        let Some((_entry, after)) = split_entry(rest) else {
            return None;
        };
        rest = after;
    }
    Some(rest)
}

// The first `width` entries of a bundle of `wider` entries. None: there is no such part.
fn first_entries(bundle: &[u8], width: u32, wider: u32) -> Option<&[u8]>
    ensures some { IfSome result (λ part. IsPart HasEntries width wider bundle.now part.now) }
    ensures none { IfNone result ((part : List ℕ)
        → ¬ IsPart HasEntries width wider bundle.now part) }
{
    let Some(behind) = after_entries(bundle, wider) else {
        return None;
    };
    if !behind.is_empty() {
        return None;
    }
    let Some(rest) = after_entries(bundle, width) else {
        return None;
    };
    let (part, _rest) = bundle.split_at(bundle.len() - rest.len());
    Some(part)
}

// The first `width` hashes of a row of `wider` hashes. None: there is no such part.
fn first_hashes(row: &[u8], width: u32, wider: u32) -> Option<&[u8]>
    ensures some { IfSome result (λ part. IsPart HasRowLength width wider row.now part.now) }
    ensures none { IfNone result ((part : List ℕ)
        → ¬ IsPart HasRowLength width wider row.now part) }
{
    if row.len() as u64 != 32 * u64::from(wider) {
        return None;
    }
    if wider < width {
        return None;
    }
    let (part, _rest) = row.split_at(32 * width as usize);
    Some(part)
}

impl Path {
    /// The number of hashes or entries in the file at the path, and 0 for the checkpoint.
    ///
    /// ```text
    /// Path::Entries { index: 1, width: 2 }.width()   // 2
    /// ```
    pub fn width(&self) -> u32
        ensures { result ≡ width_named self.now }
    {
        match self {
            Path::Checkpoint => 0,
            Path::Tile { width, .. } => *width,
            Path::Entries { width, .. } => *width,
        }
    }

    /// The path of the file of that width, with the same level and index. The checkpoint has no other path.
    ///
    /// ```text
    /// Path::Entries { index: 1, width: 2 }.with_width(5)   // tile/entries/001.p/5
    /// ```
    pub fn with_width(&self, width: u32) -> Path
        ensures { result ≡ of_width self.now width }
    {
        match self {
            Path::Checkpoint => Path::Checkpoint,
            Path::Tile { level, index, .. } => Path::Tile {
                level: *level,
                index: *index,
                width,
            },
            Path::Entries { index, .. } => Path::Entries {
                index: *index,
                width,
            },
        }
    }

    /// The path of the full file with the same level and index. It may stand for a partial file (C2SP tlog-tiles, "Partial
    /// Tiles").
    ///
    /// ```text
    /// Path::Tile { level: 0, index: 1, width: 3 }.full()   // tile/0/001
    /// ```
    pub fn full(&self) -> Path
        ensures { result ≡ full_of self.now }
    {
        self.with_width(256)
    }

    /// The bytes of the file at the path, from a file that is `wider` hashes or entries wide, with the same level and index.
    /// They are its first hashes or entries.
    ///
    /// The result is `None` exactly if there are no such bytes: the file has not that width, or it is narrower than the path,
    /// or the path is the checkpoint. So a full tile, whose width is 256, has 8,192 bytes, and a full bundle 256 entries. The
    /// call allocates no memory.
    ///
    /// ```text
    /// Path::Entries { index: 0, width: 1 }.cut(2, &[0, 1, 97, 0, 1, 98])   // Some(&[0, 1, 97])
    /// Path::Entries { index: 0, width: 1 }.cut(256, &[0, 1, 97])           // None: the file has one entry
    /// ```
    pub fn cut<'a>(&self, wider: u32, file: &'a [u8]) -> Option<&'a [u8]>
        ensures some { IfSome result (λ part. IsFileCut self.now wider file.now part.now) }
        ensures none { IfNone result ((part : List ℕ) → ¬ IsFileCut self.now wider file.now part) }
    {
        match self {
            Path::Checkpoint => None,
            Path::Tile { width, .. } => first_hashes(file, *width, wider),
            Path::Entries { width, .. } => first_entries(file, *width, wider),
        }
    }
}
