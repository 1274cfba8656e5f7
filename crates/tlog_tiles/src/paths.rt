//! The paths of a log's files (C2SP tlog-tiles, "Parameters", "Merkle Tree" and "Log Entries").
mod printing;
mod reading;

ghost use Rattle.std.specs.Prelude.{Result};
ghost use Rattle.tlog_tiles.specs.Path.{ReadsPath};

pub use printing::print;
use reading::{Kind, below_tile, index_of, kind_of, width_of, width_part};
use std::fmt;
use std::str::FromStr;

/// The greatest index of a lawful path: 2^55 - 1, the last tile of a tree of 2^63 entries.
pub(crate) const MAX_INDEX: u64 = 36028797018963967;

/// The path of a file of a log.
///
/// A lawful path has a level of at most 7, an index of at most 2^55 - 1 and a width of 1 to 256. The width is 256 for a full
/// tile or bundle. `Path::parse` and `FromStr` read only lawful paths; `Path::text` and `Display` print any path.
///
/// # Examples
///
/// `Path::parse("tile/0/x001/x234/067.p/5")` is `Path::Tile { level: 0, index: 1234067, width: 5 }`, which prints as the
/// same text.
#[derive(Debug, PartialEq, Eq, Hash, Clone, Copy)]
pub enum Path {
    /// `checkpoint`: the newest checkpoint of the log.
    Checkpoint,
    /// `tile/LEVEL/INDEX`, or `tile/LEVEL/INDEX.p/WIDTH` for fewer than 256 hashes: `width` hashes of a level, from the hash
    /// with the number `256 * index` on.
    Tile { level: u32, index: u64, width: u32 },
    /// `tile/entries/INDEX` or `tile/entries/INDEX.p/WIDTH`: `width` entries, from the entry `256 * index` on.
    Entries { index: u64, width: u32 },
}

/// Why a text is not a path. `Path::parse` returns the first fault that applies.
/// `tile/8/000` has a bad level, `tile/0/0` a bad index, and `tile/0/000.p/256` a bad width.
#[derive(Debug, Drop, PartialEq, Eq, Clone, Copy)]
pub enum PathFault {
    /// The text is neither `checkpoint` nor three segments or more that begin with `tile`.
    Unknown,
    /// The second segment is neither `entries` nor one digit from 0 to 7.
    BadLevel,
    /// The index is greater than 2^55 - 1 or not in groups of three digits. Each group except the last begins with an x, and
    /// the first of several is not `x000`.
    BadIndex,
    /// The width is not 1 to 255 in decimal, without leading zeros.
    BadWidth,
}

/// Prints the name of the variant. A derived one takes the checker seconds more.
impl fmt::Display for PathFault {
    fn fmt<W: fmt::Write>(&self, f: &mut fmt::Formatter<W>) -> fmt::Result {
        fmt::Debug::fmt(self, f)
    }
}

impl std::error::Error for PathFault {}

impl Path {
    /// The path that the text spells. Each lawful path has exactly one text.
    ///
    /// It allocates no memory.
    ///
    /// # Errors
    ///
    /// The first that applies of `Unknown`, `BadLevel`, `BadIndex` and `BadWidth`, each exactly as `PathFault` describes it.
    pub fn parse(text: &str) -> Result<Path, PathFault>
        ensures { ReadsPath text.now result }
    {
        let bytes = text.as_bytes();
        if bytes == b"checkpoint".as_slice() {
            return Ok(Path::Checkpoint);
        }
        let Some((second, tail)) = below_tile(bytes) else {
            return Err(PathFault::Unknown);
        };
        let Some(kind) = kind_of(second) else {
            return Err(PathFault::BadLevel);
        };
        let (index_text, width_text) = width_part(tail);
        let Some(index) = index_of(index_text) else {
            return Err(PathFault::BadIndex);
        };
        let Some(width) = width_of(width_text) else {
            return Err(PathFault::BadWidth);
        };
        match kind {
            Kind::Hashes(level) => Ok(Path::Tile {
                level,
                index,
                width,
            }),
            Kind::Bundles => Ok(Path::Entries { index, width }),
        }
    }
}

impl FromStr for Path {
    type Err = PathFault;

    ghost from_str_gives = { ReadsPath };

    fn from_str(text: &str) -> Result<Path, PathFault> {
        Path::parse(text)
    }
}
