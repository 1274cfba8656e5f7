//! The kinds of files of a log (C2SP tlog-tiles, "Merkle Tree" and "Log Entries").
ghost use Rattle.std.specs.Prelude.{◌≡◌};
ghost use Rattle.mirror_folders.specs.Files.{kind_level, kind_path};

use tlog_tiles::Path;

/// A kind of files of a log.
#[derive(Clone, Copy)]
pub enum FileKind {
    /// The tiles of that level.
    Tiles(u32),
    /// The entry bundles.
    Bundles,
}

/// The path of the file of that kind, index and width.
pub fn path_at(kind: FileKind, index: u64, width: u32) -> Path
    ensures { result ≡ kind_path kind index width }
{
    match kind {
        FileKind::Tiles(level) => Path::Tile {
            level,
            index,
            width,
        },
        FileKind::Bundles => Path::Entries { index, width },
    }
}

/// The level of the files of a kind: a bundle has the entries below a tile of level 0.
pub fn level_at(kind: FileKind) -> u32
    ensures { result ≡ kind_level kind }
{
    match kind {
        FileKind::Tiles(level) => level,
        FileKind::Bundles => 0,
    }
}
