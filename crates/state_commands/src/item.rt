//! The files of an item.

/// The names of the files that have an item.
///
/// ```text
/// ItemFiles::Bundle { width: 3, file: "log/tile/entries/000.p/3" }
/// ```
#[derive(Drop, Clone, Copy)]
pub enum ItemFiles<'a> {
    /// A checkpoint: the file of its note, and the files of its right edge's rows, lowest level first.
    Head {
        /// The file of the note.
        note: &'a str,
        /// The files of the rows.
        rows: &'a [&'a str],
    },
    /// A tile of `width` hashes.
    Tile {
        /// The number of hashes, 1 to 256.
        width: u32,
        /// The file of its row.
        file: &'a str,
    },
    /// An entry bundle of `width` entries.
    Bundle {
        /// The number of entries, 1 to 256.
        width: u32,
        /// The file of the bundle.
        file: &'a str,
    },
}
