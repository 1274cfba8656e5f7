//! The files of a transparency log, and their paths (C2SP tlog-tiles).
//!
//! The static files of a log are tiles of hashes, entry bundles and a checkpoint. `read_row` and `write_row` read and write
//! the bytes of a tile, which this crate calls a row of hashes. `read_bundle` and `write_bundle` do so for a bundle. `Path`
//! is the path of such a file, and `print` returns its text. `edge_paths` lists the partial tiles at the right edge of a
//! tree.
//!
//! This reads a bundle that a log serves at a path:
//!
//! ```text
//! let path: Path = "tile/entries/x001/234.p/2".parse()?;
//! if let Path::Entries { width, .. } = path {
//!     let entries = read_bundle(alloc, width, &bytes)?;
//! }
//! ```
#![tactic(auto)]

mod bundle;
mod bundles;
mod cut;
mod edge;
mod laws;
mod levels;
mod log_files;
mod paths;
mod pieces;
mod row;

pub use bundle::{BundleFault, MAX_BUNDLE_LEN, read_bundle, split_entry, write_bundle};
pub use edge::edge_paths;
pub use laws::{
    bundle_length_law, cut_law, edge_law, edge_order_law, one_bundle_law, one_path_law,
    one_row_law, row_fold_law, served_law, spelling_law, true_cut_law,
};
pub use log_files::LogFiles;
pub use paths::{Path, PathFault, print};
pub use row::{RowFault, read_row, write_row};
