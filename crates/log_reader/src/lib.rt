//! Verified reads of a transparency log (C2SP tlog-tiles) whose size and root are known.
//!
//! A file is used only if it leads up to the root. The rows of the edge have to lead to the root (`EdgeRows`, `leads_to`). A full tile or a
//! bundle has to fold to its hash (`verified`). The partial bundle has to have its leaf hashes (`leaves_of`).
//!
//! ```text
//! let head = head_of(alloc, "ex", note)?;                        // Some((size, root)) of the checkpoint
//! leads_to::<Sha256Tree>(alloc, &edge, &root)?                   // whether the edge's rows are those of the root
//! verified::<Sha256Tree>(alloc, FullFile::Tile, &hash, &bytes)?  // Some(row), whose fold is the hash
//! ```
#![tactic(auto)]

mod bundle;
mod checked;
mod consistency;
mod edge_files;
mod edge_root;
mod edge_row;
mod edge_rows;
mod fault;
mod found;
mod full_row;
mod hashed_edge;
mod head;
mod inclusion;
mod laws;
mod node_hash;
mod opened_head;
mod prefix;
mod reader;
mod tile;
mod verify;
mod walk;

pub use edge_root::{edge_hash, leads_to};
pub use edge_row::edge_path;
pub use edge_rows::EdgeRows;
pub use fault::ReadFault;
pub use head::head_of;
pub use laws::{first_tiles_law, shown_bundles_law, shown_prefixes_law, shown_rows_law};
pub use opened_head::open_head;
pub use reader::LogReader;
pub use verify::{FullFile, leaves_of, verified};
