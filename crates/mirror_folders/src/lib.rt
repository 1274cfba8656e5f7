//! A log's folder (C2SP tlog-tiles) as a shelf and as a source; the trait of shelves; files that are replaced as a
//! whole.
//!
//! ```text
//! let mut shelf = DirShelf::new(&rt, alloc, "log");
//! shelf.put(&Path::Checkpoint, note)?; // log/checkpoint
//!
//! let mut source = DirSource::new(&rt, alloc, "log");
//! source.get(&Path::Checkpoint)? // the bytes of log/checkpoint
//! ```
#![tactic(auto)]

mod damaged;
mod dir_shelf;
mod dir_source;
mod failed;
mod flush;
mod folder_files;
mod folders;
mod kind;
mod laws;
mod leftovers;
mod memory;
mod new_files;
mod partial;
mod paths;
mod place;
mod reading;
mod replace;
mod shelf;
mod temporary;
mod total;
mod unflushed;

pub use damaged::DamagedFile;
pub use dir_shelf::DirShelf;
pub use dir_source::DirSource;
pub use failed::FailedFile;
pub use folder_files::FolderFiles;
pub use folders::NamedFolders;
pub use kind::{FileKind, level_at, path_at};
pub use laws::{files_law, files_since_example, files_since_law};
pub use memory::MemShelf;
pub use new_files::lacks;
pub use partial::{cut_on_shelf, partial_on_shelf};
pub use paths::log_paths;
pub use replace::replace_file;
pub use shelf::{ReadableShelf, Shelf, ShelfError};
pub use total::files_to_put;
