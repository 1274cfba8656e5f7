//! Files of a mirror: the text of a state, a mirror that is saved and loaded as one, and a mirror exported into a log's
//! folder. It gives out the folders of `mirror_folders` too.
//!
//! ```text
//! let mirror: Mirror<Sha256Tree> = load(alloc, "example.com/log", &keys, &mut file)?;
//! let mut shelf = DirShelf::new(&rt, alloc, "log");
//! export(alloc, &mirror, &mut shelf)?;
//! ```
#![tactic(auto)]

mod as_saved;
mod beginning;
mod checking;
mod export_fault;
mod exported_files;
mod exporting;
mod items;
mod listing;
mod lists;
mod load_fault;
mod load_laws;
mod loading;
mod naming;
mod opening;
mod order;
mod page;
mod parts;
mod put;
mod refused;
mod save_fault;
mod saving;
mod storing;
mod text_laws;
mod update_laws;
mod updating;
mod writing;

pub use as_saved::is_as_saved;
pub use checking::checked_lists;
pub use export_fault::{ExportFault, UpdateFault};
pub use exporting::export;
pub use items::Form;
pub use listing::{Sorted, sort_strings};
pub use lists::Lists;
pub use load_fault::LoadFault;
pub use load_laws::{load_law, loaded_text_law, old_state_law, saved_law};
pub use loading::{load, load_bytes};
pub use mirror_folders::{
    DirShelf, DirSource, FailedFile, FileKind, FolderFiles, MemShelf, NamedFolders, ReadableShelf,
    Shelf, ShelfError, files_law, files_since_example, files_since_law, files_to_put, lacks,
    level_at, log_paths, path_at, replace_file,
};
pub use naming::{RefusedNote, name_of};
pub use opening::{first_closed, open_all};
pub use parts::{PartsFault, is_new};
pub use refused::refused_note;
pub use save_fault::SaveFault;
pub use saving::save;
pub use storing::store_of;
pub use text_laws::{cut_law, one_answer_law, one_text_law, state_text_law};
pub use update_laws::update_law;
pub use updating::update;
pub use writing::write_text;
