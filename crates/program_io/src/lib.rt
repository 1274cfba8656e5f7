//! What the program reads, writes and waits for: named files and folders, a state's file and a checkpoint's, progress on
//! standard error, and `Env`, which a command is given.
//!
//! A library's part works on byte streams, shelves and sources. This crate opens them by the names in the words, and says in
//! a line (`--why`) what could not be read, by which name, and what the system said.
//!
//! ```text
//! let files = SystemFiles::new(&rt, alloc);           // named files, each of at most MAX_FILE_LEN bytes
//! let state = open_state(&mut files, "state", ..)?;   // a mirror of the file's text
//! let mut source = CountingSource::new(source, ..);   // writes a line of --progress now and then
//! ```
#![tactic(auto)]

mod check;
mod counts;
mod env;
mod error;
mod errors;
mod failing;
mod file_fault;
mod file_laws;
mod file_why;
mod flush;
mod folders;
mod front;
mod heads;
mod line;
mod memory;
mod named;
mod note;
mod open_port;
mod origin;
mod place;
mod placed;
pub mod places;
mod port;
mod progress;
mod progress_laws;
mod progress_lines;
mod root;
mod run_places;
pub mod served;
mod several;
mod shelf;
mod source;
mod state;
mod state_fault;
mod system;
mod task;
mod watched;
pub mod why;

pub use check::{CheckFault, run_check};
pub use counts::Counts;
pub use env::Env;
pub use error::Error;
pub use errors::StandardError;
pub use failing::{Failed, Failing, RunFiles, RunFolders};
pub use file_fault::NamedFault;
pub use file_laws::limits_law;
pub use file_why::{MAX_WHY_LEN, system_reason, why_line};
pub use folders::CountedFolders;
pub use front::write_front;
pub use heads::read_heads;
pub use line::{followed_line, progress_line, pulled_line, waited_line};
pub use memory::MemoryFiles;
pub use named::{MAX_FILE_LEN, NamedFiles};
pub use note::{checkpoint_origin, checkpoint_size};
pub use open_port::OpenPort;
pub use origin::check_origin;
pub use place::{Answered, FailedAt, PlaceSource, WatchedPlace};
pub use placed::{PlacedSource, folder_at, server_at};
pub use port::{ListenFault, listen, port_fault, print_fault};
pub use progress::Progress;
pub use progress_laws::{counted_shelf_law, counted_source_law};
pub use progress_lines::{print_waited, report_end, report_puts};
pub use root::{RootFault, run_root};
pub use run_places::{RunPlaces, SystemPlaces};
pub use several::read_files;
pub use shelf::CountingShelf;
pub use source::CountingSource;
pub use state::{open_or_new, open_state, open_to_save, write_state};
pub use state_fault::{HeadFilesFault, StateFault};
pub use system::{Cause, FailedName, SystemFiles};
pub use task::Task;
pub use watched::WatchedSource;
