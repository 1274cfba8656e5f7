//! The library of `tlogmirror`: runs a command over standard input and output, and over files, folders and places by their names.
//!
//! ```text
//! let (files, folders) = (MemoryFiles::new(alloc), MemShelf::new(alloc));
//! let places = SystemPlaces::new(&rt, &rt);
//! let mut env = Env { rt: &rt, alloc, files, folders, places, input, output, errors };
//! run(&mut env, &words)? // 0, or 3 for no
//! ```
#![tactic(auto)]

mod answers;
mod commands;
mod ending;
mod fault;
mod given;
mod keys;
mod laws;
mod names;
mod run_env;
mod running;
mod system;

pub use answers::{printed, refused};
pub use ending::{Message, ProgramEnd, Stream, ending_of, print_ending};
pub use fault::{Error, RunFault};
pub use given::run_words;
pub use keys::Keys;
pub use laws::{pulled_state_law, signing_key_law};
pub use names::key_file;
pub use program_io::{
    CheckFault, Env, RootFault, RunFiles, RunFolders, RunPlaces, SystemPlaces, run_check, run_root,
};
pub use run_env::{RunEnv, WatchedEnv};
pub use running::run;
pub use state_commands::{EntriesFault, read_entries};
pub use system::system_folders;
