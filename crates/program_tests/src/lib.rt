//! The tests of the parts of the program, from states and files to the words of the command line. They are a crate of their
//! own, because a crate's tests are checked together with the whole crate.
//!
//! It holds what no run of the program can show about `mirror_files`, `mirror_folders` and
//! `program_library`:
//!
//! - readers, writers and shelves that fail;
//! - refused memory;
//! - states that are cut;
//! - commands with given keys.
//!
//! All else is shown by transcripts (`tests/` at the top of the repository).
//!
//! ```text
//! rt test        // in this folder
//! ```
#![tactic(auto)]

#[cfg(test)]
mod exports;
#[cfg(test)]
mod given;
#[cfg(test)]
mod in_hand;
#[cfg(test)]
mod loads;
#[cfg(test)]
mod memory;
#[cfg(test)]
mod states;
#[cfg(test)]
mod streams;
