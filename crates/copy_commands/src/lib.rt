//! The commands of `tlogmirror` that print what a state or a copy has, and those over places: a list for each of the three groups.
//!
//! ```text
//! copy_commands::run_copy(&mut env, &keys, &command)? // 0, or 3 if nothing is served
//! ```
#![tactic(auto)]

mod asking;
mod audit;
mod check;
mod clients;
mod copied;
mod entries;
mod fault;
mod follow;
mod key_file;
mod place_fault;
mod places;
mod placing;
mod report;
mod root;
mod serve;
mod state_ask;
mod state_compare;
mod state_entries;
mod state_serve;

pub use copied::run_copy;
pub use fault::{ReportError, ReportRunFault};
pub use place_fault::{PlaceError, PlaceRunFault};
pub use placing::run_place;
pub use report::run_report;
