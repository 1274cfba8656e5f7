//! The command line of `tlogmirror`: the commands, each with its options, its help and its reader, and the words that ask for one.
//!
//! ```text
//! let line = read_line(alloc, &["prove", "--origin", "o", "--keys", "k", "--state", "s", "inclusion", "3", "2"])?;
//! line.command   // Ok(Command::Prove(Prove { mirror, ask: Ask::Inclusion { size: 3, index: 2 } }))
//! ```
#![tactic(auto)]

mod bad;
pub mod commands;
mod fault;
mod laws;
mod line;
mod line_laws;
mod number;
mod options_parser;
mod parts;
mod place;
mod program;
mod readers;
mod reading;
mod refusals;

pub use bad::BadWord;
pub use commands::{Command, CopyCommand, PlaceCommand, ReportCommand, StateCommand};
pub use fault::CommandFault;
pub use laws::one_place_law;
pub use line::{Argument, Base, CommandLine, ORIGIN, WHY};
pub use line_laws::{lawful_law, words_example};
pub use parts::{CopyArgs, Log, OutputArgs, StateArgs, has_flag};
pub use place::Place;
pub use reading::{Line, read_line};
pub use refusals::{Refusals, judged};
