//! Reads and writes the text of a checkpoint of a transparency log, byte for byte (C2SP
//! tlog-checkpoint, "Note text").
//!
//! The text has these lines, and each ends in a newline:
//!
//! 1. the origin, which names the log;
//! 2. the size of the tree, in ASCII decimal digits without leading zeros;
//! 3. the root hash of the tree, in standard base64 (RFC 4648, section 4) with padding;
//! 4. any number of extension lines, which a reader may ignore.
//!
//! No line is empty. `read` accepts exactly such texts. `write` writes the only text of a
//! checkpoint.
//!
//! ```text
//! let text = "ex\n3\nrra8/idLcKFPsGel5VeCZNsPqbUa9eC6FZFY8yngbnc=\n";
//! let checkpoint = read(alloc, text)?;
//! checkpoint.size                  // 3
//! write(alloc, &checkpoint)?       // the same text
//! ```
#![tactic(auto)]

mod fault;
mod fields;
mod laws;
mod reading;
mod text;
mod writing;

pub use fault::CheckpointFault;
pub use laws::{
    each_answered_law, one_answer_law, one_reading_law, one_text_law, writable_law, written_law,
};
pub use reading::read;
pub use text::{Line, Lines};
use tlog_hash::Hash;
pub use writing::write;

/// A checkpoint: the size and root of a log's tree.
#[derive(Drop, PartialEq, Eq)]
pub struct Checkpoint {
    /// The name of the log: one line, without its newline.
    pub origin: Line,
    /// The number of entries of the log.
    pub size: u64,
    /// The root hash of the tree of those entries.
    pub root: Hash,
    /// The lines after the root, in order and without their newlines.
    pub extensions: Lines,
}
