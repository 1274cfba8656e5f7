//! Sources of the files of a transparency log (C2SP tlog-tiles).
//!
//! A `Source` returns the files of a log by their paths. Its contracts say which answers may come, which paths were
//! requested and how often a get failed. They also define an honest source.
//!
//! ```text
//! source.get(&Path::Checkpoint)?;                        // the note, or None
//! source.get(&Path::Entries { index: 0, width: 3 })?;    // the bundle of the first three entries, or None
//! ```
#![tactic(auto)]

mod source;

pub use source::{Source, SourceFault};
