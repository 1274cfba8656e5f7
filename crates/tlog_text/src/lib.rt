//! The texts of numbers and hashes in a log's files, and notions for the answers of readers.
//!
//! A number is ASCII decimal digits without leading zeros. A hash of 32 bytes is standard base64 with padding (RFC 4648,
//! section 4). Each value has exactly one text. `read_number` and `read_hash` accept only that text and allocate no memory;
//! `push_number` and `push_hash` write it. The readers of checkpoints, proofs and command lines use these calls.
//!
//! This reads and writes the line `size 100` of a text:
//!
//! ```text
//! let digits = line.strip_prefix("size ").ok_or("no size")?;
//! let size = read_number(digits, 9223372036854775807)?;
//! text.push_str("size ")?;
//! push_number(&mut text, size)?;
//! ```
#![tactic(auto)]

mod hash;
mod laws;
mod number;

pub use hash::{push_hash, read_hash};
pub use laws::{hash_spelling_law, number_answer_law, number_spelling_law};
pub use number::{NumberFault, push_number, read_number};
