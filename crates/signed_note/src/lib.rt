//! Signed notes (C2SP signed-note).
//!
//! A note is a text, a blank line, and the signature lines of one or more keys. `Note::read` reads a note, and `open_note`
//! checks whether a known key signed it. A `Verifier` checks the signatures of a key: an `HmacKey`, a `PinnedTexts`, or
//! another kind of the caller's. `read_keys` reads them from a key file, `join_pins` joins the pins of one key, and `sign`
//! makes a note.
//!
//! This opens a note:
//!
//! ```text
//! let note = Note::read(alloc, &bytes)?;
//! let mut keys: Vec<Box<dyn Verifier>> = Vec::new(alloc);
//! keys.push(Box::new(alloc, HmacKey::new(alloc, "ex", 1, b"Jefe")?)?)?;
//! open_note(&note, &keys)?;
//! let text = note.text();
//! ```
#![tactic(auto)]

mod fault;
mod gathering;
mod hmac;
mod key_fault;
mod key_file;
mod key_laws;
mod key_limits;
mod key_line;
mod key_words;
mod laws;
mod limits;
mod line;
mod mac_key;
mod name;
mod note;
mod opening;
mod own_name;
mod parts;
mod pinned;
mod signing;
mod verifier;

pub use fault::{NoteFault, OpenFault};
pub use gathering::join_pins;
pub use key_fault::{KeyFault, KeyFileFault};
pub use key_file::read_keys;
pub use key_laws::{key_limits_law, one_key_answer_law};
pub use key_line::KeyLine;
pub use laws::{limits_law, notes_law, one_answer_law};
pub use line::SignatureLine;
pub use mac_key::HmacKey;
pub use name::is_key_name;
pub use note::Note;
pub use opening::open_note;
pub use pinned::PinnedTexts;
pub use signing::sign;
pub use verifier::Verifier;
