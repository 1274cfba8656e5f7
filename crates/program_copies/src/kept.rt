//! What is kept of a copy between two clients.
ghost use Rattle.std.specs.Prelude.{◌≡◌, None};

use log_reader::LogReader;
use std::marker::Model;
use tlog_hash::TreeHash;

/// What is kept of a copy between two clients: the note that opened last, and a reader of its log with the rows that it read last. So a
/// file near the last one costs one read, and the key file is read only for a new checkpoint.
///
/// Contracts see the note.
///
/// ```text
/// let mut kept = KeptCopy::<Sha256Tree>::new();
/// ```
#[derive(Drop)]
pub struct KeptCopy<H: TreeHash> {
    pub(crate) note: Option<Vec<u8>>,
    pub(crate) reader: Option<LogReader<H>>,
}

impl<H: TreeHash> Model for KeptCopy<H> {
    ghost use Rattle.std.specs.Prelude.{ℕ, List, Option, option_map};

    ghost Value = { Option (List ℕ) };

    ghost view = { λ a. option_map (λ note. note.items) a.note };
}

impl<H: TreeHash> KeptCopy<H> {
    /// Nothing is kept yet.
    pub fn new() -> KeptCopy<H>
        ensures { result ≡ None }
    {
        KeptCopy {
            note: None,
            reader: None,
        }
    }
}
