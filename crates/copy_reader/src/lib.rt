//! Reads a copy: a log's files on a shelf, each verified up to the root of the checkpoint.
//!
//! ```text
//! let opened = open_shelf::<Sha256Tree, _>(alloc, &mut shelf, "example.com/log", &keys)?;    // Some(reader). None: no checkpoint
//! read_root(alloc, &mut shelf, &mut reader, 257)?                                            // the root of the first 257 entries
//! read_bundle(alloc, &mut shelf, &mut reader, 1)?                                            // the bytes of tile/entries/001
//! read_proof_text(alloc, &mut shelf, &mut reader, Ask::Inclusion { size: 257, index: 2 })?   // a proof, which holds
//! ```
#![tactic(auto)]

mod ahead;
mod ask;
mod audit_bundle;
mod audit_fault;
mod audit_laws;
mod bundle;
mod edge;
mod edge_bundle;
mod edge_rows;
mod end;
mod fault;
mod laws;
mod log;
mod opened;
mod part;
mod proof_text;
mod proving;
mod root;
mod shelf_source;
mod status;
mod tiles;

pub use audit_fault::AuditFault;
pub use audit_laws::verified_files_law;
pub use bundle::read_bundle;
pub use end::read_end;
pub use fault::CopyFault;
pub use laws::whole_copies_law;
pub use log::{Audited, audit};
pub use opened::{open_reader, open_shelf};
pub use proof_text::read_proof_text;
pub use root::read_root;
pub use shelf_source::ShelfSource;
pub use status::status_text;
