//! The places of a run: files that verify from whichever place has them, the candidates that places give, and proofs of their forks.
//!
//! ```text
//! let candidates = candidates_of(alloc, "ex", &keys, &mut places, None)?; // places over 3 and over 257 entries: first that of 257
//! ask_proof::<Sha256Tree, MemShelf, ListSource<Sha256Tree>>(alloc, &mut shelf, &mut places, &candidates[1], &candidates[0])?
//! ```
#![tactic(auto)]

mod ahead;
mod ask_edge;
mod ask_fault;
mod bundle;
mod candidate;
mod candidate_fault;
mod candidate_laws;
mod candidates;
mod edge;
mod end_tiles;
mod file;
mod find_row;
mod fork_line;
mod gather;
mod hash_sizes;
mod kept;
mod mix;
mod place;
mod place_files;
mod places;
mod proof_files;
mod proving;
mod row;
mod shelf_edge;
mod way;

pub use ask_fault::AskFault;
pub use bundle::{accept_bundle, bundle_at_places};
pub use candidate::Candidate;
pub use candidate_fault::CandidateFault;
pub use candidate_laws::{agree_law, answered_files_law, fork_line_law, given_files_law};
pub use candidates::candidates_of;
pub use edge::{edge_at_places, lowest_edge_path};
pub use file::{Found, accept_file, file_at_places};
pub use fork_line::{ForkLine, add_fork};
pub use kept::{kept_edge, kept_file};
pub use mix::{GivenRows, edge_of_two};
pub use place::{Place, PlaceAnswer, Wrong, WrongFile};
pub use places::Places;
pub use proving::{ask_proof, fork_proof};
pub use row::row_of;
