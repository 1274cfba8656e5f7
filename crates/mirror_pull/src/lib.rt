//! Fetches one log from one source into a mirror (C2SP tlog-tiles).
//!
//! ```text
//! let mut source = DirSource::new(&rt, alloc, "examples/log");
//! let pulled = pull(alloc, &mut mirror, &keys, &mut source)?;
//! if pulled.complete { /* all entries of the tree head with pulled.size are held */ }
//! ```
#![tactic(auto)]

mod ask;
mod asked;
mod edge;
mod fault;
mod head;
mod laws;
mod list;
mod pulling;
mod rounds;

pub use fault::PullFault;
pub use laws::{
    fetched_once_law, front_round_law, front_rounds_law, no_round_law, pull_growth_law,
};
pub use list::ListSource;
pub use mirror_sources::{Source, SourceFault};
pub use pulling::{Pulled, pull};
