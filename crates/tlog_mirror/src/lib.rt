//! A mirror of one transparency log: it takes tree heads, tiles and bundles from several downloads, checks them, and
//! serves the tree heads that are complete.
//!
//! Contracts see a `Mirror` as a state of `mirror_model`: an origin, a set of notes, a set of strings, and the points
//! that it remembers for complete tree heads.
//!
//! ```text
//! let mut mirror = Mirror::<Sha256Tree>::new(alloc, "example.com/log")?;
//! mirror.take_head(alloc, &keys, note, &edge)?;
//! mirror.take_tile(alloc, 256, tile)?;
//! mirror.take_bundle(alloc, 256, bundle)?;
//! ```
//!
//! `play` lets takes and merges happen to several mirrors, in order.
#![tactic(auto)]

mod branches;
mod calm;
mod compare;
mod compare_laws;
mod compared;
mod fault;
mod flagged;
mod fork_search;
mod forks;
mod heads;
mod items;
mod kept;
mod laid;
mod lines;
mod merge;
mod mirror;
mod missing;
mod pieces;
mod plays;
mod report_texts;
mod restored;
mod rows;
mod served;
mod settle;
mod take_head;
mod takes;
mod texts;

pub use compare_laws::{compare_example, compare_law};
pub use compared::{Compared, compare_all, comparison_text};
pub use fault::{NewFault, RestoreFault};
pub use flagged::flag_heads;
pub use fork_search::{forks_of, write_forks};
pub use lines::write_missing;
pub use mirror::Mirror;
pub use mirror_model::{
    Bytes, Event, Fork, Head, HeadNote, Item, MergeFault, Rows, TakeFault, again_law, bundles_law,
    calls_example, clash_law, event_law, forks_law, growth_law, headline_law, join_law,
    keeping_law, lists_law, part_law, plays_law, reports_law, retry_example, retry_law, run_law,
    served_law,
};
pub use mirror_trees::TopRanges;
pub use plays::{fits, play, play_again};
pub use report_texts::{forks_text, missing_text, status_text};
