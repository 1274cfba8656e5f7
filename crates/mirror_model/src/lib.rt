//! The model of a mirror of one transparency log: the view that it holds, and the laws of that
//! view.
//!
//! ```text
//! // One mirror takes a tile of one hash, and another is merged with it.
//! let item = Item::Tile { width: 1, bytes: Bytes::new(hash) };
//! let events = [Event::Take { target: 0, item }, Event::Merge { target: 1, source: 0 }];
//! ```
#![tactic(auto)]

mod events;
mod fault;
mod items;
mod laws;
mod notes;
mod origin;
mod reports;

pub use events::Event;
pub use fault::{MergeFault, TakeFault};
pub use items::{Bytes, Item, Rows};
pub use laws::edges::{edge_root_law, edge_rows_law, edge_strings_law, lawful_edge_law};
pub use laws::events::{again_law, event_law, once_law, refused_memory_law};
pub use laws::examples::{
    calls_example, fork_example, front_example, opening_example, retry_example, served_example,
    trees_example, way_example,
};
pub use laws::fetches::{answered_law, full_files_law, missing_law, missing_list_law, plus_law};
pub use laws::fronts::{front_law, rounds_law, walk_law};
pub use laws::headline::{headline_law, part_law, plays_law};
pub use laws::items::bytes_law;
pub use laws::lists::lists_law;
pub use laws::play::{clash_law, join_law, keeping_law, reaches_law, retry_law, run_law};
pub use laws::refusals::refusals_law;
pub use laws::reports::reports_law;
pub use laws::tiles::{bundle_law, full_row_law};
pub use laws::truth::{bundles_law, prefix_law, true_fronts_law, true_items_law};
pub use laws::views::{
    forks_law, growth_law, head_law, lawful_law, marks_law, one_list_law, served_law, union_law,
};
pub use notes::{HeadNote, checkpoint_of, open_head};
pub use origin::is_origin;
pub use reports::{Fork, Head};
