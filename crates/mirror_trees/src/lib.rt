//! The trees that a store holds: they are built in it, and walked through it.
//!
//! A tree (RFC 6962, section 2.1) is given by its size and its root hash. `add_entries`, `add_row` and `add_above` add
//! the strings of a tree from the leaves up. The other calls go from the root down:
//! - `is_built` says whether a tree is held;
//! - `missing_of` names the files of a log that have the missing strings (C2SP tlog-tiles);
//! - `is_prefix` says whether one tree is a prefix of another;
//! - `settle` remembers a held tree, so that no later walk enters it.
//!
//! ```text
//! let mut store: Store<Sha256Tree> = Store::new(alloc);
//! let root = add_entries(alloc, &mut store, &[b"a", b"b", b"c"])?;
//! is_built(&store, &HeldTrees::new(alloc), 3, &root)  // true
//! missing_of(alloc, &store, &HeldTrees::new(alloc), 3, &root)?  // no path
//! ```
#![tactic(auto)]

mod best;
mod building;
mod built;
mod bundle;
mod counting;
mod edge;
mod files;
mod held_note;
mod holding;
mod known;
mod laws;
mod leaves;
mod levels;
mod mark_key;
mod marks;
mod missing;
mod prefix;
mod ranges;
mod room;
mod rows;
mod served_laws;
mod settling;
mod top_ranges;
mod unit;

pub use best::{best_leaves, best_of, first_with};
pub use building::{add_above, add_entries, add_row};
pub use built::{check_built, is_built};
pub use bundle::entries_at;
pub use edge::take_edge;
pub use files::files_of;
pub use held_note::HeldNote;
pub use holding::holds_edge;
pub use known::HeldTrees;
pub use laws::{forks_go_on_law, known_law, prefix_of_prefix_law, settled_law, slices_law};
pub use leaves::{Leaves, leaves_of, part_at};
pub use levels::{clear_of, next_missing};
pub use marks::Marks;
pub use missing::missing_of;
pub use prefix::is_prefix;
pub use ranges::range_hash;
pub use rows::row_at;
pub use served_laws::served_list_law;
pub use settling::settle;
pub use top_ranges::TopRanges;
pub use unit::unit_of;
