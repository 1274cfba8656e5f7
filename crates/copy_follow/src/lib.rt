//! A copy of a log is a folder that any web server can serve as the log (C2SP tlog-tiles). This crate brings a copy to the newest
//! checkpoint that some places give, reports the forks that they show, and repairs a copy.
#![tactic(auto)]

mod again;
mod bring;
mod bring_candidate;
mod bring_fault;
mod compare;
mod copy;
mod copy_laws;
mod copy_on_shelf;
mod edge;
mod edge_bundle;
mod fault_now;
mod find;
mod find_edge;
mod first;
mod follow_fault;
mod follow_laws;
mod following;
mod found;
mod keep;
mod last;
mod lines;
mod mend;
mod mend_edge;
mod mend_tiles;
mod own_edge;
mod read_tip;
mod renote;
mod repair;
mod repaired;
mod report;
mod run;
mod same;
mod script_laws;
mod tip;
mod to_edge;
mod turn;
mod turns;
mod wider;

pub use bring_fault::BringFault;
pub use copy::bring_copy;
pub use copy_laws::{
    empty_tip_law, makes_copy_law, new_files_law, pruned_copy_law, repair_keeps_law, root_law,
    same_copy_law, stays_copy_law,
};
pub use follow_fault::FollowFault;
pub use follow_laws::{copy_fork_law, larger_fork_law, run_law};
pub use following::follow;
pub use repair::repair_copy;
pub use repaired::Repaired;
pub use report::Followed;
pub use script_laws::{liar_example, log_script_law, noted_place_law, script_law, whole_place_law};
