//! What the commands over a copy answer, as reports and over HTTP (RFC 9112). A copy is a folder with the files of one log.
//!
//! ```text
//! let mut folders = DirShelf::new(&rt, alloc, ".");
//! let ask = Ask::Inclusion { size: 257, index: 2 };
//! prove_copy::<Sha256Tree, _, _>(&mut folders, alloc, "example.com/log", &keys, "log", ask, &mut output)?;
//!
//! let (mut shelf, mut kept) = (DirShelf::new(&rt, alloc, "log"), KeptCopy::<Sha256Tree>::new());
//! for stream in listener.incoming() {
//!     let stream = stream?;
//!     let _answer = answer_from_copy(alloc, &mut shelf, &keys, &mut kept, "ex", &mut &stream, &mut &stream);
//! }
//! ```
#![tactic(auto)]

mod answer;
mod auditing;
mod body;
mod checkpoint;
mod compare;
mod copied;
mod cutting;
mod entries_fault;
mod entries_laws;
mod entries_opening;
mod evidence;
mod fault;
mod file;
mod follow_fault;
mod following;
mod hold;
mod kept;
mod keys;
mod laws;
mod opened;
mod opening;
mod printing;
mod prove;
mod proving;
mod repair;
mod repair_fault;
mod reply_fault;
mod row;
mod served;
mod shown;
mod status;
mod text;
mod why;
mod width;
mod writing;

pub use answer::answer_from_copy;
pub use auditing::run_audit;
pub use compare::compare_copy;
pub use copied::entries_of_copy;
pub use copy_reader::CopyFault;
pub use entries_fault::{AuditRunFault, CopyEntriesFault, StateEntriesFault};
pub use entries_laws::shown_entries_law;
pub use fault::CopyAskFault;
pub use follow_fault::FollowRunFault;
pub use following::{Following, run_follow};
pub use hold::{Hold, HoldFault, NoHold, SystemHold};
pub use kept::KeptCopy;
pub use keys::{CopyKeys, KeysFault};
pub use laws::{copies_answer_as_mirrors_law, proofs_law, refusals_law, status_law};
pub use opened::open_copy;
pub use prove::prove_copy;
pub use repair::run_repair;
pub use repair_fault::{RepairFault, RepairRunFault};
pub use reply_fault::CopyAnswerFault;
pub use served::entries_of_state;
pub use status::status_copy;
pub use text::{followed_status, followed_text};
pub use why::follow_why;
