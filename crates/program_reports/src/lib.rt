//! The texts and exit statuses of the commands that ask a mirror something, and the report on a pull.
//!
//! ```text
//! let report = status_report(alloc, &mirror)?;
//! report.text        // origin ex, each head, and what is served
//! report.status      // 0 if something is served, else 3
//! print_report(alloc, &mut mirror, &Question::Status, &mut output)?   // prints that text, and returns 0 or 3
//! ```
#![tactic(auto)]

mod comparing;
mod fault;
mod forks;
mod missing;
mod printing;
mod pulling;
mod question;
mod reports;

pub use comparing::{compare_report, comparison_status, print_comparison};
pub use fault::{AskFault, ReportFault};
pub use printing::print_report;
pub use pulling::{pulled_status, pulled_text};
pub use question::Question;
pub use reports::{Report, proof_report, status_report};
