//! What a check, an audit or the check of a fill input answers: refusals, the verdict of an audit, the line of each
//! answer, how it is printed, the exit statuses of the program, and its version.
#![tactic(auto)]

pub mod laws;
pub mod lines;
pub mod outcome;
pub mod print;
pub mod refusal;
pub mod version;

pub use lines::{audit_report, fill_report, report};
pub use outcome::{AuditVerdict, Outcome, outcome_report};
pub use refusal::Refusal;
pub use version::VERSION;
