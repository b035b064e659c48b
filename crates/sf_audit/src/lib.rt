//! An audit of a stack of seccomp filters: the replies to questions about it, what was expected of them, and how both
//! are written, as a report, a summary or JSON. Memory may run out wherever something is allocated or added to a text;
//! a part of what was to be added may stand in the text then.
#![tactic(auto)]

mod auditing;
mod counting;
mod document;
mod expecting;
pub mod laws;
mod outcome;
mod report;
mod summary;

pub use auditing::{audit, audit_stack, reply_to};
pub use counting::{count_allowed, count_never, count_unsettled};
pub use document::{Telling, audit_document};
pub use expecting::{Expected, text_of_expected};
pub use outcome::Outcome;
pub use report::write_report;
pub use summary::{Summary, write_summary};
