//! The rows of decision diagrams over inputs, as text and as JSON: what a stack answers, and what changes from one
//! stack to another; each row by itself, or call by call.
//!
//! Functions fail where memory runs out, where the diagrams would have more nodes than are allowed, where there would
//! be more rows, or where a word is tested more often. What they were to add may be there in part then.
#![tactic(auto)]

mod calls;
mod changes;
mod digest;
mod document;
mod fault;
pub mod laws;
mod lines;
mod names;
mod others;
mod shown;
mod subject;
mod words;

pub use calls::CallRow;
pub use changes::changes_between;
pub use digest::digest_of_rows;
pub use document::with_rows;
pub use fault::Fault;
pub use lines::push_lines;
pub use shown::{Shown, show, shown_count};
pub use subject::Subject;
