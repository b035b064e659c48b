//! What `check` and `eval` show of a stack, and what `audit --why` does, as text and as JSON: its filters, their
//! instructions, and how each comes to its answer to an input. Functions fail where memory runs out.
#![tactic(auto)]

mod document;
pub mod laws;
mod runs;
mod step;
mod texts;

pub use document::{check_document, eval_document};
pub use runs::Trace;
pub use texts::{check_text, eval_text, why_text};
