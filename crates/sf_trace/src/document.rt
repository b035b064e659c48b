//! What `check` and `eval` find, as JSON.

mod answering;
mod listing;
mod steps;

pub use answering::eval_document;
pub use listing::check_document;
