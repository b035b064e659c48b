//! Outputs as JSON: values that have no float, what several of them share, and how one is written.
//!
//! Functions that take an allocator fail where memory runs out.
#![tactic(auto)]

mod answer;
mod document;
mod exploration;
mod input;
mod writing;

pub use answer::{action_document, answer_document};
pub use document::{Document, Fields};
pub use exploration::{counts_document, diagram_document, sizes_document};
pub use input::{input_document, word_document};
pub use writing::{line_of, write_document};
