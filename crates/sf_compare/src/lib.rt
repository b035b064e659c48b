//! What differs between the answers of two stacks of filters, for all inputs, read off the diagrams of their answers.
//! Memory may run out wherever something is allocated or added to a text; a part of what was to be added may stand in
//! the text then.
#![tactic(auto)]

mod comparison;
mod document;
pub mod laws;
mod text;

pub use comparison::{Comparison, compare};
pub use document::{comparison_document, comparison_fields};
pub use text::{text_of_comparison, write_comparison};
