//! The command line: its form, by `clap`, and what is read of the words that fit it.
//!
//! Functions that take an allocator fail where memory runs out.
#![tactic(auto)]

mod arguments;
mod options;
mod terminal;
mod words;

pub use options::{
    budget_of, given_text, is_on, nodes_of, skips_unknown, text_of, wants_explanation, wants_newer,
    wants_notes, wants_quiet, workers_of,
};
pub use terminal::visible;
pub use words::command_form;
