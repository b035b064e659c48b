//! The stack that filter files spell, or why they are refused; the texts that several reports share; and signs that the
//! filters aren't those that the user means. Nothing is explored here. Memory may run out wherever something is
//! allocated or added to a text; a part of what was to be added may stand in the text then.
#![tactic(auto)]

mod action;
mod equal;
mod fault;
mod filters;
pub mod laws;
mod reaching;
mod texts;
mod two_stacks;
mod warnings;

pub use action::push_action;
pub use equal::first_same;
pub use fault::Fault;
pub use filters::stack_of;
pub use reaching::reached;
pub use texts::{hex_of, push_counts, push_nodes, push_size, write_bytes};
pub use two_stacks::stacks_of;
pub use warnings::{push_of_filters, push_zero_errors, warnings_of_filters};
