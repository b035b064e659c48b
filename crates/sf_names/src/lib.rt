//! The names of calls, from files: named sets of calls, each with the number of its architecture.
//!
//! Where memory runs out, functions fail, and what they were to add may be there in part.
#![tactic(auto)]

mod fault;
mod joining;
mod names;
mod reading;
mod text;

pub use fault::Fault;
pub use joining::join_sets;
pub use names::{Call, Names, find_set, is_call_name};
pub use reading::read_names;
pub use text::push_names_between;
