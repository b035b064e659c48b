//! What a JSON profile means, written as a filter: a program that answers each input as the profile says.
//!
//! Where memory runs out, functions fail with `Memory` or `AllocError`, and what they were to add may be there in part:
//! their callers drop it.
#![tactic(auto)]

mod applying;
mod arguments;
mod cautions;
mod comparing;
mod config;
mod errors;
mod fault;
mod file;
mod filter;
mod form;
mod instruction;
mod keys;
mod known;
pub mod laws;
mod limits;
mod names;
mod naming;
mod nearest;
mod others;
mod plan;
mod read;
mod reason;
mod repeated;
mod repeats;
mod rules;
mod settings;
mod telling;
mod text;
mod tree;
mod wording;
mod zeros;

pub use cautions::{loose_masks, zero_errors};
pub use fault::Fault;
pub use file::{notes, profile, unknown_names};
pub use names::{Version, version_of};
pub use reason::refused;
pub use rules::{CallSet, Reading};
pub use settings::{Calls, Settings, set_of_names};
pub use wording::{Refused, Why};
