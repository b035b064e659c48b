//! Which filters of a stack are needed, for all inputs, read off the diagrams of their answers; and which filters
//! answer as the whole stack does. Memory may run out wherever something is allocated or added to a text; a part of
//! what was to be added may stand in the text then.
#![tactic(auto)]

mod document;
pub mod laws;
mod needs;
mod text;

pub use document::needs_document;
pub use needs::{NeededFilters, needed};
pub use text::{text_of_needs, write_needed};
