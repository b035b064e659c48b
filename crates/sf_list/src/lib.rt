//! What a stack does to each input, and what changes from one stack to another, as rows: each by itself, or call by
//! call. Memory may run out wherever something is allocated or added to a text; a part of what was to be added may
//! stand in the text then.
#![tactic(auto)]

mod changes;
mod digest;
mod document;
pub mod laws;
mod listing;
mod text;

pub use changes::{Changes, changes_document, list_changes, write_changes};
pub use digest::digest_of;
pub use document::listing_document;
pub use listing::{Listing, list};
pub use text::write_listing;
