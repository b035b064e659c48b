//! How the answers of two stacks are related, read off the diagrams of their answers; and which filters of a stack are
//! needed.
//!
//! Functions fail with `Spent` and `Memory` as the store has them; nodes may have been added then.
#![tactic(auto)]

mod examples;
mod findings;
mod inputs;
mod laws;
mod needs;
mod parts;
mod relation;

pub use examples::{Example, least_example};
pub use findings::{Findings, find_changes};
pub use laws::{kept_filters_answer_alike, one_finding, one_list_of_kept_filters};
pub use needs::{Needs, needed};
pub use relation::{Relation, operation_of};
