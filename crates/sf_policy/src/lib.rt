//! Policies: the questions that a policy file asks, the file that names those which may be allowed, and the file that
//! puts them into groups.
//!
//! `Memory` can come wherever something is allocated; a part of what is added to a text may stand in it then.
#![tactic(auto)]

mod accepted;
mod comments;
mod places;
mod policy;

pub use accepted::read_accepted;
pub use places::{Mark, line_of, marks_of_questions, position_of};
pub use policy::{Group, Refusal, WORD_KEYS, read_groups, read_policy, read_policy_at};

/// The most questions of a policy and of an audit.
pub const MOST_QUESTIONS: usize = 256;
