//! Questions about a filter stack: is any of these inputs answered with one of these actions?
//!
//! Functions that take an allocator may fail with `Memory`.
#![tactic(auto)]

mod actions;
mod fault;
mod question;

pub use actions::ActionSet;
pub use fault::Fault;
pub use question::Question;
