//! The worklist of an exploration: a partition of all inputs among pieces that are left to work and regions that
//! are settled. No thread and no lock: the crates above share it as they like. Where memory runs out, a
//! book stays as it was.
#![tactic(auto)]

mod book;
mod fault;
pub mod laws;
mod name_key;
mod outstanding;
mod regions;
mod settled;

pub use book::{Book, Lease};
pub use fault::Fault;
pub use regions::Region;
pub use settled::Settled;
pub use sf_run::Counts;
