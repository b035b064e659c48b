//! The command line of the program, from its words to its exit status, over traits for files and streams. Memory may
//! run out anywhere. After any error but a failed write nothing is written; after a failed one a beginning may be.
#![tactic(auto)]

mod auditing;
mod comparing;
mod dispatch;
pub mod laws;
mod listing;
mod means;
mod needing;
mod sources;
mod status;
mod subcommands;
mod usage;
mod warnings;
mod watching;

pub use dispatch::command;
pub use means::Means;
pub use watching::Meter;
