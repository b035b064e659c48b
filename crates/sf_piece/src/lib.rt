//! Symbolic execution of stacks of seccomp filters. A piece is the set of inputs whose traces begin with its name;
//! `advance` runs it on symbolic words to the next truth value that its facts leave open, where it splits, or to the
//! last return, where its answer is known. Where its facts contradict on the way, the piece is empty. Memory may run
//! out wherever a function gives a `Result`.
#![tactic(auto)]

mod asking;
mod chains;
mod deciding;
mod executing;
mod fault;
pub mod laws;
mod machine;
mod name;
mod nodes;
mod piece;
mod root_piece;
mod run;
mod work;

pub use fault::Fault;
pub use machine::SymbolicMachine;
pub use name::Name;
pub use piece::Piece;
pub use root_piece::root;
pub use work::{Step, Work, advance};
