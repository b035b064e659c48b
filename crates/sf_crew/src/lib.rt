//! Workers on threads. They explore a stack by the pieces of a locked book, with benches from which they steal, and
//! judge regions by a board of shared words, without a lock. The fault `Memory` means that an allocation was refused,
//! or that something shared has too many owners.
#![tactic(auto)]

mod benches;
mod board;
mod fault;
mod gate;
pub mod laws;
mod sweeping;
mod workers;

pub use benches::{End, Event, HandleView, Owner, Thief, bench};
pub use board::{Board, BoardKey, EnteredSheet, Note, Seat, Tally, View};
pub use fault::Fault;
pub use gate::{Gate, Open};
pub use sweeping::sweep;
pub use workers::{explore, visit};
