//! What filters do, as decision diagrams over the bits of an input. Each diagram is exact; where it would take more
//! nodes than are allowed there is none. A function that adds to a store fails as the store does, with `Spent` or
//! `Memory`; nodes may have been added then.
#![tactic(auto)]

mod answers;
mod combining;
mod differences;
mod effects;
mod forward;
mod inputs;
mod knowing;
mod laws;
mod places;
mod products;
mod program;
mod quotients;
mod registers;
mod replacing;
mod shifting;
mod steps;
mod testing;
mod truths;
mod words;

pub use answers::behaviour;
pub use inputs::{ARCH_WORD, NR_WORD, first_variable};
pub use laws::{each_input_has_variables, equal_behaviours_make_equal_ids};
