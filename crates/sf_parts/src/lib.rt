//! Rows of a decision diagram: for each word which numbers lead on to the same, and what comes behind.
//!
//! Where memory runs out, functions fail with `Memory` or `AllocError`.
#![tactic(auto)]

mod bits;
mod fault;
mod form;
mod laws;
mod parts;
mod rows;
mod runs;
mod word;

pub use fault::Fault;
pub use form::{Form, Span};
pub use laws::{
    each_input_is_in_one_row, each_number_has_one_part, each_row_has_an_input, parts_lead_on,
    rows_have_the_number,
};
pub use rows::{Condition, ROWS, Row, rows_of};
pub use word::TESTS;
