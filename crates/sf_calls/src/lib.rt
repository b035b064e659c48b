//! A call in words: numbers as a person writes them, the input that a call is, and an input as a call.
//!
//! Where memory runs out, functions fail, and a part of what they were to add may stand in the text.
#![tactic(auto)]

mod call;
mod numbers;
mod text;

pub use call::call_input;
pub use numbers::{Misread, are_arguments, is_number, read_arguments, read_word};
pub use text::{is_named, push_call_words};
