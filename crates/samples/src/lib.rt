//! What the tests of several crates share: filters, stacks, and a function that compares texts.
#![tactic(auto)]

mod filters;
mod insns;
mod lengths;
mod stacks;
mod texts;

pub use filters::{
    any_bit, echo, eight_divided, execve_refused, four_tests, late_contradiction, low_bits,
    nested_tests, x32_refused,
};
pub use insns::{ALLOW, op, raw};
pub use lengths::equality_tests;
pub use stacks::{echo_stack, execve_stack, stack_of};
pub use texts::other_text;
