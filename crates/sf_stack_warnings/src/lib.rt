//! Signs that an explored stack isn't the one that the user means, or is less safe than it looks: it lets no call
//! through, or a call that isn't made reports success. What is found changes no answer. Memory may run out wherever
//! something is allocated; a region's facts that have too many owners are told as refused memory too.
#![tactic(auto)]

mod errno;
mod passing;
mod texts;

pub use errno::zero_errors;
pub use passing::{lets_none_through, may_let_through};
pub use texts::warnings_of_stack;
