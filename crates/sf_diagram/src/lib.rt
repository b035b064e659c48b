//! Ordered reduced decision diagrams over bits, with numbers at their leaves. A call fails with `Spent` where it would
//! take one more node than are allowed, and with `Memory` or `AllocError` where an allocation is refused; a call that
//! makes a tree may have added nodes then.
#![tactic(auto)]

mod fault;
mod index;
mod laws;
mod making;
mod operation;
mod reading;
mod store;
mod task;

pub use fault::Fault;
pub use index::{Id, Node};
pub use laws::{equal_values_make_equal_ids, equal_values_make_equal_trees, pairs_give_both_back};
pub use making::{choose, merge};
pub use operation::Operation;
pub use reading::{least_input, value_of};
pub use store::Store;
