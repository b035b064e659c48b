//! Questions about the inputs of a filter stack, and what settled regions say of them. The fault `Memory` means that an
//! allocation was refused, or that a region's facts have too many owners.
#![tactic(auto)]

mod bits;
mod confining;
mod judging;
pub mod laws;
mod members;
mod probe;
mod probing;
mod sheet;
mod verdict;

pub use bits::{has_bit, set_bit};
pub use judging::judge;
pub use members::find_member;
pub use probe::Probes;
pub use probing::questions_to_judge;
pub use sf_question::{ActionSet, Fault, Question};
pub use sheet::{Sheet, snapshots};
pub use verdict::{Reply, Verdict};
