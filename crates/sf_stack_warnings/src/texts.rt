//! The lines of warnings. They are for a person, so contracts say nothing of their words.

use crate::errno::zero_errors;
use crate::passing::lets_none_through;
use sf_book::Settled;
use sf_stack::{push_zero_errors, warnings_of_filters};
use std::alloc::{AllocError, Global};

/// The warnings for a stack that was explored, each a line: those of its filters, that no call gets through, and the
/// calls that report success without being made.
pub fn warnings_of_stack(alloc: Global, settled: &Settled) -> Result<String, AllocError> {
    let mut text = warnings_of_filters(alloc, settled.stack().programs())?;
    if lets_none_through(settled) {
        text.push_str("warning: no call gets through: are these filters of one process?\n")?;
    }
    push_zero_errors(&mut text, &zero_errors(alloc, settled)?)?;
    Ok(text)
}
