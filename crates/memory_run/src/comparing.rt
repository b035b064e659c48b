//! Comparisons with their rows, what is needed, and what they write.

use crate::auditing::{Page, push_filters};
use crate::refused::Refused;
use sf_compare::compare;
use sf_list::{list_changes, write_changes};
use sf_needed::{needed, write_needed};
use sf_stack::{stack_of, stacks_of};
use std::alloc::Global;

/// The most nodes of diagrams: more than any of these stacks needs.
const NODES: u32 = 100_000;

/// Writes what a comparison finds of the stack of these files with that of the second to the fourth of them, or, where
/// there are fewer, with itself, with the rows of what changes; and which of the filters are needed.
pub fn compare_files(alloc: Global, files: &[&[u8]], page: &mut Page) -> Result<(), Refused> {
    let mut old = Vec::new(alloc);
    push_filters(alloc, &mut old, files)?;
    let mut new = Vec::new(alloc);
    push_filters(alloc, &mut new, files.get(1..4).unwrap_or(files))?;
    let (before, after) = stacks_of(alloc, &old, &new)?;
    let comparison = compare(alloc, NODES, before, after)?;
    let changes = list_changes(alloc, NODES, &comparison, None, &[], &None)?;
    write_changes(alloc, &comparison, &changes, &[], page)?;
    let needs = needed(alloc, NODES, stack_of(alloc, &old)?)?;
    write_needed(alloc, &needs, page)?;
    Ok(())
}
