//! Compares real filters, with the rows whose answers differ.

use sf_compare::compare;
use sf_list::{list_changes, write_changes};
use sf_stack::stacks_of;
use std::alloc::Global;
use std::test::Fail;

/// The most nodes of the diagrams: more than any two of these stacks need.
const NODES: u32 = 1_000_000;

/// Shows what a comparison of two stacks writes.
pub fn show_comparison<R: Print>(
    rt: &R,
    alloc: Global,
    old: &[Vec<u8>],
    new: &[Vec<u8>],
) -> Result<(), Fail> {
    let (before, after) = stacks_of(alloc, old, new)?;
    let comparison = compare(alloc, NODES, before, after)?;
    let changes = list_changes(alloc, NODES, &comparison, None, &[], &None)?;
    let mut text = Vec::new(alloc);
    write_changes(alloc, &comparison, &changes, &[], &mut text)?;
    print!(rt; "{}", std::str::from_utf8(&text)?)?;
    Ok(())
}
