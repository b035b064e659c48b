//! Lists what real filters answer.

use sf_list::{list, write_listing};
use sf_stack::stack_of;
use std::alloc::Global;
use std::test::Fail;

/// The most nodes of the diagrams: more than any of these stacks needs.
const NODES: u32 = 1_000_000;

/// Shows the rows of the stack of these filters.
pub fn show_listing<R: Print>(rt: &R, alloc: Global, filters: &[Vec<u8>]) -> Result<(), Fail> {
    let listing = list(alloc, NODES, stack_of(alloc, filters)?, &[], &None)?;
    let mut text = Vec::new(alloc);
    write_listing(alloc, &listing, &[], &mut text)?;
    print!(rt; "{}", std::str::from_utf8(&text)?)?;
    Ok(())
}
