//! Listings with names of calls, and what they write.

use crate::auditing::{Page, push_filters};
use crate::refused::Refused;
use sf_list::{list, write_listing};
use sf_names::read_names;
use sf_stack::stack_of;
use std::alloc::Global;

/// A file of names that is one set.
const NAMES: &str = "arch = 0xC000003E\ncalls = { execve = 59, read = 0x40000000 }\n";

/// A file of names with two sets.
const SETS: &str =
    "[other]\narch = 1\ncalls = { read = 0 }\n[arm]\narch = 0x40000028\ncalls = {}\n";

/// The most nodes of diagrams: more than any of these stacks needs.
const NODES: u32 = 100_000;

/// Lists the stack of these files, and writes its rows, with names of calls.
pub fn list_files(alloc: Global, files: &[&[u8]], page: &mut Page) -> Result<(), Refused> {
    let mut filters = Vec::new(alloc);
    push_filters(alloc, &mut filters, files)?;
    let mut names = read_names(alloc, NAMES)?;
    names.append(&mut read_names(alloc, SETS)?)?;
    let listing = list(alloc, NODES, stack_of(alloc, &filters)?, &names, &None)?;
    write_listing(alloc, &listing, &names, page)?;
    Ok(())
}
