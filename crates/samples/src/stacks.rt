//! Stacks of filters.
use crate::filters::{echo, execve_refused};
use sf_check::{Fault, Stack, check};
use sf_insn::RawInsn;
use std::alloc::Global;
use std::sync::Arc;

/// The stack of these filters, in order of installation. The faults are those of `check`, for the first filter that it
/// refuses, and those of `Stack::of`. `Memory` where an allocation is refused.
pub fn stack_of(alloc: Global, filters: &[&[RawInsn]]) -> Result<Arc<Stack>, Fault> {
    let mut programs = Vec::new(alloc);
    for raws in filters {
        programs.push(check(alloc, raws)?)?;
    }
    Ok(Arc::new(alloc, Stack::of(programs)?)?)
}

/// The stack that has only `execve_refused`. `Memory` where an allocation is refused.
pub fn execve_stack(alloc: Global) -> Result<Arc<Stack>, Fault> {
    stack_of(alloc, &[&execve_refused()])
}

/// The stack that has only `echo`. `Memory` where an allocation is refused.
pub fn echo_stack(alloc: Global) -> Result<Arc<Stack>, Fault> {
    stack_of(alloc, &[&echo()])
}
