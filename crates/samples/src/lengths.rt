//! Filters of any length.
use crate::insns::{ALLOW, op};
use sf_insn::RawInsn;
use std::alloc::{AllocError, Global};

/// `ld [0]`, this many tests whether A is 0, 1, 2 and so on, each of which goes on at the next instruction, and then
/// `ret 0x7fff0000`. `AllocError` where an allocation is refused.
pub fn equality_tests(alloc: Global, tests: u32) -> Result<Vec<RawInsn>, AllocError> {
    let mut raws = Vec::new(alloc);
    raws.push(op(0x20, 0))?;
    for number in 0..tests {
        raws.push(op(0x15, number))?;
    }
    raws.push(ALLOW)?;
    Ok(raws)
}
