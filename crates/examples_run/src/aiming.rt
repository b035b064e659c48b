//! Inputs near the numbers that programs name.

use crate::numbers::Numbers;
use sf_insn::{Input, RawInsn};
use std::alloc::{AllocError, Global};

/// The numbers that programs name, those beside them, and a few others.
fn numbers_near(alloc: Global, code: &[RawInsn]) -> Result<Vec<u32>, AllocError> {
    let mut near = Vec::from_array(alloc, [0, 1, 31, 0x7FFFFFFF, 0x80000000, 0xFFFFFFFF])?;
    for raw in code {
        near.push(raw.k)?;
        near.push(raw.k.wrapping_add(1))?;
        near.push(raw.k.wrapping_sub(1))?;
    }
    Ok(near)
}

/// An input whose words are near these numbers, or are any.
fn aimed_input(numbers: &mut Numbers, near: &[u32]) -> Input {
    let mut words = [0u32; 16];
    for i in 0..16 {
        let at = numbers.below(near.len().min(100_000) as u32 + 4) as usize;
        words[i] = if at < near.len() {
            near[at]
        } else {
            numbers.next()
        };
    }
    Input { words }
}

/// Forty such inputs.
pub fn aimed_inputs(
    alloc: Global,
    numbers: &mut Numbers,
    code: &[RawInsn],
) -> Result<Vec<Input>, AllocError> {
    let near = numbers_near(alloc, code)?;
    let mut inputs = Vec::new(alloc);
    for _ in 0..40 {
        inputs.push(aimed_input(numbers, &near))?;
    }
    Ok(inputs)
}
