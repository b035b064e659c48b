//! Random programs of all codes. Four scratch words are set first, each to two bits of a word of the input. Operations
//! of all kinds follow, and then steps that begin with a load of A, to which tests lead. So wherever A and X are used
//! they depend on few bits of the input, and diagrams stay small. At the end A is loaded and returned.

ghost use Rattle.std.specs.Prelude.{◌<◌};

use crate::numbers::Numbers;
use samples::{op, raw};
use sf_insn::RawInsn;
use std::alloc::{AllocError, Global};

/// Operations on A and a constant, and on A and X.
const OPERATIONS: [u16; 18] = [
    0x04, 0x14, 0x24, 0x34, 0x44, 0x54, 0x64, 0x74, 0xa4, 0x0c, 0x1c, 0x2c, 0x3c, 0x4c, 0x5c, 0x6c,
    0x7c, 0xac,
];

/// Tests of A against a constant, and against X.
const TESTS: [u16; 8] = [0x15, 0x25, 0x35, 0x45, 0x1d, 0x2d, 0x3d, 0x4d];

/// Loads, copies and the negation, which need no more than their code.
const PLAIN: [u16; 5] = [0x80, 0x81, 0x07, 0x87, 0x84];

/// A constant: a small one, one with one bit, or any.
fn constant(numbers: &mut Numbers) -> u32 {
    match numbers.below(4) {
        0 => numbers.below(16),
        1 => 1 << numbers.below(32),
        2 => numbers.below(0x10000),
        _ => numbers.next(),
    }
}

/// A mask of two bits, which may be one.
fn two_bits(numbers: &mut Numbers) -> u32 {
    (1 << numbers.below(32)) | (1 << numbers.below(32))
}

/// A load, a copy, or the negation.
fn move_insn(numbers: &mut Numbers) -> RawInsn {
    match numbers.below(5) {
        0 => op(0x00, constant(numbers)),
        1 => op(0x01, constant(numbers)),
        2 => op(0x60, numbers.below(4)),
        3 => op(0x61, numbers.below(4)),
        _ => op(PLAIN[numbers.below(5) as usize], 0),
    }
}

/// An operation on A.
fn operation(numbers: &mut Numbers) -> RawInsn {
    let code = OPERATIONS[numbers.below(18) as usize];
    let k = constant(numbers);
    match code {
        0x34 => op(code, k.max(1)),
        0x64 | 0x74 => op(code, k % 32),
        _ => op(code, k),
    }
}

/// A store of A or X.
fn store_insn(numbers: &mut Numbers) -> RawInsn {
    match numbers.below(2) {
        0 => op(0x02, numbers.below(4)),
        _ => op(0x03, numbers.below(4)),
    }
}

/// A test that skips so many instructions on one of its sides.
fn test(numbers: &mut Numbers, count: u32) -> RawInsn
    requires { count < 256 }
{
    let code = TESTS[numbers.below(8) as usize];
    let k = constant(numbers);
    match numbers.below(2) {
        0 => raw(code, count as u8, 0, k),
        _ => raw(code, 0, count as u8, k),
    }
}

/// A step of three instructions, with so many steps behind it.
fn random_step(numbers: &mut Numbers, behind: u32) -> [RawInsn; 3]
    requires { behind < 80 }
{
    let load = op(0x60, numbers.below(4));
    let skipped = 3 * numbers.below(behind + 1);
    match numbers.below(6) {
        0 => [load, test(numbers, 1), op(0x05, skipped)],
        1 => [load, test(numbers, 1), op(0x06, constant(numbers))],
        _ => [load, operation(numbers), test(numbers, skipped)],
    }
}

/// A lawful program.
pub fn random_code(alloc: Global, numbers: &mut Numbers) -> Result<Vec<RawInsn>, AllocError> {
    let mut code = Vec::new(alloc);
    for place in 0..4 {
        code.push(op(0x20, 4 * numbers.below(16)))?;
        code.push(op(0x54, two_bits(numbers)))?;
        code.push(op(0x02, place))?;
    }
    for _ in 0..3 {
        code.push(move_insn(numbers))?;
        code.push(operation(numbers))?;
        code.push(store_insn(numbers))?;
    }
    let steps = 2 + numbers.below(6);
    for i in 0..steps {
        for insn in random_step(numbers, steps - 1 - i) {
            code.push(insn)?;
        }
    }
    code.push(op(0x60, numbers.below(4)))?;
    code.push(op(0x16, 0))?;
    Ok(code)
}
