//! The code of comparisons.

ghost use Rattle.std.specs.Prelude.{◌≡◌, ◌++◌, ◌+◌, ◌<◌, ◌^◌, IfOk, OnOk, true, false};
ghost use Rattle.sf_profile.specs.Form.{comparison_code, comparisons_code, equal_code, high, low, masked_code, order_code};
ghost use Rattle.sf_profile.specs.Meaning.{word_of};

use crate::instruction::Instruction;
use crate::rules::{Argument, Comparing, Comparison};
use sf_insn::Test;
use std::alloc::{AllocError, Global};

/// What of an argument is tested against which value, and how many instructions behind the test's code are skipped.
#[derive(Clone, Copy, Debug)]
struct TestAndSkips {
    /// Whether all 64 bits are tested; if not, the low 32 are.
    wide: bool,
    /// The word with the low half of the argument.
    word: u8,
    value: u64,
    on_true: usize,
    on_false: usize,
    ghost near: { (word < 15) × (on_true < 2 ^ 63) × (on_false < 2 ^ 63) },
}

pub(crate) fn low(value: u64) -> u32
    ensures { result ≡ low value }
{
    (value & 0xffff_ffff) as u32
}

pub(crate) fn high(value: u64) -> u32
    ensures { result ≡ high value }
{
    (value >> 32) as u32
}

/// The place of the word in an input that is the low half of the argument. The word behind it is the high half.
pub(crate) fn word_of(argument: Argument) -> u8
    ensures value { result ≡ word_of argument }
    ensures small { result < 15 }
{
    match argument {
        Argument::Arg0 => 4,
        Argument::Arg1 => 6,
        Argument::Arg2 => 8,
        Argument::Arg3 => 10,
        Argument::Arg4 => 12,
        Argument::Arg5 => 14,
    }
}

/// Adds a test for equality: first of the high halves, then of the low ones. Where the high halves differ, the first
/// branch also skips the rest of this code, two instructions.
fn push_equal(code: &mut Vec<Instruction>, test: TestAndSkips) -> Result<(), AllocError>
    ensures { OnOk result (code.new.items ≡ code.old.items
        ++ equal_code test.wide test.word test.value test.on_true test.on_false) }
{
    if test.wide {
        return code.extend_from_slice(&[
            Instruction::Load(test.word + 1),
            Instruction::Branch(Test::Equal, high(test.value), 0, test.on_false + 2),
            Instruction::Load(test.word),
            Instruction::Branch(Test::Equal, low(test.value), test.on_true, test.on_false),
        ]);
    }
    code.extend_from_slice(&[
        Instruction::Load(test.word),
        Instruction::Branch(Test::Equal, low(test.value), test.on_true, test.on_false),
    ])
}

/// Adds a test for an order, `Greater` or `GreaterOrEqual`. The high halves decide; where they are equal, the low ones
/// do. Where the high halves differ, a branch also skips the rest of this code.
fn push_order(
    code: &mut Vec<Instruction>,
    order: Test,
    test: TestAndSkips,
) -> Result<(), AllocError>
    ensures { OnOk result (code.new.items ≡ code.old.items
        ++ order_code test.wide order test.word test.value test.on_true test.on_false) }
{
    if test.wide {
        return code.extend_from_slice(&[
            Instruction::Load(test.word + 1),
            Instruction::Branch(Test::Greater, high(test.value), test.on_true + 3, 0),
            Instruction::Branch(Test::Equal, high(test.value), 0, test.on_false + 2),
            Instruction::Load(test.word),
            Instruction::Branch(order, low(test.value), test.on_true, test.on_false),
        ]);
    }
    code.extend_from_slice(&[
        Instruction::Load(test.word),
        Instruction::Branch(order, low(test.value), test.on_true, test.on_false),
    ])
}

/// Adds a test whether an argument has the bits of `value_two` under the mask `test.value`.
fn push_masked(
    code: &mut Vec<Instruction>,
    test: TestAndSkips,
    value_two: u64,
) -> Result<(), AllocError>
    ensures { OnOk result (code.new.items ≡ code.old.items
        ++ masked_code test.wide test.word test.value value_two test.on_true test.on_false) }
{
    let (high_mask, low_mask) = (high(test.value), low(test.value));
    let (high_bits, low_bits) = (high(value_two) & high_mask, low(value_two) & low_mask);
    if test.wide {
        return code.extend_from_slice(&[
            Instruction::Load(test.word + 1),
            Instruction::Mask(high_mask),
            Instruction::Branch(Test::Equal, high_bits, 0, test.on_false + 3),
            Instruction::Load(test.word),
            Instruction::Mask(low_mask),
            Instruction::Branch(Test::Equal, low_bits, test.on_true, test.on_false),
        ]);
    }
    code.extend_from_slice(&[
        Instruction::Load(test.word),
        Instruction::Mask(low_mask),
        Instruction::Branch(Test::Equal, low_bits, test.on_true, test.on_false),
    ])
}

/// Adds the code of a comparison, of 64 bits or of the low 32. Where it doesn't hold, `after` instructions behind this
/// code are skipped. No instruction tests for `NotEqual`, `Less` or `LessOrEqual`: for these the contrary is tested,
/// and the two skips change places.
fn push_comparison(
    code: &mut Vec<Instruction>,
    wide: bool,
    comparison: Comparison,
    after: usize,
) -> Result<(), AllocError>
    requires { after < 2 ^ 63 }
    ensures { OnOk result (code.new.items ≡ code.old.items
        ++ comparison_code wide comparison after) }
{
    let word = word_of(comparison.argument);
    let value = comparison.value;
    let holds = TestAndSkips {
        wide,
        word,
        value,
        on_true: 0,
        on_false: after,
    };
    let fails = TestAndSkips {
        wide,
        word,
        value,
        on_true: after,
        on_false: 0,
    };
    match comparison.comparing {
        Comparing::NotEqual => push_equal(code, fails),
        Comparing::Less => push_order(code, Test::GreaterOrEqual, fails),
        Comparing::LessOrEqual => push_order(code, Test::Greater, fails),
        Comparing::Equal => push_equal(code, holds),
        Comparing::GreaterOrEqual => push_order(code, Test::GreaterOrEqual, holds),
        Comparing::Greater => push_order(code, Test::Greater, holds),
        Comparing::MaskedEqual => push_masked(code, holds, comparison.value_two),
    }
}

/// The code of a rule's comparisons. Where one doesn't hold, the code of those behind it is skipped, and the return
/// that the caller puts behind them. The length of the code behind a comparison says how far it skips, so this calls
/// itself.
pub(crate) fn comparisons_code(
    alloc: Global,
    wide: bool,
    comparisons: &[Comparison],
) -> Result<Vec<Instruction>, AllocError>
    ensures { IfOk result (λ v. v.items ≡ comparisons_code wide comparisons.now) }
{
    let mut code = Vec::new(alloc);
    let [first, rest @ ..] = comparisons else {
        return Ok(code);
    };
    let others = comparisons_code(alloc, wide, rest)?;
    push_comparison(&mut code, wide, *first, others.len() + 1)?;
    code.extend_from_slice(&others)?;
    Ok(code)
}
