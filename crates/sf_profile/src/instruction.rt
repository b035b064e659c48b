//! The five kinds of instruction of the filters that are written.

ghost use Rattle.std.specs.Prelude.{◌≡◌, ◌⊎◌, ◌^◌, ◌&&◌, nat_lt, if◌then◌else◌, true, false, Some, None, IfOk, IfErr, map};
ghost use Rattle.sf_profile.specs.declared.instruction.Instruction.TheVariants.{Branch};
ghost use Rattle.sf_profile.specs.Form.{code_of, fits, is_short, raw_of};

use crate::fault::Fault;
use sf_insn::{MOST_INSNS, RawInsn, Test};
use std::alloc::Global;

#[derive(Clone, Copy, Debug, PartialEq, Eq)]
pub(crate) enum Instruction {
    /// A, the register that tests look at, becomes this word of the input, 0 to 15.
    Load(u8),
    /// A keeps only these bits.
    Mask(u32),
    /// Tests A against a number. The counts say how many instructions are skipped where the test holds, and where it
    /// doesn't.
    Branch(Test, u32, usize, usize),
    /// Skips this many instructions.
    Skip(usize),
    Return(u32),
}

fn code_of(test: Test) -> u16
    ensures { result ≡ code_of test }
{
    match test {
        Test::Equal => 0x15,
        Test::Greater => 0x25,
        Test::GreaterOrEqual => 0x35,
        Test::AnyBit => 0x45,
    }
}

/// A test as it stands in a file; `None` where it skips more than 255 instructions.
fn raw_branch(test: Test, k: u32, on_true: usize, on_false: usize) -> Option<RawInsn>
    ensures { result ≡ (if nat_lt on_true (2 ^ 8) && nat_lt on_false (2 ^ 8)
        then Some (raw_of (Branch test k on_true on_false)) else None) }
{
    Some(RawInsn {
        code: code_of(test),
        jt: u8::try_from(on_true).ok()?,
        jf: u8::try_from(on_false).ok()?,
        k,
    })
}

fn raw_without_jumps(code: u16, k: u32) -> RawInsn
    ensures { result ≡ record { code = code; jt = 0; jf = 0; k = k } }
{
    RawInsn {
        code,
        jt: 0,
        jf: 0,
        k,
    }
}

/// An instruction as it stands in a file: a load (0x20), an AND (0x54), a jump (0x05) or a return (0x06); `None` where
/// a jump is too far. A load names its word by the offset in bytes.
fn raw_of(instruction: Instruction) -> Option<RawInsn>
    ensures { result ≡ (if is_short instruction then Some (raw_of instruction) else None) }
{
    match instruction {
        Instruction::Load(word) => Some(raw_without_jumps(0x20, 4 * u32::from(word))),
        Instruction::Mask(k) => Some(raw_without_jumps(0x54, k)),
        Instruction::Branch(test, k, on_true, on_false) => raw_branch(test, k, on_true, on_false),
        Instruction::Skip(k) => Some(raw_without_jumps(0x05, u32::try_from(k).ok()?)),
        Instruction::Return(k) => Some(raw_without_jumps(0x06, k)),
    }
}

/// Instructions as they stand in a file. `TooLong` also where a jump is too far.
pub(crate) fn raws_of(alloc: Global, code: &[Instruction]) -> Result<Vec<RawInsn>, Fault>
    ensures ok { IfOk result (λ v. (v.items ≡ map raw_of code.now) × (fits code.now ≡ true)) }
    ensures err { IfErr result (λ e. (e ≡ Fault.Memory)
        ⊎ ((e ≡ Fault.TooLong) × (fits code.now ≡ false))) }
{
    if code.len() > MOST_INSNS {
        return Err(Fault::TooLong);
    }
    let mut raws = Vec::new(alloc);
    for instruction in code {
        let Some(raw) = raw_of(*instruction) else {
            return Err(Fault::TooLong);
        };
        raws.push(raw)?;
    }
    Ok(raws)
}
