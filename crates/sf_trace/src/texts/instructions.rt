//! The text of `check --instructions`: the instructions of a filter, in the form that the kernel's `bpf_asm` reads.
ghost use Rattle.std.specs.Prelude.{◌≡◌, ◌+◌, ◌<◌, ◌≤◌, ◌++◌, ℕ, List, OnOk, length, string_bytes};
ghost use Rattle.sf_trace.specs.Instructions.{AreInsnLines, alu_text, branch_text, comment_text, insn_line, insn_lines, insn_text, operand_text, operation_text, test_text};

use sf_check::{Insn, Operand, Program};
use sf_insn::{BinOp, Test};
use sf_stack::reached;
use std::alloc::{AllocError, Global};

fn name_of_operation(op: BinOp) -> &'static str
    ensures { result.now ≡ operation_text op }
{
    match op {
        BinOp::Add => "add",
        BinOp::Sub => "sub",
        BinOp::Mul => "mul",
        BinOp::Div => "div",
        BinOp::Or => "or",
        BinOp::And => "and",
        BinOp::Lsh => "lsh",
        BinOp::Rsh => "rsh",
        BinOp::Xor => "xor",
    }
}

fn name_of_test(test: Test) -> &'static str
    ensures { result.now ≡ test_text test }
{
    match test {
        Test::Equal => "jeq",
        Test::Greater => "jgt",
        Test::GreaterOrEqual => "jge",
        Test::AnyBit => "jset",
    }
}

fn comment_of(is_reached: bool) -> &'static str
    ensures { result.now ≡ comment_text is_reached }
{
    if is_reached { "" } else { " ; never reached" }
}

fn push_operand(text: &mut String, operand: Operand) -> Result<(), AllocError>
    ensures { OnOk result (string_bytes text.new ≡ string_bytes text.old
        ++ operand_text operand) }
{
    match operand {
        Operand::Constant(k) => write!(text, "#0x{k:x}"),
        Operand::X => write!(text, "x"),
    }
}

fn push_alu(text: &mut String, op: BinOp, operand: Operand) -> Result<(), AllocError>
    ensures { OnOk result (string_bytes text.new ≡ string_bytes text.old ++ alu_text op operand) }
{
    let name = name_of_operation(op);
    write!(text, "{name} ")?;
    push_operand(text, operand)
}

fn push_branch(
    text: &mut String,
    place: usize,
    test: Test,
    operand: Operand,
    on_true: u8,
    on_false: u8,
) -> Result<(), AllocError>
    requires small { place < 4096 }
    ensures { OnOk result (string_bytes text.new ≡ string_bytes text.old
        ++ branch_text place test operand on_true on_false) }
{
    let name = name_of_test(test);
    write!(text, "{name} ")?;
    push_operand(text, operand)?;
    let if_true = place + 1 + usize::from(on_true);
    let if_false = place + 1 + usize::from(on_false);
    write!(text, ", l{if_true}, l{if_false}")
}

fn push_insn(text: &mut String, place: usize, insn: Insn) -> Result<(), AllocError>
    requires small { place < 4096 }
    ensures { OnOk result (string_bytes text.new ≡ string_bytes text.old
        ++ insn_text place insn) }
{
    match insn {
        Insn::LoadWord(word) => {
            let offset = 4 * usize::from(word);
            write!(text, "ld [{offset}]")
        }
        Insn::LoadConstant(k) => write!(text, "ld #0x{k:x}"),
        Insn::LoadScratch(k) => write!(text, "ld M[{k}]"),
        Insn::LoadLength => write!(text, "ld #len"),
        Insn::LoadXConstant(k) => write!(text, "ldx #0x{k:x}"),
        Insn::LoadXScratch(k) => write!(text, "ldx M[{k}]"),
        Insn::LoadXLength => write!(text, "ldx #len"),
        Insn::StoreA(k) => write!(text, "st M[{k}]"),
        Insn::StoreX(k) => write!(text, "stx M[{k}]"),
        Insn::Alu(op, operand) => push_alu(text, op, operand),
        Insn::Negate => write!(text, "neg"),
        Insn::Jump(k) => {
            let target = place + 1 + k as usize;
            write!(text, "ja l{target}")
        }
        Insn::Branch(test, operand, on_true, on_false) => {
            push_branch(text, place, test, operand, on_true, on_false)
        }
        Insn::ReturnConstant(k) => write!(text, "ret #0x{k:x}"),
        Insn::ReturnA => write!(text, "ret a"),
        Insn::Tax => write!(text, "tax"),
        Insn::Txa => write!(text, "txa"),
    }
}

fn push_line(
    text: &mut String,
    place: usize,
    insn: Insn,
    is_reached: bool,
) -> Result<(), AllocError>
    requires small { place < 4096 }
    ensures { OnOk result (string_bytes text.new ≡ string_bytes text.old
        ++ insn_line place insn is_reached) }
{
    write!(text, "l{place}: ")?;
    push_insn(text, place, insn)?;
    let comment = comment_of(is_reached);
    write!(text, "{comment}\n")
}

fn push_lines(text: &mut String, code: &[Insn], found: &[bool]) -> Result<(), AllocError>
    requires short { length code.now ≤ 4096 }
    requires count { length found.now ≡ length code.now }
    ensures { OnOk result (string_bytes text.new ≡ string_bytes text.old
        ++ insn_lines found.now 0 code.now) }
{
    for (place, insn) in code.iter().enumerate() {
        push_line(text, place, *insn, found[place])?;
    }
    Ok(())
}

/// Adds the lines of a filter's instructions. One to which no path comes has a comment: behind each test there are
/// paths for both results, whether or not an input gives them.
pub fn push_instructions(
    alloc: Global,
    text: &mut String,
    program: &Program,
) -> Result<(), AllocError>
    ensures { OnOk result ((lines : List ℕ) × AreInsnLines program.now lines
        × (string_bytes text.new ≡ string_bytes text.old ++ lines)) }
{
    let found = reached(alloc, program)?;
    push_lines(text, program.insns(), &found)
}
