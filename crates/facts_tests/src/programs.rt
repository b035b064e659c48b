//! Tests of which programs and stacks are plain and the same, and of a stack without a program.
use samples::{ALLOW, op, raw};
use sf_check::{Fault, Program, Stack, check};
use sf_insn::RawInsn;
use std::alloc::Global;

/// The program of these instructions.
fn check_program(alloc: Global, raws: &[RawInsn]) -> Result<Program, Fault> {
    check(alloc, raws)
}

/// Whether `ld [0]; ret 0x7fff0000` and these instructions are the same program.
fn is_allowing(alloc: Global, raws: &[RawInsn]) -> Result<bool, Fault> {
    let allowing = check_program(alloc, &[op(0x20, 0), ALLOW])?;
    Ok(allowing.is_same(&check_program(alloc, raws)?))
}

#[test]
fn programs_are_the_same_whatever_stands_in_unused_fields(rt: HostRuntime) {
    for (what, raws, wanted) in [
        ("spelled so", [op(0x20, 0), ALLOW].as_slice(), true),
        (
            "spelled otherwise",
            &[raw(0x20, 3, 4, 0), raw(0x06, 9, 0, 0x7fff0000)],
            true,
        ),
        ("of another word", &[op(0x20, 4), ALLOW], false),
        ("longer", &[op(0x20, 0), op(0x87, 0), ALLOW], false),
    ] {
        assert!(rt; is_allowing(rt.alloc(), raws) == Ok(wanted), "{what}");
    }
}

/// A stack of `count` programs `ret 0x7fff0000`, and of one more of these instructions.
fn stack_with(alloc: Global, count: usize, newest: &[RawInsn]) -> Result<Stack, Fault> {
    let mut programs = Vec::new(alloc);
    for _i in 0..count {
        programs.push(check_program(alloc, &[ALLOW])?)?;
    }
    programs.push(check_program(alloc, newest)?)?;
    Stack::of(programs)
}

/// Whether a stack of 64 programs `ret 0x7fff0000` is the same as one of `count` such programs and one more of these
/// instructions.
fn is_64_returns(alloc: Global, count: usize, newest: &[RawInsn]) -> Result<bool, Fault> {
    let returns = stack_with(alloc, 63, &[ALLOW])?;
    Ok(returns.is_same(&stack_with(alloc, count, newest)?))
}

#[test]
fn stacks_are_the_same_where_all_their_programs_are(rt: HostRuntime) {
    for (what, count, newest, wanted) in [
        ("as many", 63, [ALLOW].as_slice(), true),
        ("fewer", 62, &[ALLOW], false),
        ("a longer one", 63, &[op(0x84, 0), ALLOW], false),
    ] {
        let found = is_64_returns(rt.alloc(), count, newest);
        assert!(rt; found == Ok(wanted), "{what}");
    }
}

#[test]
fn a_stack_has_a_program(rt: HostRuntime) {
    assert!(rt; Stack::of(Vec::new(rt.alloc())).err() == Some(Fault::NoFilter));
}

/// Whether the stack of this instruction and a return is plain.
fn is_plain(alloc: Global, insn: RawInsn) -> Result<bool, Fault> {
    let mut programs = Vec::new(alloc);
    programs.push(check_program(alloc, &[insn, op(0x06, 0)])?)?;
    Ok(Stack::of(programs)?.is_plain())
}

/// The codes and the constants of instructions, and whether a program with one is plain.
const PLAIN: [(u16, u32, bool); 12] = [
    (0x20, 0, true),
    (0x05, 0, true),
    (0x15, 5, true),
    (0x25, 5, true),
    (0x35, 5, true),
    (0x45, 0x40000000, true),
    (0x45, 1, true),
    (0x45, 5, false),
    (0x45, 0, false),
    (0x1d, 0, false),
    (0x54, 1, false),
    (0x07, 0, false),
];

#[test]
fn plain_programs_compare_words_or_ask_for_one_bit(rt: HostRuntime) {
    for (code, k, wanted) in PLAIN {
        let found = is_plain(rt.alloc(), op(code, k));
        assert!(rt; found == Ok(wanted), "{code:x} {k}");
    }
}
