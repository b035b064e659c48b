//! Tests of `Program::skip_others`: which tests for other numbers than the one that A has are skipped.
use samples::{op, raw};
use sf_check::{Program, Skipped, check};
use sf_insn::RawInsn;
use std::alloc::Global;
use std::test::Fail;

/// A test for a number, which skips this many instructions where A is another one.
fn ask(number: u32, skips: u8) -> RawInsn {
    raw(0x15, 0, skips, number)
}

/// The program of these instructions and a return.
fn program_of(alloc: Global, mut code: Vec<RawInsn>) -> Result<Program, Fail> {
    code.push(op(0x06, 0))?;
    Ok(check(alloc, &code)?)
}

/// How many tests are skipped from a place on, and up to which place; `None` where the program has no such place.
fn skip_others(program: &Program, place: usize, number: u32) -> Option<Skipped> {
    if place < program.insns().len() {
        Some(program.skip_others(place, number))
    } else {
        None
    }
}

/// A place, the number that A has, how many tests are skipped there, and up to which place.
type Case = (usize, u32, usize, usize);

/// The place and the number of the first case that is wrong.
fn wrong_chain(program: &Program, cases: &[Case]) -> Option<(usize, u32)> {
    for (place, number, count, behind) in cases {
        let (count, behind) = (*count, *behind);
        if skip_others(program, *place, *number) != Some(Skipped { count, behind }) {
            return Some((*place, *number));
        }
    }
    None
}

/// Twenty tests for 10 to 29, from place 1 on, each with a return of its own behind it, and a return at 41.
fn tests_over_returns(alloc: Global) -> Result<Program, Fail> {
    let mut code = vec![in alloc; op(0x20, 0); 1]?;
    for number in 10..30 {
        code.push(ask(number, 1))?;
        code.push(op(0x06, number))?;
    }
    program_of(alloc, code)
}

/// The test at place 0 asks for 100 and skips twelve. Those at the places 1 to 25 ask for the number of their place,
/// and a return is at 26. So the tests at 0 and at 12 both lead to 13 where they fail. That place is in the chain of 0,
/// and the other chain ends in the midst of it.
fn meeting_chains(alloc: Global) -> Result<Program, Fail> {
    let mut code = vec![in alloc; ask(100, 12); 1]?;
    for number in 1..26 {
        code.push(ask(number, 0))?;
    }
    program_of(alloc, code)
}

/// Tests for 10 to 19 at the places 1 to 10, for 15 again at 11, for 20 to 29 from 12 on, and a return at 22.
fn number_twice(alloc: Global) -> Result<Program, Fail> {
    let mut code = vec![in alloc; op(0x20, 0); 1]?;
    for number in 10..20 {
        code.push(ask(number, 0))?;
    }
    code.push(ask(15, 0))?;
    for number in 20..30 {
        code.push(ask(number, 0))?;
    }
    program_of(alloc, code)
}

/// Tests for 1, 2 and 3 at the places 0, 201 and 457, and returns at all others up to 458.
fn far_tests(alloc: Global) -> Result<Program, Fail> {
    let mut code = vec![in alloc; op(0x06, 0); 458]?;
    code[0] = ask(1, 200);
    code[201] = ask(2, 255);
    code[457] = ask(3, 0);
    program_of(alloc, code)
}

const OVER_RETURNS: [Case; 13] = [
    (1, 10, 0, 1),
    (1, 11, 1, 3),
    (1, 20, 10, 21),
    (1, 29, 19, 39),
    (1, 9, 20, 41),
    (1, 0xFFFFFFFF, 20, 41),
    (11, 15, 0, 11),
    (11, 13, 15, 41),
    (37, 29, 1, 39),
    (37, 27, 2, 41),
    (0, 10, 0, 0),
    (2, 9, 0, 2),
    (41, 9, 0, 41),
];

#[test]
fn tests_fail_over_returns(rt: HostRuntime) -> Result<(), Fail> {
    assert_eq!(rt;
        wrong_chain(&tests_over_returns(rt.alloc())?, &OVER_RETURNS),
        None
    );
    Ok(())
}

const MEETING: [Case; 12] = [
    (0, 100, 0, 0),
    (0, 5, 14, 26),
    (0, 13, 1, 13),
    (0, 20, 8, 20),
    (1, 1, 0, 1),
    (1, 12, 11, 12),
    (1, 13, 12, 13),
    (1, 25, 24, 25),
    (1, 100, 25, 26),
    (12, 12, 0, 12),
    (12, 5, 14, 26),
    (20, 19, 6, 26),
];

#[test]
fn a_chain_ends_in_the_midst_of_another(rt: HostRuntime) -> Result<(), Fail> {
    assert_eq!(rt; wrong_chain(&meeting_chains(rt.alloc())?, &MEETING), None);
    Ok(())
}

const TWICE: [Case; 5] = [
    (1, 15, 5, 6),
    (6, 15, 0, 6),
    (7, 15, 4, 11),
    (12, 15, 10, 22),
    (1, 25, 16, 17),
];

#[test]
fn a_chain_asks_for_a_number_twice(rt: HostRuntime) -> Result<(), Fail> {
    assert_eq!(rt; wrong_chain(&number_twice(rt.alloc())?, &TWICE), None);
    Ok(())
}

const FAR: [Case; 6] = [
    (0, 1, 0, 0),
    (0, 2, 1, 201),
    (0, 3, 2, 457),
    (0, 4, 3, 458),
    (201, 1, 2, 458),
    (457, 3, 0, 457),
];

#[test]
fn tests_fail_far(rt: HostRuntime) -> Result<(), Fail> {
    assert_eq!(rt; wrong_chain(&far_tests(rt.alloc())?, &FAR), None);
    Ok(())
}

/// Whether an instruction, in a program with a return behind it, is a test of equality.
fn is_equal_test(alloc: Global, insn: RawInsn) -> Option<bool> {
    let program = check(alloc, &[insn, op(0x06, 0)]).ok()?;
    Some(program.insns().first()?.equal_test().is_some())
}

#[test]
fn tells_tests_of_equality(rt: HostRuntime) {
    // jeq #5; jeq x; jgt #5; ret #5
    for (code, k, wanted) in [
        (0x15, 5, true),
        (0x1d, 0, false),
        (0x25, 5, false),
        (0x06, 5, false),
    ] {
        let found = is_equal_test(rt.alloc(), op(code, k));
        assert!(rt; found == Some(wanted), "{code:x}");
    }
}
