//! Tests of what the longest programs and stacks meet.
use samples::{equality_tests, op, stack_of};
use sf_check::{Program, Stack, check};
use sf_insn::{Input, RawInsn};
use sf_run::{trace, walk};
use std::alloc::Global;
use std::test::Fail;

const ZEROS: Input = Input { words: [0; 16] };

/// The input of the call 4000, with zeros at all other places.
const CALL_4000: Input = Input {
    words: [4000, 0, 0, 0, 0, 0, 0, 0, 0, 0, 0, 0, 0, 0, 0, 0],
};

/// The program of these instructions.
fn program_of(alloc: Global, raws: &[RawInsn]) -> Option<Program> {
    check(alloc, raws).ok()
}

/// What a stack meets on an input.
fn trace_of(alloc: Global, stack: &Stack, input: &Input) -> Option<Vec<bool>> {
    trace(alloc, stack, input).ok()
}

/// How many tests the program meets on the number 4000, and where it returns.
fn course_of(alloc: Global, raws: &[RawInsn]) -> Option<(usize, usize)> {
    let course = walk(alloc, &program_of(alloc, raws)?, &CALL_4000).ok()?;
    Some((course.met.len(), course.place))
}

#[test]
fn the_longest_program_meets_each_of_its_tests(rt: HostRuntime) -> Result<(), Fail> {
    let raws = equality_tests(rt.alloc(), 4094)?;
    assert_eq!(rt; course_of(rt.alloc(), &raws), Some((4094, 4095)));
    Ok(())
}

/// What a stack of seven programs like this one meets on the number 4000.
fn trace_of_seven(alloc: Global, raws: &[RawInsn]) -> Option<Vec<bool>> {
    let stack = stack_of(alloc, &[raws; 7]).ok()?;
    trace_of(alloc, &stack, &CALL_4000)
}

/// A path has room for seven of the longest programs.
#[test]
fn a_trace_has_the_tests_of_seven_of_the_longest_programs(rt: HostRuntime) -> Result<(), Fail> {
    let raws = equality_tests(rt.alloc(), 4094)?;
    let met = trace_of_seven(rt.alloc(), &raws).ok_or("no trace")?;
    assert_eq!(rt; met.len(), 28658);
    // the number's test in the first program and in the last one
    for place in [4000, 28564] {
        assert!(rt; met.get(place) == Some(&true), "{place}");
    }
    // those before them, and the last tests of the first program and of all
    for place in [3999, 28563, 4093, 28657] {
        assert!(rt; met.get(place) == Some(&false), "{place}");
    }
    Ok(())
}

/// What the stack meets whose trace is the longest: 64 programs, each of tests whether A is 0 and a return of A. Their
/// path has 32,768 instructions, as many as it may have.
fn longest_trace(alloc: Global) -> Option<Vec<bool>> {
    let mut raws = vec![in alloc; op(0x15, 0); 508].ok()?;
    raws.push(op(0x16, 0)).ok()?;
    let mut filters = [raws.as_slice(); 64];
    filters[0] = raws.get(60..)?;
    let stack = stack_of(alloc, &filters).ok()?;
    trace_of(alloc, &stack, &ZEROS)
}

#[test]
fn the_longest_trace_has_each_test_and_the_bits_of_each_return(
    rt: HostRuntime,
) -> Result<(), Fail> {
    let met = longest_trace(rt.alloc()).ok_or("no trace")?;
    assert_eq!(rt; met.len(), 34500);
    assert_eq!(rt; met.iter().filter(|truth| **truth).count(), 32452);
    assert!(rt; met.get(34467) == Some(&true) && met.get(34468) == Some(&false));
    Ok(())
}
