//! Tests of what a question keeps. Why a question is refused, and what its replies are, is tried by the command lines
//! of `command_run`.
use samples::other_text;
use sf_ask::{ActionSet, Fault, Question};
use sf_run::Action;
use std::alloc::Global;
use std::test::Fail;

/// Which calls of x86-64 in the x32 range are let through.
fn x32_question(alloc: Global) -> Result<Question, Fault> {
    let mut ranges = [(0, u32::MAX); 16];
    ranges[1] = (0xc000003e, 0xc000003e);
    let mut masks = [(0, 0); 16];
    masks[0] = (0x40000000, 0x40000000);
    Question::of_masked(alloc, "x32", ranges, masks, ActionSet::LET_THROUGH)
}

#[test]
fn keeps_what_it_was_given(rt: HostRuntime) -> Result<(), Fail> {
    let asked = x32_question(rt.alloc())?;
    assert_eq!(rt; asked.name(), "x32");
    assert_eq!(rt;
        (asked.range(0), asked.range(1)),
        ((0, u32::MAX), (0xc000003e, 0xc000003e))
    );
    assert_eq!(rt;
        (asked.mask(0), asked.mask(1)),
        ((0x40000000, 0x40000000), (0, 0))
    );
    let actions = asked.actions();
    assert!(rt; actions.has(Action::Log) && actions.has(Action::Allow));
    assert!(rt; !actions.has(Action::Errno) && !actions.has(Action::Other(0x00010000)));
    Ok(())
}

#[test]
fn faults_say_what_is_wrong(rt: HostRuntime) -> Result<(), Fail> {
    let cases = [
        (Fault::Name, "the name is not 1 to 64 printable characters"),
        (Fault::Range, "a range has no number"),
        (Fault::Mask, "a value has a bit outside its mask"),
        (Fault::Actions, "no action is named"),
        (Fault::Memory, "out of memory"),
    ];
    assert_eq!(rt; other_text(rt.alloc(), &cases)?, None);
    Ok(())
}
