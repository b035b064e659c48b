//! One worker, with no thread.
use crate::kit::{explore_under, sweep_under};
use crate::watch::Plan;
use samples::{ALLOW, equality_tests, execve_refused, op, other_text};
use sf_crew::Fault;
use sf_insn::RawInsn;
use std::alloc::Global;
use std::test::Fail;

#[test]
fn the_gate_sees_each_commit(rt: HostRuntime) -> Result<(), Fail> {
    for (budget, commits) in [(100, 5), (3, 3)] {
        let (found, seen) = explore_under(&rt, Plan::Count, &execve_refused(), budget, 1)?;
        assert_eq!(rt;
            (found.commits, seen),
            (commits, (commits as usize, [0; 4], [0, 0]))
        );
    }
    Ok(())
}

#[test]
fn the_gate_sees_each_commit_of_a_long_filter(rt: HostRuntime) -> Result<(), Fail> {
    let filter = equality_tests(rt.alloc(), 100)?;
    let (found, seen) = explore_under(&rt, Plan::Count, &filter, 1000, 1)?;
    assert_eq!(rt; (found.commits, seen), (201, (201, [0; 4], [0, 0])));
    Ok(())
}

/// 100 numbers in a region each, and one of all others.
#[test]
fn the_gate_sees_each_sheet(rt: HostRuntime) -> Result<(), Fail> {
    let filter = equality_tests(rt.alloc(), 100)?;
    let (reply, seen) = sweep_under(&rt, Plan::Count, &filter, 1)?;
    assert_eq!(rt; (reply.is_some(), seen), (true, (101, [0; 4], [0, 0])));
    Ok(())
}

/// 1,500 numbers that a word has, each in a region of its own, and one region of all others.
#[test]
fn a_word_has_none_of_many_numbers(rt: HostRuntime) -> Result<(), Fail> {
    let filter = equality_tests(rt.alloc(), 1500)?;
    let (found, _seen) = explore_under(&rt, Plan::Count, &filter, 3001, 1)?;
    assert_eq!(rt; (found.left, found.settled, found.commits), (0, 1501, 3001));
    Ok(())
}

/// `ld [0]`, 4093 times `add 1`, `jeq #5`, and `ret 0x7fff0000` for both: each sum is a node of its own.
fn thousands_of_sums(alloc: Global) -> Result<Vec<RawInsn>, Fail> {
    let mut raws = vec![in alloc; op(0x04, 1); 4094]?;
    raws[0] = op(0x20, 0);
    raws.push(op(0x15, 5))?;
    raws.push(ALLOW)?;
    Ok(raws)
}

#[test]
fn a_path_computes_thousands_of_words(rt: HostRuntime) -> Result<(), Fail> {
    let filter = thousands_of_sums(rt.alloc())?;
    let (found, _seen) = explore_under(&rt, Plan::Count, &filter, 3, 1)?;
    assert_eq!(rt; (found.settled, found.left), (2, 0));
    Ok(())
}

#[test]
fn faults_say_what_is_wrong(rt: HostRuntime) -> Result<(), Fail> {
    let cases = [(Fault::Memory, "out of memory")];
    assert_eq!(rt; other_text(rt.alloc(), &cases)?, None);
    Ok(())
}

#[test]
fn faults_have_their_numbers(rt: HostRuntime) -> Result<(), Fail> {
    assert_eq!(rt; Fault::Memory.number(), 60);
    Ok(())
}
