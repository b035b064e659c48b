//! What gates see of workers: that there is a call for each work and each sheet, whose calls come and how they are
//! numbered, that as many work as are asked for, and that no call waits for one that is held.
use crate::kit::{counts, explore_under, sweep_under};
use crate::watch::Plan;
use samples::{ALLOW, execve_refused, four_tests, low_bits, nested_tests, stack_of};
use sf_ask::Reply;
use sf_check::Stack;
use sf_crew::{Gate, explore};
use sf_insn::RawInsn;
use std::alloc::Global;
use std::sync::atomic::{AtomicUsize, Ordering};
use std::sync::{Arc, Wait};
use std::test::Fail;
use std::thread::Threads;

/// Four tests of bits are 31 works, of which each child of the first has 15 with those below it.
#[test]
fn workers_explore_as_gates_let_them(rt: HostRuntime) -> Result<(), Fail> {
    let sixteen = counts(0, 16, 0, 15, 31);
    let cases = [
        // in pairs to the end
        (2, Plan::Pairs(1, 15), [15, 15, 0, 0]),
        // a held worker stops no other
        (2, Plan::Held(2, 17), [0; 4]),
        // the first work isn't committed before its call has gone, so there is nothing else to work
        (2, Plan::First, [0; 4]),
        (8, Plan::First, [0; 4]),
        // whichever seven works came first, four pieces or more are left then
        (4, Plan::Gathering(7), [1; 4]),
        // a held worker has an empty bench, so two steal from a third, whichever stands next to it
        (3, Plan::OneBench, [1, 1, 1, 0]),
    ];
    for (workers, plan, held) in cases {
        let found = explore_under(&rt, plan, &low_bits(15), 31, workers)?;
        assert_eq!(rt; found, (sixteen, (31, held, [0, 0])));
    }
    Ok(())
}

/// Both workers pass the gate before one of them commits, though the budget has room for only one of the two works.
/// (The worker of that one makes a further work, which isn't committed.)
#[test]
fn two_works_are_ready_where_one_may_be_committed(rt: HostRuntime) -> Result<(), Fail> {
    let (found, (_calls, held, wrong)) = explore_under(
        &rt,
        Plan::Pairs(1, 1),
        &low_bits(15),
        2,
        2,
    )?;
    assert_eq!(rt;
        (found, held, wrong),
        (counts(3, 0, 0, 2, 2), [1, 1, 0, 0], [0, 0])
    );
    Ok(())
}

#[test]
fn two_workers_work_at_once(rt: HostRuntime) -> Result<(), Fail> {
    let filter = low_bits(0xffff);
    let (found, seen) = explore_under(&rt, Plan::Pairs(1, 1), &filter, 131071, 2)?;
    assert_eq!(rt; (found.settled, found.commits), (65536, 131071));
    assert_eq!(rt; seen, (131071, [1, 1, 0, 0], [0, 0]));
    Ok(())
}

#[test]
fn two_workers_work_at_once_on_a_small_stack(rt: HostRuntime) -> Result<(), Fail> {
    let (found, seen) = explore_under(&rt, Plan::Pairs(1, 1), &execve_refused(), 100, 2)?;
    assert_eq!(rt; (found.commits, seen), (5, (5, [1, 1, 0, 0], [0, 0])));
    Ok(())
}

/// There are as many regions as calls.
#[test]
fn workers_judge_as_gates_let_them(rt: HostRuntime) -> Result<(), Fail> {
    let cases = [
        // in pairs to the end
        (2, Plan::Pairs(0, 8), 15, 16, [8, 8, 0, 0]),
        (2, Plan::Pairs(1, 1), 3, 4, [1, 1, 0, 0]),
        // a held worker stops no other
        (2, Plan::Held(1, 16), 15, 16, [0; 4]),
        // four workers have a region each at once
        (4, Plan::Gathering(0), 15, 16, [1; 4]),
        // the gate sees each sheet
        (2, Plan::Count, 0xff, 256, [0; 4]),
        (8, Plan::Count, 0xff, 256, [0; 4]),
        (64, Plan::Count, 0xff, 256, [0; 4]),
    ];
    for (workers, plan, bits, calls, held) in cases {
        let found = sweep_under(&rt, plan, &low_bits(bits), workers)?;
        assert_eq!(rt; found, (Some(Reply::Never), (calls, held, [0, 0])));
    }
    Ok(())
}

/// For how many workers the calls or the commits aren't this many. `None`: for no number of workers.
fn other_workers<R: Threads + Wait + Sync + AllocGlobal>(
    rt: &R,
    filter: &[RawInsn],
    commits: u32,
) -> Result<Option<usize>, Fail> {
    for workers in [1, 2, 8, 64] {
        let (found, seen) = explore_under(rt, Plan::Count, filter, 1000, workers)?;
        if found.commits != commits || seen != (commits as usize, [0; 4], [0, 0]) {
            return Ok(Some(workers));
        }
    }
    Ok(None)
}

#[test]
fn the_gate_sees_each_commit_of_all_workers(rt: HostRuntime) -> Result<(), Fail> {
    assert_eq!(rt; other_workers(&rt, &execve_refused(), 5)?, None);
    assert_eq!(rt; other_workers(&rt, &nested_tests(), 3)?, None);
    assert_eq!(rt; other_workers(&rt, &four_tests(), 7)?, None);
    assert_eq!(rt; other_workers(&rt, &low_bits(0xff), 511)?, None);
    Ok(())
}

/// How many handles of a stack there are at the first call of all.
#[derive(Drop)]
struct Handles {
    stack: Arc<Stack>,
    seen: AtomicUsize,
}

impl Gate for Handles {
    fn pass(&self, _worker: usize, _call: usize) {
        if self.seen.load(Ordering::SeqCst) == 0 {
            self.seen
                .store(Arc::strong_count(&self.stack), Ordering::SeqCst);
        }
    }
}

/// How many there are where the stack of a filter is explored by this many workers.
fn handles_of<R: Threads + Wait + Sync>(
    rt: &R,
    alloc: Global,
    filter: &[RawInsn],
    workers: usize,
) -> Result<usize, Fail> {
    let stack = stack_of(alloc, &[filter])?;
    let gate = Handles {
        stack: Arc::try_clone(&stack)?,
        seen: AtomicUsize::new(0),
    };
    explore(rt, alloc, stack, 1, workers.clamp(1, 64), &gate)?;
    Ok(gate.seen.load(Ordering::SeqCst))
}

/// Each piece has a handle of its stack, so the two pieces that a work was split in are there when the gate sees it.
#[test]
fn the_gate_sees_a_work_that_is_made(rt: HostRuntime) -> Result<(), Fail> {
    for workers in [1, 2] {
        let more = handles_of(&rt, rt.alloc(), &[ALLOW], workers)?.wrapping_add(2);
        let split = handles_of(&rt, rt.alloc(), &execve_refused(), workers)?;
        assert_eq!(rt; split, more);
    }
    Ok(())
}
