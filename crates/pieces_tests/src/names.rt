//! Names with a long run of falses, and with more runs than two shared blocks hold.
use crate::scripts::work_off;
use samples::{ALLOW, equality_tests, op, stack_of};
use sf_book::{Book, Settled};
use sf_insn::RawInsn;
use std::alloc::Global;
use std::sync::Arc;
use std::test::Fail;

/// How many tests a filter has.
const TESTS: u32 = 70;

/// `ld [0]`, tests whether A is above 69, 68 and so on, each of which goes on at the next instruction, and then
/// `ret 0x7fff0000`: behind the first true all are true.
fn falling(alloc: Global) -> Result<Vec<RawInsn>, Fail> {
    let mut raws = Vec::new(alloc);
    raws.push(op(0x20, 0))?;
    for number in (0..TESTS).rev() {
        raws.push(op(0x25, number))?;
    }
    raws.push(ALLOW)?;
    Ok(raws)
}

/// The regions of a filter.
fn explored(alloc: Global, filter: &[RawInsn]) -> Result<Settled, Fail> {
    let stack = stack_of(alloc, &[filter])?;
    let mut book = Book::open(alloc, Arc::try_clone(&stack)?, 1000)?;
    work_off(alloc, &mut book)?;
    Ok(book.finish(&stack)?)
}

/// How many of the regions have a name of this many truth values that is before the next one's, as its truth values
/// are.
fn in_order(alloc: Global, settled: &Settled, length: usize) -> Result<u32, Fail> {
    let mut count = 0u32;
    for place in 1..settled.region_count() {
        let before = settled.region(place - 1).name();
        let behind = settled.region(place).name();
        let (first, second) = (before.values(alloc)?, behind.values(alloc)?);
        if first.len() == length
            && first.as_slice() < second.as_slice()
            && before.order(behind).is_lt()
            && behind.order(before).is_gt()
            && behind.order(behind).is_eq()
        {
            count = count.wrapping_add(1);
        }
    }
    Ok(count)
}

/// How many regions a filter has, and how many of their names have 70 truth values and are before the next one.
fn count_names(alloc: Global, filter: &[RawInsn]) -> Result<(usize, u32), Fail> {
    let settled = explored(alloc, filter)?;
    Ok((settled.region_count(), in_order(alloc, &settled, 70)?))
}

#[test]
fn names_with_a_long_run_are_in_order(rt: HostRuntime) -> Result<(), Fail> {
    let filter = equality_tests(rt.alloc(), TESTS)?;
    assert_eq!(rt; count_names(rt.alloc(), &filter)?, (71, 70));
    Ok(())
}

#[test]
fn names_with_many_runs_are_in_order(rt: HostRuntime) -> Result<(), Fail> {
    let filter = falling(rt.alloc())?;
    assert_eq!(rt; count_names(rt.alloc(), &filter)?, (71, 70));
    Ok(())
}
