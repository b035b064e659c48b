//! Tests of lists with shared blocks.
use sf_blocks::shared::SharedList;
use std::alloc::{AllocError, Global};
use std::test::Fail;

/// The list of the numbers below n.
fn numbers_below(alloc: Global, n: u32) -> Result<SharedList<u32, 4>, AllocError> {
    let mut list = SharedList::new(alloc)?;
    for i in 0..n {
        list.push(i)?;
    }
    Ok(list)
}

/// Whether the list has this length, and at each place below n the number of the place.
fn counts_up(list: &SharedList<u32, 4>, length: u64, n: u32) -> bool {
    for i in 0..n {
        if i as usize >= list.len() || list.get(i as usize) != i {
            return false;
        }
    }
    list.len() as u64 == length
}

/// A fork that has one element more.
fn longer_fork(list: &SharedList<u32, 4>) -> Result<SharedList<u32, 4>, AllocError> {
    let mut copy = list.fork()?;
    copy.push(7)?;
    Ok(copy)
}

/// Whether a fork that gets one more element leaves the list as it was, and both keep what they had.
fn forks_at(alloc: Global, n: u32) -> Result<bool, AllocError> {
    let list = numbers_below(alloc, n)?;
    let copy = longer_fork(&list)?;
    Ok(counts_up(&list, n as u64, n) && counts_up(&copy, n as u64 + 1, n))
}

#[test]
fn forks(rt: HostRuntime) -> Result<(), Fail> {
    for n in [0u32, 1, 15, 16, 17, 32, 33, 64, 5000] {
        let good = forks_at(rt.alloc(), n)?;
        assert!(rt; good, "{n}");
    }
    Ok(())
}
