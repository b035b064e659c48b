//! An exploration in which the bench of one worker grows. Where it gets no memory to grow, the lease that it hands back
//! isn't lost.

use crate::failing::{add_one, is_reached, write_counts};
use crate::refused::Refused;
use crate::stacks::{EIGHT_BITS, stack_in};
use sf_crew::{Gate, explore};
use std::sync::atomic::AtomicUsize;
use std::sync::{Arc, Wait};
use std::thread::Threads;

/// After this many calls, the bench of a worker that works half of 511 pieces has had more leases than a new bench has
/// room for.
const FULL: usize = 80;

/// How often a call that is held looks whether the other worker's bench is full. The other worker may have ended, so it
/// doesn't look for ever.
const TURNS: usize = 20_000;

/// A gate that holds worker 0, once the root is worked and it has one half, until worker 1 has filled its bench from
/// the other half.
#[derive(Drop)]
struct Filling {
    /// How many calls were made.
    begun: AtomicUsize,
    /// How many calls worker 0 made, without the first call of all.
    own: AtomicUsize,
    /// How many calls worker 1 made.
    others: AtomicUsize,
}

impl Gate for Filling {
    fn pass(&self, worker: usize, _call: usize) {
        let place = add_one(&self.begun);
        if worker != 0 {
            add_one(&self.others);
        } else if place != 1 && add_one(&self.own) == 1 {
            let _is_full = is_reached(&self.others, FULL, TURNS);
        }
    }
}

/// Makes the exploration, and gives its line. A lost lease would stay outstanding for ever, so no worker would end.
pub fn fill_bench<R: Threads + Wait + Sync + AllocGlobal>(rt: &R) -> Result<String, Refused> {
    let alloc = rt.alloc();
    let mut text = String::new(alloc);
    let stack = Arc::new(alloc, stack_in(alloc, &[EIGHT_BITS.as_slice()], &mut text)?)?;
    let gate = Filling {
        begun: AtomicUsize::new(0),
        own: AtomicUsize::new(0),
        others: AtomicUsize::new(0),
    };
    let settled = explore(rt, alloc, stack, 511, 2, &gate)?;
    write_counts(&mut text, 2, &settled)?;
    Ok(text)
}
