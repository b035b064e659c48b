//! Explorations in which workers get no more memory. Where one worker gets none, the others work what it gives back;
//! where no worker gets any, the calling thread works what all have left.
//!
//! On the thread of such a worker, a gate makes an allocation of a size that nothing else asks for.
//! `tools/testing/refuse.c` can be given this size: then it refuses that allocation, and all later ones of the thread.
//! Otherwise the allocation does nothing, and the explorations find the same regions.

ghost use Rattle.std.specs.Prelude.{◌<◌, ◌≤◌};

use crate::refused::{MEMORY, Refused, Score};
use crate::stacks::{FOUR_BITS, stack_in};
use sf_book::Settled;
use sf_check::Stack;
use sf_crew::{Gate, explore};
use std::alloc::{AllocError, Global};
use std::sync::atomic::{AtomicUsize, Ordering};
use std::sync::{Arc, Wait};
use std::thread::{Threads, yield_now};

/// The size in bytes of an allocation that nothing else asks for.
const MARK: usize = 77_777;

/// Makes an allocation of that size.
fn room(alloc: Global) -> Result<Vec<u8>, AllocError> {
    Vec::with_capacity(alloc, MARK)
}

/// Whether this thread gets no more memory. Where only one allocation is refused, the second one is granted.
fn is_starved(alloc: Global) -> bool {
    room(alloc).is_err() && room(alloc).is_err()
}

/// Adds one to the count, and gives what it is then.
pub fn add_one(count: &AtomicUsize) -> usize {
    count.fetch_add(1, Ordering::SeqCst).wrapping_add(1)
}

/// How often a call that is held looks for what it waits for.
const TURNS: usize = 1_000_000;

/// Whether the count becomes `wanted` or more while other threads may run `turns` times.
pub fn is_reached(count: &AtomicUsize, wanted: usize, turns: usize) -> bool {
    for _ in 0..turns {
        if count.load(Ordering::SeqCst) >= wanted {
            return true;
        }
        yield_now();
    }
    false
}

/// How often a call lets other threads run, so that a starved worker can end.
const WHILE: usize = 100_000;

/// Lets other threads run, so that a starved worker can end.
fn rest() {
    for _ in 0..WHILE {
        yield_now();
    }
}

/// A gate that starves the worker that makes the third call of all.
#[derive(Drop)]
struct Starving {
    alloc: Global,
    /// The number of workers.
    workers: usize,
    /// How many calls were made.
    begun: AtomicUsize,
    /// The starved worker's number, from 1; 0 where there is none.
    starved: AtomicUsize,
    /// How many calls the starved worker made after that, and how many had the number of no worker.
    strays: AtomicUsize,
}

impl Gate for Starving {
    fn pass(&self, worker: usize, _call: usize) {
        let number = worker.saturating_add(1);
        if self.workers < number || self.starved.load(Ordering::SeqCst) == number {
            add_one(&self.strays);
        }
        if add_one(&self.begun) == 3 && is_starved(self.alloc) {
            self.starved.store(number, Ordering::SeqCst);
        }
    }
}

/// Counts an exploration: as a refusal, if a worker was starved; and as wrong, if it isn't right.
fn tell(score: &mut Score, starved: bool, is_right: bool) {
    if starved {
        score.refuse(Refused { number: MEMORY }, is_right);
    } else {
        score.expect(is_right);
    }
}

/// Adds the line of an exploration by this many workers.
pub fn write_counts(text: &mut String, workers: usize, settled: &Settled) -> Result<(), Refused> {
    let counts = settled.counts();
    let (regions, left, commits) = (counts.settled, counts.left, counts.commits);
    write!(
        text,
        "workers {workers} regions {regions} open {left} commits {commits}\n"
    )?;
    Ok(())
}

/// Explores with this many workers, one of which is starved. The others work all that it gives back, so nothing is left
/// for the calling thread.
fn starve_one<R: Threads + Wait + Sync + AllocGlobal>(
    rt: &R,
    score: &mut Score,
    stack: &Arc<Stack>,
    workers: usize,
    text: &mut String,
) -> Result<(), Refused>
    requires { (0 < workers) × (workers ≤ 64) }
{
    let gate = Starving {
        alloc: rt.alloc(),
        workers,
        begun: AtomicUsize::new(0),
        starved: AtomicUsize::new(0),
        strays: AtomicUsize::new(0),
    };
    let settled = explore(rt, rt.alloc(), Arc::try_clone(stack)?, 31, workers, &gate)?;
    let starved = gate.starved.load(Ordering::SeqCst) != 0;
    tell(score, starved, gate.strays.load(Ordering::SeqCst) == 0);
    write_counts(text, workers, &settled)
}

/// A gate that starves each worker at its first call, so that the calling thread works what is left.
#[derive(Drop)]
struct StarvingAll {
    alloc: Global,
    /// The number of workers.
    workers: usize,
    /// How many calls were made, those of the calling thread among them.
    calls: AtomicUsize,
    /// How many workers were starved.
    starved: AtomicUsize,
    /// How many calls the calling thread made. In place of a worker's number, they have the number of workers.
    rest: AtomicUsize,
    /// How many calls had a greater number than that, and how many of the calling thread came out of order.
    strays: AtomicUsize,
}

impl StarvingAll {
    /// A gate that has seen no call.
    fn of(alloc: Global, workers: usize) -> StarvingAll {
        StarvingAll {
            alloc,
            workers,
            calls: AtomicUsize::new(0),
            starved: AtomicUsize::new(0),
            rest: AtomicUsize::new(0),
            strays: AtomicUsize::new(0),
        }
    }

    /// Whether there were at least as many calls as commits, and those of the calling thread came in order.
    fn has_seen(&self, commits: u32) -> bool {
        let calls = self.calls.load(Ordering::SeqCst);
        commits as usize <= calls && self.strays.load(Ordering::SeqCst) == 0
    }
}

impl Gate for StarvingAll {
    fn pass(&self, worker: usize, call: usize) {
        add_one(&self.calls);
        if worker < self.workers {
            if call == 1 && is_starved(self.alloc) {
                add_one(&self.starved);
            }
        } else if worker != self.workers || add_one(&self.rest) != call {
            add_one(&self.strays);
        }
    }
}

/// Explores with this many workers, each of which is starved and makes only one call. So the gate sees as many calls as
/// there are commits only where it sees those of the calling thread too.
fn starve_each<R: Threads + Wait + Sync + AllocGlobal>(
    rt: &R,
    score: &mut Score,
    stack: &Arc<Stack>,
    workers: usize,
    text: &mut String,
) -> Result<(), Refused>
    requires { (0 < workers) × (workers ≤ 64) }
{
    let gate = StarvingAll::of(rt.alloc(), workers);
    let settled = explore(rt, rt.alloc(), Arc::try_clone(stack)?, 31, workers, &gate)?;
    let starved = gate.starved.load(Ordering::SeqCst) != 0;
    tell(score, starved, gate.has_seen(settled.counts().commits));
    write_counts(text, workers, &settled)
}

/// A gate that holds two workers. The one that works the root goes on with one half of the tree, and is starved at its
/// fifth call. The other one has the other half, and is held at its first call until the starved one has ended.
#[derive(Drop)]
struct Halving {
    alloc: Global,
    /// How many calls were made.
    begun: AtomicUsize,
    /// The number of the worker that works the root, from 1.
    first: AtomicUsize,
    /// How many calls the worker made that works the root.
    own: AtomicUsize,
    /// How many calls the other worker made.
    others: AtomicUsize,
    /// Not 0 once the first worker's fifth call has asked for memory.
    asked: AtomicUsize,
    /// Not 0 where that call got no memory.
    starved: AtomicUsize,
    /// How many calls waited in vain.
    missed: AtomicUsize,
}

impl Halving {
    /// Waits until the count isn't 0.
    fn wait_for(&self, count: &AtomicUsize) {
        if !is_reached(count, 1, TURNS) {
            add_one(&self.missed);
        }
    }

    /// Sees a call of the worker that works the root.
    fn pass_first(&self) {
        let call = add_one(&self.own);
        if call == 2 {
            self.wait_for(&self.others);
        }
        if call == 5 {
            if is_starved(self.alloc) {
                add_one(&self.starved);
            }
            add_one(&self.asked);
        }
    }

    /// Sees a call of the other worker.
    fn pass_other(&self) {
        if add_one(&self.others) != 1 {
            return;
        }
        self.wait_for(&self.asked);
        if self.starved.load(Ordering::SeqCst) != 0 {
            rest();
        }
    }

    /// Whether the worker was starved, and no call waited in vain.
    fn has_starved(&self) -> bool {
        self.starved.load(Ordering::SeqCst) != 0 && self.missed.load(Ordering::SeqCst) == 0
    }
}

impl Gate for Halving {
    fn pass(&self, worker: usize, _call: usize) {
        let number = worker.saturating_add(1);
        if add_one(&self.begun) == 1 {
            self.first.store(number, Ordering::SeqCst);
        }
        if self.first.load(Ordering::SeqCst) == number {
            self.pass_first();
        } else {
            self.pass_other();
        }
    }
}

/// The data of each region's answer, in the order of names.
fn data_of(alloc: Global, settled: &Settled) -> Result<String, Refused> {
    let mut text = String::new(alloc);
    for i in 0..settled.region_count() {
        let data = settled.region(i).answer().info;
        write!(&mut text, " {data}")?;
    }
    Ok(text)
}

/// Explores with two workers, one of which is starved in its half of the tree.
///
/// The data of a region's answer are its place among the sixteen regions. The other half gets all its eight regions,
/// and the budget leaves two for the starved worker's half. These are its first two by name, since pieces that were
/// given back to the book are leased in the order of names. If leases were left on the starved worker's bench, other
/// regions would come first.
fn starve_half<R: Threads + Wait + Sync + AllocGlobal>(
    rt: &R,
    score: &mut Score,
    stack: &Arc<Stack>,
    text: &mut String,
) -> Result<(), Refused> {
    let gate = Halving {
        alloc: rt.alloc(),
        begun: AtomicUsize::new(0),
        first: AtomicUsize::new(0),
        own: AtomicUsize::new(0),
        others: AtomicUsize::new(0),
        asked: AtomicUsize::new(0),
        starved: AtomicUsize::new(0),
        missed: AtomicUsize::new(0),
    };
    let settled = explore(rt, rt.alloc(), Arc::try_clone(stack)?, 22, 2, &gate)?;
    let data = data_of(rt.alloc(), &settled)?;
    let on_false = data.as_str() == " 0 1 8 9 10 11 12 13 14 15";
    let on_true = data.as_str() == " 0 1 2 3 4 5 6 7 8 9";
    let starved = gate.has_starved();
    tell(score, starved, !starved || on_false || on_true);
    let commits = settled.counts().commits;
    write!(text, "workers 2 commits {commits}\n")?;
    Ok(())
}

/// Makes these explorations, and gives the line of each.
pub fn starve_all<R: Threads + Wait + Sync + AllocGlobal>(
    rt: &R,
    score: &mut Score,
) -> Result<String, Refused> {
    let alloc = rt.alloc();
    let mut text = String::new(alloc);
    let stack = Arc::new(alloc, stack_in(alloc, &[FOUR_BITS.as_slice()], &mut text)?)?;
    starve_one(rt, score, &stack, 2, &mut text)?;
    starve_one(rt, score, &stack, 8, &mut text)?;
    starve_half(rt, score, &stack, &mut text)?;
    starve_each(rt, score, &stack, 2, &mut text)?;
    starve_each(rt, score, &stack, 8, &mut text)?;
    Ok(text)
}
