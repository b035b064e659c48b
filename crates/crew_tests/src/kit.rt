//! Explorations and sweeps under a gate, and questions.
use crate::watch::{Plan, Seen, Watch};
use samples::stack_of;
use sf_ask::{ActionSet, Fault, Question, Reply};
use sf_book::{Counts, Settled};
use sf_crew::{Gate, Open, explore, sweep};
use sf_insn::RawInsn;
use std::alloc::Global;
use std::sync::Wait;
use std::test::Fail;
use std::thread::Threads;

fn explore_filter<R: Threads + Wait + Sync + AllocGlobal, G: Gate>(
    rt: &R,
    filter: &[RawInsn],
    budget: u32,
    workers: usize,
    gate: &G,
) -> Result<Settled, Fail> {
    let stack = stack_of(rt.alloc(), &[filter])?;
    let workers = workers.clamp(1, 64);
    Ok(explore(rt, rt.alloc(), stack, budget, workers, gate)?)
}

/// All regions of the stack of one filter, which so many workers found.
pub fn settle<R: Threads + Wait + Sync + AllocGlobal>(
    rt: &R,
    filter: &[RawInsn],
    workers: usize,
) -> Result<Settled, Fail> {
    explore_filter(rt, filter, 1000, workers, &Open)
}

/// Explores the stack of one filter under a gate: what is counted, and what the gate has seen.
pub fn explore_under<R: Threads + Wait + Sync + AllocGlobal>(
    rt: &R,
    plan: Plan,
    filter: &[RawInsn],
    budget: u32,
    workers: usize,
) -> Result<(Counts, Seen), Fail> {
    let gate = Watch::new(plan, workers);
    let settled = explore_filter(rt, filter, budget, workers, &gate)?;
    Ok((settled.counts(), gate.seen()))
}

/// The reply whether anything is let through; `None` where there isn't exactly one reply.
fn reply_of<R: Threads + Wait + Sync + AllocGlobal>(
    rt: &R,
    settled: &Settled,
    workers: usize,
    gate: &Watch,
) -> Result<Option<Reply>, Fail> {
    let questions = [anything(rt.alloc())?];
    let workers = workers.clamp(1, 64);
    let replies = sweep(rt, rt.alloc(), settled, &questions, workers, gate)?;
    if replies.len() != 1 {
        return Ok(None);
    }
    Ok(replies.first().copied())
}

/// That reply about the stack of one filter, which the same number of workers explored, and what the gate has seen of
/// the sweep.
pub fn sweep_under<R: Threads + Wait + Sync + AllocGlobal>(
    rt: &R,
    plan: Plan,
    filter: &[RawInsn],
    workers: usize,
) -> Result<(Option<Reply>, Seen), Fail> {
    let settled = settle(rt, filter, workers)?;
    let gate = Watch::new(plan, workers);
    let reply = reply_of(rt, &settled, workers, &gate)?;
    Ok((reply, gate.seen()))
}

pub fn counts(left: usize, settled: usize, emptied: usize, splits: u32, commits: u32) -> Counts {
    Counts {
        left,
        settled,
        emptied,
        splits,
        commits,
    }
}

/// The second word of an input is the architecture: x86-64.
pub const X86_64: (u32, u32) = (0xC000003E, 0xC000003E);

/// Whether a call of x86-64 with a number in the range is let through.
pub fn calls(alloc: Global, name: &str, low: u32, high: u32) -> Result<Question, Fail> {
    let mut ranges = [(0, u32::MAX); 16];
    ranges[0] = (low, high);
    ranges[1] = X86_64;
    Ok(Question::of(alloc, name, ranges, ActionSet::LET_THROUGH)?)
}

/// Whether anything is let through.
pub fn anything(alloc: Global) -> Result<Question, Fault> {
    let ranges = [(0, u32::MAX); 16];
    Question::of(alloc, "any", ranges, ActionSet::LET_THROUGH)
}
