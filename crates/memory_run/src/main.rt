//! Explores a stack with two workers, so that a bench grows; makes the calls of the libraries that allocate memory, on
//! three stacks, and shows what they answer; and explores a fifth stack with workers of which one or all get no more
//! memory.
//!
//! Where a call on a value gets no memory, the value is compared with what it was, and the call is made once more.
//! Where another call gets none, all calls on that stack are made once more. (A book can be compared whole only once,
//! with another one that took the same works. So all calls are made once more then too.) If one allocation is refused,
//! whichever it is, the answers therefore stay the same, and only the last line differs: it counts the calls that got
//! no memory, and what was wrong. `tools/test memory_sweep` runs this program many times, and each time refuses another
//! allocation.
#![tactic(auto)]

mod auditing;
mod books;
mod comparing;
mod exploring;
mod failing;
mod filling;
mod listing;
mod profiling;
mod refused;
mod stacks;
mod trying;

use crate::auditing::{Page, audit_files, refusals};
use crate::comparing::compare_files;
use crate::exploring::{bench_of, settle_stack, write_verdicts};
use crate::failing::starve_all;
use crate::filling::fill_bench;
use crate::listing::list_files;
use crate::profiling::profile_text;
use crate::refused::{Refused, Score};
use crate::stacks::{DIVIDES, LOGIN, MASKS, NO_X32, TWO_BITS, stack_in};
use std::io;
use std::sync::{Arc, Wait};
use std::thread::Threads;

/// A part of the program: which calls are made.
#[derive(Clone, Copy)]
enum Part {
    /// Calls that are refused for their arguments.
    Refusals,
    /// All calls on one stack.
    Calls,
    /// The filter of a profile.
    Profile,
    /// An exploration in which a bench grows. It comes first: after other explorations by several workers, it would
    /// differ from run to run which allocation is the bench's.
    Bench,
    /// Explorations in which one worker, or each worker, gets no more memory.
    Workers,
}

/// What all calls on the stack of these files answer.
fn calls_on<R: Threads + Wait + Sync + AllocGlobal>(
    rt: &R,
    score: &mut Score,
    files: &[&[u8]],
    page: &mut Page,
) -> Result<String, Refused> {
    let alloc = rt.alloc();
    let mut text = String::new(alloc);
    let stack = Arc::new(alloc, stack_in(alloc, files, &mut text)?)?;
    bench_of(alloc, score, &stack)?;
    let settled = settle_stack(alloc, score, &stack, &mut text)?;
    write_verdicts(alloc, &settled, &mut text)?;
    audit_files(rt, score, files, page)?;
    compare_files(alloc, files, page)?;
    list_files(alloc, files, page)?;
    Ok(text)
}

/// What the calls of a part answer. `files` are those of its stack, if it takes one.
fn all_of<R: Threads + Wait + Sync + AllocGlobal>(
    rt: &R,
    score: &mut Score,
    part: Part,
    files: &[&[u8]],
    page: &mut Page,
) -> Result<String, Refused> {
    match part {
        Part::Refusals => refusals(rt),
        Part::Calls => calls_on(rt, score, files, page),
        Part::Profile => profile_text(rt.alloc()),
        Part::Workers => starve_all(rt, score),
        Part::Bench => fill_bench(rt),
    }
}

/// Shows what the calls of a part answer. Where memory runs out, all of them are made a second time.
fn show<R: Print + Threads + Wait + Sync + AllocGlobal>(
    rt: &R,
    score: &mut Score,
    part: Part,
    name: &str,
    files: &[&[u8]],
) -> io::Result<()> {
    for _time in 0..2 {
        let mut page = Page::new();
        match all_of(rt, score, part, files, &mut page) {
            Ok(text) => {
                print!(rt; "{name}\n{text}{}", page.text())?;
                return Ok(());
            }
            Err(refused) => score.refuse(refused, true),
        }
    }
    println!(rt; "{name}: no memory")
}

fn main(rt: HostRuntime) -> io::Result<()> {
    let mut score = Score {
        refused: 0,
        wrong: 0,
    };
    show(&rt, &mut score, Part::Bench, "bench", &[])?;
    show(&rt, &mut score, Part::Refusals, "none", &[])?;
    show(&rt, &mut score, Part::Calls, "login", &[LOGIN.as_slice()])?;
    show(
        &rt,
        &mut score,
        Part::Calls,
        "divides",
        &[DIVIDES.as_slice()],
    )?;
    let five = [
        LOGIN.as_slice(),
        MASKS.as_slice(),
        NO_X32.as_slice(),
        TWO_BITS.as_slice(),
        LOGIN.as_slice(),
    ];
    show(&rt, &mut score, Part::Calls, "five", &five)?;
    show(&rt, &mut score, Part::Profile, "profile", &[])?;
    show(&rt, &mut score, Part::Workers, "workers", &[])?;
    println!(rt; "{} refused, {} wrong", score.refused, score.wrong)
}
