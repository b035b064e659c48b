//! Runs command lines over files in memory, and shows what each writes and its exit status.
//!
//! A script comes on standard input, one command a line. `file NAME FRAGMENT ..` makes a file from hexadecimal digits,
//! and `text NAME LINE | LINE ..` one from lines; the newest file of a name counts. `run WORD ..` runs a command line,
//! `explain WORD ..` runs one where each fault is explained unasked, and `count WORD ..` runs one and shows how many
//! bytes it writes. `keep NAME WORD ..` runs one, and makes a file of what it writes; `make NAME WORD ..` shows that as
//! hexadecimal digits too. `apply` runs the command lines of `theorems`. `limit WORD ..` runs one over writers that
//! take no byte, one byte, two, and so on, until one takes all. `interrupt WORD ..` runs one over a writer that a
//! signal interrupts. For these two the writer takes one byte a call; with five and seven bytes a call the result has
//! to be the same. A line that begins with `#` is a comment.
#![tactic(auto)]

mod fragments;
mod limited;
mod memory_files;
mod running;
mod theorems;

use crate::memory_files::MemoryFiles;
use crate::running::{apply, count, explain, interrupt, keep, limit, make, run};
use std::sync::Wait;
use std::test::Fail;
use std::thread::Threads;

/// Does what one line of the script says.
fn take<R: Print + Threads + Wait + Sync + AllocGlobal>(
    rt: &R,
    files: &mut MemoryFiles,
    line: &str,
) -> Result<(), Fail> {
    let (word, rest) = line.split_once(' ').unwrap_or((line, ""));
    match word {
        "file" => files.put_digits(rest),
        "text" => files.put_lines(rest),
        "run" => run(rt, files, rest),
        "explain" => explain(rt, files, rest),
        "count" => count(rt, files, rest),
        "keep" => keep(rt, files, rest),
        "make" => make(rt, files, rest),
        "apply" => apply(rt, files),
        "limit" => limit(rt, files, rest),
        "interrupt" => interrupt(rt, files, rest),
        "#" | "" => Ok(()),
        _ => Ok(println!(rt; "unknown line {line}")?),
    }
}

fn main(rt: HostRuntime) -> Result<(), Fail> {
    let mut files = MemoryFiles::new(rt.alloc());
    for line in rt.lines(rt.alloc()) {
        take(&rt, &mut files, line?.as_str())?;
    }
    Ok(())
}
