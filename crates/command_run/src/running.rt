//! Runs command lines, and shows what they write.

use crate::fragments::words_of;
use crate::limited::{Counted, Full, Limited};
use crate::memory_files::MemoryFiles;
use crate::theorems::{audit, check_allow};
use sf_command::{Means, command};
use sf_crew::Open;
use std::alloc::Global;
use std::sync::Wait;
use std::test::Fail;
use std::thread::Threads;

/// A writer for standard error that holds nothing yet.
fn no_errors(alloc: Global) -> Counted {
    Counted {
        held: Vec::new(alloc),
        writes: 0,
    }
}

/// Shows what was written to standard error, and the exit status. It says so where standard error had more than one
/// write.
fn show_end<R: Print>(rt: &R, err: &Counted, status: u8) -> Result<(), Fail> {
    for line in std::str::from_utf8(&err.held)?.lines() {
        println!(rt; "! {line}")?;
    }
    if 1 < err.writes {
        println!(rt; "standard error was written by several writes")?;
    }
    println!(rt; "= {status}")?;
    Ok(())
}

/// What a command line wrote, and its exit status.
#[derive(Drop)]
struct Ended {
    out: Limited,
    err: Counted,
    status: u8,
}

/// What the command lines here write for `--version`.
const VERSION: &str = "the version that is handed in\n";

/// Runs a command line over a writer that takes at most `most` bytes a call and `limit` bytes in all.
fn run_over<R: Print + Threads + Wait + Sync + AllocGlobal>(
    rt: &R,
    files: &mut MemoryFiles,
    words: &[String],
    most: usize,
    limit: usize,
    full: Full,
) -> Ended {
    let alloc = rt.alloc();
    let mut out = Limited {
        held: Vec::new(alloc),
        most,
        limit,
        full,
    };
    let mut err = no_errors(alloc);
    let means = Means {
        rt,
        alloc,
        gate: &Open,
    };
    let status = command(&means, VERSION, words, files, &mut out, &mut err);
    Ended { out, err, status }
}

/// Shows a command line, and runs it over a writer that takes all.
fn run_whole<R: Print + Threads + Wait + Sync + AllocGlobal>(
    rt: &R,
    files: &mut MemoryFiles,
    line: &str,
) -> Result<Ended, Fail> {
    let words = words_of(rt.alloc(), line)?;
    println!(rt; "$ {line}")?;
    let all = usize::MAX;
    Ok(run_over(rt, files, &words, all, all, Full::Fails))
}

/// Runs the command lines of `theorems`, the second one over the files of the script, and shows what they write.
pub fn apply<R: Print + Threads + Wait + Sync + AllocGlobal>(
    rt: &R,
    files: &mut MemoryFiles,
) -> Result<(), Fail> {
    let alloc = rt.alloc();
    let (status, out) = check_allow(rt, alloc)?;
    println!(rt; "$ check p.bpf\n{}= {status}", std::str::from_utf8(&out)?)?;
    let line = "audit --policy q.toml p.bpf";
    let words = words_of(alloc, line)?;
    let mut out: Vec<u8> = Vec::new(alloc);
    let mut err = no_errors(alloc);
    let means = Means {
        rt,
        alloc,
        gate: &Open,
    };
    let status = audit(&means, &words, files, &mut out, &mut err);
    println!(rt; "$ {line}")?;
    print!(rt; "{}", std::str::from_utf8(&out)?)?;
    show_end(rt, &err, status)
}

/// Runs a command line and shows what it writes.
pub fn run<R: Print + Threads + Wait + Sync + AllocGlobal>(
    rt: &R,
    files: &mut MemoryFiles,
    line: &str,
) -> Result<(), Fail> {
    let Ended { out, err, status } = run_whole(rt, files, line)?;
    print!(rt; "{}", std::str::from_utf8(&out.held)?)?;
    show_end(rt, &err, status)
}

/// Runs a command line where each fault is explained unasked, and shows what it writes.
pub fn explain<R: Print + Threads + Wait + Sync + AllocGlobal>(
    rt: &R,
    files: &mut MemoryFiles,
    line: &str,
) -> Result<(), Fail> {
    files.explains = true;
    let shown = run(rt, files, line);
    files.explains = false;
    shown
}

/// Runs a command line, and makes a file of what it writes.
pub fn keep<R: Print + Threads + Wait + Sync + AllocGlobal>(
    rt: &R,
    files: &mut MemoryFiles,
    line: &str,
) -> Result<(), Fail> {
    let (name, line) = line.split_once(' ').unwrap_or((line, ""));
    let Ended { out, err, status } = run_whole(rt, files, line)?;
    files.put(name, out.held)?;
    show_end(rt, &err, status)
}

/// Runs a command line, shows what it writes as hexadecimal digits, eight bytes a line, and makes a file of it.
pub fn make<R: Print + Threads + Wait + Sync + AllocGlobal>(
    rt: &R,
    files: &mut MemoryFiles,
    line: &str,
) -> Result<(), Fail> {
    let (name, line) = line.split_once(' ').unwrap_or((line, ""));
    let Ended { out, err, status } = run_whole(rt, files, line)?;
    for part in out.held.chunks(8) {
        println!(rt; "{}", hex::encode(rt.alloc(), part)?)?;
    }
    files.put(name, out.held)?;
    show_end(rt, &err, status)
}

/// Runs a command line and shows how many bytes it writes.
pub fn count<R: Print + Threads + Wait + Sync + AllocGlobal>(
    rt: &R,
    files: &mut MemoryFiles,
    line: &str,
) -> Result<(), Fail> {
    let Ended { out, err, status } = run_whole(rt, files, line)?;
    println!(rt; "{} bytes", out.held.len())?;
    show_end(rt, &err, status)
}

/// Whether two runs wrote the same bytes and ended with the same exit status.
fn end_alike(left: &Ended, right: &Ended) -> bool {
    left.status == right.status
        && left.out.held.as_slice() == right.out.held.as_slice()
        && left.err.held.as_slice() == right.err.held.as_slice()
}

/// Runs a command line over a writer that takes one byte a call and `limit` bytes in all, and shows what it took. It
/// has to end in the same way over writers that take five and seven bytes a call. True where the limit was enough.
fn run_limited<R: Print + Threads + Wait + Sync + AllocGlobal>(
    rt: &R,
    files: &mut MemoryFiles,
    words: &[String],
    limit: usize,
    full: Full,
) -> Result<bool, Fail> {
    let ended = run_over(rt, files, words, 1, limit, full);
    let held = std::str::from_utf8(&ended.out.held)?;
    println!(rt; "{limit} bytes, {full:?}: {held:?}")?;
    show_end(rt, &ended.err, ended.status)?;
    for most in [5, 7] {
        let other = run_over(rt, files, words, most, limit, full);
        if !end_alike(&ended, &other) {
            println!(rt; "by {most} bytes a call it ends otherwise")?;
        }
    }
    Ok(ended.status < 5)
}

/// Runs a command line over a writer that takes five bytes, is interrupted by a signal once, and then takes all.
pub fn interrupt<R: Print + Threads + Wait + Sync + AllocGlobal>(
    rt: &R,
    files: &mut MemoryFiles,
    line: &str,
) -> Result<(), Fail> {
    let words = words_of(rt.alloc(), line)?;
    println!(rt; "$ {line}")?;
    run_limited(rt, files, &words, 5, Full::Interrupted)?;
    Ok(())
}

/// Runs a command line over writers that take no byte, one byte, two, and so on, until one takes all. Each limit is
/// tried twice: with a writer that then takes nothing more, and with one that then fails.
pub fn limit<R: Print + Threads + Wait + Sync + AllocGlobal>(
    rt: &R,
    files: &mut MemoryFiles,
    line: &str,
) -> Result<(), Fail> {
    let words = words_of(rt.alloc(), line)?;
    println!(rt; "$ {line}")?;
    for limit in 0..1000 {
        let one = run_limited(rt, files, &words, limit, Full::TakesNothing)?;
        let other = run_limited(rt, files, &words, limit, Full::Fails)?;
        if one && other {
            break;
        }
    }
    Ok(())
}
