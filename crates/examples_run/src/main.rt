//! Checks, evaluates, audits, compares and lists real filters. Lines such as `check A.bpf B.bpf`, `eval HEX A.bpf
//! B.bpf`, `audit POLICY A.bpf B.bpf`, `compare OLD.bpf -- NEW.bpf` and `list A.bpf B.bpf` come on standard input. The
//! files stand in the folder in which the program runs. `diagram A.bpf B.bpf` compares what the stack answers by its
//! diagram with what it answers where it is run, and `random` does so for random stacks.
#![tactic(auto)]

mod aiming;
mod auditing;
mod comparing;
mod diagrams;
mod listing;
mod making;
mod meeting;
mod numbers;

use crate::auditing::show_audit;
use crate::comparing::show_comparison;
use crate::diagrams::{Counts, of_random_stacks, of_stack};
use crate::listing::show_listing;
use hex::FromHex;
use sf_check::{Program, Stack, check};
use sf_insn::{decode, input_of_bytes};
use sf_run::answer;
use std::rt::Files;
use std::sync::Wait;
use std::test::Fail;
use std::thread::Threads;
use std::{fs, io};

/// The program that a filter file spells.
fn program_in<R: Files + AllocGlobal>(rt: &R, path: &str) -> Result<Program, Fail> {
    let bytes = fs::read(rt, path)?;
    let raws = decode(rt.alloc(), &bytes)?;
    Ok(check(rt.alloc(), &raws)?)
}

/// The stack of the filter files, in order of installation.
fn stack_in<R: Files + AllocGlobal>(rt: &R, paths: &[&str]) -> Result<Stack, Fail> {
    let mut programs = Vec::new(rt.alloc());
    for path in paths {
        let program = program_in(rt, path)?;
        programs.push(program)?;
    }
    Ok(Stack::of(programs)?)
}

/// Shows the number of instructions of each filter and the path length of their stack.
fn show_check<R: Print>(rt: &R, stack: &Stack) -> io::Result<()> {
    for (i, program) in stack.programs().iter().enumerate() {
        println!(rt; "filter {} {} instructions", i + 1, program.insns().len())?;
    }
    println!(rt; "path {}", stack.path_length())
}

/// Shows what the stack answers to the input that the digits spell.
fn show_answer<R: Print>(rt: &R, stack: &Stack, digits: &str) -> Result<(), Fail> {
    let bytes = <[u8; 64] as FromHex>::from_hex(digits)?;
    let answer = answer(stack, &input_of_bytes(&bytes));
    println!(rt; "{:?} {}", answer.action, answer.info)?;
    Ok(())
}

/// The bytes of the filter files.
fn filters_in<R: Files + AllocGlobal>(rt: &R, paths: &[&str]) -> Result<Vec<Vec<u8>>, Fail> {
    let mut filters = Vec::new(rt.alloc());
    for path in paths {
        let bytes = fs::read(rt, path)?;
        filters.push(bytes)?;
    }
    Ok(filters)
}

/// Shows the report of an audit of the filter files by the policy file.
fn show_audit_of<R: Files + Print + Threads + Wait + Sync + AllocGlobal>(
    rt: &R,
    policy: &str,
    paths: &[&str],
) -> Result<(), Fail> {
    let policy = fs::read_to_string(rt, policy)?;
    let filters = filters_in(rt, paths)?;
    show_audit(rt, rt.alloc(), policy.as_str(), &filters)
}

/// Shows what a comparison finds. The old stack's files stand before the word `--`, and the new one's behind it.
fn show_comparison_of<R: Files + Print + AllocGlobal>(rt: &R, paths: &[&str]) -> Result<(), Fail> {
    let Some(middle) = paths.iter().position(|path| *path == "--") else {
        println!(rt; "no --")?;
        return Ok(());
    };
    let old = filters_in(rt, paths.get(..middle).unwrap_or(&[]))?;
    let new = filters_in(rt, paths.get(middle.saturating_add(1)..).unwrap_or(&[]))?;
    show_comparison(rt, rt.alloc(), &old, &new)
}

/// Shows on how many inputs the answers of stacks were compared, and on how many they differ.
fn show_counts<R: Print>(rt: &R, counts: Counts) -> io::Result<()> {
    println!(rt; "{} inputs, {} differ", counts.inputs, counts.wrong)
}

/// Shows the same for the stack of the filter files.
fn show_diagram<R: Files + Print + AllocGlobal>(rt: &R, paths: &[&str]) -> Result<(), Fail> {
    let mut codes = Vec::new(rt.alloc());
    for path in paths {
        let bytes = fs::read(rt, path)?;
        codes.push(decode(rt.alloc(), &bytes)?)?;
    }
    show_counts(rt, of_stack(rt.alloc(), &codes)?)?;
    Ok(())
}

/// Does what one line says.
fn show<R: Files + Print + Threads + Wait + Sync + AllocGlobal>(
    rt: &R,
    line: &str,
) -> Result<(), Fail> {
    let words: Vec<&str> = line.split_whitespace().collect(rt.alloc())?;
    match words.as_slice() {
        ["check", paths @ ..] => show_check(rt, &stack_in(rt, paths)?)?,
        ["eval", digits, paths @ ..] => show_answer(rt, &stack_in(rt, paths)?, digits)?,
        ["audit", policy, paths @ ..] => show_audit_of(rt, policy, paths)?,
        ["compare", paths @ ..] => show_comparison_of(rt, paths)?,
        ["list", paths @ ..] => show_listing(rt, rt.alloc(), &filters_in(rt, paths)?)?,
        ["diagram", paths @ ..] => show_diagram(rt, paths)?,
        ["random"] => show_counts(rt, of_random_stacks(rt.alloc(), 300)?)?,
        _ => println!(rt; "unknown line")?,
    }
    Ok(())
}

fn main(rt: HostRuntime) -> Result<(), Fail> {
    for line in rt.lines(rt.alloc()) {
        show(&rt, line?.as_str())?;
    }
    Ok(())
}
