//! What is written to standard error: faults and warnings. Errors of these writes are ignored.

ghost use Rattle.std.specs.Prelude.{true, ◌≡◌, ◌++◌, IfOk, string_bytes};
ghost use Rattle.clap.specs.Words.{subcommand_rows_of};
ghost use Rattle.sf_command_line.specs.Options.{IsQuiet};
ghost use Rattle.sf_evaluate.specs.Faults.{fault_number};
ghost use Rattle.sf_evaluate.specs.Status.{fault_status};

use crate::explaining::Notes;
use crate::fault::Fault;
use clap::ArgMatches;
use sf_command_line::wants_quiet;
use std::alloc::{AllocError, Global};
use std::fmt::InlineText;
use std::io::Write;

/// The most bytes of a fault's line: words, the two digits of the fault's number, and at most two other numbers of at
/// most 20 digits each.
const LINE: usize = 96;

const TOO_LARGE: u16 = 32;

fn status_of(fault: &Fault) -> u8
    ensures { result ≡ fault_status (fault_number fault.now) }
{
    let number = fault.number();
    if number == TOO_LARGE {
        2
    } else if number < 50 {
        3
    } else {
        5
    }
}

/// The line of a fault: `error`, its number, its name and its place. That of `TooLarge` and `TooManyRows` is a
/// sentence. `policy` says in which policy, such as `policy 2` or `control`: this stands, if it isn't empty, before the
/// word `question`, or at the end of the line.
fn line_of(fault: &Fault, policy: &str) -> InlineText<LINE> {
    let line: InlineText<LINE> = InlineText::of(format_args!("{fault}"));
    match line.as_str().split_once(" question ") {
        _ if policy.is_empty() && fault.number() == TOO_LARGE => {
            InlineText::of(format_args!("{fault}\n"))
        }
        _ if policy.is_empty() => InlineText::of(format_args!("error {fault}\n")),
        Some((name, question)) => {
            InlineText::of(format_args!("error {name} {policy} question {question}\n"))
        }
        None => InlineText::of(format_args!("error {fault} {policy}\n")),
    }
}

/// Writes the line of a fault to standard error, and gives its exit status. Nothing is allocated, since memory may have
/// run out. One `write_all` takes the whole line, so that it stays whole beside the lines of other programs.
pub fn tell_fault<E: Write>(fault: &Fault, err: &mut E) -> u8
    ensures { result ≡ fault_status (fault_number fault.now) }
{
    let line = line_of(fault, "");
    let _ = err.write_all(line.as_str().as_bytes());
    status_of(fault)
}

fn with_more(alloc: Global, line: &str, more: &str) -> Result<String, AllocError>
    ensures { IfOk result (λ text. string_bytes text ≡ line.now ++ more.now) }
{
    let mut text = String::from_str(alloc, line)?;
    text.push_str(more)?;
    Ok(text)
}

/// Writes the line of a fault to standard error, with the policy that `notes.which` tells, and under it the lines of
/// `notes.explanation`, if there is memory to join them. Gives the exit status of the fault.
pub fn tell<E: Write>(alloc: Global, fault: &Fault, notes: &Notes, err: &mut E) -> u8
    ensures { result ≡ fault_status (fault_number fault.now) }
{
    let line = line_of(fault, notes.which.as_str());
    if let Some(more) = &notes.explanation {
        if let Ok(text) = with_more(alloc, line.as_str(), more.as_str()) {
            let _ = err.write_all(text.as_bytes());
            return status_of(fault);
        }
    }
    let _ = err.write_all(line.as_str().as_bytes());
    status_of(fault)
}

fn is_quiet(matches: &ArgMatches<'_>) -> bool
    ensures { IsQuiet (subcommand_rows_of matches.now) → result ≡ true }
{
    match matches.subcommand() {
        Some((_, found)) => wants_quiet(found),
        None => false,
    }
}

/// Writes the lines of warnings to standard error, unless the matches ask for none. Where there was no memory for them,
/// one line says so.
pub fn warn<E: Write>(matches: &ArgMatches<'_>, warnings: &Result<String, AllocError>, err: &mut E)
    ensures quiet { IsQuiet (subcommand_rows_of matches.now) → err.new ≡ err.old }
{
    if is_quiet(matches) {
        return;
    }
    let text = match warnings {
        Ok(text) => text.as_str(),
        Err(_) => "warning: there was no memory to look for warnings\n",
    };
    if !text.is_empty() {
        let _ = err.write_all(text.as_bytes());
    }
}
