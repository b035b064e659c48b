//! The form of the command line: its subcommands, and what each takes.
ghost use Rattle.std.specs.Prelude.{◌≡◌, IfOk};
ghost use Rattle.clap.specs.Words.{app_of};
ghost use Rattle.sf_command_line.specs.CommandLine.{audit_line, check_line, command_line, compare_line, eval_line, list_line, needed_line, profile_line, program_line};

use crate::arguments::{
    budget, calls, cap, conflicts, explain, files, filters, json, machine, names, nodes, option,
    policy, profile_file, quiet, switch, workers,
};
use clap::Command;
use std::alloc::{AllocError, Global};

const AFTER_HELP: &str = "Exit status:
  0  every question is never; compare: looser is never; needed: each filter is; list, check, eval, profile,
     help: done
  1  some question is allowed, and not accepted; compare: looser is found; needed: some filter is spare
  2  some question is unsettled, and none allowed, or the control doesn't hold; list, compare, needed: --nodes
     doesn't suffice, and nothing is written
  3  a filter, the stack, the policy, a profile, a file of names or the input is refused
  4  the command line is refused
  5  a file can't be read, standard output can't be written, or memory ran out

Limits:
  1 to 64 filters of 1 to 4096 instructions each (compare: in each stack)
  a path length of at most 32768 (compare: in each stack)
  1 to 256 questions of all policies together, and of a control
  audit: 1 to 1000000 pieces that are worked on (--budget), 100000 if not given
  audit: 1 to 64 workers (--workers), 4 if not given: 1 is as fast, and answers more under a budget
  list, compare, needed: 1 to 16000000 nodes of decision diagrams (--nodes), 1000000 if not given
  1048576 bytes of a file

Errors:
  An error is one line on standard error: its number, its name, and where it lies.
  --explain-errors, which each command takes, adds where that is, and what the number means, as at a terminal.
  A warning there is a line about what may make filters look safe; --quiet leaves it out.

The path - is standard input, for one file. @NAME is a file that comes with the program, such as @x86_64.
`seccomp_audit help COMMAND` is `seccomp_audit COMMAND --help`.

docs/GUIDE.md says how to get filters, how to ask questions and how to read the answers.";

fn audit<'a>(alloc: Global) -> Result<Command<'a>, AllocError>
    ensures { IfOk result (λ c. app_of c ≡ audit_line) }
{
    Command::new(alloc, "audit")
        .about("Answer the questions of a policy about a stack of filters")
        .arg(policy(alloc))?
        .arg(option(alloc, "control", "FILE").help(
            "A policy each of whose questions must be allowed, else the status is 2",
        ))?
        .arg(option(alloc, "accept", "FILE").help(
            "The names of questions that may be allowed, one a line, with comments behind #",
        ))?
        .arg(budget(alloc))?
        .arg(workers(alloc))?
        .arg(switch(alloc, "regions").help("List the settled regions too"))?
        .arg(switch(alloc, "why").help(
            "Show of each example the call, and which instruction lets it through",
        ))?
        .arg(switch(alloc, "summary").help(
            "Write in place of the report which groups have questions that are allowed",
        ))?
        .arg(switch(alloc, "summary-all").help(
            "The same with the call of each example, one a line",
        ))?
        .arg(option(alloc, "groups", "FILE").help(
            "A file of groups for the summary, such as policies/groups.toml",
        ))?
        .arg(names(alloc))?
        .arg(json(alloc))?
        .arg(switch(alloc, "progress").help("Tell each second on standard error how much is done"))?
        .arg(quiet(alloc))?
        .arg(explain(alloc))?
        .arg(filters(alloc))
}

fn check<'a>(alloc: Global) -> Result<Command<'a>, AllocError>
    ensures { IfOk result (λ c. app_of c ≡ check_line) }
{
    Command::new(alloc, "check")
        .about("Check whether files are lawful filters that make a lawful stack")
        .arg(switch(alloc, "instructions").help("List the instructions of each filter too"))?
        .arg(json(alloc))?
        .arg(quiet(alloc))?
        .arg(explain(alloc))?
        .arg(filters(alloc))
}

fn eval<'a>(alloc: Global) -> Result<Command<'a>, AllocError>
    ensures { IfOk result (λ c. app_of c ≡ eval_line) }
{
    Command::new(alloc, "eval")
        .about("Show what a stack of filters answers to one input")
        .arg(option(alloc, "input", "HEX").help(
            "The 64 bytes of struct seccomp_data as 128 hexadecimal digits",
        ))?
        .arg(option(alloc, "call", "NAME").help(
            "Instead: a call by its name; needs --arch and --args",
        ))?
        .arg(option(alloc, "nr", "N").help(
            "Instead: a call by its number; needs --arch and --args",
        ))?
        .arg(option(alloc, "arch", "SET").help(
            "The call's set of --names, such as x86_64; with --nr also an architecture's number",
        ))?
        .arg(option(alloc, "args", "A,..").help(
            "The call's arguments, one to six numbers; 0 for those left out",
        ))?
        .arg(switch(alloc, "trace").help("Show what each filter meets and returns too"))?
        .arg(switch(alloc, "trace-true").help("The same without the comparisons that are false"))?
        .arg(names(alloc))?
        .arg(json(alloc))?
        .arg(explain(alloc))?
        .arg(filters(alloc))
}

fn compare<'a>(alloc: Global) -> Result<Command<'a>, AllocError>
    ensures { IfOk result (λ c. app_of c ≡ compare_line) }
{
    Command::new(alloc, "compare")
        .about("Tell for all inputs what a change of a stack of filters lets through")
        .arg(files(
            alloc,
            "old",
            "The filter files before the change, in order of installation",
        ))?
        .arg(files(alloc, "new", "The filter files after the change"))?
        .arg(nodes(alloc))?
        .arg(switch(alloc, "same").help("Let the exit status tell of different, not of looser"))?
        .arg(switch(alloc, "rows").help("List the rows whose answers differ too"))?
        .arg(option(alloc, "only", "RELATION").help(
            "Of the rows only those of a relation: looser, tighter or different",
        ))?
        .arg(calls(alloc))?
        .arg(names(alloc))?
        .arg(json(alloc))?
        .arg(quiet(alloc))?
        .arg(explain(alloc))
}

fn list<'a>(alloc: Global) -> Result<Command<'a>, AllocError>
    ensures { IfOk result (λ c. app_of c ≡ list_line) }
{
    Command::new(alloc, "list")
        .about("List for all inputs what a stack of filters answers")
        .arg(nodes(alloc))?
        .arg(names(alloc))?
        .arg(calls(alloc))?
        .arg(switch(alloc, "digest").help(
            "Write one line with a digest of the rows: stacks that answer alike have the same",
        ))?
        .arg(json(alloc))?
        .arg(quiet(alloc))?
        .arg(explain(alloc))?
        .arg(filters(alloc))
}

fn needed<'a>(alloc: Global) -> Result<Command<'a>, AllocError>
    ensures { IfOk result (λ c. app_of c ≡ needed_line) }
{
    Command::new(alloc, "needed")
        .about("Tell for each filter of a stack whether more gets through without it")
        .arg(nodes(alloc))?
        .arg(json(alloc))?
        .arg(quiet(alloc))?
        .arg(explain(alloc))?
        .arg(filters(alloc))
}

fn profile<'a>(alloc: Global) -> Result<Command<'a>, AllocError>
    ensures { IfOk result (λ c. app_of c ≡ profile_line) }
{
    Command::new(alloc, "profile")
        .about("Write the filter that a JSON profile means, to be compared with what is installed")
        .arg(machine(alloc))?
        .arg(names(alloc))?
        .arg(cap(alloc))?
        .arg(option(alloc, "kernel", "X.Y").help("The version of the kernel, such as 6.12"))?
        .arg(conflicts(alloc))?
        .arg(switch(alloc, "newer").help(
            "Let calls that are newer than the profile fail with ENOSYS, as runc does",
        ))?
        .arg(switch(alloc, "skip-unknown").help("Pass over names that no set of calls has"))?
        .arg(switch(alloc, "notes").help("Write what the profile has, and not its filter"))?
        .arg(quiet(alloc))?
        .arg(explain(alloc))?
        .arg(profile_file(alloc))
}

/// The program without its subcommands, of which one must be named. It has no `help`: `meant_words` of `sf_command`
/// makes `--help` of that word first. The text of the version is that of its caller.
fn program<'a>(alloc: Global) -> Result<Command<'a>, AllocError>
    ensures { IfOk result (λ c. app_of c ≡ program_line) }
{
    let named = Command::new(alloc, "seccomp_audit")
        .about("Audit a stack of seccomp filters")
        .after_help(AFTER_HELP)
        .bin_name("seccomp_audit")?;
    Ok(
        named
            .no_binary_name(true)
            .subcommand_required(true)
            .version("")
            .disable_help_subcommand(true),
    )
}

/// The form of the command line: the program, its subcommands and what each takes.
pub fn command_form<'a>(alloc: Global) -> Result<Command<'a>, AllocError>
    ensures { IfOk result (λ c. app_of c ≡ command_line) }
{
    program(alloc)?
        .subcommand(audit(alloc)?)?
        .subcommand(check(alloc)?)?
        .subcommand(eval(alloc)?)?
        .subcommand(compare(alloc)?)?
        .subcommand(list(alloc)?)?
        .subcommand(needed(alloc)?)?
        .subcommand(profile(alloc)?)
}
