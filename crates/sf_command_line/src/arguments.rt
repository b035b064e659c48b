//! The options and words that subcommands take. Whether a word has the right form, and what goes together, is seen
//! later.
ghost use Rattle.std.specs.Prelude.{◌≡◌, codes, false};
ghost use Rattle.clap.specs.Words.{rule_of};
ghost use Rattle.sf_command_line.specs.CommandLine.{choice_rule, file_rule, files_rule, filters_rule, needed_repeated_rule, needed_rule, number_rule, option_rule, repeated_rule, switch_rule, word_rule};

use clap::{Arg, ArgAction, value_parser};
use std::alloc::Global;

/// An option, `name` behind two dashes, with a value, which the help calls `value`. It may be left out, and is refused
/// where it is given twice.
pub(crate) fn option<'a>(alloc: Global, name: &'a str, value: &'a str) -> Arg<'a>
    ensures rule { rule_of result ≡ option_rule name.entry.now }
    ensures own { result.global ≡ false }
{
    Arg::new(alloc, name).long(name).value_name(value)
}

/// An option without a value: `name` behind two dashes. It may be left out, and is refused where it is given twice.
pub(crate) fn switch<'a>(alloc: Global, name: &'a str) -> Arg<'a>
    ensures rule { rule_of result ≡ switch_rule name.entry.now }
    ensures own { result.global ≡ false }
{
    Arg::new(alloc, name).long(name).action(ArgAction::SetTrue)
}

/// `--policy`: a file that asks questions; it must be given, and may be given more than once.
pub(crate) fn policy<'a>(alloc: Global) -> Arg<'a>
    ensures rule { rule_of result ≡ needed_repeated_rule (codes "policy") }
    ensures own { result.global ≡ false }
{
    option(alloc, "policy", "FILE")
        .required(true)
        .action(ArgAction::Append)
        .help(
            "A policy file, which asks questions, once for each file; @auto is the ready one that fits",
        )
}

/// `--json`: whether one JSON document is written in place of the text.
pub(crate) fn json<'a>(alloc: Global) -> Arg<'a>
    ensures rule { rule_of result ≡ switch_rule (codes "json") }
    ensures own { result.global ≡ false }
{
    switch(alloc, "json").help("Write one JSON document in place of the text")
}

/// `--budget`: the most works that are committed in the exploration of an audit, 1 to 1,000,000.
pub(crate) fn budget<'a>(alloc: Global) -> Arg<'a>
    ensures rule { rule_of result ≡ number_rule (codes "budget") 1000000 (codes "100000") }
    ensures own { result.global ≡ false }
{
    let numbers = value_parser!(u32).range(1..=1_000_000);
    option(alloc, "budget", "N")
        .value_parser(numbers)
        .default_value("100000")
        .help("The most pieces that are worked on, 1 to 1000000")
}

/// `--workers`: the number of workers, 1 to 64.
pub(crate) fn workers<'a>(alloc: Global) -> Arg<'a>
    ensures rule { rule_of result ≡ number_rule (codes "workers") 64 (codes "4") }
    ensures own { result.global ≡ false }
{
    let numbers = value_parser!(u8).range(1..=64);
    option(alloc, "workers", "N")
        .value_parser(numbers)
        .default_value("4")
        .help("The number of workers, 1 to 64: 1 is as fast, and answers more under a budget")
}

/// `--nodes`: the most nodes that the decision diagrams of the answers may have, 1 to 16,000,000.
pub(crate) fn nodes<'a>(alloc: Global) -> Arg<'a>
    ensures rule { rule_of result ≡ number_rule (codes "nodes") 16000000 (codes "1000000") }
    ensures own { result.global ≡ false }
{
    let numbers = value_parser!(u32).range(1..=16_000_000);
    option(alloc, "nodes", "N")
        .value_parser(numbers)
        .default_value("1000000")
        .help("The most nodes that the decision diagrams may have, 1 to 16000000")
}

pub(crate) fn explain<'a>(alloc: Global) -> Arg<'a>
    ensures rule { rule_of result ≡ switch_rule (codes "explain-errors") }
    ensures own { result.global ≡ false }
{
    switch(alloc, "explain-errors").help(
        "Explain an error under its line: where it lies, and what its number means",
    )
}

pub(crate) fn quiet<'a>(alloc: Global) -> Arg<'a>
    ensures rule { rule_of result ≡ switch_rule (codes "quiet") }
    ensures own { result.global ≡ false }
{
    switch(alloc, "quiet").help("Leave out the warnings on standard error")
}

/// The paths of the filter files, at least one, in order of installation.
pub(crate) fn filters<'a>(alloc: Global) -> Arg<'a>
    ensures rule { rule_of result ≡ filters_rule }
    ensures own { result.global ≡ false }
{
    Arg::new(alloc, "filters")
        .value_name("FILTER")
        .required(true)
        .num_args(1..)
        .action(ArgAction::Append)
        .help("Filter files, in order of installation")
}

/// `--old` or `--new`, as `name` says: the paths of the filter files of one of two stacks. `help` is what the help says
/// of it.
pub(crate) fn files<'a>(alloc: Global, name: &'a str, help: &'a str) -> Arg<'a>
    ensures rule { rule_of result ≡ files_rule name.entry.now }
    ensures own { result.global ≡ false }
{
    option(alloc, name, "FILE")
        .required(true)
        .num_args(1..)
        .action(ArgAction::Append)
        .help(help)
}

/// `--names`: the path of a file of names of calls; it may be given more than once.
pub(crate) fn names<'a>(alloc: Global) -> Arg<'a>
    ensures rule { rule_of result ≡ repeated_rule (codes "names") }
    ensures own { result.global ≡ false }
{
    option(alloc, "names", "FILE")
        .action(ArgAction::Append)
        .help("A file of names of calls, once for each file; @names if needed and not given")
}

/// `--calls`: whether rows are shown call by call, and of which calls: all, where no names follow it.
pub(crate) fn calls<'a>(alloc: Global) -> Arg<'a>
    ensures rule { rule_of result ≡ choice_rule (codes "calls") }
    ensures own { result.global ≡ false }
{
    option(alloc, "calls", "NAME,..")
        .num_args(0..=1)
        .default_missing_value("")
        .help("A line for each row of these calls; given last, or before an option, of all calls")
}

/// `--machine`: the machine for which a profile is read; it must be given.
pub(crate) fn machine<'a>(alloc: Global) -> Arg<'a>
    ensures rule { rule_of result ≡ needed_rule (codes "machine") }
    ensures own { result.global ≡ false }
{
    option(alloc, "machine", "MACHINE")
        .required(true)
        .help("The machine: x86_64, i386, aarch64 or arm")
}

/// `--cap`: a capability that the container has; it may be given more than once.
pub(crate) fn cap<'a>(alloc: Global) -> Arg<'a>
    ensures rule { rule_of result ≡ repeated_rule (codes "cap") }
    ensures own { result.global ≡ false }
{
    option(alloc, "cap", "NAME").action(ArgAction::Append).help(
        "A capability that the container has, such as CAP_SYS_PTRACE; once for each",
    )
}

/// `--conflicts`: which rule of a profile counts where several speak of one call.
pub(crate) fn conflicts<'a>(alloc: Global) -> Arg<'a>
    ensures rule { rule_of result ≡ word_rule (codes "conflicts") (codes "strictest") }
    ensures own { result.global ≡ false }
{
    option(alloc, "conflicts", "RULE")
        .default_value("strictest")
        .help("Which rule counts where several speak of one call: strictest, mildest or first")
}

pub(crate) fn profile_file<'a>(alloc: Global) -> Arg<'a>
    ensures rule { rule_of result ≡ file_rule (codes "profile") }
    ensures own { result.global ≡ false }
{
    Arg::new(alloc, "profile")
        .value_name("PROFILE")
        .required(true)
        .help("The JSON file of the profile")
}
