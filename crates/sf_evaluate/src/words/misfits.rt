//! Words of the command line that don't fit together, in words for a person. Contracts say only whether
//! something doesn't fit.

use super::asking::asks_all_inputs;
use super::misfit_of;
use crate::fault::Fault;
use clap::ArgMatches;
use std::alloc::{AllocError, Global};
use std::io::Write;

/// What doesn't fit. Options are written as messages call them, such as `--nr <N>`.
#[derive(Drop)]
pub(super) enum Misfit<'a> {
    Both(&'static str, &'static str),
    /// This option is missing; or several, one of which is wanted, are all missing.
    Missing(&'static str),
    /// The option, its value, and what it takes.
    Value(&'static str, &'a str, &'static str),
    Sentence(&'static str),
    /// The control with this path is a policy that asks too.
    Control(&'a str),
    /// This name of a call stands twice behind `--calls`.
    Twice(&'a str),
    /// A word behind `--calls` that can't be the name of a call: it may be the path of a filter.
    NoCall(&'a str),
}

/// The text of `--input`, or the number behind an option of a call, that spells no part of an input.
#[derive(Drop)]
pub(crate) enum Misspelled<'a> {
    Input(&'a str),
    /// The option without dashes, its number, and how many bits this may have.
    Number(&'static str, &'a str, u8),
}

/// What is said where `--call` is given without `--args`.
const ONE_INPUT: &str =
    "one input of a call says nothing of its other inputs: `list --calls <NAME>` tells the answers to all of them";

/// Adds the lines that say what doesn't fit, as far as `clap` knows such misfits in its form.
fn push_misfit(text: &mut String, misfit: &Misfit<'_>) -> Result<(), AllocError> {
    match misfit {
        Misfit::Both(one, other) => write!(
            text,
            "error: the argument '{one}' cannot be used with '{other}'\n"
        ),
        Misfit::Missing(option) => write!(
            text,
            "error: the following required arguments were not provided:\n  {option}\n"
        ),
        Misfit::Value(option, value, taken) => write!(
            text,
            "error: invalid value {value:?} for '{option}'\n  [possible values: {taken}]\n"
        ),
        Misfit::Sentence(sentence) => write!(text, "error: {sentence}\n"),
        Misfit::Control(control) => write!(
            text,
            "error: {control:?} is given as --control and as --policy\n  A control asks about calls that must get through, a policy about calls that must not.\n"
        ),
        Misfit::Twice(name) => write!(text, "error: --calls names {name:?} twice\n"),
        Misfit::NoCall(name) => write!(
            text,
            "error: {name:?} is no name of a call, for --calls\n  For all calls, let another option follow --calls, or give it behind the filters.\n"
        ),
    }
}

/// Adds the line that says why no input is spelled: by the first character of the text of `--input`, counted from 1,
/// that is no hexadecimal digit, or by the number of its digits; or by the number that is too wide.
pub(crate) fn push_misspelled(
    text: &mut String,
    misspelled: &Misspelled<'_>,
) -> Result<(), AllocError> {
    match misspelled {
        Misspelled::Number(option, number, bits) => {
            write!(text, "{option} {number:?}: more than {bits} bits\n")
        }
        Misspelled::Input(input) => {
            match input.chars().position(|digit| !digit.is_ascii_hexdigit()) {
                Some(place) => {
                    let number = place.saturating_add(1);
                    write!(text, "character {number} is no hexadecimal digit\n")
                }
                None => {
                    let digits = input.len();
                    write!(text, "digits {digits}, where 128 are wanted\n")
                }
            }
        }
    }
}

/// The lines that say which words of a subcommand don't fit. Where `--call` is given without `--args`, a line points to
/// `list`.
fn wrong_words_text(
    alloc: Global,
    name: &str,
    found: &ArgMatches<'_>,
) -> Result<String, AllocError> {
    let mut text = String::new(alloc);
    if let Some(misfit) = misfit_of(name, found) {
        push_misfit(&mut text, &misfit)?;
    }
    if asks_all_inputs(found) {
        write!(text, "  {ONE_INPUT}\n")?;
    }
    text.push_str("\nFor more information, try '--help'.\n")?;
    Ok(text)
}

/// Writes to standard error which words of the command line don't fit, if the run of these matches ended for that
/// reason, with the status 4. Where there is no memory for the lines, one line says so. An error of the write is
/// ignored.
pub fn tell_wrong_words<E: Write>(
    alloc: Global,
    matches: &ArgMatches<'_>,
    ran: &Result<u8, Fault>,
    err: &mut E,
) {
    let (Ok(4), Some((name, found))) = (ran, matches.subcommand()) else {
        return;
    };
    let text = wrong_words_text(alloc, name, found);
    let text = match &text {
        Ok(text) => text.as_str(),
        Err(_) => "error: words don't fit, and there was no memory to tell which\n",
    };
    let _ = err.write_all(text.as_bytes());
}
