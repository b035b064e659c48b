//! The words as `clap` is to read them, and what is written where they ask for help, or are refused.

ghost use Rattle.std.specs.Prelude.{◌≡◌, ◌≢◌, ◌<◌, ◌≤◌, ◌⊎◌, ◌++◌, length, map, string_bytes, true, IfOk, IfErr, OnOk};
ghost use Rattle.std.specs.Io.KnownBytes.{Appends};
ghost use Rattle.clap.specs.Words.{kind_of};
ghost use Rattle.sf_stack.specs.declared.fault.Fault.TheVariants.{Memory as MemoryFault, Write as WriteFault};
ghost use Rattle.sf_evaluate.specs.declared.fault.Fault.TheVariants.{Other};
ghost use Rattle.sf_command_line.specs.Terminal.{visible};
ghost use Rattle.sf_command.specs.Runs.{IsHelp, WritesText, begins_with_help, meant_words};

use clap::error::ErrorKind;
use sf_command_line::{command_form, visible};
use sf_evaluate::{Fault, print};
use std::alloc::{AllocError, Global};
use std::io::Write;

fn visible_words(alloc: Global, words: &[String]) -> Result<Vec<String>, AllocError>
    ensures { IfOk result (λ v. map string_bytes v.items
        ≡ map visible (map string_bytes words.now)) }
{
    let mut all = Vec::new(alloc);
    for word in words {
        all.push(visible(alloc, word.as_str())?)?;
    }
    Ok(all)
}

/// Options of an audit that `list`, `compare` and `needed` took before 2.0.0.
const GONE: [&str; 4] = ["--workers", "--leaves", "--budget", "--progress"];

/// What is said where one of them is given.
const INSTEAD: &str = "
list, compare and needed take no --workers, --leaves, --budget or --progress: they answer for each input exactly.
--nodes N is there in their place: the most nodes that the decision diagrams may have, 1000000 if not given.
";

/// What `clap` says of a number in which another character stands, and what is said then.
const NO_DIGIT: &str = "invalid digit";

const DIGITS: &str = "
A number has decimal digits and nothing else, as 1000000 has.
";

/// What is said where the filters are missing behind `--calls`.
const TAKEN: &str = "
--calls takes the word behind it for names of calls: for all calls, give it behind the filters.
";

/// Whether a word is one of the options of `GONE`, alone or with a value behind `=`.
fn is_gone(word: &str) -> bool {
    let name = match word.split_once('=') {
        Some((name, _)) => name,
        None => word,
    };
    GONE.iter().any(|gone| name == *gone)
}

fn ask_for_gone(words: &[String]) -> bool {
    match words.first() {
        Some(command) => {
            matches!(command.as_str(), "list" | "compare" | "needed")
                && words.iter().any(|word| is_gone(word.as_str()))
        }
        None => false,
    }
}

/// What to do about a refusal with this text; empty where there is nothing to say.
fn advice(words: &[String], kind: ErrorKind, text: &str) -> &'static str {
    if ask_for_gone(words) {
        INSTEAD
    } else if text.contains(NO_DIGIT) {
        DIGITS
    } else if kind == ErrorKind::MissingRequiredArgument
        && words.iter().any(|word| word.as_str() == "--calls")
    {
        TAKEN
    } else {
        ""
    }
}

/// Why `clap` refuses the words. It writes a word as it gets it, so it gets the words here as a terminal shows them. It
/// refuses these too: no option, subcommand or number has a hidden character or a `\`. Were they not refused, the text
/// would be empty.
fn refusal_text(alloc: Global, words: &[String]) -> Result<String, AllocError> {
    let shown = visible_words(alloc, words)?;
    match command_form(alloc)?.try_get_matches_from(&shown) {
        Ok(_) => Ok(String::new(alloc)),
        Err(error) => {
            if error.kind() == ErrorKind::OutOfMemory {
                return Err(AllocError);
            }
            error.to_string(alloc)
        }
    }
}

/// Writes what is said in place of matches of the words, for which `clap` gives `error`, and gives the exit status. The
/// help, or `version` where that was asked for, goes to standard output, and the status is 0. Otherwise the text of
/// `refusal_text` goes to standard error, with `advice` behind it, and the status is 4, also where standard error can't
/// be written.
pub(crate) fn write_usage<O: Write, E: Write>(
    alloc: Global,
    version: &str,
    words: &[String],
    error: &clap::Error,
    out: &mut O,
    err: &mut E,
) -> Result<u8, Fault>
    ensures status { IfOk result (λ s. (s ≤ 2) ⊎ (s ≡ 4)) }
    ensures help { IsHelp (kind_of error.now) → IfOk result (λ s. s ≡ 0) }
    ensures done { IfOk result (λ s. s ≤ 2 → IsHelp (kind_of error.now) × (s ≡ 0)
        × WritesText (O.contents out.old) (O.contents out.new)
        × (kind_of error.now ≡ ErrorKind.DisplayVersion
        → Appends (O.contents out.old) (O.contents out.new) version.now)) }
    ensures refused { ¬ IsHelp (kind_of error.now) → IfOk result (λ s. s ≡ 4) }
    ensures usage { IfOk result (λ s. s ≡ 4 → (kind_of error.now ≢ ErrorKind.OutOfMemory)
        × (out.new ≡ out.old)) }
    ensures explained { IfErr result (λ e. (e ≡ Other MemoryFault)
        ⊎ (e ≡ Other WriteFault)) }
    ensures quiet { IfErr result (λ e. (e ≡ Other WriteFault) ⊎ (out.new ≡ out.old)) }
{
    if error.kind() == ErrorKind::OutOfMemory {
        return Err(Fault::Other(sf_stack::Fault::Memory));
    }
    match error.kind() {
        ErrorKind::DisplayHelp => {
            let text = error.to_string(alloc)?;
            print(&text, out)?;
            Ok(0)
        }
        ErrorKind::DisplayVersion => {
            print(version, out)?;
            Ok(0)
        }
        _ => {
            let mut text = refusal_text(alloc, words)?;
            let more = advice(words, error.kind(), text.as_str());
            text.push_str(more)?;
            let _ = err.write_all(text.as_bytes());
            Ok(4)
        }
    }
}

fn push_words(alloc: Global, all: &mut Vec<String>, words: &[String]) -> Result<(), AllocError>
    ensures { OnOk result (map string_bytes all.new.items
        ≡ map string_bytes all.old.items ++ map string_bytes words.now) }
{
    for word in words {
        all.push(String::from_str(alloc, word.as_str())?)?;
    }
    Ok(())
}

fn begins_with_help(words: &[String]) -> bool
    ensures help { result ≡ begins_with_help (map string_bytes words.now) }
    ensures some { result ≡ true → 0 < length words.now }
{
    match words.first() {
        Some(word) => word.as_str() == "help",
        None => false,
    }
}

/// The words as `clap` is to read them. Where the first word is `help`, these are the words behind it and then
/// `--help`, so that `help list` asks for what `list --help` asks for. Otherwise they are copies of all words.
pub(crate) fn meant_words(alloc: Global, words: &[String]) -> Result<Vec<String>, AllocError>
    ensures { IfOk result (λ v. map string_bytes v.items
        ≡ meant_words (map string_bytes words.now)) }
{
    let mut meant = Vec::new(alloc);
    if begins_with_help(words) {
        push_words(alloc, &mut meant, &words[1..])?;
        meant.push(String::from_str(alloc, "--help")?)?;
    } else {
        push_words(alloc, &mut meant, words)?;
    }
    Ok(meant)
}
