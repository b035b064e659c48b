//! The calls that `list` and `compare` are asked to show one by one, which rows `compare` is asked to show, and the
//! digest of the rows of `list`.

ghost use Rattle.std.specs.Prelude.{◌≡◌, ◌⊎◌, IfErr, IfOk, None, count_by, false, find, is_none, map, not, option_map, true};
ghost use Rattle.std.specs.List.{list_all};
ghost use Rattle.std.specs.Str.{bytes_eq};
ghost use Rattle.clap.specs.Words.{found_of, rows_of};
ghost use Rattle.sf_calls.specs.Numbers.{comma_parts};
ghost use Rattle.sf_stack.specs.declared.fault.Fault.TheVariants.{Memory as MemoryFault, UnknownName as UnknownNameFault};
ghost use Rattle.sf_evaluate.specs.Wanted.{are_known, calls_asked, calls_fit, digest_fits, is_known_call, is_relation, is_wanted_once, names_in_text, rows_fit};

use super::asking::is_given;
use super::auditing::is_switched_on;
use super::misfits::Misfit;
use super::naming::has_names;
use crate::explaining::{Cause, Notes};
use clap::ArgMatches;
use sf_command_line::{given_text, text_of};
use sf_names::{Names, is_call_name};
use sf_stack::Fault;
use std::alloc::{AllocError, Global};

fn count_of(text: &str, name: &str) -> usize
    ensures { result ≡ count_by (bytes_eq name.now) (comma_parts text.now) }
{
    text.split(',').filter(|part| name == *part).count()
}

fn is_name_once(text: &str, name: &str) -> bool
    ensures { result ≡ is_wanted_once (comma_parts text.now) name.now }
{
    is_call_name(name) && count_of(text, name) == 1
}

/// The first name in a text that can't be that of a call, or stands twice.
fn wrong_name(text: &str) -> Option<&str>
    ensures { is_none result ≡ list_all (is_wanted_once (names_in_text text.now))
        (names_in_text text.now) }
{
    if text.is_empty() {
        return None;
    }
    text.split(',').find(|name| !is_name_once(text, name))
}

/// What doesn't fit in `--calls`. With an empty text it asks for all calls.
pub(super) fn misfit_of_calls<'a>(found: &ArgMatches<'a>) -> Option<Misfit<'a>>
    ensures { is_none result ≡ calls_fit (rows_of (found_of found.now)) }
{
    let name = wrong_name(given_text(found, "calls")?)?;
    Some(if is_call_name(name) {
        Misfit::Twice(name)
    } else {
        Misfit::NoCall(name)
    })
}

fn is_relation(word: &str) -> bool
    ensures { result ≡ is_relation word.now }
{
    word == "looser" || word == "tighter" || word == "different"
}

/// The first of the options of `compare` about rows that doesn't fit: `--only` names a relation, and it and `--calls`
/// come only with `--rows`.
pub(super) fn misfit_of_rows<'a>(found: &ArgMatches<'a>) -> Option<Misfit<'a>>
    ensures { is_none result ≡ rows_fit (rows_of (found_of found.now)) }
{
    match given_text(found, "only") {
        Some(word) if !is_relation(word) => {
            let taken = "looser, tighter, different";
            Some(Misfit::Value("--only <RELATION>", word, taken))
        }
        word => {
            let tells_rows = is_given(found, "calls") || word.is_some();
            let sentence = "--calls and --only tell of rows: give --rows too";
            (!is_switched_on(found, "rows") && tells_rows).then(|| Misfit::Sentence(sentence))
        }
    }
}

pub(super) fn misfit_of_digest<'a>(found: &ArgMatches<'a>) -> Option<Misfit<'a>>
    ensures { is_none result ≡ digest_fits (rows_of (found_of found.now)) }
{
    let is_other = has_names(found) || (is_given(found, "calls") || is_switched_on(found, "json"));
    let sentence = "--digest is that of all rows: give it without --names, --calls and --json";
    (is_switched_on(found, "digest") && is_other).then(|| Misfit::Sentence(sentence))
}

fn names_in_text<'a>(alloc: Global, text: &'a str) -> Result<Vec<&'a str>, AllocError>
    ensures { IfOk result (λ v. map (λ t. t.now) v.items ≡ names_in_text text.now) }
{
    if text.is_empty() {
        return Ok(Vec::new(alloc));
    }
    text.split(',').collect(alloc)
}

fn is_known_call(sets: &[Names], name: &str) -> bool
    ensures { result ≡ is_known_call sets.now name.now }
{
    sets.iter().any(|names| names.number_of(name).is_some())
}

fn unknown_among<'a, 't>(sets: &[Names], names: &'t [&'a str]) -> Option<&'t &'a str>
    ensures { option_map (λ t. t.now) result
        ≡ find (λ t. not (is_known_call sets.now t.now)) names.now }
{
    names.iter().find(|name| !is_known_call(sets, name))
}

/// The first of the calls that no set has.
fn unknown_call<'a>(sets: &[Names], calls: &Option<Vec<&'a str>>) -> Option<&'a str>
    ensures { is_none result
        ≡ are_known sets.now (option_map (λ v. map (λ t. t.now) v.items) calls.now) }
{
    match calls {
        Some(names) => unknown_among(sets, names).map(|name| *name),
        None => None,
    }
}

/// The names of calls in the text of `--calls`, for each of which a set has a call; an empty list asks for all calls.
pub fn known_calls<'a>(
    alloc: Global,
    found: &ArgMatches<'a>,
    sets: &[Names],
    notes: &mut Notes,
) -> Result<Option<Vec<&'a str>>, Fault>
    ensures asked { IfOk result (λ o. option_map (λ v. map (λ t. t.now) v.items) o
        ≡ calls_asked (rows_of (found_of found.now))) }
    ensures known { IfOk result (λ _.
        are_known sets.now (calls_asked (rows_of (found_of found.now))) ≡ true) }
    ensures refused { IfErr result (λ e. (e ≡ MemoryFault) ⊎ ((e ≡ UnknownNameFault)
        × (are_known sets.now (calls_asked (rows_of (found_of found.now))) ≡ false))) }
{
    let calls = match given_text(found, "calls") {
        Some(text) => Some(names_in_text(alloc, text)?),
        None => None,
    };
    if let Some(name) = unknown_call(sets, &calls) {
        notes.cause = Some(Cause::UnknownCall(String::from_str(alloc, name)?));
        return Err(Fault::UnknownName);
    }
    Ok(calls)
}
