//! The names of calls, as text.

ghost use Rattle.std.specs.Prelude.{◌≡◌, ◌++◌, IfOk, OnOk, string_bytes};
ghost use Rattle.std.specs.List.{flat_map};
ghost use Rattle.sf_names.specs.Names.{count_after, count_more, name_between, next_name_words, names_between, names_in, names_words};

use crate::names::{Call, Names};
use std::alloc::AllocError;

/// The most names that are written in one row.
const MOST_NAMES: usize = 8;

/// Adds a name to a row's text, in which `count` names stand already: behind ` # ` or a comma, `,..` instead of the
/// ninth name, and nothing for any further one. Returns how many names stand in the row then, where `..` counts as one.
fn push_name(text: &mut String, count: usize, name: &str) -> Result<usize, AllocError>
    ensures text { OnOk result (string_bytes text.new ≡ string_bytes text.old
        ++ next_name_words count name.now) }
    ensures count { IfOk result (λ n. n ≡ count_more count) }
{
    if count > MOST_NAMES {
        return Ok(count);
    }
    if count == MOST_NAMES {
        text.push_str(",..")?;
        return Ok(count + 1);
    }
    let before = if count == 0 { " # " } else { "," };
    text.push_str(before)?;
    text.push_str(name)?;
    Ok(count + 1)
}

/// Adds the name of a call whose number is from `first` to `last`, as `push_name` does.
fn push_call(
    text: &mut String,
    count: usize,
    call: &Call,
    first: u32,
    last: u32,
) -> Result<usize, AllocError>
    ensures text { OnOk result (string_bytes text.new ≡ string_bytes text.old
        ++ names_words count (name_between first last call.now)) }
    ensures count { IfOk result (λ n. n ≡ count_after count (name_between first last call.now)) }
{
    if first <= call.number && call.number <= last {
        return push_name(text, count, call.name.as_str());
    }
    Ok(count)
}

fn push_calls(
    text: &mut String,
    count: usize,
    calls: &[Call],
    first: u32,
    last: u32,
) -> Result<usize, AllocError>
    ensures text { OnOk result (string_bytes text.new ≡ string_bytes text.old
        ++ names_words count (flat_map (name_between first last) calls.now)) }
    ensures count { IfOk result (λ n. n
        ≡ count_after count (flat_map (name_between first last) calls.now)) }
{
    let mut told = count;
    for call in calls {
        told = push_call(text, told, call, first, last)?;
    }
    Ok(told)
}

fn push_names_in(
    text: &mut String,
    count: usize,
    names: &Names,
    arch: u32,
    first: u32,
    last: u32,
) -> Result<usize, AllocError>
    ensures text { OnOk result (string_bytes text.new ≡ string_bytes text.old
        ++ names_words count (names_in arch first last names.now)) }
    ensures count { IfOk result (λ n. n ≡ count_after count
        (names_in arch first last names.now)) }
{
    if names.arch == arch {
        return push_calls(text, count, names.calls.as_slice(), first, last);
    }
    Ok(count)
}

/// Adds to a row's text, set after set, the names of the calls of an architecture whose numbers are from `first` to
/// `last`: behind ` # `, with commas between them, and `,..` for those behind the eighth.
///
/// `count` is how many names stand in the row before, 0 in a new one. Returns how many stand in it then, where `..`
/// counts as one.
pub fn push_names_between(
    text: &mut String,
    count: usize,
    names: &[Names],
    arch: u32,
    first: u32,
    last: u32,
) -> Result<usize, AllocError>
    ensures text { OnOk result (string_bytes text.new ≡ string_bytes text.old
        ++ names_words count (names_between names.now arch first last)) }
    ensures count { IfOk result (λ n. n
        ≡ count_after count (names_between names.now arch first last)) }
{
    let mut told = count;
    for one in names {
        told = push_names_in(text, told, one, arch, first, last)?;
    }
    Ok(told)
}
