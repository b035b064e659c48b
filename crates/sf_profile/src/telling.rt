//! The notes on a profile.

ghost use Rattle.std.specs.Prelude.{◌≡◌, ◌++◌, filter, fold, map, IfOk, OnOk, string_bytes};
ghost use Rattle.std.specs.List.{flat_map};
ghost use Rattle.serde_json.specs.View.{view};
ghost use Rattle.sf_profile.specs.Notes.{applied_count, applied_names, rules_line, default_line, name_word, names_where, notes_text, nowhere_names, response_data, response_name, set_name_in_notes, sets_line, unknown_line, unknown_names, with_name};
ghost use Rattle.sf_profile.specs.Known.{is_nowhere};
ghost use Rattle.sf_profile.specs.Settings.{is_unknown};
ghost use Rattle.sf_profile.specs.Trees.{text_in};

use crate::known::{is_nowhere, is_unknown};
use crate::read::{Profile, ProfileRule};
use crate::rules::{CallSet, Response};
use crate::settings::Settings;
use crate::tree::text_of;
use indexmap::IndexSet;
use serde_json::Value;
use std::alloc::{AllocError, Global};

fn response_name(response: Response) -> &'static str
    ensures { result.now ≡ response_name response }
{
    match response {
        Response::KillProcess => "KILL_PROCESS",
        Response::KillThread => "KILL_THREAD",
        Response::Trap => "TRAP",
        Response::Errno(_) => "ERRNO",
        Response::Notify => "USER_NOTIF",
        Response::Tracer(_) => "TRACE",
        Response::Log => "LOG",
        Response::Allow => "ALLOW",
    }
}

/// The number that goes with a response: that of ERRNO or TRACE, and 0 for others.
fn response_data(response: Response) -> u16
    ensures { result ≡ response_data response }
{
    match response {
        Response::Errno(number) | Response::Tracer(number) => number,
        _ => 0,
    }
}

/// The name of a set of calls in notes, as `policies/names.toml` has it too. (`name_of_set` gives the one in profiles.)
fn set_name_in_notes(set: CallSet) -> &'static str
    ensures { result.now ≡ set_name_in_notes set }
{
    match set {
        CallSet::X64 => "x86_64",
        CallSet::X32 => "x32",
        CallSet::I386 => "i386",
        CallSet::Aarch64 => "aarch64",
        CallSet::Arm => "arm",
    }
}

fn push_name<'a>(names: &mut IndexSet<&'a str>, name: &'a str) -> Result<(), AllocError>
    ensures { OnOk result (map (λ n. n.now) names.new.keys
        ≡ with_name (map (λ n. n.now) names.old.keys) name.now) }
{
    names.insert(name)?;
    Ok(())
}

fn push_names<'a>(names: &mut IndexSet<&'a str>, items: &'a [Value]) -> Result<(), AllocError>
    ensures { OnOk result (map (λ n. n.now) names.new.keys
        ≡ fold with_name (map (λ n. n.now) names.old.keys) (map text_in (map view items.now))) }
{
    for value in items {
        push_name(names, text_of(value))?;
    }
    Ok(())
}

fn push_names_where<'a>(
    names: &mut IndexSet<&'a str>,
    rule: &ProfileRule<'a>,
) -> Result<(), AllocError>
    ensures { OnOk result (map (λ n. n.now) names.new.keys
        ≡ fold with_name (map (λ n. n.now) names.old.keys) (names_where rule.now)) }
{
    if rule.applies {
        return push_names(names, rule.names);
    }
    Ok(())
}

/// The names of those rules that apply, in the order of first mention.
#[tactic(auto, using(crate::proofs::plan::PlanLemmas::fold_both))]
fn applied_set<'a>(
    alloc: Global,
    rules: &[ProfileRule<'a>],
) -> Result<IndexSet<&'a str>, AllocError>
    ensures { IfOk result (λ s. map (λ n. n.now) s.keys ≡ applied_names rules.now) }
{
    let mut names = IndexSet::new(alloc);
    for rule in rules {
        push_names_where(&mut names, rule)?;
    }
    Ok(names)
}

fn unknown_names<'a>(
    alloc: Global,
    settings: &Settings,
    names: &[&'a str],
) -> Result<Vec<&'a str>, AllocError>
    ensures { IfOk result (λ v. map (λ n. n.now) v.items
        ≡ filter (is_unknown settings.now) (map (λ n. n.now) names.now)) }
{
    let mut unknown = Vec::new(alloc);
    for name in names {
        if is_unknown(settings, name) {
            unknown.push(*name)?;
        }
    }
    Ok(unknown)
}

fn nowhere_names<'a>(
    alloc: Global,
    settings: &Settings,
    names: &[&'a str],
) -> Result<Vec<&'a str>, AllocError>
    ensures { IfOk result (λ v. map (λ n. n.now) v.items
        ≡ filter (is_nowhere settings.now) (map (λ n. n.now) names.now)) }
{
    let mut nowhere = Vec::new(alloc);
    for name in names {
        if is_nowhere(settings, name) {
            nowhere.push(*name)?;
        }
    }
    Ok(nowhere)
}

fn applied_count(rules: &[ProfileRule<'_>]) -> usize
    ensures { result ≡ applied_count rules.now }
{
    rules.iter().filter(|rule| rule.applies).count()
}

/// Adds the line of the default response: `default`, its action's name, and the number that goes with it, or 0.
fn push_default(text: &mut String, response: Response) -> Result<(), AllocError>
    ensures { OnOk result (string_bytes text.new ≡ string_bytes text.old
        ++ default_line response) }
{
    let name = response_name(response);
    let data = response_data(response);
    write!(text, "default {name} {data}\n")
}

fn push_word(text: &mut String, name: &str) -> Result<(), AllocError>
    ensures { OnOk result (string_bytes text.new ≡ string_bytes text.old ++ name_word name.now) }
{
    text.push_str(" ")?;
    text.push_str(name)
}

fn push_sets(text: &mut String, sets: &[CallSet]) -> Result<(), AllocError>
    ensures { OnOk result (string_bytes text.new ≡ string_bytes text.old ++ sets_line sets.now) }
{
    text.push_str("sets")?;
    for set in sets {
        push_word(text, set_name_in_notes(*set))?;
    }
    text.push_str("\n")
}

/// Adds the line of the counts: how many rules there are, how many of them apply, how many different names these have,
/// and how many of these names no file of names has.
fn push_counts(
    text: &mut String,
    rules: usize,
    applied: usize,
    names: usize,
    unknown: usize,
) -> Result<(), AllocError>
    ensures { OnOk result (string_bytes text.new ≡ string_bytes text.old
        ++ rules_line rules applied names unknown) }
{
    write!(
        text,
        "rules {rules} applied {applied} names {names} unknown {unknown}\n"
    )
}

fn push_all_unknown(text: &mut String, names: &[&str]) -> Result<(), AllocError>
    ensures { OnOk result (string_bytes text.new ≡ string_bytes text.old
        ++ flat_map unknown_line (map (λ n. n.now) names.now)) }
{
    for name in names {
        write!(text, "unknown {name}\n")?;
    }
    Ok(())
}

fn words_of(alloc: Global, names: &[&str]) -> Result<String, AllocError>
    ensures { IfOk result (λ text. string_bytes text
        ≡ flat_map name_word (map (λ n. n.now) names.now)) }
{
    let mut text = String::new(alloc);
    for name in names {
        push_word(&mut text, name)?;
    }
    Ok(text)
}

/// The names of rules that apply which no machine has: each once, in the order of first mention, with a blank before
/// each.
pub(crate) fn nowhere_words(
    alloc: Global,
    settings: &Settings,
    rules: &[ProfileRule<'_>],
) -> Result<String, AllocError>
    ensures { IfOk result (λ text. string_bytes text
        ≡ flat_map name_word (nowhere_names settings.now rules.now)) }
{
    let names = applied_set(alloc, rules)?;
    let nowhere = nowhere_names(alloc, settings, names.as_slice())?;
    words_of(alloc, &nowhere)
}

/// The notes on a profile: the form of the notes (`seccomp_audit profile 1`), the default, the sets, the counts, a line
/// for each name that no file of names has, and the number of instructions, `size`.
pub(crate) fn notes_text(
    alloc: Global,
    settings: &Settings,
    profile: &Profile<'_>,
    size: usize,
) -> Result<String, AllocError>
    ensures { IfOk result (λ text. string_bytes text ≡ notes_text settings.now profile.now size) }
{
    let names = applied_set(alloc, &profile.rules)?;
    let unknown = unknown_names(alloc, settings, names.as_slice())?;
    let mut text = String::from_str(alloc, "seccomp_audit profile 1\n")?;
    push_default(&mut text, profile.default)?;
    push_sets(&mut text, &profile.sets)?;
    push_counts(
        &mut text,
        profile.rules.len(),
        applied_count(&profile.rules),
        names.len(),
        unknown.len(),
    )?;
    push_all_unknown(&mut text, &unknown)?;
    write!(text, "total instructions {size}\n")?;
    Ok(text)
}
