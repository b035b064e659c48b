//! The fault of a file in which a key comes twice.

ghost use Rattle.std.specs.Prelude.{◌≡◌, ◌⊎◌, codes, option_and_then, option_map, Some, IfOk, IfErr, OnOk, IsSomeAnd};
ghost use Rattle.std.specs.Bool.{MatchBool};
ghost use Rattle.json.specs.Json.{document};
ghost use Rattle.json.specs.Strict.{HasUniqueKeys};
ghost use Rattle.json.specs.Value.{value_view, items_view};
ghost use Rattle.sf_profile.specs.Repeats.{AreReadBack, IsFaultOfRepeat, IsReadBack, items_where, last_at, last_rules, profile_below};

use crate::fault::Fault;
use json::{Error, Scratch, Value};
use std::alloc::{AllocError, Global};

/// The last value that an object has at a key, unless it is null.
fn last_at<'v, 'a>(value: &'v Value<'a>, key: &str) -> Option<&'v Value<'a>>
    ensures { option_map (λ v. value_view v.now) result ≡ last_at key.now
        (value_view value.now) }
{
    let found = value.get(key)?;
    if found.is_null() { None } else { Some(found) }
}

/// Where the profile stands: `seccomp` of `linux`, or the whole file where there is no `linux`.
fn profile_below<'v, 'a>(whole: &'v Value<'a>) -> Option<&'v Value<'a>>
    ensures { option_map (λ v. value_view v.now) result
        ≡ profile_below (last_at (codes "linux") (value_view whole.now)) (value_view whole.now) }
{
    match last_at(whole, "linux") {
        Some(linux) => last_at(linux, "seccomp"),
        None => Some(whole),
    }
}

pub(crate) fn items_of<'v, 'a>(value: &'v Value<'a>) -> &'v [Value<'a>]
    ensures { items_view result.now ≡ items_where (Some (value_view value.now)) }
{
    match value {
        Value::Array(items) => items.as_slice(),
        _ => &[],
    }
}

/// The last value that a file has at the key of its profile's rules, unless it is null.
pub(crate) fn rules_below<'v, 'a>(whole: &'v Value<'a>) -> Option<&'v Value<'a>>
    ensures { option_map (λ v. value_view v.now) result
        ≡ option_and_then (last_at (codes "syscalls"))
        (profile_below (last_at (codes "linux") (value_view whole.now)) (value_view whole.now)) }
{
    last_at(profile_below(whole)?, "syscalls")
}

/// Whether a key comes twice in an object of the text.
fn repeats_key(alloc: Global, text: &str) -> Result<bool, AllocError>
    ensures { IfOk result (λ b. MatchBool b
        (IsSomeAnd (document text.now) (λ whole. ¬ HasUniqueKeys whole))
        (IsSomeAnd (document text.now) HasUniqueKeys)) }
{
    let mut scratch = Scratch::new(alloc);
    match Value::parse_strict(alloc, text, &mut scratch) {
        Ok(_) => Ok(false),
        Err(Error::DuplicateKey) => Ok(true),
        // Memory, since the text is JSON.
        Err(_) => Err(AllocError),
    }
}

/// Whether a key comes twice in an object of the value. The reader of JSON tells that only of a text, so the value is
/// written.
#[tactic(auto, using(crate::proofs::repeats::RepeatLemmas::told_of_value))]
fn value_repeats_key(alloc: Global, value: &Value<'_>) -> Result<bool, AllocError>
    requires { IsReadBack (value_view value.now) }
    ensures { IfOk result (λ b. MatchBool b (¬ HasUniqueKeys (value_view value.now))
        (HasUniqueKeys (value_view value.now))) }
{
    let written = json::to_vec(alloc, value)?;
    match str::from_utf8(&written) {
        Ok(text) => repeats_key(alloc, text),
        // It doesn't come: what is written is UTF-8.
        Err(_) => Err(AllocError),
    }
}

/// The fault of a profile with these rules, in which a key comes twice: `RuleKey` with the number of the first rule in
/// which one does, or else `Key`.
fn fault_of_rules(alloc: Global, items: &[Value<'_>]) -> Result<Fault, AllocError>
    requires { AreReadBack (items_view items.now) }
    ensures { IfOk result (λ e. IsFaultOfRepeat 1 (items_view items.now) e) }
{
    for (i, item) in items.iter().enumerate() {
        if value_repeats_key(alloc, item)? {
            return Ok(Fault::RuleKey { rule: i + 1 });
        }
    }
    Ok(Fault::Key)
}

fn fault_of_document(alloc: Global, whole: &Value<'_>) -> Result<Fault, AllocError>
    requires { IsReadBack (value_view whole.now) }
    ensures { IfOk result (λ e. IsFaultOfRepeat 1 (last_rules (value_view whole.now)) e) }
{
    match rules_below(whole) {
        Some(rules) => fault_of_rules(alloc, items_of(rules)),
        None => Ok(Fault::Key),
    }
}

#[tactic(auto, using(crate::proofs::repeats::RepeatLemmas::fault_of_text))]
fn fault_of_repeat(alloc: Global, text: &str) -> Result<Fault, AllocError>
    ensures { IfOk result (λ e. IsSomeAnd (document text.now)
        (λ whole. IsFaultOfRepeat 1 (last_rules whole) e)) }
{
    let mut scratch = Scratch::new(alloc);
    match Value::parse(alloc, text, &mut scratch) {
        Ok(whole) => fault_of_document(alloc, &whole),
        // Memory, since the text is JSON.
        Err(_) => Err(AllocError),
    }
}

/// Refuses a text in which an object has a key twice.
pub(crate) fn refuse_repeats(alloc: Global, text: &str) -> Result<(), Fault>
    ensures unique { OnOk result (IsSomeAnd (document text.now) HasUniqueKeys) }
    ensures refused { IfErr result (λ e. (e ≡ Fault.Memory)
        ⊎ (IsSomeAnd (document text.now) (λ whole. ¬ HasUniqueKeys whole)
        × IsSomeAnd (document text.now) (λ whole. IsFaultOfRepeat 1 (last_rules whole) e))) }
{
    if repeats_key(alloc, text)? {
        return Err(fault_of_repeat(alloc, text)?);
    }
    Ok(())
}
