//! A profile, read from its tree in one walk; or why it is refused.

ghost use Rattle.std.specs.Prelude.{◌≡◌, ◌⊎◌, Err, IfErr, IfOk, None, Ok, OnOk, Some, [], codes, fold, is_ok, map, option_map};
ghost use Rattle.std.specs.List.{flat_map, list_all, list_any};
ghost use Rattle.serde_json.specs.View.{items_view, view};
ghost use Rattle.sf_names.specs.Names.{is_call_name};
ghost use Rattle.sf_profile.specs.Reads.{has_head, has_sets, is_array, is_map_item, is_own, item_sets, one_text, read_names, read_profile, read_rule, read_rules, read_sets, rule_where, with_given, with_named};
ghost use Rattle.sf_profile.specs.Filters.{read_file};
ghost use Rattle.sf_profile.specs.Settings.{is_same_set};
ghost use Rattle.sf_profile.specs.Trees.{absent_or, at, is_list_of, items_in, text_at, text_in};
ghost use Rattle.sf_profile.specs.Profiles.{set_named};

use crate::applying::{is_excluded, is_included};
use crate::arguments::{Comparisons, has_wrong_key, read_arguments};
use crate::config::profile_in;
use crate::fault::{Fault, Flaw};
use crate::keys::{
    MAP_KEYS, PROFILE_KEYS, RULE_KEYS, has_profile_keys, has_rule_keys, is_absent, read_response,
    unknown_key,
};
use crate::known::unknown_name;
use crate::limits::{MOST_COMPARISONS, MOST_IN_ALL, MOST_NAMES, has_few_parts, size_of_rule};
use crate::names::{name_of_set, set_named};
use crate::rules::{CallSet, Comparison, Response};
use crate::settings::Settings;
use crate::tree::{at, has_only, items_at, text_at, text_of, texts_of, texts_or_none};
use crate::wording::{Refusal, at_key, without_key};
use serde_json::Value;
use sf_names::is_call_name;
use std::alloc::{AllocError, Global};
use std::marker::Model;
use std::slice;

/// A rule of a profile.
#[derive(Drop)]
pub(crate) struct ProfileRule<'a> {
    /// Texts.
    pub(crate) names: &'a [Value],
    /// Whether it applies to the machine, the container and the kernel.
    pub(crate) applies: bool,
    pub(crate) comparisons: Vec<Comparison>,
    pub(crate) response: Response,
}

impl<'a> Model for ProfileRule<'a> {
    ghost use Rattle.std.specs.Prelude.{map};
    ghost use Rattle.serde_json.specs.View.{view as data_of};
    ghost use Rattle.sf_profile.specs.Data.{ProfileRuleData};
    ghost use Rattle.sf_profile.specs.Trees.{text_in};

    ghost Value = { ProfileRuleData };

    ghost view = { λ r. record {
      names = map text_in (map data_of r.names.now);
      applies = r.applies;
      comparisons = r.comparisons.items;
      response = r.response;
    } };
}

/// What a profile says.
#[derive(Drop)]
pub(crate) struct Profile<'a> {
    /// The sets of calls that it is for, each once: the machine's own is the first.
    pub(crate) sets: Vec<CallSet>,
    pub(crate) rules: Vec<ProfileRule<'a>>,
    /// What becomes of a call about which no rule says anything.
    pub(crate) default: Response,
}

impl<'a> Model for Profile<'a> {
    ghost use Rattle.sf_profile.specs.Data.{ProfileData};

    ghost Value = { ProfileData };

    ghost view = { λ p. record {
      sets = p.sets.items;
      rules = p.rules.items;
      default = p.default;
    } };
}

fn one_text(value: &Value) -> Option<&[Value]>
    ensures { option_map (λ vs. map text_in (map view vs.now)) result ≡ one_text (view value.now) }
{
    if value.is_string() {
        Some(slice::from_ref(value))
    } else {
        None
    }
}

/// The names of a rule: it has either an array of texts at `names`, or a text at `name`, and not both keys.
fn read_names(value: &Value) -> Option<&[Value]>
    ensures { option_map (λ vs. map text_in (map view vs.now)) result
        ≡ read_names (at (codes "names") (view value.now)) (at (codes "name") (view value.now)) }
{
    match (at(value, "names"), at(value, "name")) {
        (Some(names), None) => texts_of(names),
        (None, Some(name)) => one_text(name),
        _ => None,
    }
}

fn are_names(items: &[Value]) -> bool
    ensures { result ≡ list_all is_call_name (map text_in (map view items.now)) }
{
    items.iter().all(|value| is_call_name(text_of(value)))
}

/// The key at which a rule has its names, or should have them.
fn key_of_names(value: &Value) -> &'static str {
    if is_absent(value, "name") {
        "names"
    } else {
        "name"
    }
}

/// The key at which a rule has too many parts.
fn key_of_parts(value: &Value) -> &'static str {
    let names = items_at(value, "names").len();
    let comparisons = items_at(value, "args").len();
    if names <= MOST_NAMES && comparisons > MOST_COMPARISONS {
        "args"
    } else {
        "names"
    }
}

fn key_of_flaw<'a>(flaw: Flaw, action: &'a str, number: &'a str) -> &'a str {
    match flaw {
        Flaw::Range => number,
        _ => action,
    }
}

/// The rule of these parts, unless its response or its comparisons have a flaw.
fn rule_where<'a>(
    rule: usize,
    names: &'a [Value],
    applies: bool,
    response: Result<Response, Flaw>,
    comparisons: Comparisons,
) -> Result<ProfileRule<'a>, Refusal<'a>>
    ensures read { IfOk result (λ r. rule_where rule (map text_in (map view names.now)) applies
        response comparisons.list comparisons.flaw ≡ Ok r) }
    ensures refused { IfErr result (λ e. rule_where rule (map text_in (map view names.now)) applies
        response comparisons.list comparisons.flaw ≡ Err e.fault) }
{
    let Comparisons { list, flaw } = comparisons;
    match (response, flaw) {
        (Ok(response), None) => Ok(ProfileRule {
            names,
            applies,
            comparisons: list,
            response,
        }),
        (Ok(_), Some(flaw)) => Err(at_key(flaw.of_rule(rule), "args")),
        (Err(flaw), None) => Err(at_key(
            flaw.of_rule(rule),
            key_of_flaw(flaw, "action", "errnoRet"),
        )),
        (Err(flaw), Some(other)) => {
            let first = flaw.first(other);
            let key = if first == flaw {
                key_of_flaw(flaw, "action", "errnoRet")
            } else {
                "args"
            };
            Err(at_key(first.of_rule(rule), key))
        }
    }
}

/// The rule `value`. `rule` is its number, from 1, and `left` what it may count for. The faults are tried in this
/// order: `RuleKey`, `RuleCount`, `RuleName`, `RuleUnknown`, `RuleActions`, `RuleRange`. The value of `comment` isn't
/// looked at.
fn read_rule<'a>(
    alloc: Global,
    settings: &Settings,
    rule: usize,
    left: usize,
    value: &'a Value,
) -> Result<ProfileRule<'a>, Refusal<'a>>
    ensures read { IfOk result (λ r. read_rule settings.now rule left (view value.now) ≡ Ok r) }
    ensures refused { IfErr result (λ e. (e.fault ≡ Fault.Memory)
        ⊎ (read_rule settings.now rule left (view value.now) ≡ Err e.fault)) }
{
    let key = Fault::RuleKey { rule };
    if !has_rule_keys(value) {
        return Err(unknown_key(key, value, RULE_KEYS.as_slice(), "names"));
    }
    let Some(names) = read_names(value) else {
        return Err(at_key(key, key_of_names(value)));
    };
    let response = read_response(key, value, "action", "errnoRet", "errno")?;
    let comparisons = read_arguments(alloc, value)?;
    if has_wrong_key(&comparisons) {
        return Err(at_key(key, "args"));
    }
    let Some(included) = is_included(settings, value) else {
        return Err(at_key(key, "includes"));
    };
    let Some(excluded) = is_excluded(settings, value) else {
        return Err(at_key(key, "excludes"));
    };
    let applies = included && !excluded;
    if !has_few_parts(left, value) {
        return Err(at_key(Fault::RuleCount { rule }, key_of_parts(value)));
    }
    if !are_names(names) {
        return Err(at_key(Fault::RuleName { rule }, key_of_names(value)));
    }
    if let Some(name) = unknown_name(settings, applies, names) {
        return Err(Refusal {
            fault: Fault::RuleUnknown { rule },
            key: Some(key_of_names(value)),
            why: None,
            unknown: Some(name),
        });
    }
    rule_where(rule, names, applies, response, comparisons)
}

#[tactic(auto, using(crate::proofs::read::ReadLemmas::next_rule))]
fn read_rules<'a>(
    alloc: Global,
    settings: &Settings,
    items: &'a [Value],
) -> Result<Vec<ProfileRule<'a>>, Refusal<'a>>
    ensures read { IfOk result (λ v. read_rules settings.now 1 8192 [] (map view items.now)
        ≡ Ok v.items) }
    ensures refused { IfErr result (λ e. (e.fault ≡ Fault.Memory)
        ⊎ (read_rules settings.now 1 8192 [] (map view items.now) ≡ Err e.fault)) }
{
    let mut rules = Vec::new(alloc);
    let mut left = MOST_IN_ALL;
    for (i, value) in items.iter().enumerate() {
        let rule = read_rule(alloc, settings, i + 1, left, value)?;
        rules.push(rule)?;
        left = left.saturating_sub(size_of_rule(value));
    }
    Ok(rules)
}

/// Whether a value has the form of an entry of `archMap`.
fn is_map_item(value: &Value) -> bool
    ensures { result ≡ is_map_item (view value.now) }
{
    has_only(value, MAP_KEYS.as_slice())
        && text_at(value, "architecture").is_some()
        && texts_or_none(value, "subArchitectures").is_some()
}

fn are_map_items(items: &[Value]) -> bool
    ensures { result ≡ list_all is_map_item (items_in (items_view items.now)) }
{
    items.iter().all(|value| is_map_item(value))
}

fn is_map(value: &Value) -> bool
    ensures { result ≡ is_list_of is_map_item (view value.now) }
{
    match value {
        Value::Array(items) => are_map_items(items),
        _ => false,
    }
}

fn has_map(value: &Value) -> bool
    ensures { result ≡ absent_or (is_list_of is_map_item)
        (at (codes "archMap") (view value.now)) }
{
    at(value, "archMap").is_none_or(|map| is_map(map))
}

/// Whether at most one of `archMap` and `architectures` is there, and the latter's value is of the right kind.
fn has_sets(value: &Value) -> bool
    ensures { result ≡ has_sets (view value.now) }
{
    (is_absent(value, "archMap") || is_absent(value, "architectures"))
        && texts_or_none(value, "architectures").is_some()
}

fn has_rules(value: &Value) -> bool
    ensures { result ≡ absent_or is_array (at (codes "syscalls") (view value.now)) }
{
    at(value, "syscalls").is_none_or(|rules| rules.is_array())
}

/// Refuses a profile unless its rules, its map and its sets are of their kinds. What is in the array of rules isn't
/// looked at.
fn check_head<'a>(value: &'a Value) -> Result<(), Refusal<'a>>
    ensures form { is_ok result ≡ has_head (view value.now) }
    ensures fault { IfErr result (λ e. e.fault ≡ Fault.Key) }
{
    if !has_rules(value) {
        return Err(at_key(Fault::Key, "syscalls"));
    }
    if !has_map(value) {
        return Err(at_key(Fault::Key, "archMap"));
    }
    if !has_sets(value) {
        return Err(at_key(Fault::Key, "architectures"));
    }
    Ok(())
}

fn has_set(sets: &[CallSet], set: CallSet) -> bool
    ensures { result ≡ list_any (is_same_set set) sets.now }
{
    sets.iter().any(|other| set.is_same(*other))
}

/// Adds the set that has this name, if it isn't there yet. `Set` where there is none, or its calls aren't given exactly
/// once.
fn push_named(sets: &mut Vec<CallSet>, settings: &Settings, name: &str) -> Result<(), Fault>
    ensures given { OnOk result (with_given settings.now sets.old.items (set_named name.now)
        ≡ Some sets.new.items) }
    ensures refused { IfErr result (λ e. (e ≡ Fault.Memory) ⊎ ((e ≡ Fault.Set)
        × (with_given settings.now sets.old.items (set_named name.now) ≡ None))) }
{
    let Some(set) = set_named(name) else {
        return Err(Fault::Set);
    };
    if !settings.has_calls(set) {
        return Err(Fault::Set);
    }
    if !has_set(sets, set) {
        sets.push(set)?;
    }
    Ok(())
}

#[tactic(auto, using(crate::proofs::read::ReadLemmas::next_name))]
fn push_sets(sets: &mut Vec<CallSet>, settings: &Settings, items: &[Value]) -> Result<(), Fault>
    ensures given { OnOk result (fold (with_named settings.now) (Some sets.old.items)
        (map text_in (map view items.now)) ≡ Some sets.new.items) }
    ensures refused { IfErr result (λ e. (e ≡ Fault.Memory) ⊎ ((e ≡ Fault.Set)
        × (fold (with_named settings.now) (Some sets.old.items)
        (map text_in (map view items.now)) ≡ None))) }
{
    for value in items {
        push_named(sets, settings, text_of(value))?;
    }
    Ok(())
}

/// Whether an entry of `archMap` is the machine's: its `architecture` is the name of the machine's own set.
fn is_own_item(settings: &Settings, value: &Value) -> bool
    ensures { result ≡ is_own settings.now (text_at (codes "architecture") (view value.now)) }
{
    match text_at(value, "architecture") {
        Some(name) => name == name_of_set(settings.machine),
        None => false,
    }
}

/// Adds the sets at `subArchitectures` of an entry of `archMap`, if it is the machine's entry.
fn push_map_item(sets: &mut Vec<CallSet>, settings: &Settings, value: &Value) -> Result<(), Fault>
    ensures given { OnOk result (fold (with_named settings.now) (Some sets.old.items)
        (item_sets settings.now (view value.now)) ≡ Some sets.new.items) }
    ensures refused { IfErr result (λ e. (e ≡ Fault.Memory) ⊎ ((e ≡ Fault.Set)
        × (fold (with_named settings.now) (Some sets.old.items)
        (item_sets settings.now (view value.now)) ≡ None))) }
{
    if is_own_item(settings, value) {
        return push_sets(sets, settings, items_at(value, "subArchitectures"));
    }
    Ok(())
}

#[tactic(auto, using(crate::proofs::read::ReadLemmas::next_item))]
fn push_map_items(
    sets: &mut Vec<CallSet>,
    settings: &Settings,
    items: &[Value],
) -> Result<(), Fault>
    ensures given { OnOk result (fold (with_named settings.now) (Some sets.old.items)
        (flat_map (item_sets settings.now) (map view items.now)) ≡ Some sets.new.items) }
    ensures refused { IfErr result (λ e. (e ≡ Fault.Memory) ⊎ ((e ≡ Fault.Set)
        × (fold (with_named settings.now) (Some sets.old.items)
        (flat_map (item_sets settings.now) (map view items.now)) ≡ None))) }
{
    for value in items {
        push_map_item(sets, settings, value)?;
    }
    Ok(())
}

/// The sets that a profile is for, each once: the machine's own, then those at `architectures`, then those that the
/// machine's entries of `archMap` list. No key is at fault where the machine's own set isn't given.
#[tactic(auto, using(crate::proofs::plan::PlanLemmas::fold_both, crate::proofs::read::ReadLemmas::none_stays))]
fn read_sets<'a>(
    alloc: Global,
    settings: &Settings,
    value: &'a Value,
) -> Result<Vec<CallSet>, Refusal<'a>>
    ensures read { IfOk result (λ v. read_sets settings.now (view value.now) ≡ Some v.items) }
    ensures refused { IfErr result (λ e. (e.fault ≡ Fault.Memory) ⊎ ((e.fault ≡ Fault.Set)
        × (read_sets settings.now (view value.now) ≡ None))) }
{
    if !settings.has_calls(settings.machine) {
        return Err(without_key(Fault::Set));
    }
    let mut sets = Vec::new(alloc);
    sets.push(settings.machine)?;
    if let Err(fault) = push_sets(&mut sets, settings, items_at(value, "architectures")) {
        return Err(at_key(fault, "architectures"));
    }
    if let Err(fault) = push_map_items(&mut sets, settings, items_at(value, "archMap")) {
        return Err(at_key(fault, "archMap"));
    }
    Ok(sets)
}

/// The profile `value`, unless it is refused: for the head `Key`, `Actions` and `Range`; `Set`; then, rule after rule,
/// as `read_rule` says. Whether the filter is too long isn't looked at here.
fn read_profile<'a>(
    alloc: Global,
    settings: &Settings,
    value: &'a Value,
) -> Result<Profile<'a>, Refusal<'a>>
    ensures read { IfOk result (λ p. read_profile settings.now (view value.now) ≡ Ok p) }
    ensures refused { IfErr result (λ e. (e.fault ≡ Fault.Memory)
        ⊎ (read_profile settings.now (view value.now) ≡ Err e.fault)) }
{
    let key = Fault::Key;
    if !has_profile_keys(value) {
        return Err(unknown_key(key, value, PROFILE_KEYS.as_slice(), "defaultAction"));
    }
    let default = read_response(
        key,
        value,
        "defaultAction",
        "defaultErrnoRet",
        "defaultErrno",
    )?;
    check_head(value)?;
    let default = match default {
        Ok(response) => response,
        Err(flaw) => {
            let key = key_of_flaw(flaw, "defaultAction", "defaultErrnoRet");
            return Err(at_key(flaw.of_head(), key));
        }
    };
    let sets = read_sets(alloc, settings, value)?;
    let rules = read_rules(alloc, settings, items_at(value, "syscalls"))?;
    Ok(Profile {
        sets,
        rules,
        default,
    })
}

/// The profile in a file's tree.
pub(crate) fn read_file<'a>(
    alloc: Global,
    settings: &Settings,
    value: &'a Value,
) -> Result<Profile<'a>, Refusal<'a>>
    ensures read { IfOk result (λ p. read_file settings.now (view value.now) ≡ Ok p) }
    ensures refused { IfErr result (λ e. (e.fault ≡ Fault.Memory)
        ⊎ (read_file settings.now (view value.now) ≡ Err e.fault)) }
{
    let found = profile_in(value)?;
    let profile = read_profile(alloc, settings, found)?;
    Ok(profile)
}
