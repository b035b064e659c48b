//! The rules of a profile, in each of its sets of calls.

ghost use Rattle.std.specs.Prelude.{◌≡◌, ◌⊎◌, ◌∷◌, [], map, IfErr, IfOk, None};
ghost use Rattle.std.specs.List.{flat_map, list_any};
ghost use Rattle.sf_profile.specs.Filters.{IsTooLong};
ghost use Rattle.sf_profile.specs.Limits.{calls_left};
ghost use Rattle.sf_profile.specs.Plans.{alternatives, compares_twice, is_of_same, plan_of, rule_with, rules_of, rules_of_set};

use crate::comparing::word_of;
use crate::fault::Fault;
use crate::limits::{MOST_CALLS, calls_left};
use crate::naming::calls_of;
use crate::read::{Profile, ProfileRule};
use crate::rules::{Call, CallSet, Comparison, Part, Plan, Response, Rule};
use crate::settings::Settings;
use std::alloc::{AllocError, Global};
use std::slice;

fn compares_same_argument(comparisons: &[Comparison], comparison: Comparison) -> bool
    ensures { result ≡ list_any (is_of_same comparison) comparisons.now }
{
    comparisons.iter().any(|other| word_of(comparison.argument) == word_of(other.argument))
}

fn compares_twice(comparisons: &[Comparison]) -> bool
    ensures { result ≡ compares_twice comparisons.now }
{
    for (i, comparison) in comparisons.iter().enumerate() {
        if compares_same_argument(&comparisons[i + 1..], *comparison) {
            return true;
        }
    }
    false
}

fn rule_with(
    alloc: Global,
    calls: &[Call],
    response: Response,
    comparisons: &[Comparison],
) -> Result<Rule, AllocError>
    ensures { IfOk result (λ r. r ≡ rule_with calls.now response comparisons.now) }
{
    Ok(Rule {
        calls: Vec::from_slice(alloc, calls)?,
        response,
        comparisons: Vec::from_slice(alloc, comparisons)?,
    })
}

fn rules_of_each(
    alloc: Global,
    calls: &[Call],
    response: Response,
    comparisons: &[Comparison],
) -> Result<Vec<Rule>, AllocError>
    ensures { IfOk result (λ v. v.items ≡ map (rule_with calls.now response)
        (map (λ c. c ∷ []) comparisons.now)) }
{
    let mut rules = Vec::new(alloc);
    for comparison in comparisons {
        rules.push(rule_with(alloc, calls, response, slice::from_ref(comparison))?)?;
    }
    Ok(rules)
}

/// The rules of these calls: usually one. Where one argument is compared more than once, it is a rule for each
/// comparison, so that it is enough that one holds. Of more than six comparisons two are always of one of the six
/// arguments.
fn alternatives_of(
    alloc: Global,
    calls: &[Call],
    response: Response,
    comparisons: &[Comparison],
) -> Result<Vec<Rule>, AllocError>
    ensures { IfOk result (λ v. v.items ≡ map (rule_with calls.now response)
        (alternatives comparisons.now)) }
{
    if comparisons.len() > 6 || compares_twice(comparisons) {
        return rules_of_each(alloc, calls, response, comparisons);
    }
    let mut rules = Vec::new(alloc);
    rules.push(rule_with(alloc, calls, response, comparisons)?)?;
    Ok(rules)
}

fn rules_of(
    alloc: Global,
    settings: &Settings,
    set: CallSet,
    rule: &ProfileRule<'_>,
) -> Result<Vec<Rule>, AllocError>
    ensures { IfOk result (λ v. v.items ≡ rules_of settings.now set rule.now) }
{
    if !rule.applies {
        return Ok(Vec::new(alloc));
    }
    let compares_nothing = rule.comparisons.is_empty();
    let calls = calls_of(alloc, settings, set, compares_nothing, rule.names)?;
    let rules = alternatives_of(alloc, &calls, rule.response, &rule.comparisons)?;
    Ok(rules)
}

/// The rules that a profile's rules make in a set. `TooLong` where they have more than `MOST_CALLS` calls in all: no
/// more than these calls and those of one rule are ever held.
fn rules_in(
    alloc: Global,
    settings: &Settings,
    set: CallSet,
    items: &[ProfileRule<'_>],
) -> Result<Vec<Rule>, Fault>
    ensures made { IfOk result (λ v. v.items ≡ flat_map (rules_of settings.now set) items.now) }
    ensures refused { IfErr result (λ e. (e ≡ Fault.Memory) ⊎ ((e ≡ Fault.TooLong)
        × (calls_left 2048 (flat_map (rules_of settings.now set) items.now) ≡ None))) }
{
    let mut rules = Vec::new(alloc);
    let mut left = MOST_CALLS;
    for rule in items {
        let mut more = rules_of(alloc, settings, set, rule)?;
        let Some(rest) = calls_left(left, &more) else {
            return Err(Fault::TooLong);
        };
        left = rest;
        rules.append(&mut more)?;
    }
    Ok(rules)
}

#[tactic(auto, using(crate::proofs::limits::LimitLemmas::set_long))]
fn parts_of(alloc: Global, settings: &Settings, profile: &Profile<'_>) -> Result<Vec<Part>, Fault>
    ensures made { IfOk result (λ v. v.items
        ≡ map (rules_of_set settings.now profile.now.rules) profile.now.sets) }
    ensures refused { IfErr result (λ e. (e ≡ Fault.Memory) ⊎ ((e ≡ Fault.TooLong)
        × IsTooLong settings.now profile.now)) }
{
    let mut parts = Vec::new(alloc);
    for set in &profile.sets {
        let rules = rules_in(alloc, settings, *set, &profile.rules)?;
        parts.push(Part { set: *set, rules })?;
    }
    Ok(parts)
}

/// What a profile says, set by set. `TooLong` as far as the number of its calls tells.
pub(crate) fn plan_of(
    alloc: Global,
    settings: &Settings,
    profile: &Profile<'_>,
) -> Result<Plan, Fault>
    ensures made { IfOk result (λ p. p ≡ plan_of settings.now profile.now) }
    ensures refused { IfErr result (λ e. (e ≡ Fault.Memory) ⊎ ((e ≡ Fault.TooLong)
        × IsTooLong settings.now profile.now)) }
{
    Ok(Plan {
        parts: parts_of(alloc, settings, profile)?,
        default: profile.default,
        reading: settings.conflicts,
        newer: settings.newer,
    })
}
