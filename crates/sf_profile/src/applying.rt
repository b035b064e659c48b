//! Which rules of a profile apply to a machine, a container and a kernel.

ghost use Rattle.std.specs.Prelude.{◌≡◌, codes, map};
ghost use Rattle.std.specs.List.{list_any, list_all};
ghost use Rattle.std.specs.Str.{bytes_eq};
ghost use Rattle.serde_json.specs.View.{view};
ghost use Rattle.sf_profile.specs.Trees.{at, text_in};
ghost use Rattle.sf_profile.specs.Settings.{has_cap};
ghost use Rattle.sf_profile.specs.Reads.{excludes, includes, is_excluded, is_included, is_none, names_machine, read_condition, read_kernel, read_version};

use crate::keys::CONDITION_KEYS;
use crate::names::{Version, arch_name_of_set, is_at_least, version_of};
use crate::settings::Settings;
use crate::tree::{at, has_only, text_of, texts_or_none};
use serde_json::Value;
use std::marker::Model;

/// What a rule includes or excludes: names of machines and of capabilities, which are texts, and kernels.
#[derive(Drop)]
struct Condition<'a> {
    arches: &'a [Value],
    caps: &'a [Value],
    /// Whether the kernel is the one that is asked for, or newer, where one is asked for.
    fits_kernel: Option<bool>,
}

impl<'a> Model for Condition<'a> {
    ghost use Rattle.std.specs.Prelude.{map};
    ghost use Rattle.serde_json.specs.View.{view as data_of};
    ghost use Rattle.sf_profile.specs.Data.{ConditionData};
    ghost use Rattle.sf_profile.specs.Trees.{text_in};

    ghost Value = { ConditionData };

    ghost view = { λ c. record {
      arches = map text_in (map data_of c.arches.now);
      caps = map text_in (map data_of c.caps.now);
      fits_kernel = c.fits_kernel;
    } };
}

/// Whether the kernel's version is the one that a text is, or newer, if the two can be compared.
fn read_version(kernel: Option<Version>, value: &Value) -> Option<Option<bool>>
    ensures { result ≡ read_version kernel (view value.now) }
{
    let kernel = kernel?;
    let least = version_of(text_of(value))?;
    Some(Some(is_at_least(kernel, least)))
}

fn read_kernel(settings: &Settings, value: &Value) -> Option<Option<bool>>
    ensures { result ≡ read_kernel settings.now (at (codes "minKernel") (view value.now)) }
{
    match at(value, "minKernel") {
        Some(kernel) => read_version(settings.kernel, kernel),
        None => Some(None),
    }
}

fn read_condition<'a>(settings: &Settings, value: &'a Value) -> Option<Condition<'a>>
    ensures { result ≡ read_condition settings.now (view value.now) }
{
    if !has_only(value, CONDITION_KEYS.as_slice()) {
        return None;
    }
    Some(Condition {
        arches: texts_or_none(value, "arches")?,
        caps: texts_or_none(value, "caps")?,
        fits_kernel: read_kernel(settings, value)?,
    })
}

/// Whether one of the values is this text. A value that is no text counts as the empty one.
fn has_text(items: &[Value], text: &str) -> bool
    ensures { result ≡ list_any (λ v. bytes_eq text.now (text_in (view v))) items.now }
{
    items.iter().any(|value| text == text_of(value))
}

fn is_none(items: &[Value]) -> bool
    ensures { result ≡ is_none (map text_in (map view items.now)) }
{
    items.is_empty()
}

#[tactic(auto, using(crate::proofs::tree::TreeLemmas::any_text))]
fn names_machine(settings: &Settings, condition: &Condition<'_>) -> bool
    ensures { result ≡ names_machine settings.now condition.now }
{
    has_text(condition.arches, arch_name_of_set(settings.machine))
}

/// Whether the container has all capabilities that the values name. A value that is no text counts as the empty name.
fn has_caps(settings: &Settings, items: &[Value]) -> bool
    ensures { result ≡ list_all (λ v. has_cap settings.now (text_in (view v))) items.now }
{
    items.iter().all(|value| settings.has_cap(text_of(value)))
}

/// Whether the container has one of the capabilities that the values name. A value that is no text counts as the empty
/// name.
fn has_a_cap(settings: &Settings, items: &[Value]) -> bool
    ensures { result ≡ list_any (λ v. has_cap settings.now (text_in (view v))) items.now }
{
    items.iter().any(|value| settings.has_cap(text_of(value)))
}

/// Whether the `includes` of a rule holds: it names the machine, or no machine; the container has all its capabilities;
/// and the kernel's version is its `minKernel` or newer.
#[tactic(auto, using(crate::proofs::tree::TreeLemmas::all_text))]
fn includes(settings: &Settings, condition: &Condition<'_>) -> bool
    ensures { result ≡ includes settings.now condition.now }
{
    (is_none(condition.arches) || names_machine(settings, condition))
        && has_caps(settings, condition.caps)
        && condition.fits_kernel.unwrap_or(true)
}

/// Whether the `excludes` of a rule holds: it names the machine, or the container has one of its capabilities, or the
/// kernel's version is its `minKernel` or newer.
#[tactic(auto, using(crate::proofs::tree::TreeLemmas::any_text))]
fn excludes(settings: &Settings, condition: &Condition<'_>) -> bool
    ensures { result ≡ excludes settings.now condition.now }
{
    names_machine(settings, condition)
        || has_a_cap(settings, condition.caps)
        || condition.fits_kernel.unwrap_or(false)
}

/// Whether the `includes` of the rule `value` holds; an absent one does. `None` where it isn't a condition.
pub(crate) fn is_included(settings: &Settings, value: &Value) -> Option<bool>
    ensures { result ≡ is_included settings.now (at (codes "includes") (view value.now)) }
{
    match at(value, "includes") {
        Some(found) => {
            let condition = read_condition(settings, found)?;
            Some(includes(settings, &condition))
        }
        None => Some(true),
    }
}

/// Whether the `excludes` of the rule `value` holds; an absent one doesn't. `None` where it isn't a condition.
pub(crate) fn is_excluded(settings: &Settings, value: &Value) -> Option<bool>
    ensures { result ≡ is_excluded settings.now (at (codes "excludes") (view value.now)) }
{
    match at(value, "excludes") {
        Some(found) => {
            let condition = read_condition(settings, found)?;
            Some(excludes(settings, &condition))
        }
        None => Some(false),
    }
}
