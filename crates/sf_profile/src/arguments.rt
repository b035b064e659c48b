//! What a rule asks of a call's arguments.

ghost use Rattle.std.specs.Prelude.{◌≡◌, Err, IfOk, Some, codes, map};
ghost use Rattle.serde_json.specs.View.{view};
ghost use Rattle.sf_profile.specs.Reads.{has_wrong_key, read_arguments, read_comparison, read_comparisons, with_flaw};
ghost use Rattle.sf_profile.specs.Trees.{at};

use crate::fault::Flaw;
use crate::keys::has_argument_keys;
use crate::names::{argument_numbered, comparing_named, up_to};
use crate::rules::Comparison;
use crate::tree::{array_items, at, text_at, whole_at, whole_or};
use serde_json::Value;
use std::alloc::{AllocError, Global};
use std::marker::Model;

/// The comparisons of a rule that could be read, and what is wrong where one couldn't.
#[derive(Drop)]
pub(crate) struct Comparisons {
    pub(crate) list: Vec<Comparison>,
    pub(crate) flaw: Option<Flaw>,
}

impl Model for Comparisons {
    ghost use Rattle.sf_profile.specs.Data.{ComparisonsData};

    ghost Value = { ComparisonsData };

    ghost view = { λ c. record { list = c.list.items; flaw = c.flaw } };
}

fn read_comparison(value: &Value) -> Result<Comparison, Flaw>
    ensures { result ≡ read_comparison (view value.now) }
{
    if !has_argument_keys(value) {
        return Err(Flaw::Key);
    }
    let index = whole_at(value, "index").ok_or(Flaw::Key)?;
    let first = whole_at(value, "value").ok_or(Flaw::Key)?;
    let second = whole_or(0, value, "valueTwo").ok_or(Flaw::Key)?;
    let name = text_at(value, "op").ok_or(Flaw::Key)?;
    let comparing = comparing_named(name).ok_or(Flaw::Actions)?;
    let index = up_to(5, index).ok_or(Flaw::Range)?;
    Ok(Comparison {
        argument: argument_numbered(index),
        comparing,
        value: up_to(u64::MAX, first).ok_or(Flaw::Range)?,
        value_two: up_to(u64::MAX, second).ok_or(Flaw::Range)?,
    })
}

fn with_flaw(flaw: Option<Flaw>, other: Flaw) -> Option<Flaw>
    ensures { result ≡ with_flaw flaw (Err other) }
{
    match flaw {
        Some(flaw) => Some(flaw.first(other)),
        None => Some(other),
    }
}

fn read_comparisons(alloc: Global, items: &[Value]) -> Result<Comparisons, AllocError>
    ensures { IfOk result (λ c. c ≡ read_comparisons (map view items.now)) }
{
    let mut list = Vec::new(alloc);
    let mut flaw = None;
    for value in items {
        match read_comparison(value) {
            Ok(comparison) => list.push(comparison)?,
            Err(other) => flaw = with_flaw(flaw, other),
        }
    }
    Ok(Comparisons { list, flaw })
}

/// The comparisons at the key `args` of a rule.
pub(crate) fn read_arguments(alloc: Global, value: &Value) -> Result<Comparisons, AllocError>
    ensures { IfOk result (λ c. c ≡ read_arguments (at (codes "args") (view value.now))) }
{
    match at(value, "args") {
        Some(Value::Array(items)) => read_comparisons(alloc, array_items(items)),
        Some(_) => Ok(Comparisons {
            list: Vec::new(alloc),
            flaw: Some(Flaw::Key),
        }),
        None => Ok(Comparisons {
            list: Vec::new(alloc),
            flaw: None,
        }),
    }
}

/// Whether a comparison has a wrong key.
pub(crate) fn has_wrong_key(comparisons: &Comparisons) -> bool
    ensures { result ≡ has_wrong_key comparisons.now.flaw }
{
    matches!(comparisons.flaw, Some(Flaw::Key))
}
