//! The calls of sets for a profile, from their names.

ghost use Rattle.std.specs.Prelude.{◌≡◌, ◌⊎◌, None, Some, IfOk, IfErr, false};
ghost use Rattle.sf_profile.specs.declared.fault.Fault.TheVariants.{Memory as MemoryFault, Set as UnknownSet};
ghost use Rattle.sf_profile.specs.Settings.{calls_of_names, set_of_names};
ghost use Rattle.sf_evaluate.specs.Profiles.{AreCallsOf, have_sets};

use sf_names::Names;
use sf_profile::{Calls, Fault};
use std::alloc::Global;

/// These names as the calls that a profile needs, by their architecture and the numbers of the calls.
fn calls_of_one(names: Names) -> Result<Calls, Fault>
    ensures meant { IfOk result (λ c. Some c ≡ calls_of_names names) }
    ensures refused { IfErr result (λ e. (e ≡ UnknownSet) × (set_of_names names ≡ None)) }
{
    match Calls::of(names) {
        Some(calls) => Ok(calls),
        None => Err(Fault::Set),
    }
}

pub(crate) fn calls_of(alloc: Global, names: Vec<Names>) -> Result<Vec<Calls>, Fault>
    ensures meant { IfOk result (λ v. AreCallsOf names.items v.items) }
    ensures refused { IfErr result (λ e. (e ≡ MemoryFault)
        ⊎ ((e ≡ UnknownSet) × (have_sets names.items ≡ false))) }
{
    let mut calls = Vec::new(alloc);
    for one in names {
        calls.push(calls_of_one(one)?)?;
    }
    Ok(calls)
}
