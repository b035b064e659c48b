//! Which names of a profile's rules are those of calls.

ghost use Rattle.std.specs.Prelude.{◌≡◌, Some, is_none, is_some, map};
ghost use Rattle.std.specs.List.{list_all, list_any};
ghost use Rattle.serde_json.specs.View.{view};
ghost use Rattle.sf_profile.specs.Known.{is_elsewhere, is_nowhere, is_somewhere, may_have_names};
ghost use Rattle.sf_profile.specs.Settings.{is_unknown, number_where};
ghost use Rattle.sf_profile.specs.Trees.{text_in};
ghost use Rattle.sf_profile.specs.declared.settings.Calls.{Calls as ACalls};

use crate::naming::{place_of_ipc_call, place_of_socket_call};
use crate::others::place_of_other;
use crate::settings::{Calls, Settings};
use crate::tree::text_of;
use serde_json::Value;

/// Whether one of the sets in `calls`, which the profile need not be for, has a call with this name.
fn is_known(calls: &[Calls], name: &str) -> bool
    ensures { result ≡ list_any (λ (c : ACalls). is_some
        (number_where (Some c) name.now)) calls.now }
{
    calls.iter().any(|one| one.number_of(name).is_some())
}

pub(crate) fn is_unknown(settings: &Settings, name: &str) -> bool
    ensures { result ≡ is_unknown settings.now name.now }
{
    !is_known(&settings.calls, name)
}

/// Whether i386 has a call with this name behind `socketcall` or `ipc`, or a machine that has none of the five sets has
/// one.
fn is_elsewhere(name: &str) -> bool
    ensures { result ≡ is_elsewhere name.now }
{
    place_of_socket_call(name).is_some()
        || place_of_ipc_call(name).is_some()
        || place_of_other(name).is_some()
}

/// Whether no machine has a call with this name, as far as the sets in `settings.calls` tell. Such a name is
/// misspelled, or that of a call which is newer than the sets.
pub(crate) fn is_nowhere(settings: &Settings, name: &str) -> bool
    ensures { result ≡ is_nowhere settings.now name.now }
{
    is_unknown(settings, name) && !is_elsewhere(name)
}

/// The first of these names that no machine has. A value that is no text counts as the empty name.
#[tactic(auto, using(crate::proofs::tree::TreeLemmas::all_more))]
fn first_nowhere<'a>(settings: &Settings, names: &'a [Value]) -> Option<&'a str>
    ensures { is_none result ≡ list_all (is_somewhere settings.now)
        (map text_in (map view names.now)) }
{
    for value in names {
        if is_nowhere(settings, text_of(value)) {
            return Some(text_of(value));
        }
    }
    None
}

/// The name for which a rule is refused: the first one that no machine has; none where `settings.skip_unknown` is true,
/// or the rule doesn't apply.
pub(crate) fn unknown_name<'a>(
    settings: &Settings,
    applies: bool,
    names: &'a [Value],
) -> Option<&'a str>
    ensures { is_none result ≡ may_have_names settings.now applies
        (map text_in (map view names.now)) }
{
    if settings.skip_unknown || !applies {
        return None;
    }
    first_nowhere(settings, names)
}
