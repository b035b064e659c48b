ghost use Rattle.std.specs.Prelude.{◌≡◌, option_map, is_some, codes, map};
ghost use Rattle.std.specs.List.{list_any, list_all};
ghost use Rattle.std.specs.Str.{bytes_eq};
ghost use Rattle.toml.specs.Data.{get_member, as_str};
ghost use Rattle.toml.specs.View.{view, table_view};
ghost use Rattle.sf_policy.specs.Actions.{is_action, are_actions, texts_of_value, names_at};
ghost use Rattle.sf_policy.specs.Encoding.{encoded_set, text_or_empty};

use super::keys::{is_among, value_at};
use sf_question::ActionSet;
use toml::{Table, Value};

/// `OTHER` stands for all actions without a name.
const ACTION_NAMES: [&str; 9] = [
    "KILL_PROCESS",
    "KILL_THREAD",
    "TRAP",
    "ERRNO",
    "USER_NOTIF",
    "TRACE",
    "LOG",
    "ALLOW",
    "OTHER",
];

/// The text of a value, empty where it is no text.
pub(super) fn text_of(value: &Value) -> &str
    ensures { result.now ≡ text_or_empty (view value.now) }
{
    value.as_str().unwrap_or("")
}

fn is_action(value: &Value) -> bool
    ensures { result ≡ is_action (text_or_empty (view value.now)) }
{
    is_among(text_of(value), ACTION_NAMES.as_slice())
}

fn are_texts(items: &[Value]) -> bool
    ensures { result ≡ list_all (λ v. is_some (as_str (view v))) items.now }
{
    items.iter().all(|value| value.is_str())
}

#[tactic(auto, using(crate::proofs::policy::words::TreeLemmas::texts_view, crate::proofs::policy::words::TreeLemmas::no_texts_view))]
pub(super) fn texts_of(value: &Value) -> Option<&[Value]>
    ensures { option_map (λ vs. map (λ v. text_or_empty (view v)) vs.now) result
        ≡ texts_of_value (view value.now) }
{
    let items = value.as_array()?;
    if are_texts(items) { Some(items) } else { None }
}

fn are_all_actions(items: &[Value]) -> bool
    ensures { result ≡ list_all (λ v. is_action (text_or_empty (view v))) items.now }
{
    items.iter().all(|value| is_action(value))
}

fn has_text(items: &[Value], name: &str) -> bool
    ensures { result ≡ list_any (λ v. bytes_eq (text_or_empty (view v)) name.now) items.now }
{
    items.iter().any(|value| text_of(value) == name)
}

#[tactic(auto, using(crate::proofs::policy::actions::ActionLemmas::are_actions_view))]
fn are_actions(items: &[Value]) -> bool
    ensures { result ≡ are_actions (map (λ v. text_or_empty (view v)) items.now) }
{
    !items.is_empty() && are_all_actions(items)
}

#[tactic(auto, using(crate::proofs::policy::actions::ActionLemmas::is_named_view))]
fn set_from(items: &[Value]) -> ActionSet
    ensures { result ≡ encoded_set (map (λ v. text_or_empty (view v)) items.now) }
{
    if !are_actions(items) {
        return ActionSet::EMPTY;
    }
    ActionSet {
        kill_process: has_text(items, "KILL_PROCESS"),
        kill_thread: has_text(items, "KILL_THREAD"),
        trap: has_text(items, "TRAP"),
        errno: has_text(items, "ERRNO"),
        user_notif: has_text(items, "USER_NOTIF"),
        trace: has_text(items, "TRACE"),
        log: has_text(items, "LOG"),
        allow: has_text(items, "ALLOW"),
        other: has_text(items, "OTHER"),
    }
}

fn set_in(value: &Value) -> Option<ActionSet>
    ensures { result ≡ option_map encoded_set (texts_of_value (view value.now)) }
{
    Some(set_from(texts_of(value)?))
}

/// The set of the actions that a question names: ALLOW and LOG where it has no key `actions`, and an empty one, which
/// is refused, where a text names no action.
pub(super) fn actions_in(table: &Table) -> Option<ActionSet>
    ensures { result ≡ option_map encoded_set
        (names_at (get_member (codes "actions") (table_view table.now))) }
{
    match value_at(table, "actions") {
        None => Some(ActionSet::LET_THROUGH),
        Some(value) => set_in(value),
    }
}
