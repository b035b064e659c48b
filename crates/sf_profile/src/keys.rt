//! The keys of a profile, and the actions that stand at them.

ghost use Rattle.std.specs.Prelude.{◌≡◌, IfErr, IfOk, None, Some, option_and_then};
ghost use Rattle.serde_json.specs.View.{view};
ghost use Rattle.sf_profile.specs.Reads.{has_right_error_name, read_response, response_where, takes_number};
ghost use Rattle.sf_profile.specs.Trees.{at, is_absent, is_object_of, whole_where};
ghost use Rattle.sf_profile.specs.Profiles.{argument_keys, profile_keys, rule_keys, up_to, up_to_or};

use crate::config::case_of;
use crate::errors::{is_any_error_name, is_error_name};
use crate::fault::{Fault, Flaw};
use crate::names::{has_data, response_named, up_to, up_to_or};
use crate::rules::Response;
use crate::tree::{at, has_only, is_among, maybe_whole, text_at, text_of, whole_at};
use crate::wording::{Refusal, Why, at_key, because};
use serde_json::Value;

pub(crate) const PROFILE_KEYS: [&str; 10] = [
    "defaultAction",
    "defaultErrnoRet",
    "defaultErrno",
    "architectures",
    "archMap",
    "flags",
    "listenerPath",
    "listenerMetadata",
    "comment",
    "syscalls",
];

pub(crate) const MAP_KEYS: [&str; 2] = ["architecture", "subArchitectures"];

pub(crate) const RULE_KEYS: [&str; 9] = [
    "names", "name", "action", "errnoRet", "errno", "args", "comment", "includes", "excludes",
];

const ARGUMENT_KEYS: [&str; 4] = ["index", "value", "valueTwo", "op"];

/// The keys of what a rule includes or excludes.
pub(crate) const CONDITION_KEYS: [&str; 3] = ["arches", "caps", "minKernel"];

pub(crate) fn has_profile_keys(value: &Value) -> bool
    ensures { result ≡ is_object_of profile_keys (view value.now) }
{
    has_only(value, PROFILE_KEYS.as_slice())
}

pub(crate) fn has_argument_keys(value: &Value) -> bool
    ensures { result ≡ is_object_of argument_keys (view value.now) }
{
    has_only(value, ARGUMENT_KEYS.as_slice())
}

pub(crate) fn has_rule_keys(value: &Value) -> bool
    ensures { result ≡ is_object_of rule_keys (view value.now) }
{
    has_only(value, RULE_KEYS.as_slice())
}

/// Whether a key is absent, or has the value null. Also true where `value` is no object.
pub(crate) fn is_absent(value: &Value, key: &str) -> bool
    ensures { result ≡ is_absent key.now (view value.now) }
{
    at(value, key).is_none()
}

/// The error number at a key, if it is a whole number from 0 to 65535.
fn error_number_at(value: &Value, key: &str) -> Option<u64>
    ensures { result ≡ option_and_then (up_to 65535)
        (whole_where (at key.now (view value.now))) }
{
    up_to(65535, whole_at(value, key)?)
}

/// Whether the key `name` is absent, or has the name of the error at the key `number`. podman follows the name, and
/// other runtimes the number.
fn has_right_error_name(value: &Value, name: &str, number: &str) -> bool
    ensures { result ≡ has_right_error_name name.now number.now (view value.now) }
{
    match at(value, name) {
        Some(given) => is_error_name(text_of(given), error_number_at(value, number)),
        None => true,
    }
}

/// Whether a number may stand beside an action: ERRNO and TRACE take one. It may beside an unknown action, which is
/// refused elsewhere.
fn takes_number(name: &str, number: Option<i128>) -> bool
    ensures { result ≡ takes_number name.now number }
{
    match (number, response_named(name, 0)) {
        (Some(_), Some(response)) => has_data(response),
        _ => true,
    }
}

/// The response of the action with this name. The number is 1, which is EPERM, where none is given.
fn response_of(name: &str, number: Option<i128>) -> Result<Response, Flaw>
    ensures { result ≡ response_where name.now (up_to_or 1 65535 number) }
{
    match up_to_or(1, 65535, number) {
        Some(number) => response_named(name, number as u16).ok_or(Flaw::Actions),
        None if response_named(name, 0).is_some() => Err(Flaw::Range),
        None => Err(Flaw::Actions),
    }
}

/// The first key of a value that isn't among the known ones, in the order of their bytes.
fn first_unknown<'a>(value: &'a Value, known: &[&'static str]) -> Option<&'a str> {
    match value {
        Value::Object(object) => object
            .keys()
            .map(|key| key.as_str())
            .find(|key| !is_among(key, known)),
        _ => None,
    }
}

/// The refusal of a value that isn't an object, and so has no `first`, or that has an unknown key.
pub(crate) fn unknown_key<'a>(
    fault: Fault,
    value: &'a Value,
    known: &[&'static str],
    first: &'static str,
) -> Refusal<'a>
    ensures { result.fault ≡ fault }
{
    match first_unknown(value, known) {
        Some(key) => because(fault, key, case_of(key, known)),
        None => at_key(fault, first),
    }
}

fn error_name_reason(value: &Value, name: &str, number: &str) -> Option<Why> {
    if is_absent(value, number) {
        return None;
    }
    Some(if is_any_error_name(text_at(value, name).unwrap_or("")) {
        Why::OtherError
    } else {
        Why::NoErrorName
    })
}

/// The response at the keys of an action, its number, and the name of its error, or what is wrong with it. It is
/// refused where a value is of another kind, or may not stand beside the others.
pub(crate) fn read_response<'a>(
    fault: Fault,
    value: &Value,
    action: &'a str,
    number: &'a str,
    name: &'a str,
) -> Result<Result<Response, Flaw>, Refusal<'a>>
    ensures read { IfOk result (λ r. read_response action.now number.now name.now (view value.now)
        ≡ Some r) }
    ensures refused { IfErr result (λ e. (e.fault ≡ fault)
        × (read_response action.now number.now name.now (view value.now) ≡ None)) }
{
    let Some(text) = text_at(value, action) else {
        return Err(at_key(fault, action));
    };
    if !has_right_error_name(value, name, number) {
        let why = error_name_reason(value, name, number);
        return Err(because(fault, name, why));
    }
    let Some(given) = maybe_whole(value, number) else {
        return Err(at_key(fault, number));
    };
    if !takes_number(text, given) {
        return Err(at_key(fault, number));
    }
    Ok(response_of(text, given))
}
