//! Reading a JSON tree.

ghost use Rattle.std.specs.Prelude.{◌≡◌, map, option_map, string_bytes};
ghost use Rattle.std.specs.BTreeMap.{keys};
ghost use Rattle.std.specs.List.{list_any, list_all};
ghost use Rattle.std.specs.Str.{bytes_eq};
ghost use Rattle.serde_json.specs.View.{items_view, members_view, view};
ghost use Rattle.sf_profile.specs.Trees.{at, is_object_of, is_text, items_in, listed, all_keys, maybe_whole, text_at, text_in, texts_among, texts_of, texts_or_none, whole_in, whole_or, whole_where};

use serde_json::{Map, Value};

/// The value at a key of an object. A key with null counts as absent, except where unknown keys are looked for.
pub(crate) fn at<'a>(value: &'a Value, key: &str) -> Option<&'a Value>
    ensures { option_map (λ v. view v.now) result ≡ at key.now (view value.now) }
{
    let found = value.get(key)?;
    if found.is_null() { None } else { Some(found) }
}

/// The same items. For the prover: seen as those of an array.
#[tactic(auto, using(crate::proofs::tree::TreeLemmas::listed_view))]
pub(crate) fn array_items(items: &[Value]) -> &[Value]
    ensures { map view result.now ≡ items_in (items_view items.now) }
{
    items
}

/// The items at a key; an empty slice where there is no array.
pub(crate) fn items_at<'a>(value: &'a Value, key: &str) -> &'a [Value]
    ensures { map view result.now ≡ listed (at key.now (view value.now)) }
{
    match at(value, key) {
        Some(Value::Array(items)) => array_items(items),
        _ => &[],
    }
}

pub(crate) fn text_of(value: &Value) -> &str
    ensures { result.now ≡ text_in (view value.now) }
{
    value.as_str().unwrap_or("")
}

pub(crate) fn text_at<'a>(value: &'a Value, key: &str) -> Option<&'a str>
    ensures { option_map (λ t. t.now) result ≡ text_at key.now (view value.now) }
{
    at(value, key)?.as_str()
}

/// The whole number that a value is, if it fits 64 bits with a sign or without. A number that is written with a point
/// or an exponent is no whole number, nor is `-0`.
fn whole_of(value: &Value) -> Option<i128>
    ensures { result ≡ whole_in (view value.now) }
{
    value.as_number()?.as_i128()
}

pub(crate) fn whole_at(value: &Value, key: &str) -> Option<i128>
    ensures { result ≡ whole_where (at key.now (view value.now)) }
{
    whole_of(at(value, key)?)
}

/// The whole number at a key, and this one where the key is absent.
pub(crate) fn whole_or(absent: i128, value: &Value, key: &str) -> Option<i128>
    ensures { result ≡ whole_or absent (at key.now (view value.now)) }
{
    match at(value, key) {
        Some(found) => whole_of(found),
        None => Some(absent),
    }
}

/// The whole number at a key that may be absent; `None` where another value stands there.
pub(crate) fn maybe_whole(value: &Value, key: &str) -> Option<Option<i128>>
    ensures { result ≡ maybe_whole (at key.now (view value.now)) }
{
    match at(value, key) {
        Some(found) => Some(Some(whole_of(found)?)),
        None => Some(None),
    }
}

pub(crate) fn is_among(text: &str, texts: &[&str]) -> bool
    ensures { result ≡ list_any (λ t. bytes_eq text.now t.now) texts.now }
{
    texts.iter().any(|t| text == *t)
}

fn has_only_keys(map: &Map<String, Value>, known: &[&str]) -> bool
    ensures { result ≡ list_all (λ key. list_any (λ k. bytes_eq (string_bytes key) k.now)
        known.now) (keys map.now) }
{
    map.keys().all(|key| is_among(key.as_str(), known))
}

/// For the prover: `has_only_keys`, said of the tree's members.
fn keys_are_among(object: &Map<String, Value>, known: &[&str]) -> bool
    ensures { result ≡ all_keys (λ key. list_any (bytes_eq key) (map (λ k. k.now) known.now))
        (members_view object.now.entries) }
{
    has_only_keys(object, known)
}

pub(crate) fn has_only(value: &Value, known: &[&str]) -> bool
    ensures { result ≡ is_object_of (map (λ k. k.now) known.now) (view value.now) }
{
    match value {
        Value::Object(object) => keys_are_among(object, known),
        _ => false,
    }
}

fn are_texts(items: &[Value]) -> bool
    ensures { result ≡ list_all (λ v. is_text (view v)) items.now }
{
    items.iter().all(|value| value.is_string())
}

#[tactic(auto, using(crate::proofs::tree::TreeLemmas::all_entries))]
fn texts_among(items: &[Value]) -> Option<&[Value]>
    ensures { option_map (λ vs. map text_in (map view vs.now)) result
        ≡ texts_among (items_view items.now) }
{
    if are_texts(items) {
        Some(array_items(items))
    } else {
        None
    }
}

/// The texts of an array that has nothing else.
pub(crate) fn texts_of(value: &Value) -> Option<&[Value]>
    ensures { option_map (λ vs. map text_in (map view vs.now)) result ≡ texts_of (view value.now) }
{
    match value {
        Value::Array(items) => texts_among(items),
        _ => None,
    }
}

/// The same at a key, and no texts where the key is absent.
pub(crate) fn texts_or_none<'a>(value: &'a Value, key: &str) -> Option<&'a [Value]>
    ensures { option_map (λ vs. map text_in (map view vs.now)) result
        ≡ texts_or_none (at key.now (view value.now)) }
{
    match at(value, key) {
        Some(found) => texts_of(found),
        None => Some(&[]),
    }
}
