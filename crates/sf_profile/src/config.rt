//! Where the profile stands in a file.

ghost use Rattle.std.specs.Prelude.{◌≡◌, ◌==◌, IfErr, IfOk, None, Some, chars, codes, length, map, string_bytes};
ghost use Rattle.std.specs.BTreeMap.{keys};
ghost use Rattle.std.specs.Char.{to_ascii_lowercase};
ghost use Rattle.std.specs.List.{list_any, list_all, zip};
ghost use Rattle.serde_json.specs.View.{members_view, view};
ghost use Rattle.sf_profile.specs.Configs.{are_clear_annotations, folded, has_zero, is_clear, is_clear_config, is_oci_profile, is_oci_rule, is_taken_for, profile_in};
ghost use Rattle.sf_profile.specs.Profiles.{profile_keys};
ghost use Rattle.sf_profile.specs.Trees.{absent_or, all_keys, at, is_object_with};

use crate::fault::Fault;
use crate::keys::{PROFILE_KEYS, is_absent};
use crate::tree::{at, is_among, items_at};
use crate::wording::{Refusal, Why, because};
use serde_json::{Map, Value};

/// The annotation at which crun takes a filter, as bytes in base64: crun(1).
const OTHER_FILTER: &str = "run.oci.seccomp_bpf_data";

/// A character without its case, as Go's `encoding/json` compares keys. U+212A, the sign of kelvins, is a k, and
/// U+017F, the long s, an s; no other character counts as an ASCII letter.
fn folded(letter: char) -> char
    ensures { result ≡ folded letter }
{
    if letter == '\u{212A}' {
        return 'k';
    }
    if letter == '\u{17F}' {
        return 's';
    }
    letter.to_ascii_lowercase()
}

fn is_letter(letter: char, byte: u8) -> bool
    ensures { result ≡ (folded letter == to_ascii_lowercase byte) }
{
    folded(letter) == char::from(byte.to_ascii_lowercase())
}

fn count_letters(key: &str) -> usize
    ensures { result ≡ length (chars key.now) }
{
    key.chars().count()
}

fn are_letters(key: &str, letters: &[u8]) -> bool
    ensures { result ≡ list_all (λ p. folded p.0 == to_ascii_lowercase p.1)
        (zip (chars key.now) letters.now) }
{
    key.chars()
        .zip(letters)
        .all(|(letter, byte)| is_letter(letter, *byte))
}

#[tactic(auto, using(crate::proofs::config::ConfigLemmas::letter_by_letter))]
fn has_letters(key: &str, letters: &[u8]) -> bool
    ensures { result ≡ is_taken_for key.now letters.now }
{
    count_letters(key) == letters.len() && are_letters(key, letters)
}

/// Whether Go takes a key for the known one, which is ASCII: they are equal, or differ only in case.
fn is_taken_for(key: &str, known: &str) -> bool
    ensures { result ≡ is_taken_for key.now known.now }
{
    has_letters(key, known.as_bytes())
}

fn is_taken_for_any(key: &str, known: &[&str]) -> bool
    ensures { result ≡ list_any (λ k. is_taken_for key.now k.now) known.now }
{
    known.iter().any(|k| is_taken_for(key, *k))
}

/// Whether a key has a byte 0. crun's reader, libyajl, ends it there.
fn has_zero(key: &str) -> bool
    ensures { result ≡ has_zero key.now }
{
    key.as_bytes().contains(&0)
}

/// Whether a key is `own`, or has no byte 0, and Go takes it neither for `own` nor for one of the others.
#[tactic(auto, using(crate::proofs::config::ConfigLemmas::any_known))]
fn is_clear(key: &str, own: &str, others: &[&str]) -> bool
    ensures { result ≡ is_clear own.now (map (λ k. k.now) others.now) key.now }
{
    key == own || !(has_zero(key) || is_taken_for(key, own) || is_taken_for_any(key, others))
}

fn has_clear_keys(object: &Map<String, Value>, own: &str, others: &[&str]) -> bool
    ensures { result ≡ list_all (λ key. is_clear own.now (map (λ k. k.now) others.now)
        (string_bytes key)) (keys object.now) }
{
    object.keys().all(|key| is_clear(key.as_str(), own, others))
}

/// For the prover: `has_clear_keys`, said of the tree's members.
#[tactic(auto, using(crate::proofs::tree::TreeLemmas::keys_view))]
fn keys_are_clear(object: &Map<String, Value>, own: &str, others: &[&str]) -> bool
    ensures { result ≡ all_keys (is_clear own.now (map (λ k. k.now) others.now))
        (members_view object.now.entries) }
{
    has_clear_keys(object, own, others)
}

fn is_clear_object(value: &Value, own: &str, others: &[&str]) -> bool
    ensures { result ≡ is_object_with (is_clear own.now (map (λ k. k.now) others.now))
        (view value.now) }
{
    match value {
        Value::Object(object) => keys_are_clear(object, own, others),
        _ => false,
    }
}

/// Whether no key of a whole config.json stands beside `linux` that Go takes for `linux` or for a key of a profile.
fn is_clear_file(value: &Value) -> bool
    ensures { result ≡ is_object_with (is_clear (codes "linux") profile_keys) (view value.now) }
{
    is_clear_object(value, "linux", PROFILE_KEYS.as_slice())
}

/// Whether annotations are an object whose keys have no byte 0, without a filter that crun would install.
fn are_clear_annotations(value: &Value) -> bool
    ensures { result ≡ are_clear_annotations (view value.now) }
{
    is_clear_object(value, "", &[]) && is_absent(value, OTHER_FILTER)
}

fn has_clear_annotations(value: &Value) -> bool
    ensures { result ≡ absent_or are_clear_annotations
        (at (codes "annotations") (view value.now)) }
{
    at(value, "annotations").is_none_or(|annotations| are_clear_annotations(annotations))
}

/// Whether a rule is in OCI's form: none of its keys is one that only docker and podman know.
fn is_oci_rule(value: &Value) -> bool
    ensures { result ≡ is_oci_rule (view value.now) }
{
    is_absent(value, "name") && is_absent(value, "includes") && is_absent(value, "excludes")
}

fn are_oci_rules(items: &[Value]) -> bool
    ensures { result ≡ list_all (λ v. is_oci_rule (view v)) items.now }
{
    items.iter().all(|value| is_oci_rule(value))
}

#[tactic(auto, using(crate::proofs::tree::TreeLemmas::all_items))]
fn is_oci_profile(value: &Value) -> bool
    ensures { result ≡ is_oci_profile (view value.now) }
{
    is_absent(value, "archMap") && are_oci_rules(items_at(value, "syscalls"))
}

fn has_oci_profile(linux: &Value) -> bool
    ensures { result ≡ absent_or is_oci_profile (at (codes "seccomp") (view linux.now)) }
{
    at(linux, "seccomp").is_none_or(|profile| is_oci_profile(profile))
}

/// Whether all runtimes find the same profile in a whole config.json, know each key of it, and find no key of a profile
/// beside `linux`, and no other filter. podman reads a profile at the top, and Go takes keys for others that differ
/// from them in case.
fn is_clear_config(value: &Value, linux: &Value) -> bool
    ensures { result ≡ is_clear_config (view value.now) (view linux.now) }
{
    is_clear_file(value)
        && is_clear_object(linux, "seccomp", &[])
        && has_clear_annotations(value)
        && has_oci_profile(linux)
}

/// A key for which no profile is taken from a whole config.json, and why.
type Unclear<'a> = (&'a str, Option<Why>);

/// The known key for which Go takes another one.
pub(crate) fn case_of(key: &str, known: &[&'static str]) -> Option<Why> {
    let known = known.iter().find(|one| is_taken_for(key, **one))?;
    Some(Why::Case { known: *known })
}

/// Why a key isn't clear, if it isn't. What is among the others stands beside `linux`.
fn unclear_reason(key: &str, own: &'static str, others: &[&'static str]) -> Option<Why> {
    if is_among(key, others) {
        Some(Why::BesideLinux)
    } else if key == own {
        None
    } else if has_zero(key) {
        Some(Why::Zero)
    } else if is_taken_for(key, own) {
        Some(Why::Case { known: own })
    } else {
        case_of(key, others)
    }
}

fn first_unclear<'a>(
    object: &'a Map<String, Value>,
    own: &'static str,
    others: &[&'static str],
) -> Option<Unclear<'a>> {
    for key in object.keys() {
        let key = key.as_str();
        let why = unclear_reason(key, own, others);
        if why.is_some() {
            return Some((key, why));
        }
    }
    None
}

fn unclear_key<'a>(
    value: &'a Value,
    own: &'static str,
    others: &[&'static str],
) -> Option<Unclear<'a>> {
    match value {
        Value::Object(object) => first_unclear(object, own, others),
        _ => None,
    }
}

/// What isn't clear in annotations: that they are no object, or the first one with a byte 0, or a filter for crun.
fn unclear_annotation(value: &Value) -> Option<Unclear<'_>> {
    let annotations = at(value, "annotations")?;
    if !annotations.is_object() {
        return Some(("annotations", None));
    }
    if let Some(found) = unclear_key(annotations, "", &[]) {
        return Some(found);
    }
    at(annotations, OTHER_FILTER)?;
    Some((OTHER_FILTER, Some(Why::OtherFilter)))
}

/// The first of these keys, which only docker and podman know, that a value has.
fn docker_key(value: &Value, keys: &[&'static str]) -> Option<Unclear<'static>> {
    let key = keys.iter().find(|key| !is_absent(value, **key))?;
    Some((*key, Some(Why::OnlyDocker)))
}

fn first_docker_key(profile: &Value) -> Option<Unclear<'static>> {
    if let Some(found) = docker_key(profile, &["archMap"]) {
        return Some(found);
    }
    for rule in items_at(profile, "syscalls") {
        if let Some(found) = docker_key(rule, &["name", "includes", "excludes"]) {
            return Some(found);
        }
    }
    None
}

/// What isn't clear in a whole config.json from which no profile is taken, in the order of `is_clear_config`; or that
/// it has none.
fn first_unclear_in<'a>(value: &'a Value, linux: &'a Value) -> Unclear<'a> {
    if let Some(found) = unclear_key(value, "linux", PROFILE_KEYS.as_slice()) {
        return found;
    }
    if let Some(found) = unclear_key(linux, "seccomp", &[]) {
        return found;
    }
    if let Some(found) = unclear_annotation(value) {
        return found;
    }
    if let Some(profile) = at(linux, "seccomp") {
        if let Some(found) = first_docker_key(profile) {
            return found;
        }
    }
    ("seccomp", Some(Why::Unconfined))
}

fn refusal_of_config<'a>(value: &'a Value, linux: &'a Value) -> Refusal<'a>
    ensures { result.fault ≡ Fault.Key }
{
    let (key, why) = first_unclear_in(value, linux);
    because(Fault::Key, key, why)
}

/// The profile in a file's tree: that of a whole config.json, which has a key `linux`, unless runtimes would differ; or
/// the tree itself.
pub(crate) fn profile_in<'a>(value: &'a Value) -> Result<&'a Value, Refusal<'a>>
    ensures there { IfOk result (λ v. profile_in (view value.now) ≡ Some (view v.now)) }
    ensures none { IfErr result (λ e. profile_in (view value.now) ≡ None) }
    ensures fault { IfErr result (λ e. e.fault ≡ Fault.Key) }
{
    let Some(linux) = at(value, "linux") else {
        return Ok(value);
    };
    if !is_clear_config(value, linux) {
        return Err(refusal_of_config(value, linux));
    }
    match at(linux, "seccomp") {
        Some(profile) => Ok(profile),
        None => Err(refusal_of_config(value, linux)),
    }
}
