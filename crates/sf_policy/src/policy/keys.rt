ghost use Rattle.std.specs.Prelude.{◌≡◌, find, map, not, string_bytes, option_map};
ghost use Rattle.std.specs.BTreeMap.{keys};
ghost use Rattle.std.specs.List.{list_any};
ghost use Rattle.std.specs.Str.{bytes_eq};
ghost use Rattle.toml.specs.Data.{get_member};
ghost use Rattle.toml.specs.View.{view, table_view};
ghost use Rattle.sf_policy.specs.Keys.{group_keys, question_keys, has_only, unknown_key};
ghost use Rattle.sf_policy.specs.Trees.{number_at, number_or, text_at};

use toml::{Table, Value};

/// The keys of the sixteen words, in the order of `struct seccomp_data`.
pub const WORD_KEYS: [&str; 16] = [
    "nr", "arch", "ip_lo", "ip_hi", "arg0_lo", "arg0_hi", "arg1_lo", "arg1_hi", "arg2_lo",
    "arg2_hi", "arg3_lo", "arg3_hi", "arg4_lo", "arg4_hi", "arg5_lo", "arg5_hi",
];

const QUESTION_KEYS: [&str; 18] = [
    "name", "actions", "nr", "arch", "ip_lo", "ip_hi", "arg0_lo", "arg0_hi", "arg1_lo", "arg1_hi",
    "arg2_lo", "arg2_hi", "arg3_lo", "arg3_hi", "arg4_lo", "arg4_hi", "arg5_lo", "arg5_hi",
];

pub(super) const TOP_KEYS: [&str; 2] = ["version", "question"];

pub(super) const MASK_KEYS: [&str; 4] = ["mask", "value", "low", "high"];

const GROUP_KEYS: [&str; 4] = ["name", "title", "why", "questions"];

pub(super) const GROUPS_KEYS: [&str; 1] = ["group"];

#[tactic(auto, using(toml::proofs::Views::table_get))]
pub(crate) fn value_at<'a>(table: &'a Table, key: &str) -> Option<&'a Value>
    ensures { option_map (λ v. view v.now) result ≡ get_member key.now (table_view table.now) }
{
    table.get(key)
}

pub(crate) fn number_in(table: &Table, key: &str) -> Option<i64>
    ensures { result ≡ number_at key.now (table_view table.now) }
{
    value_at(table, key)?.as_integer()
}

pub(crate) fn number_in_or(table: &Table, key: &str, absent: i64) -> Option<i64>
    ensures { result ≡ number_or absent (get_member key.now (table_view table.now)) }
{
    match value_at(table, key) {
        Some(value) => value.as_integer(),
        None => Some(absent),
    }
}

pub(crate) fn text_in<'a>(table: &'a Table, key: &str) -> Option<&'a str>
    ensures { option_map (λ s. s.now) result ≡ text_at key.now (table_view table.now) }
{
    value_at(table, key)?.as_str()
}

pub(crate) fn is_among(text: &str, texts: &[&str]) -> bool
    ensures { result ≡ list_any (λ t. bytes_eq text.now t.now) texts.now }
{
    texts.iter().any(|t| text == *t)
}

fn unknown_among<'a>(table: &'a Table, known: &[&str]) -> Option<&'a String>
    ensures { option_map (λ key. key.now) result ≡ find (λ key. not (list_any
        (λ k. bytes_eq (string_bytes key) k.now) known.now)) (keys table.now) }
{
    table.keys().find(|key| !is_among(key.as_str(), known))
}

/// The first key of a table, in the order of their bytes, that isn't known.
#[tactic(auto, using(crate::proofs::policy::words::TreeLemmas::unknown_key_view))]
pub(super) fn unknown_key<'a>(table: &'a Table, known: &[&str]) -> Option<&'a str>
    ensures { option_map (λ key. key.now) result
        ≡ unknown_key (map (λ k. k.now) known.now) (table_view table.now) }
{
    Some(unknown_among(table, known)?.as_str())
}

pub(super) fn has_only(table: &Table, known: &[&str]) -> bool
    ensures { result ≡ has_only (map (λ k. k.now) known.now) (table_view table.now) }
{
    unknown_key(table, known).is_none()
}

pub(super) fn unknown_question_key(table: &Table) -> Option<&str>
    ensures { option_map (λ key. key.now) result ≡ unknown_key question_keys (table_view table.now) }
{
    unknown_key(table, QUESTION_KEYS.as_slice())
}

pub(super) fn has_question_keys(table: &Table) -> bool
    ensures { result ≡ has_only question_keys (table_view table.now) }
{
    unknown_question_key(table).is_none()
}

pub(super) fn has_group_keys(table: &Table) -> bool
    ensures { result ≡ has_only group_keys (table_view table.now) }
{
    has_only(table, GROUP_KEYS.as_slice())
}
