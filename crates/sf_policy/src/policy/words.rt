//! The value of a word in a policy: a whole number, an array of two, or a table with a mask.

ghost use Rattle.std.specs.Prelude.{◌≡◌, map};
ghost use Rattle.toml.specs.Data.{get_member};
ghost use Rattle.toml.specs.View.{view, items_view, table_view};
ghost use Rattle.sf_policy.specs.Keys.{word_keys};
ghost use Rattle.sf_policy.specs.Trees.{each_of};
ghost use Rattle.sf_policy.specs.Words.{only_between, entry_of_array, entry_of_table, entry_of, entry_at};
ghost use Rattle.sf_policy.specs.Encoding.{numbers_in, ranges_and_masks};

use super::Version;
use super::keys::{MASK_KEYS, WORD_KEYS, has_only, number_in, number_in_or, value_at};
use toml::{Table, Value};

/// What a policy says of a word, in the numbers of the file, which may lie outside 32 bits.
#[derive(Clone, Copy, Debug)]
pub(crate) struct WordEntry {
    pub(crate) low: i64,
    pub(crate) high: i64,
    pub(crate) mask: i64,
    pub(crate) value: i64,
}

const MOST: i64 = 0xffff_ffff;

/// The entry of a word that a question doesn't name.
const ANY_NUMBER: WordEntry = WordEntry {
    low: 0,
    high: MOST,
    mask: 0,
    value: 0,
};

fn range_entry(low: i64, high: i64) -> WordEntry
    ensures { result ≡ only_between low high }
{
    WordEntry {
        low,
        high,
        mask: 0,
        value: 0,
    }
}

#[tactic(auto, using(crate::proofs::policy::words::TreeLemmas::short_array, crate::proofs::policy::words::TreeLemmas::long_array))]
fn array_entry(items: &[Value]) -> Option<WordEntry>
    ensures { result ≡ entry_of_array (items_view items.now) }
{
    match items {
        [low, high] => Some(range_entry(low.as_integer()?, high.as_integer()?)),
        _ => None,
    }
}

fn table_entry(table: &Table) -> Option<WordEntry>
    ensures { result ≡ entry_of_table (table_view table.now) }
{
    if !has_only(table, MASK_KEYS.as_slice()) {
        return None;
    }
    Some(WordEntry {
        mask: number_in(table, "mask")?,
        value: number_in(table, "value")?,
        low: number_in_or(table, "low", 0)?,
        high: number_in_or(table, "high", MOST)?,
    })
}

/// The entry of a word's value. A whole number is a range of only this number. Whether numbers fit into 32 bits isn't
/// asked here.
fn value_entry(version: Version, value: &Value) -> Option<WordEntry>
    ensures { result ≡ entry_of version (view value.now) }
{
    match value {
        Value::Integer(number) => Some(range_entry(*number, *number)),
        Value::Array(items) => array_entry(items),
        Value::Table(table) => match version {
            Version::One => None,
            Version::Two => table_entry(table),
        },
        _ => None,
    }
}

pub(super) fn entry_in(version: Version, table: &Table, key: &str) -> Option<WordEntry>
    ensures { result ≡ entry_at version (get_member key.now (table_view table.now)) }
{
    match value_at(table, key) {
        None => Some(ANY_NUMBER),
        Some(value) => value_entry(version, value),
    }
}

/// For the prover: the keys are an argument, so that it doesn't compute with them.
fn entries_at(version: Version, table: &Table, keys: &[&str; 16]) -> Option<[WordEntry; 16]>
    ensures { result ≡ each_of (λ key. entry_at version (get_member key (table_view table.now)))
        (map (λ key. key.now) keys.now) }
{
    let mut words = [ANY_NUMBER; 16];
    for (i, key) in keys.iter().enumerate() {
        words[i] = entry_in(version, table, key)?;
    }
    Some(words)
}

pub(super) fn entries_in(version: Version, table: &Table) -> Option<[WordEntry; 16]>
    ensures { result ≡ each_of (λ key. entry_at version
        (get_member key (table_view table.now))) word_keys }
{
    entries_at(version, table, &WORD_KEYS)
}

pub(super) fn numbers_of(entry: WordEntry) -> Option<((u32, u32), (u32, u32))>
    ensures { result ≡ numbers_in entry }
{
    Some((
        (entry.low.try_into().ok()?, entry.high.try_into().ok()?),
        (entry.mask.try_into().ok()?, entry.value.try_into().ok()?),
    ))
}

pub(super) fn words_of(entries: &[WordEntry; 16]) -> Option<([(u32, u32); 16], [(u32, u32); 16])>
    ensures { result ≡ ranges_and_masks entries.now }
{
    let mut ranges = [(0, 0); 16];
    let mut masks = [(0, 0); 16];
    for (i, entry) in entries.iter().enumerate() {
        let numbers = numbers_of(*entry)?;
        ranges[i] = numbers.0;
        masks[i] = numbers.1;
    }
    Some((ranges, masks))
}
