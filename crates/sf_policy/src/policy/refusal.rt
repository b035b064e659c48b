//! Where a policy is refused.

ghost use Rattle.std.specs.Prelude.{◌≡◌, ◌&&◌, find, length, map, option_and_then, option_map, unwrap_or};
ghost use Rattle.toml.specs.Data.{get_member};
ghost use Rattle.toml.specs.View.{items_view, table_view, view};
ghost use Rattle.sf_policy.specs.Trees.{item_list};
ghost use Rattle.sf_policy.specs.Words.{entry_at, has_mask, has_range, has_words};
ghost use Rattle.sf_policy.specs.Refusals.{is_at_fault, is_name_at_fault, items_in, key_in_question, key_of, known_key, name_where, question_of, table_numbered, table_where, top_key, tree_of, value_numbered, word_at_fault};

use super::keys::{TOP_KEYS, WORD_KEYS, text_in, unknown_key, unknown_question_key, value_at};
use super::words::{WordEntry, entry_in, numbers_of};
use super::{Version, version_in};
use sf_stack::Fault;
use toml::de::Error;
use toml::{Table, Value};

/// Why a policy is refused, and what was read of it.
#[derive(Debug, Drop)]
pub struct Refusal {
    pub fault: Fault,
    /// The tree of the policy; or why there is none: its text is no TOML, or memory ran out.
    pub read: Result<Table, Error>,
}

/// The same values. For the prover: seen as those of an array.
#[tactic(auto, using(crate::proofs::policy::words::TreeLemmas::listed_view))]
fn array_items(items: &[Value]) -> &[Value]
    ensures { map view result.now ≡ item_list (items_view items.now) }
{
    items
}

fn items_in(tree: &Table) -> &[Value]
    ensures { map view result.now ≡ items_in (table_view tree.now) }
{
    match value_at(tree, "question") {
        Some(Value::Array(items)) => array_items(items),
        _ => &[],
    }
}

fn value_numbered(items: &[Value], number: usize) -> Option<&Value>
    ensures { option_map (λ v. view v.now) result ≡ value_numbered (map view items.now) number }
{
    if number == 0 {
        None
    } else {
        items.get(number - 1)
    }
}

fn table_numbered(tree: &Table, number: usize) -> Option<&Table>
    ensures { option_map (λ t. table_view t.now) result
        ≡ table_numbered (table_view tree.now) number }
{
    value_numbered(items_in(tree), number)?.as_table()
}

fn has_range(entry: WordEntry) -> bool
    ensures { result ≡ has_range entry }
{
    match numbers_of(entry) {
        Some((range, _)) => range.0 <= range.1,
        None => false,
    }
}

fn has_mask(entry: WordEntry) -> bool
    ensures { result ≡ (has_words entry && has_mask entry) }
{
    match numbers_of(entry) {
        Some((_, mask)) => mask.1 & mask.0 == mask.1,
        None => false,
    }
}

fn is_at_fault(fault: Fault, entry: Option<WordEntry>) -> bool
    ensures { result ≡ is_at_fault fault entry }
{
    let Some(entry) = entry else {
        return true;
    };
    match fault {
        Fault::Range { .. } => !has_range(entry),
        Fault::Mask { .. } => !has_mask(entry),
        _ => false,
    }
}

fn first_at_fault<'a>(
    fault: Fault,
    version: Version,
    table: &Table,
    words: &'a [&'static str],
) -> Option<&'a &'static str>
    ensures { option_map (λ word. word.now) result ≡ find (λ word. is_at_fault fault
        (entry_at version (get_member word.now (table_view table.now)))) words.now }
{
    let mut words = words.iter();
    words.find(|word| is_at_fault(fault, entry_in(version, table, word)))
}

/// For the prover: `first_at_fault`, said of the words, not of references to them.
fn word_among(
    fault: Fault,
    version: Version,
    table: &Table,
    words: &[&'static str],
) -> Option<&'static str>
    ensures { option_map (λ word. word.now) result ≡ find (λ word. is_at_fault fault
        (entry_at version (get_member word (table_view table.now)))) (map (λ word. word.now) words.now) }
{
    first_at_fault(fault, version, table, words).copied()
}

fn word_at_fault(fault: Fault, version: Version, table: &Table) -> Option<&'static str>
    ensures { option_map (λ word. word.now) result
        ≡ word_at_fault fault version (table_view table.now) }
{
    word_among(fault, version, table, WORD_KEYS.as_slice())
}

fn is_name_at_fault(fault: Fault, name: Option<&str>) -> bool
    ensures { result ≡ is_name_at_fault fault (option_map (λ name. name.now) name.entry) }
{
    match fault {
        Fault::Name { .. } => true,
        _ => name.is_none(),
    }
}

fn known_key(fault: Fault, version: Version, table: &Table) -> &'static str
    ensures { result.now ≡ known_key fault version (table_view table.now) }
{
    if is_name_at_fault(fault, text_in(table, "name")) {
        return "name";
    }
    match word_at_fault(fault, version, table) {
        Some(word) => word,
        None => "actions",
    }
}

fn key_in_question(fault: Fault, version: Version, table: &Table) -> &str
    ensures { result.now ≡ key_in_question fault version (table_view table.now) }
{
    match unknown_question_key(table) {
        Some(key) => key,
        None => known_key(fault, version, table),
    }
}

fn top_key(fault: Fault, tree: &Table) -> &str
    ensures { result.now ≡ top_key fault (table_view tree.now) }
{
    match (fault, unknown_key(tree, TOP_KEYS.as_slice())) {
        (Fault::Version, _) => "version",
        (_, Some(key)) => key,
        (_, None) => "question",
    }
}

impl Refusal {
    /// The number of the question that is refused, from 1, if the fault is that of one.
    pub fn question(&self) -> Option<usize>
        ensures { result ≡ question_of self.now.fault }
    {
        match self.fault {
            Fault::Key { question }
            | Fault::Range { question }
            | Fault::Actions { question }
            | Fault::Name { question }
            | Fault::Mask { question } => Some(question),
            _ => None,
        }
    }

    /// How many values the policy's array of questions has.
    pub fn count(&self) -> usize
        ensures { result ≡ unwrap_or (option_map (λ ms. length (items_in ms))
            (tree_of self.now.read)) 0 }
    {
        match &self.read {
            Ok(tree) => items_in(tree).len(),
            Err(_) => 0,
        }
    }

    /// The table of the question that is refused, or the whole tree, where the fault is that of no question.
    pub fn table(&self) -> Option<&Table>
        ensures { option_map (λ t. table_view t.now) result
            ≡ option_and_then (table_where (question_of self.now.fault)) (tree_of self.now.read) }
    {
        let tree = self.read.as_ref().ok()?;
        match self.question() {
            Some(number) => table_numbered(tree, number),
            None => Some(tree),
        }
    }

    /// The name of the question that is refused.
    pub fn name(&self) -> Option<&str>
        ensures { option_map (λ t. t.now) result
            ≡ option_and_then (name_where (question_of self.now.fault)) (tree_of self.now.read) }
    {
        let tree = self.read.as_ref().ok()?;
        let number = self.question()?;
        text_in(table_numbered(tree, number)?, "name")
    }

    /// The key that is refused.
    pub fn key(&self) -> Option<&str>
        ensures { option_map (λ key. key.now) result
            ≡ option_and_then (key_of self.now.fault) (tree_of self.now.read) }
    {
        let tree = self.read.as_ref().ok()?;
        match (version_in(tree), self.question()) {
            (Some(version), Some(number)) => {
                let table = table_numbered(tree, number)?;
                Some(key_in_question(self.fault, version, table))
            }
            _ => Some(top_key(self.fault, tree)),
        }
    }
}
