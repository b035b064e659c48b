ghost use Rattle.std.specs.Prelude.{◌≡◌, ◌≤◌, length, map};
ghost use Rattle.toml.specs.View.{view, table_view};
ghost use Rattle.sf_policy.specs.Faults.{IsDue};
ghost use Rattle.sf_policy.specs.Encoding.{ranges_and_masks, table_or_empty, numbered_fault, fault_of_wide_number, question_of_parts};
ghost use Rattle.sf_policy.specs.Policies.{question_of_table, questions_from};

use super::Version;
use super::actions::actions_in;
use super::keys::{has_question_keys, text_in};
use super::words::{WordEntry, entries_in, words_of};
use sf_question::{ActionSet, Question};
use sf_stack::Fault;
use std::alloc::Global;
use toml::{Table, Value};

/// A fault of a question, with the question's number, from 1.
fn fault_of_question(question: usize, fault: sf_question::Fault) -> Fault
    ensures { result ≡ numbered_fault question fault }
{
    match fault {
        sf_question::Fault::Name => Fault::Name { question },
        sf_question::Fault::Range => Fault::Range { question },
        sf_question::Fault::Mask => Fault::Mask { question },
        sf_question::Fault::Actions => Fault::Actions { question },
        sf_question::Fault::Memory => Fault::Memory,
    }
}

/// The fault of a question that has a number outside 32 bits: `Range`, unless its name is wrong, since names are looked
/// at first.
fn fault_of_wide_number(number: usize, name: &str) -> Fault
    ensures { result ≡ fault_of_wide_number number name.now }
{
    if Question::is_name(name) {
        Fault::Range { question: number }
    } else {
        Fault::Name { question: number }
    }
}

/// The question of these parts, whose number, from 1, is for the fault. Refusals come in the order `Name`, `Range`,
/// `Mask`, `Actions`.
fn question_of_parts(
    alloc: Global,
    number: usize,
    name: &str,
    entries: &[WordEntry; 16],
    actions: ActionSet,
) -> Result<Question, Fault>
    ensures { IsDue (λ q. q) result (question_of_parts number name.now
        (ranges_and_masks entries.now) actions) }
{
    let Some(words) = words_of(entries) else {
        return Err(fault_of_wide_number(number, name));
    };
    let ranges = words.0;
    let masks = words.1;
    let question = Question::of_masked(alloc, name, ranges, masks, actions);
    question.map_err(|fault| fault_of_question(number, fault))
}

#[tactic(auto, using(crate::proofs::policy::questions::EntryLemmas::table_due))]
pub(super) fn question_of_table(
    alloc: Global,
    version: Version,
    number: usize,
    table: &Table,
) -> Result<Question, Fault>
    ensures { IsDue (λ q. q) result (question_of_table version number (table_view table.now)) }
{
    let key = Fault::Key { question: number };
    if !has_question_keys(table) {
        return Err(key);
    }
    let name = text_in(table, "name").ok_or(key)?;
    let entries = entries_in(version, table).ok_or(key)?;
    let actions = actions_in(table).ok_or(key)?;
    question_of_parts(alloc, number, name, &entries, actions)
}

/// The questions of an array's tables. The refusal is that of the first question that is refused.
pub(super) fn questions_in(
    alloc: Global,
    version: Version,
    items: &[Value],
) -> Result<Vec<Question>, Fault>
    requires { length items.now ≤ 256 }
    ensures { IsDue (λ v. v.items) result (questions_from version 1
        (map (λ v. table_or_empty (view v)) items.now)) }
{
    let mut questions = Vec::new(alloc);
    for (i, value) in items.iter().enumerate() {
        let number = i + 1;
        let table = value.as_table().ok_or(Fault::Key { question: number })?;
        questions.push(question_of_table(alloc, version, number, table)?)?;
    }
    Ok(questions)
}
