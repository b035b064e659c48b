mod actions;
mod groups;
mod keys;
mod questions;
mod refusal;
mod words;

ghost use Rattle.std.specs.Prelude.{◌≡◌, ◌⊎◌, Some, None, Err, IfErr, is_some, codes, map, option_map};
ghost use Rattle.std.specs.List.{list_all};
ghost use Rattle.toml.specs.Data.{Members, as_table};
ghost use Rattle.toml.specs.Parse.{parse_document};
ghost use Rattle.toml.specs.View.{view, table_view};
ghost use Rattle.sf_policy.specs.Faults.{IsDue, without_place};
ghost use Rattle.sf_policy.specs.Encoding.{table_or_empty};
ghost use Rattle.sf_policy.specs.Refusals.{tree_of};
ghost use Rattle.sf_policy.specs.Trees.{number_at};
ghost use Rattle.sf_policy.specs.Policies.{version_numbered, tables_of_value, policy_of};

use crate::MOST_QUESTIONS;
pub use groups::{Group, read_groups};
pub use keys::WORD_KEYS;
use keys::{TOP_KEYS, has_only, number_in, value_at};
use questions::questions_in;
pub use refusal::Refusal;
use sf_question::Question;
use sf_stack::Fault;
use std::alloc::Global;
use toml::{Table, Value};

/// In version 2 the value of a word may also be a table with a mask.
#[derive(Clone, Copy, Debug)]
enum Version {
    One,
    Two,
}

fn version_in(table: &Table) -> Option<Version>
    ensures { result ≡ version_numbered (number_at (codes "version") (table_view table.now)) }
{
    match number_in(table, "version") {
        Some(1) => Some(Version::One),
        Some(2) => Some(Version::Two),
        _ => None,
    }
}

fn are_tables(items: &[Value]) -> bool
    ensures { result ≡ list_all (λ v. is_some (as_table (view v))) items.now }
{
    items.iter().all(|value| value.is_table())
}

#[tactic(auto, using(crate::proofs::policy::words::TreeLemmas::tables_view, crate::proofs::policy::words::TreeLemmas::no_tables_view))]
fn tables_in(value: &Value) -> Option<&[Value]>
    ensures { option_map (λ vs. map (λ v. table_or_empty (view v)) vs.now) result
        ≡ tables_of_value (view value.now) }
{
    let items = value.as_array()?;
    if are_tables(items) { Some(items) } else { None }
}

fn policy_of_table(alloc: Global, table: &Table) -> Result<Vec<Question>, Fault>
    ensures { IsDue (λ v. v.items) result (policy_of (table_view table.now)) }
{
    let version = version_in(table).ok_or(Fault::Version)?;
    if !has_only(table, TOP_KEYS.as_slice()) {
        return Err(Fault::TopKey);
    }
    let value = value_at(table, "question").ok_or(Fault::Count)?;
    let items = tables_in(value).ok_or(Fault::TopKey)?;
    if items.is_empty() || MOST_QUESTIONS < items.len() {
        return Err(Fault::Count);
    }
    questions_in(alloc, version, items)
}

/// The questions of a policy file, as `read_policy` reads them. A refusal also has what was read of the file, and so
/// tells where the fault lies.
#[tactic(auto, using(crate::proofs::NeverSyntax::not_syntax))]
pub fn read_policy_at(alloc: Global, text: &str) -> Result<Vec<Question>, Refusal>
    ensures read { (tree : Members) → parse_document text.now ≡ Some tree
        → IsDue (λ v. v.items) (without_place result) (policy_of tree) }
    ensures syntax { without_place result ≡ Err Fault.Syntax
        → parse_document text.now ≡ None }
    ensures no_syntax { parse_document text.now ≡ None
        → (without_place result ≡ Err Fault.Syntax)
        ⊎ (without_place result ≡ Err Fault.Memory) }
    ensures tree { (tree : Members) → parse_document text.now ≡ Some tree
        → IfErr result (λ r. (r.fault ≡ Fault.Memory) ⊎ (tree_of r.read ≡ Some tree)) }
{
    match toml::table_from_str(alloc, text) {
        Ok(table) => policy_of_table(alloc, &table).map_err(|fault| Refusal {
            fault,
            read: Ok(table),
        }),
        Err(error) => {
            let fault = if error.is_memory() {
                Fault::Memory
            } else {
                Fault::Syntax
            };
            Err(Refusal {
                fault,
                read: Err(error),
            })
        }
    }
}

/// The questions of a policy file, which is TOML of version 1 or 2. A question names ranges of words and, in version 2,
/// bits of them; a word that it doesn't name may have any number. A question without a key `actions` asks about ALLOW
/// and LOG.
///
/// Refusals come in this order: `Syntax`; `Version`; `TopKey`, `Count`; then, question after question, `Key`, `Name`,
/// `Range`, `Mask` and `Actions`, with the number of the question from 1.
pub fn read_policy(alloc: Global, text: &str) -> Result<Vec<Question>, Fault>
    ensures read { (tree : Members) → parse_document text.now ≡ Some tree
        → IsDue (λ v. v.items) result (policy_of tree) }
    ensures syntax { result ≡ Err Fault.Syntax → parse_document text.now ≡ None }
    ensures no_syntax { parse_document text.now ≡ None → (result ≡ Err Fault.Syntax)
        ⊎ (result ≡ Err Fault.Memory) }
{
    read_policy_at(alloc, text).map_err(|refusal| refusal.fault)
}
