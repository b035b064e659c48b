ghost use Rattle.std.specs.Prelude.{◌≡◌, ◌<◌, IfOk, length, map, option_map};
ghost use Rattle.sf_diagram.specs.Stores.{KeepsStore, tree_at};
ghost use Rattle.sf_rows.specs.Shown.{IsShown, shown_count};

use crate::calls::{CallRow, call_rows};
use crate::fault::Fault;
use crate::others::{all_rows, other_rows};
use crate::subject::Subject;
use sf_diagram::{Id, Store};
use sf_names::Names;
use sf_parts::Row;
use std::alloc::Global;
use std::marker::Model;

/// Rows that are shown.
#[derive(Drop)]
pub struct Shown<'a> {
    calls: Option<Vec<CallRow<'a>>>,
    rows: Vec<Row>,
}

impl<'a> Model for Shown<'a> {
    ghost use Rattle.std.specs.Prelude.{option_map};
    ghost use Rattle.sf_rows.specs.Shown.{ShownData};

    ghost Value = { ShownData };

    ghost view = { λ t. record {
      calls = option_map (λ v. v.items) t.calls;
      rows = t.rows.items;
    } };
}

impl<'a> Shown<'a> {
    /// The rows that are shown call by call; `None` where none are.
    pub fn calls(&self) -> &Option<Vec<CallRow<'a>>>
        ensures { option_map (λ v. v.items) result.now ≡ self.now.calls }
    {
        &self.calls
    }

    /// The rows that are shown each by itself.
    pub fn rows(&self) -> &[Row]
        ensures { result.now ≡ self.now.rows }
    {
        self.rows.as_slice()
    }
}

/// How many rows are shown.
pub fn shown_count(shown: &Shown<'_>) -> usize
    ensures { result ≡ shown_count shown.now }
{
    match &shown.calls {
        Some(calls) => calls.len() + shown.rows.len(),
        None => shown.rows.len(),
    }
}

/// The rows of a diagram. Where `calls` is `None`, each stands by itself. Where `calls` has names, they are those of
/// the calls of `sets` with these names; a name that no set has adds nothing. Where `calls` is an empty list, they are
/// those of all calls of `sets`, and beside them the rows of the inputs of calls without a name.
pub fn show<'a>(
    alloc: Global,
    store: &mut Store,
    subject: Subject,
    id: Id,
    sets: &'a [Names],
    calls: &Option<Vec<&str>>,
) -> Result<Shown<'a>, Fault>
    requires { id < length store.old.trees }
    ensures shown { IfOk result (IsShown (option_map (λ v. map (λ t. t.now) v.items) calls.now)
        subject (tree_at store.old.trees id) sets.now) }
    ensures keeps { KeepsStore store.old store.new }
{
    match calls {
        None => {
            let rows = all_rows(alloc, store, subject, id)?;
            Ok(Shown { calls: None, rows })
        }
        Some(wanted) => {
            let of_calls = call_rows(alloc, store, subject, id, sets, wanted)?;
            let rows = other_rows(alloc, store, subject, id, sets, wanted)?;
            Ok(Shown {
                calls: Some(of_calls),
                rows,
            })
        }
    }
}
