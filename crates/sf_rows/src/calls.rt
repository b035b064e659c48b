//! The rows of calls that have a name.

ghost use Rattle.std.specs.Prelude.{◌≡◌, ◌≤◌, ◌<◌, ◌++◌, ◌==◌, IfOk, OnOk, length, map};
ghost use Rattle.std.specs.Int.{bit_at};
ghost use Rattle.std.specs.List.{flat_map, list_any};
ghost use Rattle.std.specs.Str.{bytes_eq};
ghost use Rattle.sf_diagram.specs.Stores.{IsLawfulStore, tree_at};
ghost use Rattle.sf_parts.specs.Words.{behind};
ghost use Rattle.sf_rows.specs.Rows.{rows_of_call};
ghost use Rattle.sf_rows.specs.Shown.{call_row, call_rows, is_wanted, rows_if_wanted};

use crate::subject::{Subject, hidden_number};
use crate::words::{ARCH, NR};
use sf_diagram::{Id, Node, Store};
use sf_names::{Call, Names};
use sf_parts::{Fault, ROWS, Row, rows_of};
use std::alloc::{AllocError, Global};
use std::marker::Model;

/// A row of a call that has a name: all inputs of the call are meant that meet the row's conditions.
#[derive(Drop)]
pub struct CallRow<'a> {
    names: &'a Names,
    call: &'a Call,
    row: Row,
}

impl<'a> Model for CallRow<'a> {
    ghost use Rattle.sf_rows.specs.Shown.{CallRowData, call_row};

    ghost Value = { CallRowData };

    ghost view = { λ c. call_row c.names.now c.call.now c.row };
}

impl<'a> CallRow<'a> {
    /// The name of the call's set.
    pub fn set(&self) -> &str
        ensures { result.now ≡ self.now.set }
    {
        self.names.set()
    }

    /// The name of the call.
    pub fn name(&self) -> &str
        ensures { result.now ≡ self.now.name }
    {
        self.call.name()
    }

    /// The row.
    pub fn row(&self) -> &Row
        ensures { result.now ≡ self.now.row }
    {
        &self.row
    }
}

/// The diagram of which rows are, and the store in which it stands.
#[derive(Clone, Copy)]
struct Source<'s> {
    store: &'s Store,
    subject: Subject,
    id: Id,
}

pub(crate) fn has_bit(number: u32, bit: u32) -> bool
    requires { bit < 32 }
    ensures { result ≡ (bit_at number bit == 1) }
{
    number >> bit & 1 == 1
}

fn behind(store: &Store, word: u16, number: u32, id: Id) -> Id
    requires { id < length store.now.trees }
    ensures within { result < length store.now.trees }
    ensures behind { tree_at store.now.trees result
        ≡ behind word (tree_at store.now.trees id) number }
    ensures lawful { IsLawfulStore store.now }
{
    match store.node(id) {
        Node::Number(_) => id,
        Node::Choice(variable, lower, higher) => {
            if variable / 32 != word {
                return id;
            }
            if has_bit(number, 31 - variable as u32 % 32) {
                return behind(store, word, number, higher);
            }
            behind(store, word, number, lower)
        }
    }
}

fn rows_of_call(
    alloc: Global,
    source: &Source<'_>,
    arch: u32,
    number: u32,
) -> Result<Vec<Row>, Fault>
    requires { source.now.id < length source.now.store.now.trees }
    ensures { IfOk result (λ v. v.items ≡ rows_of_call source.now.subject
        (tree_at source.now.store.now.trees source.now.id) arch number) }
{
    let store = source.store;
    let of_arch = behind(store, ARCH, arch, source.id);
    let of_call = behind(store, NR, number, of_arch);
    let rows = rows_of(
        alloc,
        store,
        20,
        14,
        NR,
        hidden_number(source.subject),
        of_call,
    )?;
    Ok(rows)
}

fn push_rows<'a>(
    into: &mut Vec<CallRow<'a>>,
    names: &'a Names,
    call: &'a Call,
    rows: Vec<Row>,
) -> Result<(), AllocError>
    ensures { OnOk result (into.new.items ≡ into.old.items
        ++ map (call_row names.now call.now) rows.items) }
{
    for row in rows {
        into.push(CallRow { names, call, row })?;
    }
    Ok(())
}

fn has_text(texts: &[&str], text: &str) -> bool
    ensures { result ≡ list_any (λ t. bytes_eq text.now t.now) texts.now }
{
    texts.iter().any(|one| text == *one)
}

/// For the prover: `has_text`, said of the texts themselves.
fn is_among(texts: &[&str], text: &str) -> bool
    ensures { result ≡ list_any (bytes_eq text.now) (map (λ t. t.now) texts.now) }
{
    has_text(texts, text)
}

fn is_wanted(wanted: &[&str], call: &Call) -> bool
    ensures { result ≡ is_wanted (map (λ t. t.now) wanted.now) call.now }
{
    wanted.is_empty() || is_among(wanted, call.name())
}

fn push_if_wanted<'a>(
    alloc: Global,
    into: &mut Vec<CallRow<'a>>,
    source: &Source<'_>,
    wanted: &[&str],
    names: &'a Names,
    call: &'a Call,
) -> Result<(), Fault>
    requires { source.now.id < length source.now.store.now.trees }
    ensures { OnOk result (into.new.items ≡ into.old.items
        ++ rows_if_wanted (map (λ t. t.now) wanted.now) source.now.subject
        (tree_at source.now.store.now.trees source.now.id) names.now call.now) }
{
    if is_wanted(wanted, call) {
        let rows = rows_of_call(alloc, source, names.arch(), call.number())?;
        if rows.len() > ROWS.saturating_sub(into.len()) {
            return Err(Fault::Spent);
        }
        push_rows(into, names, call, rows)?;
    }
    Ok(())
}

fn push_set<'a>(
    alloc: Global,
    into: &mut Vec<CallRow<'a>>,
    source: &Source<'_>,
    wanted: &[&str],
    names: &'a Names,
) -> Result<(), Fault>
    requires { source.now.id < length source.now.store.now.trees }
    ensures { OnOk result (into.new.items ≡ into.old.items
        ++ flat_map (rows_if_wanted (map (λ t. t.now) wanted.now) source.now.subject
        (tree_at source.now.store.now.trees source.now.id) names.now) names.now.calls) }
{
    let calls = names.calls();
    for call in calls {
        push_if_wanted(alloc, into, source, wanted, names, call)?;
    }
    Ok(())
}

pub(crate) fn call_rows<'a>(
    alloc: Global,
    store: &Store,
    subject: Subject,
    id: Id,
    sets: &'a [Names],
    wanted: &[&str],
) -> Result<Vec<CallRow<'a>>, Fault>
    requires { id < length store.now.trees }
    ensures { IfOk result (λ v. v.items ≡ call_rows (map (λ t. t.now) wanted.now) subject
        (tree_at store.now.trees id) sets.now) }
{
    let source = Source { store, subject, id };
    let mut rows = Vec::new(alloc);
    for names in sets {
        push_set(alloc, &mut rows, &source, wanted, names)?;
    }
    Ok(rows)
}
