ghost use Rattle.std.specs.Prelude.{◌≡◌, ◌⊎◌, ◌==◌, ◌+◌, ◌*◌, ◌<◌, ◌≤◌, [], ◌∷◌, ◌++◌, length, false, IfOk, IfErr, OnOk, if◌then◌else◌};
ghost use Rattle.sf_diagram.specs.Trees.{IsOrderedFrom};
ghost use Rattle.sf_diagram.specs.Stores.{tree_at, IsLawfulStore};
ghost use Rattle.sf_parts.specs.Rows.{rows_under, IsCrowded};

use crate::fault::Fault;
use crate::form::Form;
use crate::parts::parts_of;
use crate::word::TESTS;
use sf_diagram::{Id, Node, Store};
use std::alloc::{AllocError, Global};
use std::marker::Model;

/// A condition of a row: the number of a word is one of those that are written so.
#[derive(Drop)]
pub struct Condition {
    /// The word, whose first variable is 32 times this.
    pub word: u16,
    /// How its numbers are written.
    pub form: Form,
}

impl Model for Condition {
    ghost use Rattle.sf_parts.specs.Rows.{ConditionData};

    ghost Value = { ConditionData };

    ghost view = { λ c. record { word = c.word; form = c.form } };
}

/// The inputs that meet all conditions get the number.
#[derive(Drop)]
pub struct Row {
    /// On different words.
    pub conditions: Vec<Condition>,
    pub number: u64,
}

impl Model for Row {
    ghost use Rattle.sf_parts.specs.Rows.{RowData};

    ghost Value = { RowData };

    ghost view = { λ r. record { conditions = r.conditions.items; number = r.number } };
}

/// Words that a tree may test, so many from this one on; the word whose runs stand apart; and the number whose inputs
/// are left out.
#[derive(Clone, Copy)]
struct Words {
    left: u16,
    word: u16,
    apart: u16,
    hidden: u64,
}

/// How many rows there may be. A row takes up to some 1.3 kB, so these take 85 MB. Real stacks have some hundred rows.
pub const ROWS: usize = 65536;

fn condition_of(alloc: Global, word: u16, form: &Form) -> Result<Condition, AllocError>
    ensures { IfOk result (λ c. c ≡ record { word = word; form = form.now }) }
{
    let form = form.try_clone(alloc)?;
    Ok(Condition { word, form })
}

fn conditions_of(alloc: Global, conditions: &[Condition]) -> Result<Vec<Condition>, AllocError>
    ensures { IfOk result (λ v. v.items ≡ conditions.now) }
{
    let mut copy = Vec::new(alloc);
    for condition in conditions {
        let one = condition_of(alloc, condition.word, &condition.form)?;
        copy.push(one)?;
    }
    Ok(copy)
}

/// Adds the row of a number, unless it is hidden.
fn push_row(
    alloc: Global,
    conditions: &[Condition],
    number: u64,
    hidden: u64,
    rows: &mut Vec<Row>,
) -> Result<(), Fault>
    ensures rows { OnOk result (rows.new.items ≡ rows.old.items ++ (if number == hidden then []
        else record { conditions = conditions.now; number = number } ∷ [])) }
    ensures spent { IfErr result (λ e. e ≡ Fault.Spent
        → (ROWS ≤ length rows.old.items) × ((number == hidden) ≡ false)) }
{
    if number == hidden {
        return Ok(());
    }
    if rows.len() >= ROWS {
        return Err(Fault::Spent);
    }
    let conditions = conditions_of(alloc, conditions)?;
    rows.push(Row { conditions, number })?;
    Ok(())
}

/// Adds the rows of a node under conditions on earlier words.
fn push_rows(
    alloc: Global,
    store: &Store,
    words: Words,
    id: Id,
    conditions: &mut Vec<Condition>,
    rows: &mut Vec<Row>,
) -> Result<(), Fault>
    requires lawful { IsLawfulStore store.now }
    requires within { id < length store.now.trees }
    requires words { words.word + words.left < 65536 }
    ensures rows { OnOk result (rows.new.items ≡ rows.old.items
        ++ rows_under words.apart words.hidden words.left words.word
        (tree_at store.now.trees id) conditions.old.items) }
    ensures conditions { OnOk result (conditions.new.items ≡ conditions.old.items) }
    ensures spent { IfErr result (λ e. e ≡ Fault.Spent
        → IsOrderedFrom (32 * words.word) (tree_at store.now.trees id)
        → (ROWS < length rows.old.items + length (rows_under words.apart words.hidden words.left
        words.word (tree_at store.now.trees id) conditions.old.items))
        ⊎ IsCrowded TESTS (tree_at store.now.trees id)) }
{
    let variable = match store.node(id) {
        Node::Number(number) => return push_row(alloc, conditions, number, words.hidden, rows),
        Node::Choice(variable, _, _) => variable,
    };
    if words.left == 0 {
        return Ok(());
    }
    let next = Words {
        left: words.left - 1,
        word: words.word + 1,
        apart: words.apart,
        hidden: words.hidden,
    };
    if variable / 32 != words.word {
        return push_rows(alloc, store, next, id, conditions, rows);
    }
    let parts = parts_of(alloc, store, words.word, words.word == words.apart, id)?;
    let before = conditions.len();
    for part in &parts {
        let condition = condition_of(alloc, words.word, &part.form)?;
        conditions.push(condition)?;
        push_rows(alloc, store, next, part.behind, conditions, rows)?;
        conditions.truncate(before);
    }
    Ok(())
}

/// The rows of a node that tests only so many words from this one on. The runs of the word `apart` stand by themselves,
/// and inputs that get the number `hidden` are left out. `Spent` where there would be more rows than are allowed, or a
/// word is tested more often.
pub fn rows_of(
    alloc: Global,
    store: &Store,
    word: u16,
    words: u16,
    apart: u16,
    hidden: u64,
    id: Id,
) -> Result<Vec<Row>, Fault>
    requires lawful { IsLawfulStore store.now }
    requires within { id < length store.now.trees }
    requires words { word + words < 65536 }
    ensures rows { IfOk result (λ v. v.items
        ≡ rows_under apart hidden words word (tree_at store.now.trees id) []) }
    ensures spent { IfErr result (λ e. e ≡ Fault.Spent
        → IsOrderedFrom (32 * word) (tree_at store.now.trees id)
        → (ROWS < length (rows_under apart hidden words word (tree_at store.now.trees id) []))
        ⊎ IsCrowded TESTS (tree_at store.now.trees id)) }
{
    let mut conditions = Vec::new(alloc);
    let mut rows = Vec::new(alloc);
    let all = Words {
        left: words,
        word,
        apart,
        hidden,
    };
    push_rows(alloc, store, all, id, &mut conditions, &mut rows)?;
    Ok(rows)
}
