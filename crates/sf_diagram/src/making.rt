//! Trees that are made of others: a choice between two by a third, and what an operation makes of two.

ghost use Rattle.std.specs.Prelude.{◌≡◌, ◌<◌, ◌≤◌, min, length, IfOk, IfErr};
ghost use Rattle.sf_diagram.specs.Trees.{HasValues};
ghost use Rattle.sf_diagram.specs.Stores.{tree_at, KeepsStore, IsLawfulStore, IsSpentFor};
ghost use Rattle.sf_diagram.specs.Choices.{chosen_value, IsChosen};
ghost use Rattle.sf_diagram.specs.Merges.{merged_value, IsMerged};
ghost use Rattle.sf_diagram.specs.Tasks.{top_variable, IsParted, AreBelow, wanted, IsStepFor};

use crate::fault::Fault;
use crate::index::{Id, Node};
use crate::operation::Operation;
use crate::store::Store;
use crate::task::{Step, Task};

/// The lesser of a variable and that of a node.
fn lesser(store: &Store, variable: u16, id: Id) -> u16
    requires { id < length store.now.trees }
    ensures { result ≡ min variable (top_variable (tree_at store.now.trees id)) }
{
    match store.node(id) {
        Node::Number(_) => variable,
        Node::Choice(other, _, _) => variable.min(other),
    }
}

/// Where a node leads if a variable is false, and if it is true.
fn split(store: &Store, id: Id, variable: u16) -> (Id, Id)
    requires within { id < length store.now.trees }
    requires above { variable ≤ top_variable (tree_at store.now.trees id) }
    ensures lower { result.0 ≤ id }
    ensures higher { result.1 ≤ id }
    ensures less_lower { top_variable (tree_at store.now.trees id) ≡ variable → result.0 < id }
    ensures less_higher { top_variable (tree_at store.now.trees id) ≡ variable → result.1 < id }
    ensures split { IsParted variable (tree_at store.now.trees id)
        (tree_at store.now.trees result.0) (tree_at store.now.trees result.1) }
{
    match store.node(id) {
        Node::Choice(top, lower, higher) if top == variable => (lower, higher),
        _ => (id, id),
    }
}

/// What there is to do for a choice. For the prover: the store is lawful.
fn choice_step(store: &Store, test: Id, taken: Id, other: Id) -> Step
    requires { AreBelow (length store.now.trees) (Task.Choose test taken other) }
    ensures step { IsStepFor store.now.trees (Task.Choose test taken other) result }
    ensures lawful { IsLawfulStore store.now }
{
    let first = match store.node(test) {
        Node::Number(number) => {
            if number == 0 {
                return Step::Same(other);
            }
            return Step::Same(taken);
        }
        Node::Choice(variable, _, _) => variable,
    };
    if taken == other {
        return Step::Same(taken);
    }
    let variable = lesser(store, lesser(store, first, taken), other);
    let (test_lower, test_higher) = split(store, test, variable);
    let (taken_lower, taken_higher) = split(store, taken, variable);
    let (other_lower, other_higher) = split(store, other, variable);
    Step::Divided(
        variable,
        Task::Choose(test_lower, taken_lower, other_lower),
        Task::Choose(test_higher, taken_higher, other_higher),
    )
}

/// What there is to do for a merge of two nodes that are not both leaves.
fn merge_by(store: &Store, operation: Operation, first: Id, second: Id, variable: u16) -> Step
    requires below { AreBelow (length store.now.trees) (Task.Merge operation first second) }
    requires least { variable ≡ min (top_variable (tree_at store.now.trees first))
        (top_variable (tree_at store.now.trees second)) }
    ensures { IsStepFor store.now.trees (Task.Merge operation first second) result }
{
    if first == second && operation.keeps_equals() {
        return Step::Same(first);
    }
    if first == second && operation.cancels_equals() {
        return Step::Constant(0);
    }
    let (first_lower, first_higher) = split(store, first, variable);
    let (second_lower, second_higher) = split(store, second, variable);
    Step::Divided(
        variable,
        Task::Merge(operation, first_lower, second_lower),
        Task::Merge(operation, first_higher, second_higher),
    )
}

/// What there is to do for a merge. For the prover: the store is lawful.
fn merge_step(store: &Store, operation: Operation, first: Id, second: Id) -> Step
    requires { AreBelow (length store.now.trees) (Task.Merge operation first second) }
    ensures step { IsStepFor store.now.trees (Task.Merge operation first second) result }
    ensures lawful { IsLawfulStore store.now }
{
    match (store.node(first), store.node(second)) {
        (Node::Number(a), Node::Number(b)) => Step::Constant(operation.apply(a, b)),
        (Node::Number(_), Node::Choice(variable, _, _)) => {
            merge_by(store, operation, first, second, variable)
        }
        (Node::Choice(variable, _, _), _) => {
            merge_by(
                store,
                operation,
                first,
                second,
                lesser(store, variable, second),
            )
        }
    }
}

/// What there is to do for a task. For the prover: the store is lawful.
fn step_of(store: &Store, task: Task) -> Step
    requires { AreBelow (length store.now.trees) task }
    ensures step { IsStepFor store.now.trees task result }
    ensures lawful { IsLawfulStore store.now }
{
    match task {
        Task::Choose(test, taken, other) => choice_step(store, test, taken, other),
        Task::Merge(operation, first, second) => merge_step(store, operation, first, second),
    }
}

/// The tree of a task.
fn make(store: &mut Store, task: Task) -> Result<Id, Fault>
    requires { AreBelow (length store.old.trees) task }
    ensures within { IfOk result (λ id. id < length store.new.trees) }
    ensures made { IfOk result
        (λ id. HasValues (tree_at store.new.trees id) (wanted store.old.trees task)) }
    ensures keeps { KeepsStore store.old store.new }
    ensures lawful { IsLawfulStore store.new }
    ensures spent { IfErr result
        (λ e. e ≡ Fault.Spent → IsSpentFor store.new (wanted store.old.trees task)) }
{
    let (variable, lower, higher) = match step_of(store, task) {
        Step::Same(id) => return Ok(id),
        Step::Constant(number) => return Ok(store.leaf(number)?),
        Step::Divided(variable, lower, higher) => (variable, lower, higher),
    };
    if let Some(known) = store.recall(task) {
        return Ok(known);
    }
    let low = make(store, lower)?;
    let high = make(store, higher)?;
    let joined = store.fork(variable, low, high)?;
    store.remember(task, joined)?;
    Ok(joined)
}

/// The tree that has the value of `taken` where `test` is not 0, and the value of `other` where `test` is 0.
pub fn choose(store: &mut Store, test: Id, taken: Id, other: Id) -> Result<Id, Fault>
    requires test { test < length store.old.trees }
    requires taken { taken < length store.old.trees }
    requires other { other < length store.old.trees }
    ensures within { IfOk result (λ id. id < length store.new.trees) }
    ensures chosen { IfOk result (λ id. IsChosen (tree_at store.old.trees test)
        (tree_at store.old.trees taken) (tree_at store.old.trees other)
        (tree_at store.new.trees id)) }
    ensures keeps { KeepsStore store.old store.new }
    ensures lawful { IsLawfulStore store.new }
    ensures spent { IfErr result (λ e. e ≡ Fault.Spent → IsSpentFor store.new
        (chosen_value (tree_at store.old.trees test) (tree_at store.old.trees taken)
        (tree_at store.old.trees other))) }
{
    make(store, Task::Choose(test, taken, other))
}

/// The tree whose value on each input is what the operation makes of the values of two trees.
pub fn merge(store: &mut Store, operation: Operation, first: Id, second: Id) -> Result<Id, Fault>
    requires first { first < length store.old.trees }
    requires second { second < length store.old.trees }
    ensures within { IfOk result (λ id. id < length store.new.trees) }
    ensures merged { IfOk result (λ id. IsMerged operation (tree_at store.old.trees first)
        (tree_at store.old.trees second) (tree_at store.new.trees id)) }
    ensures keeps { KeepsStore store.old store.new }
    ensures lawful { IsLawfulStore store.new }
    ensures spent { IfErr result (λ e. e ≡ Fault.Spent → IsSpentFor store.new
        (merged_value operation (tree_at store.old.trees first)
        (tree_at store.old.trees second))) }
{
    make(store, Task::Merge(operation, first, second))
}
