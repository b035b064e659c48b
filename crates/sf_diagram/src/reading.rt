//! What a tree says of an input, and the first input to which it gives another number than 0.

ghost use Rattle.std.specs.Prelude.{◌≡◌, ◌≢◌, ◌<◌, ◌≤◌, ℕ, true, length, IfOk, IfErr, MatchOption};
ghost use Rattle.sf_diagram.specs.Trees.{Leaf, Bits, bits_with, value, IsOrderedFrom};
ghost use Rattle.sf_diagram.specs.Stores.{tree_at};
ghost use Rattle.sf_diagram.specs.LeastInputs.{IsLeastNonzero};

use crate::fault::Fault;
use crate::index::{Id, Node};
use crate::store::Store;
use std::alloc::Global;

/// Whether a variable is among those that are true.
fn is_true(variables: &[u16], variable: u16) -> bool
    ensures { result ≡ bits_with variables.now variable }
{
    variables.iter().any(|v| *v == variable)
}

/// The number to which an input leads from a node. Of the input are given the variables that are true.
pub fn value_of(store: &Store, id: Id, variables: &[u16]) -> u64
    requires { id < length store.now.trees }
    ensures { result ≡ value (tree_at store.now.trees id) (bits_with variables.now) }
{
    match store.node(id) {
        Node::Number(number) => number,
        Node::Choice(variable, lower, higher) => {
            if is_true(variables, variable) {
                value_of(store, higher, variables)
            } else {
                value_of(store, lower, variables)
            }
        }
    }
}

/// Whether the tree is the leaf 0.
fn is_zero(store: &Store, id: Id) -> bool
    requires { id < length store.now.trees }
    ensures zero { result ≡ true → tree_at store.now.trees id ≡ Leaf 0 }
    ensures other { tree_at store.now.trees id ≡ Leaf 0 → result ≡ true }
{
    match store.node(id) {
        Node::Number(number) => number == 0,
        Node::Choice(_, _, _) => false,
    }
}

/// The variables that are true in the first input to which a tree gives another number than 0, the greatest first.
fn least_of(alloc: Global, store: &Store, id: Id) -> Result<Vec<u16>, Fault>
    requires within { id < length store.now.trees }
    requires some { tree_at store.now.trees id ≢ Leaf 0 }
    ensures least { IfOk result
        (λ vs. IsLeastNonzero (tree_at store.now.trees id) (bits_with vs.items)) }
    ensures above { IfOk result (λ vs. (n v : ℕ) → IsOrderedFrom n (tree_at store.now.trees id)
        → bits_with vs.items v ≡ true → n ≤ v) }
    ensures memory { IfErr result (λ e. e ≡ Fault.Memory) }
{
    let (variable, lower, higher) = match store.node(id) {
        Node::Number(_) => return Ok(Vec::new(alloc)),
        Node::Choice(variable, lower, higher) => (variable, lower, higher),
    };
    if !is_zero(store, lower) {
        let below = least_of(alloc, store, lower)?;
        return Ok(below);
    }
    let mut variables = least_of(alloc, store, higher)?;
    variables.push(variable)?;
    Ok(variables)
}

/// The variables that are true in the first input to which a tree gives another number than 0, the greatest first;
/// `None` where it gives 0 to each input. Inputs are ordered by the least variable at which they differ: first comes
/// the one where it is false.
pub fn least_input(alloc: Global, store: &Store, id: Id) -> Result<Option<Vec<u16>>, Fault>
    requires { id < length store.now.trees }
    ensures least { IfOk result (λ found. MatchOption found
        ((bits : Bits) → value (tree_at store.now.trees id) bits ≡ 0)
        (λ vs. IsLeastNonzero (tree_at store.now.trees id) (bits_with vs.items))) }
    ensures memory { IfErr result (λ e. e ≡ Fault.Memory) }
{
    if is_zero(store, id) {
        return Ok(None);
    }
    let variables = least_of(alloc, store, id)?;
    Ok(Some(variables))
}
