ghost use Rattle.std.specs.Prelude.{◌≡◌, ◌<◌, List, length, IfOk, IfErr};
ghost use Rattle.sf_check.specs.declared.insn.Insn.{Insn};
ghost use Rattle.sf_diagram.specs.Trees.{bits_with};
ghost use Rattle.sf_diagram.specs.Stores.{KeepsStore, IsFull};
ghost use Rattle.sf_behaviour.specs.Answering.{answer_with, IsBehaviour};
ghost use Rattle.sf_relations.specs.Changes.{IsFinding};
ghost use Rattle.sf_relations.specs.Numbers.{IsExampleAt};

use crate::inputs::input_of;
use crate::relation::{Relation, operation_of};
use sf_diagram::{Fault, Id, Store, least_input, merge, value_of};
use sf_insn::Input;
use sf_run::{Action, Answer};
use std::alloc::Global;

/// An input, with the answer of the old stack and that of the new one.
#[derive(Clone, Copy, Debug, PartialEq, Eq)]
pub struct Example {
    pub input: Input,
    pub before: Answer,
    pub after: Answer,
}

/// The answer that a return value names.
fn answer_of(number: u64) -> Answer
    ensures { result ≡ answer_with number }
{
    Answer {
        action: Action::of_number((number & 0xffff0000) as u32),
        info: (number & 0xffff) as u16,
    }
}

/// The input of some variables, and its answers by two diagrams of answers.
fn example_at(store: &Store, before: Id, after: Id, variables: &[u16]) -> Example
    requires before { before < length store.now.trees }
    requires after { after < length store.now.trees }
    ensures { IsExampleAt store.now.trees before after (bits_with variables.now) result }
{
    Example {
        input: input_of(variables),
        before: answer_of(value_of(store, before, variables)),
        after: answer_of(value_of(store, after, variables)),
    }
}

/// The least input whose answers by two stacks have the relation, by the diagrams of these answers.
pub fn least_example(
    alloc: Global,
    store: &mut Store,
    relation: Relation,
    before: Id,
    after: Id,
) -> Result<Option<Example>, Fault>
    requires before { before < length store.old.trees }
    requires after { after < length store.old.trees }
    ensures found { IfOk result (λ found. (old new : List (List Insn))
        → IsBehaviour old store.old.trees before → IsBehaviour new store.old.trees after
        → IsFinding old new relation found) }
    ensures keeps { KeepsStore store.old store.new }
    ensures spent { IfErr result (λ e. e ≡ Fault.Spent → IsFull store.new) }
{
    let related = merge(store, operation_of(relation), before, after)?;
    let Some(variables) = least_input(alloc, store, related)? else {
        return Ok(None);
    };
    Ok(Some(example_at(store, before, after, &variables)))
}
