//! Diagrams that are 0 or 1 on each input.

ghost use Rattle.std.specs.Prelude.{bit_xor, IfOk};
ghost use Rattle.sf_diagram.specs.Trees.{value};
ghost use Rattle.sf_diagram.specs.Stores.{tree_at};
ghost use Rattle.sf_diagram.specs.Choices.{chosen_of};
ghost use Rattle.sf_behaviour.specs.Words.{IsTruth, IsTruthOf, Grows};

use sf_diagram::{Fault, Id, Operation, Store, choose, merge};

/// Where two of them differ.
pub(crate) fn differ(store: &mut Store, a: Id, b: Id) -> Result<Id, Fault>
    requires a { IsTruth store.old.trees a }
    requires b { IsTruth store.old.trees b }
    ensures truth { IfOk result (λ id. IsTruthOf store.new.trees id (λ bits. bit_xor
        (value (tree_at store.old.trees a) bits) (value (tree_at store.old.trees b) bits))) }
    ensures store { Grows result store.old store.new }
{
    Ok(merge(store, Operation::Different, a, b)?)
}

/// The second of them where the first is 1, else the third.
pub(crate) fn pick(store: &mut Store, test: Id, taken: Id, other: Id) -> Result<Id, Fault>
    requires test { IsTruth store.old.trees test }
    requires taken { IsTruth store.old.trees taken }
    requires other { IsTruth store.old.trees other }
    ensures truth { IfOk result (λ id. IsTruthOf store.new.trees id (λ bits. chosen_of
        (value (tree_at store.old.trees test) bits) (value (tree_at store.old.trees taken) bits)
        (value (tree_at store.old.trees other) bits))) }
    ensures store { Grows result store.old store.new }
{
    Ok(choose(store, test, taken, other)?)
}
