ghost use Rattle.std.specs.Prelude.{◌≡◌, ◌<◌, IfOk, length};
ghost use Rattle.sf_diagram.specs.Trees.{Bits, value};
ghost use Rattle.sf_diagram.specs.Stores.{IsLawfulStore, KeepsStore, tree_at};
ghost use Rattle.sf_behaviour.specs.Words.{IsDiagramOf};
ghost use Rattle.sf_rows.specs.Trees.{change_number};

use sf_diagram::{Fault, Id, Operation, Store, choose, merge};
use sf_relations::{Relation, operation_of};

/// The diagram of what changes, by those of the answers of an old stack and of a new one: 0 where the two answers are
/// the same, or haven't the relation `only`; else both answers as one number, the old one in the upper half of its
/// bits.
pub fn changes_between(
    store: &mut Store,
    only: Option<Relation>,
    before: Id,
    after: Id,
) -> Result<Id, Fault>
    requires before { before < length store.old.trees }
    requires after { after < length store.old.trees }
    ensures values { IfOk result (λ id. IsDiagramOf store.new.trees id (λ bits. change_number only
        (value (tree_at store.old.trees before) bits)
        (value (tree_at store.old.trees after) bits))) }
    ensures keeps { KeepsStore store.old store.new }
    ensures lawful { IsLawfulStore store.new }
{
    let both = merge(store, Operation::Pair, before, after)?;
    match only {
        None => Ok(both),
        Some(relation) => {
            let related = merge(store, operation_of(relation), before, after)?;
            let none = store.leaf(0)?;
            let id = choose(store, related, both, none)?;
            Ok(id)
        }
    }
}
