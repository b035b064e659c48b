ghost use Rattle.std.specs.Prelude.{◌≡◌, ◌<◌, List, length, IfOk, IfErr};
ghost use Rattle.sf_check.specs.declared.insn.Insn.{Insn};
ghost use Rattle.sf_diagram.specs.Stores.{KeepsStore, IsFull};
ghost use Rattle.sf_behaviour.specs.Answering.{IsBehaviour};
ghost use Rattle.sf_relations.specs.Comparing.{AreFindingsBetween};

use crate::examples::{Example, least_example};
use crate::relation::Relation;
use sf_diagram::{Fault, Id, Store};
use std::alloc::Global;

/// Of each relation between the answers of an old stack and of a new one, the least input that is changed in this way.
#[derive(Clone, Copy, Debug, PartialEq, Eq)]
pub struct Findings {
    pub looser: Option<Example>,
    pub tighter: Option<Example>,
    pub different: Option<Example>,
    pub pretended: Option<Example>,
}

/// What is found of each relation, by the diagrams of the answers of the old stack and of the new one.
pub fn find_changes(
    alloc: Global,
    store: &mut Store,
    before: Id,
    after: Id,
) -> Result<Findings, Fault>
    requires before { before < length store.old.trees }
    requires after { after < length store.old.trees }
    ensures found { IfOk result (λ f. (old new : List (List Insn))
        → IsBehaviour old store.old.trees before → IsBehaviour new store.old.trees after
        → AreFindingsBetween old new f) }
    ensures keeps { KeepsStore store.old store.new }
    ensures spent { IfErr result (λ e. e ≡ Fault.Spent → IsFull store.new) }
{
    let looser = least_example(alloc, store, Relation::Looser, before, after)?;
    let tighter = least_example(alloc, store, Relation::Tighter, before, after)?;
    let different = least_example(alloc, store, Relation::Different, before, after)?;
    let pretended = least_example(alloc, store, Relation::Pretended, before, after)?;
    Ok(Findings {
        looser,
        tighter,
        different,
        pretended,
    })
}
