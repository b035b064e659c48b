ghost use Rattle.std.specs.Prelude.{◌≡◌, ◌<◌, ◌++◌, List, length, IfOk, IfErr};
ghost use Rattle.sf_check.specs.declared.insn.Insn.{Insn};
ghost use Rattle.sf_diagram.specs.Stores.{KeepsStore, IsFull, IsLawfulStore};
ghost use Rattle.sf_behaviour.specs.Answering.{IsBehaviour};
ghost use Rattle.sf_relations.specs.Parts.{AreParts};

use sf_behaviour::behaviour;
use sf_check::Program;
use sf_diagram::{Fault, Id, Operation, Store, merge};
use std::alloc::Global;

/// The diagrams of the answers of parts of a stack, the newest filter first.
#[derive(Drop)]
pub(crate) struct Parts {
    /// Those of each filter alone.
    pub(crate) alone: Vec<Id>,
    /// Those of no filter, of the newest one, of the newest two, and so on up to all.
    pub(crate) last: Vec<Id>,
}

/// The diagram of the answers of older filters and newer ones together.
pub(crate) fn join(store: &mut Store, newer: Id, older: Id) -> Result<Id, Fault>
    requires newer { newer < length store.old.trees }
    requires older { older < length store.old.trees }
    ensures joined { IfOk result (λ id. (first last : List (List Insn))
        → IsBehaviour first store.old.trees older → IsBehaviour last store.old.trees newer
        → IsBehaviour (first ++ last) store.new.trees id) }
    ensures keeps { KeepsStore store.old store.new }
    ensures lawful { IsLawfulStore store.new }
    ensures spent { IfErr result (λ e. e ≡ Fault.Spent → IsFull store.new) }
{
    let id = merge(store, Operation::Fold, newer, older)?;
    Ok(id)
}

/// The parts of the stack of these programs, which stand in order of installation.
pub(crate) fn parts_of(
    alloc: Global,
    store: &mut Store,
    programs: &[Program],
) -> Result<Parts, Fault>
    ensures parts { IfOk result (λ p. AreParts store.new.trees programs.now
        (length programs.now) p.alone.items p.last.items) }
    ensures keeps { KeepsStore store.old store.new }
    ensures spent { IfErr result (λ e. e ≡ Fault.Spent → IsFull store.new) }
{
    let mut alone = Vec::new(alloc);
    let mut last = Vec::new(alloc);
    let mut so_far = behaviour(alloc, store, &[])?;
    last.push(so_far)?;
    for i in 0..programs.len() {
        let place = programs.len() - 1 - i;
        let one = behaviour(alloc, store, &programs[place..place + 1])?;
        alone.push(one)?;
        so_far = join(store, so_far, one)?;
        last.push(so_far)?;
    }
    Ok(Parts { alone, last })
}
