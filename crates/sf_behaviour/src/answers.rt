//! The answers of stacks as diagrams.

ghost use Rattle.std.specs.Prelude.{◌≡◌, IfOk, IfErr};
ghost use Rattle.sf_diagram.specs.Stores.{KeepsStore, IsFull};
ghost use Rattle.sf_behaviour.specs.Answering.{IsBehaviour};

use crate::program::returned;
use sf_check::Program;
use sf_diagram::{Fault, Id, Operation, Store, merge};
use std::alloc::Global;

/// SECCOMP_RET_ALLOW: the answer of no filters.
const ALLOW: u64 = 0x7fff0000;

/// The answers of a stack, given by its programs, the oldest one first.
pub fn behaviour(alloc: Global, store: &mut Store, programs: &[Program]) -> Result<Id, Fault>
    ensures answers { IfOk result (IsBehaviour programs.now store.new.trees) }
    ensures keeps { KeepsStore store.old store.new }
    ensures spent { IfErr result (λ e. e ≡ Fault.Spent → IsFull store.new) }
{
    let mut so_far = store.leaf(ALLOW)?;
    for program in programs.iter().rev() {
        let older = returned(alloc, store, program)?;
        so_far = merge(store, Operation::Fold, so_far, older)?;
    }
    Ok(so_far)
}
