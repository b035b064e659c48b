//! What programs return, as diagrams.

ghost use Rattle.std.specs.Prelude.{◌<◌, ◌^◌, IfOk};
ghost use Rattle.sf_diagram.specs.Trees.{Bits, value};
ghost use Rattle.sf_diagram.specs.Stores.{tree_at};
ghost use Rattle.sf_run.specs.Machine.{return_of};
ghost use Rattle.sf_behaviour.specs.InputBits.{input_by};
ghost use Rattle.sf_behaviour.specs.Words.{IsDiagramOf, Grows};

use crate::forward::forward_steps;
use crate::places::diagram_of_place;
use crate::steps::{id_at, step_at};
use sf_check::Program;
use sf_diagram::{Fault, Id, Store};
use std::alloc::Global;

/// The diagram of what a program returns: on each input it has the number that the program returns there, which is a
/// word.
pub(crate) fn returned(alloc: Global, store: &mut Store, program: &Program) -> Result<Id, Fault>
    ensures number { IfOk result
        (λ id. IsDiagramOf store.new.trees id (λ bits. return_of program.now (input_by bits))) }
    ensures small { IfOk result
        (λ id. (bits : Bits) → value (tree_at store.new.trees id) bits < 2 ^ 32) }
    ensures store { Grows result store.old store.new }
{
    let steps = forward_steps(alloc, store, program.insns())?;
    let mut ids: Vec<Id> = vec![in alloc; 0; steps.len()]?;
    for i in 0..steps.len() {
        let place = steps.len() - 1 - i;
        let step = step_at(&steps, place);
        let id = diagram_of_place(alloc, store, &steps, &ids, place, &step)?;
        ids[place] = id;
    }
    Ok(id_at(&ids, 0))
}
