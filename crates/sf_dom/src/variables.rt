//! The nodes of which more can become known.

ghost use Rattle.std.specs.Prelude.{◌≡◌, ◌∷◌, ◌++◌, [], OnOk, OnErr};
ghost use Rattle.std.specs.Arc.{arc_value};

use crate::known::Known;
use crate::slots::{Slot, Slots, add_slot};
use std::alloc::AllocError;
use std::sync::Arc;

/// A node whose slot has no number. What is known of it may still change, also to a single number.
#[derive(Clone, Copy)]
pub(crate) struct Variable {
    /// Its place in the pool.
    pub(crate) place: u32,
    pub(crate) known: Known,
}

/// Adds a variable, and the slot of its node.
pub(crate) fn add_variable(
    variables: &mut Vec<Variable>,
    variable: Variable,
    slots: &mut Arc<Slots>,
    slot: Slot,
) -> Result<(), AllocError>
    ensures variable { OnOk result (variables.new.items
        ≡ variables.old.items ++ variable ∷ []) }
    ensures slot { OnOk result (arc_value slots.new ≡ arc_value slots.old ++ slot ∷ []) }
    ensures err_variables { OnErr result (variables.new.items ≡ variables.old.items) }
    ensures err_slots { OnErr result (arc_value slots.new ≡ arc_value slots.old) }
{
    let count = variables.len();
    variables.push(variable)?;
    if let Err(error) = add_slot(*variables.allocator(), slots, slot) {
        variables.truncate(count);
        return Err(error);
    }
    Ok(())
}
