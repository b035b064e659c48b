//! Where to find what is known of each node of a pool.

ghost use Rattle.std.specs.Prelude.{◌≡◌, ◌<◌, ◌∷◌, ◌++◌, [], length, IfOk, OnOk, OnErr};
ghost use Rattle.std.specs.Arc.{arc_value};
ghost use Rattle.sf_dom.specs.Nodes.{slot_at};

use sf_blocks::shared::SharedList;
use std::alloc::{AllocError, Global};
use std::sync::Arc;

/// Where to find what is known of a node.
#[derive(Clone, Copy)]
pub(crate) enum Slot {
    /// In the slot itself: the node has this number.
    Number(u32),
    /// In the list of variables, at this place.
    Variable(u32),
}

impl Default for Slot {
    /// It only fills places of a list's memory that hold no slot yet.
    fn default() -> Self {
        Slot::Number(0)
    }
}

/// The slots of the nodes, oldest first. A last block of one slot may lie in the list itself.
pub(crate) type Slots = SharedList<Slot, 1>;

pub(crate) fn slot_of(slots: &Slots, i: usize) -> Slot
    requires { i < length slots.now }
    ensures { result ≡ slot_at slots.now i }
{
    slots.get(i)
}

/// A copy of the slots with one more at its end.
fn with_slot(alloc: Global, slots: &Slots, slot: Slot) -> Result<Arc<Slots>, AllocError>
    ensures { IfOk result (λ r. arc_value r ≡ slots.now ++ slot ∷ []) }
{
    let mut copy = slots.fork()?;
    copy.push(slot)?;
    Ok(Arc::new(alloc, copy)?)
}

/// Adds a slot at the end. Where forks share the slots, it is added to a copy. Refused also where there are 2^31 + 16
/// slots already.
pub(crate) fn add_slot(alloc: Global, slots: &mut Arc<Slots>, slot: Slot) -> Result<(), AllocError>
    ensures ok { OnOk result (arc_value slots.new ≡ arc_value slots.old ++ slot ∷ []) }
    ensures err { OnErr result (arc_value slots.new ≡ arc_value slots.old) }
{
    match Arc::get_mut(slots) {
        Some(alone) => alone.push(slot),
        None => {
            *slots = with_slot(alloc, slots, slot)?;
            Ok(())
        }
    }
}
