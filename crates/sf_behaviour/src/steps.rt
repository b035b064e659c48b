//! What is known of each place of a program before words are made for it.

ghost use Rattle.std.specs.Prelude.{◌≡◌, ◌<◌, Some, length, slice_get, slice_index};

use crate::effects::Effect;
use crate::knowing::Known;
use sf_check::Insn;
use sf_diagram::Id;

/// What is known of a place.
#[derive(Clone, Copy)]
pub(crate) struct Step {
    /// The instruction there.
    pub insn: Insn,
    /// What the instruction does.
    pub effect: Effect,
    /// The words that registers are known to have there.
    pub known: Known,
    /// The words that they are known to have behind it.
    pub after: Known,
}

/// The step of a place.
pub(crate) fn step_at(steps: &Vec<Step>, place: usize) -> Step
    requires { place < length steps.now.items }
    ensures { slice_get steps.now.items place ≡ Some result }
{
    steps[place]
}

/// The diagram of a place.
pub(crate) fn id_at(ids: &Vec<Id>, place: usize) -> Id
    requires { place < length ids.now.items }
    ensures { result ≡ slice_index ids.now.items place }
{
    ids[place]
}
