//! What is shown while an audit goes on.

use sf_crew::{Gate, Open};

/// A gate that can show how far a run is, for `--progress`. It is given the budget first. Then it sees each work before
/// this is committed, and each sheet of verdicts before this is entered.
pub trait Meter: Gate {
    /// Is called once, before an exploration that commits at most `budget` works.
    fn begin(&self, budget: u32);
}

impl Meter for Open {
    fn begin(&self, _budget: u32) {}
}

/// The gate of a run: it passes each call on to a meter where progress is to be shown, and else does nothing.
#[derive(Drop)]
pub(crate) struct Watched<'a, M> {
    meter: &'a M,
    is_wanted: bool,
}

impl<'a, M: Meter> Watched<'a, M> {
    /// The meter is given the budget here if `is_wanted`.
    pub(crate) fn of(meter: &'a M, is_wanted: bool, budget: u32) -> Watched<'a, M> {
        if is_wanted {
            meter.begin(budget);
        }
        Watched { meter, is_wanted }
    }
}

impl<M: Meter> Gate for Watched<'_, M> {
    fn pass(&self, worker: usize, call: usize) {
        if self.is_wanted {
            self.meter.pass(worker, call);
        }
    }
}
