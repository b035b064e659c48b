//! What a run is done with.

use std::alloc::Global;

/// Threads, memory and a gate.
#[derive(Drop)]
pub struct Means<'r, 'g, R, G> {
    /// What starts threads.
    pub rt: &'r R,
    /// Where memory is allocated.
    pub alloc: Global,
    /// The gate that sees each work before it is committed, and each sheet of verdicts before it is entered. For
    /// `command` it is a `Meter`, which sees them only with `--progress`.
    pub gate: &'g G,
}
