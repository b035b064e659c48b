//! The board, by which workers judge regions.

mod closing;
mod drawing;
mod entering;
mod opening;
mod steps;
mod view;

ghost use Rattle.std.specs.Prelude.{◌≡◌, ◌+◌, ◌<◌, ◌≤◌, ◌^◌, nat_lt, length, []};
ghost use Rattle.std.proofs.Props.{props};
ghost use Rattle.sf_crew.specs.Views.{questions_of, count_of_regions};

use atomic_table::Table;
use std::alloc::Global;
use steps::WholeBoard;
pub use view::{BoardKey, EnteredSheet, Note, View};

pub(crate) type Words = Table<u8, View, BoardKey, WholeBoard, Global>;

/// Shared words by which workers judge the regions of a settled exploration by some questions. A job of a board is the
/// place of a region.
#[derive(Drop)]
pub struct Board {
    pub(crate) table: Words,
    pub(crate) regions: usize,
    pub(crate) questions: usize,
    ghost counted: { (table.shared.table_id.words ≡ length (questions_of table.shared.key) + 6)
        × (table.shared.table_id.slots ≡ 0) },
    ghost sized: { (regions ≡ count_of_regions table.shared.key)
        × (questions ≡ length (questions_of table.shared.key)) },
    ghost small: { count_of_regions table.shared.key + table.shared.key.seats < 2 ^ 64 },
    ghost few: { length (questions_of table.shared.key) ≤ 256 },
}

/// A worker's part at a board: what it has drawn, entered and seen there. No two seats draw the same job.
#[derive(Drop)]
pub struct Seat {
    pub(crate) seat: atomic_table::Seat<u8, View>,
    // The job that was drawn, and whose sheet isn't entered yet.
    pub(crate) owes: Option<usize>,
    // Whether a draw has found that no job is left.
    pub(crate) done: bool,
    ghost owing: { owes ≡ seat.me.0.owes } by { Prim.hlevel props },
    ghost ended: { done ≡ nat_lt 0 seat.me.0.exhausted_seats },
    ghost bare: { seat.me.1 ≡ [] } by { Prim.hlevel props },
    ghost present: { 0 < seat.me.0.joined_seats },
    ghost unmarked: { seat.me.0.marked ≡ [] },
}

/// What the words of a board say at its end.
#[derive(Drop)]
pub struct Tally {
    /// For each question, at its place from 0, the least place of a region with a member that breaks it, as far as
    /// sheets say; `None` where no sheet has a hit on it, and past the last question.
    pub least: [Option<usize>; 256],
    /// Bit q % 64 of word q / 64 is set where some sheet has a doubt for question q, counted from 0.
    pub doubts: [u64; 4],
    /// How many sheets were entered.
    pub entered: usize,
}
