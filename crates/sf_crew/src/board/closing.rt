//! How a board is closed.
ghost use Rattle.std.specs.Prelude.{◌≡◌, ◌+◌, ◌≤◌};
ghost use Rattle.std.specs.Mem.Slots.{slots_items, slots_len, IsFull};
ghost use Rattle.sf_crew.specs.Boards.{about, seat_view, IsSeatOf};
ghost use Rattle.sf_crew.specs.Tallies.{RightTally};
ghost use Rattle.sf_crew.specs.LeastWords.{LeastIs};

use crate::board::steps::{DOUBTS, ENTERED, LEAST};
use crate::board::{Board, Seat, Tally};
use atomic_table::Closed;
use std::alloc::Global;

/// The least place of each question, from the words of a closed board. A word that isn't below the number of regions
/// stands for none.
fn least_places(
    closed: &Closed<u8, Global>,
    regions: usize,
    questions: usize,
) -> [Option<usize>; 256]
    requires words { IsFull closed.now.words × (slots_len closed.now.words ≡ questions + 6) }
    requires few { questions ≤ 256 }
    ensures { LeastIs (slots_items closed.now.words) regions questions result }
{
    let mut least = [None; 256];
    for q in 0..questions {
        let place = closed.word(q + LEAST);
        if place < regions as u64 {
            least[q] = Some(place as usize);
        }
    }
    least
}

impl Board {
    /// Closes the board, and returns what its words say at the end.
    ///
    /// A hit at a least place is right, whichever seat entered it. What else is promised is about the sheets of this
    /// seat and of those that were joined into it. Where all seats were, that is the whole board.
    pub fn close(self, seat: Seat) -> Tally
        requires { IsSeatOf self seat }
        ensures { RightTally (about self) (seat_view seat) result }
    {
        let Seat {
            seat,
            owes: _,
            done: _,
        } = seat;
        let Board {
            table,
            regions,
            questions,
        } = self;
        let closed = table.close_with(seat);
        let least = least_places(&closed, regions, questions);
        let doubts = [
            closed.word(DOUBTS),
            closed.word(DOUBTS + 1),
            closed.word(DOUBTS + 2),
            closed.word(DOUBTS + 3),
        ];
        let entered = closed.word(ENTERED) as usize;
        closed.free();
        Tally {
            least,
            doubts,
            entered,
        }
    }
}
