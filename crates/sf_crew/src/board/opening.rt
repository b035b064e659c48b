//! How a board is made, with its seats.
ghost use Rattle.std.specs.Prelude.{◌≡◌, ◌+◌, ◌<◌, ◌≤◌, length, All, IfOk, IfErr, Some, None, [], ◌∷◌, ◌++◌, replicate, vec_len};
ghost use Rattle.sf_crew.specs.Views.{questions_of, regions_of};
ghost use Rattle.sf_crew.specs.BoardSteps.{view_of};
ghost use Rattle.sf_crew.specs.Boards.{about, board_id, IsNewSeat};
ghost use Rattle.sf_crew.specs.declared.fault.Fault.TheVariants.{Memory};

use crate::board::steps::{Deal, LEAST};
use crate::board::view::{BoardKey, View};
use crate::board::{Board, Seat, Words};
use crate::fault::Fault;
use sf_ask::{Question, snapshots};
use sf_book::Settled;
use std::alloc::Global;
use std::snapshot::Snapshot;

/// The words of a new board, in their order: the next job, the count of sheets, four words of doubts, and one word for
/// each question. The number of regions stands for no least place.
fn first_words(alloc: Global, regions: usize, questions: usize) -> Result<Vec<u64>, Fault>
    ensures ok { IfOk result (λ v. v.items ≡ (0 ∷ 0 ∷ 0 ∷ 0 ∷ 0 ∷ 0 ∷ [])
        ++ replicate questions regions) }
    ensures err { IfErr result (λ f. f ≡ Memory) }
{
    let mut words = Vec::new(alloc);
    for empty in 0..LEAST {
        words.push(0)?;
    }
    for done in 0..questions {
        words.push(regions as u64)?;
    }
    Ok(words)
}

impl Board {
    /// Makes a board about these regions and questions, and all its seats: enough for 64 workers and the calling
    /// thread.
    pub fn new(
        alloc: Global,
        settled: &Settled,
        questions: &[Question],
        seats: usize,
    ) -> Result<(Board, Vec<Seat>), Fault>
        requires seats { (0 < seats) × (seats ≤ 65) }
        requires questions { length questions.now ≤ 256 }
        ensures about { IfOk result (λ r. (regions_of (about r.0) ≡ settled.now)
            × (questions_of (about r.0) ≡ questions.now) × ((about r.0).seats ≡ seats)) }
        ensures seats { IfOk result (λ r. (vec_len r.1 ≡ seats)
            × All (λ s. IsNewSeat r.0 s) r.1.items) }
        ensures err { IfErr result (λ f. f ≡ Memory) }
    {
        let counts = settled.counts();
        let regions = counts.settled;
        let about = BoardKey {
            settled: Snapshot::of(settled),
            questions: snapshots(alloc, questions)?,
            seats,
        };
        let words = first_words(alloc, regions, questions.len())?;
        let (table, seat) = Words::of_words(alloc, words.as_slice(), &about)?;
        let board = Board {
            table,
            regions,
            questions: questions.len(),
        };
        let dealt = board.deal(alloc, seat, seats)?;
        Ok((board, dealt))
    }

    fn deal(
        &self,
        alloc: Global,
        mut seat: atomic_table::Seat<u8, View>,
        seats: usize,
    ) -> Result<Vec<Seat>, Fault>
        requires seats { (0 < seats) × (seats ≤ 65) }
        requires seat { (seat.table_id ≡ board_id self.now)
            × (seat.me ≡ (view_of (Some (about self.now)) seats 0 None [] [] [], [])) }
        ensures ok { IfOk result (λ r. (vec_len r ≡ seats)
            × All (λ s. IsNewSeat self.now s) r.items) }
        ensures err { IfErr result (λ f. f ≡ Memory) }
    {
        let mut dealt = Vec::new(alloc);
        for given in 1..seats {
            let other = self.table.shared.split_seat::<Deal>(&mut seat);
            dealt.push(Seat {
                seat: other,
                owes: None,
                done: false,
            })?;
        }
        dealt.push(Seat {
            seat,
            owes: None,
            done: false,
        })?;
        Ok(dealt)
    }
}
