//! The calls of a seat on its board, but for entering a sheet and closing the board.
ghost use Rattle.std.specs.Prelude.{◌≡◌, ℕ, ◌+◌, ◌-◌, ◌<◌, ◌≤◌, ◌==◌, count_by, length, IfSome, IfNone, Some, None};
ghost use Rattle.sf_ask.specs.Sheets.{HasHit};
ghost use Rattle.sf_crew.specs.Views.{questions_of, regions_of, count_of_regions, jobs, Noted};
ghost use Rattle.sf_crew.specs.BoardSteps.{view_with_job, view_with_note, joined_view, Knows, GotNone};
ghost use Rattle.sf_crew.specs.Boards.{about, seat_view, IsSeatOf};

use crate::board::steps::{Draw, Glance, LEAST, Look, Merge, NEXT};
use crate::board::{Board, Seat};

impl Seat {
    /// The job that the seat has drawn and not yet entered a sheet for.
    pub fn owes(&self) -> Option<usize>
        ensures { result ≡ (seat_view self.now).owes }
    {
        self.owes
    }
}

impl Board {
    /// Draws the next job, whose sheet the seat owes then; `None` where all jobs are drawn.
    pub fn draw(&self, seat: &mut Seat) -> Option<usize>
        requires seat { IsSeatOf self.now seat.old }
        requires free { (seat_view seat.old).owes ≡ None }
        ensures same { IsSeatOf self.now seat.new }
        ensures joined_seats { (seat_view seat.new).joined_seats
            ≡ (seat_view seat.old).joined_seats }
        ensures some { IfSome result (λ j. (j < count_of_regions (about self.now))
            × (count_by (λ i. j == i) (jobs (seat_view seat.old)) ≡ 0)
            × (length (jobs (seat_view seat.old)) < count_of_regions (about self.now))
            × (seat_view seat.new ≡ view_with_job (seat_view seat.old) j)
            × ((seat_view seat.old).exhausted_seats ≡ 0)) }
        ensures none { IfNone result (GotNone (about self.now) (seat_view seat.old)
            (seat_view seat.new)) }
    {
        // Each seat goes past the last job once at most, so the word of the next job can't overflow.
        if seat.done {
            return None;
        }
        let found = self.table.shared.fetch_add::<Draw>(&mut seat.seat, NEXT, 1);
        if found < self.regions as u64 {
            let job = found as usize;
            seat.owes = Some(job);
            Some(job)
        } else {
            seat.done = true;
            None
        }
    }

    /// The least place so far of a region with a hit on the question q. From then on the seat has seen this hit, which
    /// `enter` asks for where a sheet skips the question.
    pub fn look(&self, seat: &mut Seat, q: usize) -> Option<usize>
        requires seat { IsSeatOf self.now seat.old }
        requires there { q < length (questions_of (about self.now)) }
        ensures same { IsSeatOf self.now seat.new }
        ensures some { IfSome result (λ r. (r < count_of_regions (about self.now))
            × HasHit (regions_of (about self.now)) (questions_of (about self.now)) r q
            × ((s : ℕ) → Noted (seat_view seat.old).notes q s → r ≤ s)
            × (seat_view seat.new ≡ view_with_note (seat_view seat.old) q r)) }
        ensures none { IfNone result (((s : ℕ) → Noted (seat_view seat.old).notes q s
            → count_of_regions (about self.now) ≤ s) × (seat_view seat.new
            ≡ view_with_note (seat_view seat.old) q (count_of_regions (about self.now)))) }
    {
        let found = self.table.shared.load::<Look>(&mut seat.seat, q + LEAST);
        if found < self.regions as u64 {
            Some(found as usize)
        } else {
            None
        }
    }

    /// One seat with all that both have drawn, entered and seen.
    pub fn join(&self, first: Seat, second: Seat) -> Seat
        requires seats { IsSeatOf self.now first × IsSeatOf self.now second }
        requires free { ((seat_view first).owes ≡ None) × ((seat_view second).owes ≡ None) }
        ensures same { IsSeatOf self.now result }
        ensures both { seat_view result ≡ joined_view (seat_view first) (seat_view second) }
        ensures once { Knows (seat_view result) }
    {
        let Seat {
            mut seat,
            owes: _,
            done,
        } = first;
        let Seat {
            seat: other,
            owes: _,
            done: other_done,
        } = second;
        self.table.shared.join_seat::<Merge>(&mut seat, other);
        // For the prover: what the seat knows of its jobs, by the board's rule.
        self.table.shared.load::<Glance>(&mut seat, NEXT);
        Seat {
            seat,
            owes: None,
            done: done || other_done,
        }
    }
}
