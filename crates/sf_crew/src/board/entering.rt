//! How a sheet is entered.
ghost use Rattle.std.specs.Prelude.{◌≡◌, ◌+◌, ◌<◌, length, Some, None};
ghost use Rattle.sf_crew.specs.Views.{questions_of, regions_of};
ghost use Rattle.sf_crew.specs.BoardSteps.{with_notes, with_marks};
ghost use Rattle.sf_crew.specs.Boards.{about, board_id, seat_view, IsSeatOf};
ghost use Rattle.sf_crew.specs.EnteredSheets.{MarksDoubts, NotesHits, IsSheetFor, Enters};

use crate::board::steps::{BITS, DOUBTS, ENTERED, Enter, Hits, LEAST, Mark};
use crate::board::view::View;
use crate::board::{Board, Seat};
use sf_ask::Sheet;

impl Board {
    /// Enters the hits of a sheet: its job becomes the least place of the question, unless the board has a lower one.
    fn enter_hits(&self, seat: &mut atomic_table::Seat<u8, View>, sheet: &Sheet)
        requires table { seat.old.table_id ≡ board_id self.now }
        requires same { (sheet.now.settled ≡ regions_of (about self.now))
            × (sheet.now.questions ≡ questions_of (about self.now)) }
        ensures table { seat.new.table_id ≡ seat.old.table_id }
        ensures carried { seat.new.me.1 ≡ seat.old.me.1 }
        ensures view { seat.new.me.0 ≡ with_notes seat.old.me.0 seat.new.me.0.notes }
        ensures notes { NotesHits sheet.now.verdicts sheet.now.job
            (length sheet.now.questions) seat.old.me.0.notes seat.new.me.0.notes }
    {
        if sheet.finds_nothing() {
            return;
        }
        let job = sheet.job() as u64;
        for q in 0..sheet.question_count() {
            if sheet.is_hit(q) {
                self.table.shared.fetch_min::<Hits>(seat, q + LEAST, job);
            }
        }
    }

    /// Enters the doubts of a sheet, by one bit for each question.
    fn enter_doubts(&self, seat: &mut atomic_table::Seat<u8, View>, sheet: &Sheet)
        requires table { seat.old.table_id ≡ board_id self.now }
        requires questions { sheet.now.questions ≡ questions_of (about self.now) }
        requires owes { seat.old.me.0.owes ≡ Some sheet.now.job }
        ensures table { seat.new.table_id ≡ seat.old.table_id }
        ensures carried { seat.new.me.1 ≡ seat.old.me.1 }
        ensures view { seat.new.me.0 ≡ with_marks seat.old.me.0 seat.new.me.0.marked }
        ensures marks { MarksDoubts sheet.now.verdicts (length sheet.now.questions)
            seat.old.me.0.marked seat.new.me.0.marked }
    {
        if sheet.finds_nothing() {
            return;
        }
        for q in 0..sheet.question_count() {
            if sheet.is_doubt(q) {
                let word = q / BITS + DOUBTS;
                self.table
                    .shared
                    .fetch_or::<Mark>(seat, word, 1 << (q % BITS));
            }
        }
    }

    /// Enters the sheet that the seat owes. It skips only questions on which the seat has seen a hit at a place below
    /// the job.
    pub fn enter(&self, seat: &mut Seat, sheet: Sheet)
        requires seat { IsSeatOf self.now seat.old }
        requires sheet { IsSheetFor (about self.now) (seat_view seat.old) sheet }
        ensures same { IsSeatOf self.now seat.new }
        ensures entered { Enters (seat_view seat.old) sheet (seat_view seat.new) }
    {
        // For the prover: the sheet is right.
        let _count = sheet.question_count();
        // The sheet is counted last: so all hits and doubts of each sheet that is counted are entered.
        self.enter_hits(&mut seat.seat, &sheet);
        self.enter_doubts(&mut seat.seat, &sheet);
        self.table
            .shared
            .fetch_add::<Enter>(&mut seat.seat, ENTERED, 1);
        seat.owes = None;
    }
}
