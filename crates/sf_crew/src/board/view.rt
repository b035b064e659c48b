//! What a seat of a board knows, for proofs only.
use sf_ask::Question;
use sf_book::Settled;
use std::collections::LinkedList;
use std::snapshot::Snapshot;

/// What a board is about: the regions, the questions, and how many seats there are.
#[derive(Drop)]
pub struct BoardKey {
    pub settled: Snapshot<Settled>,
    pub questions: Vec<Snapshot<Question>>,
    pub seats: usize,
}

/// A sheet that was entered: its job, and the questions that it has a doubt for.
pub struct EnteredSheet {
    pub job: usize,
    pub doubts: LinkedList<usize>,
}

/// The least place of a question was `place` or less at some moment. The number of regions stands for no place.
pub struct Note {
    pub question: usize,
    pub place: usize,
}

/// What a seat knows. For proofs only.
pub struct View {
    pub about: Option<BoardKey>,
    /// How many of the seats that the board began with are joined in this one, itself counted.
    pub joined_seats: usize,
    /// How many of these seats have found that all jobs are drawn.
    pub exhausted_seats: usize,
    /// The job that the seat has drawn, and whose sheet it hasn't entered yet.
    pub owes: Option<usize>,
    /// The questions whose doubts the seat has marked for the sheet that it is entering.
    pub marked: LinkedList<usize>,
    pub entered_sheets: LinkedList<EnteredSheet>,
    /// What the seat has seen and entered of least places.
    pub notes: LinkedList<Note>,
}
