//! Workers that judge regions by a board.

mod replying;

ghost use Rattle.std.specs.Prelude.{◌≡◌, ℕ, ◌+◌, ◌-◌, ◌<◌, ◌≤◌, length, vec_len, All, IfOk, IfErr, OnOk, IfSome, IsTrue, None, Some};
ghost use Rattle.sf_crew.specs.BoardSteps.{Knows, with_notes};
ghost use Rattle.sf_crew.specs.Sweeps.{IsWorked, IsFullTally, SkipsOnly, SkipsOnlyIn};
ghost use Rattle.sf_crew.specs.Views.{questions_of, count_of_regions, jobs, Noted};
ghost use Rattle.sf_crew.specs.Boards.{about, seat_view, IsSeatOf, IsNewSeat};
ghost use Rattle.sf_crew.specs.declared.fault.Fault.TheVariants.{Memory};

use crate::board::{Board, Seat, Tally};
use crate::fault::Fault;
use crate::gate::Gate;
pub use replying::sweep;
use sf_ask::{Probes, Question, Sheet, questions_to_judge};
use sf_book::Settled;
use std::alloc::Global;
use std::marker::Model;
use std::thread;
use std::thread::Threads;

/// Whether the board has a hit on the question q at a place below the job. The reply takes the least place, so the job
/// needn't be judged on the question then.
fn has_lower_hit(board: &Board, seat: &mut Seat, job: usize, q: usize) -> bool
    requires seat { IsSeatOf board.now seat.old }
    ensures same { IsSeatOf board.now seat.new }
    ensures view { seat_view seat.new ≡ with_notes (seat_view seat.old)
        (seat_view seat.new).notes }
    ensures more { (p r : ℕ) → Noted (seat_view seat.old).notes p r
        → Noted (seat_view seat.new).notes p r }
    ensures lower { IsTrue result → (r : ℕ) × Noted (seat_view seat.new).notes q r
        × (r < job) }
{
    if q >= board.questions {
        return false;
    }
    match board.look(seat, q) {
        Some(place) => place < job,
        None => false,
    }
}

/// The questions of one word of bits that are wanted: all but those of `to_judge` that have a hit at a place below the
/// job.
fn look_at_word(board: &Board, seat: &mut Seat, job: usize, word: usize, to_judge: u64) -> u64
    requires seat { IsSeatOf board.now seat.old }
    requires word { word < 4 }
    ensures same { IsSeatOf board.now seat.new }
    ensures wanted { SkipsOnlyIn word job (seat_view seat.old) (seat_view seat.new) result }
{
    let mut wanted = u64::MAX;
    let mut left = to_judge;
    while left != 0 {
        let bit = left.trailing_zeros();
        if has_lower_hit(board, seat, job, word * 64 + bit as usize) {
            wanted &= !(1 << bit);
        }
        // Clears the lowest bit that is set: the one that was looked at.
        left &= left - 1;
    }
    wanted
}

/// The questions whose verdicts are wanted, as bits: all but those of `to_judge` that have a hit at a place below the
/// job.
fn look_at(board: &Board, seat: &mut Seat, job: usize, to_judge: &[u64; 4]) -> [u64; 4]
    requires seat { IsSeatOf board.now seat.old }
    ensures same { IsSeatOf board.now seat.new }
    ensures wanted { SkipsOnly (questions_of (about board.now)) job (seat_view seat.old)
        (seat_view seat.new) result }
{
    let mut wanted = [u64::MAX; 4];
    for word in 0..4 {
        if to_judge[word] != 0 {
            wanted[word] = look_at_word(board, seat, job, word, to_judge[word]);
        }
    }
    wanted
}

#[derive(Drop)]
pub(crate) struct SharedSweep<'a> {
    board: &'a Board,
    settled: &'a Settled,
    questions: &'a [Question],
    probes: &'a Probes,
}

impl<'a> Model for SharedSweep<'a> {
    ghost use Rattle.sf_crew.specs.Sweeps.{SharedSweepData, IsSharedSweep};

    ghost Value = { SharedSweepData };

    ghost view = { λ s. record {
      board = s.board.now;
      settled = s.settled.now;
      questions = s.questions.now;
      probes = s.probes.now;
    } };

    ghost invariant = { λ s. IsSharedSweep (record {
      board = s.board.now;
      settled = s.settled.now;
      questions = s.questions.now;
      probes = s.probes.now;
    }) };
}

/// Judges the region of the job that the seat owes, and enters the sheet. `pass` has the numbers of the worker and of
/// its call, for the gate. After a fault the seat still owes the sheet.
fn enter_job<G: Gate>(
    alloc: Global,
    sweep: &SharedSweep<'_>,
    seat: &mut Seat,
    job: usize,
    gate: &G,
    pass: (usize, usize),
) -> Result<(), Fault>
    requires seat { IsSeatOf sweep.now.board seat.old }
    requires owes { ((seat_view seat.old).owes ≡ Some job)
        × (job < count_of_regions (about sweep.now.board)) }
    ensures same { IsSeatOf sweep.now.board seat.new }
    ensures joined_seats { (seat_view seat.new).joined_seats ≡ (seat_view seat.old).joined_seats }
    ensures exhausted_seats { (seat_view seat.new).exhausted_seats
        ≡ (seat_view seat.old).exhausted_seats }
    ensures free { OnOk result ((seat_view seat.new).owes ≡ None) }
    ensures count { OnOk result (length (jobs (seat_view seat.new))
        ≡ length (jobs (seat_view seat.old))) }
{
    let SharedSweep {
        board,
        settled,
        questions,
        probes,
    } = sweep;
    let to_judge = questions_to_judge(settled, job, questions, probes);
    let wanted = look_at(board, seat, job, &to_judge);
    let sheet = Sheet::judge(alloc, settled, job, questions, &to_judge, wanted)?;
    gate.pass(pass.0, pass.1);
    board.enter(seat, sheet);
    Ok(())
}

/// Draws jobs and enters their sheets until all jobs are drawn. `false` where memory was refused before that end.
fn work<G: Gate>(
    alloc: Global,
    sweep: &SharedSweep<'_>,
    mut seat: Seat,
    gate: &G,
    worker: usize,
) -> (Seat, bool)
    requires seat { IsSeatOf sweep.now.board seat × ((seat_view seat).owes ≡ None) }
    ensures seat { IsSeatOf sweep.now.board result.0 }
    ensures joined_seats { (seat_view result.0).joined_seats ≡ (seat_view seat).joined_seats }
    ensures done { IsTrue result.1 → ((seat_view result.0).owes ≡ None)
        × (0 < (seat_view result.0).exhausted_seats) }
{
    let mut call: usize = 0;
    while let Some(job) = sweep.board.draw(&mut seat) {
        call = call.wrapping_add(1);
        let entered = enter_job(alloc, sweep, &mut seat, job, gate, (worker, call));
        if entered.is_err() {
            return (seat, false);
        }
    }
    (seat, true)
}

/// Joins seats, as `work` returned them, into `first`. `None` where one of them didn't reach its end.
fn join_all(board: &Board, first: Seat, mut others: Vec<(Seat, bool)>) -> Option<Seat>
    requires first { IsSeatOf board.now first × ((seat_view first).owes ≡ None) }
    requires others { All (λ s. IsWorked board.now s) others.items }
    ensures { IfSome result (λ s. IsSeatOf board.now s × ((seat_view s).owes ≡ None)
        × ((seat_view s).joined_seats ≡ (seat_view first).joined_seats + vec_len others)
        × (0 < vec_len others → (0 < (seat_view s).exhausted_seats) × Knows (seat_view s))) }
{
    let mut all = first;
    while let Some((seat, done)) = others.pop() {
        if !done {
            return None;
        }
        all = board.join(all, seat);
    }
    Some(all)
}

#[derive(Drop)]
pub(crate) struct NumberedSeat {
    number: usize,
    seat: Seat,
}

/// Numbers the seats by their places in `seats`. The result has them in reversed order.
fn number_seats(
    alloc: Global,
    board: &Board,
    mut seats: Vec<Seat>,
) -> Result<Vec<NumberedSeat>, Fault>
    requires { All (λ s. IsNewSeat board.now s) seats.items }
    ensures ok { IfOk result (λ v. (vec_len v ≡ vec_len seats)
        × All (λ p. IsNewSeat board.now p.seat) v.items) }
    ensures err { IfErr result (λ f. f ≡ Memory) }
{
    // For the prover: only clauses speak of it.
    let _ = board;
    let mut numbered_seats = Vec::new(alloc);
    while let Some(seat) = seats.pop() {
        let number = seats.len();
        numbered_seats.push(NumberedSeat { number, seat })?;
    }
    Ok(numbered_seats)
}

/// Judges all regions by the questions, and returns the tally of the board. Each worker has a seat of its own. When
/// they have ended, the calling thread works too, under the next number: jobs are left for it only where each worker
/// got `Memory`. A worker for which no thread can be started runs on a thread that is there.
pub(crate) fn tally<R: Threads + Sync, G: Gate>(
    rt: &R,
    alloc: Global,
    settled: &Settled,
    questions: &[Question],
    workers: usize,
    gate: &G,
) -> Result<Tally, Fault>
    requires workers { (0 < workers) × (workers ≤ 64) }
    requires questions { length questions.now ≤ 256 }
    ensures ok { IfOk result (λ t. IsFullTally settled.now questions.now t) }
    ensures err { IfErr result (λ f. f ≡ Memory) }
{
    let probes = &Probes::of(alloc, questions)?;
    let (board, mut seats) = Board::new(alloc, settled, questions, workers + 1)?;
    let Some(mine) = seats.pop() else {
        unreachable!()
    };
    let numbered_seats = number_seats(alloc, &board, seats)?;
    let sweep = &SharedSweep {
        board: &board,
        settled,
        questions,
        probes,
    };
    let worked = thread::map_vec(
        rt,
        numbered_seats,
        &|part: NumberedSeat| -> (Seat, bool)
            requires { IsNewSeat sweep.now.board part.seat }
            ensures { IsWorked sweep.entry.now.board result }
        { work(alloc, sweep, part.seat, gate, part.number) },
    )?;
    let (mine, done) = work(alloc, sweep, mine, gate, workers);
    if !done {
        return Err(Fault::Memory);
    }
    let Some(all) = join_all(&board, mine, worked) else {
        return Err(Fault::Memory);
    };
    Ok(board.close(all))
}
