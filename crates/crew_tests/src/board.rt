//! The board, on one thread and on several.
ghost use Rattle.std.specs.Prelude.{◌≡◌, ◌<◌, ℕ, false, length, All, IfSome, IsTrue, None, Some};
ghost use Rattle.sf_ask.specs.Sheets.{is_skipped, verdict_at};
ghost use Rattle.sf_crew.specs.Views.{questions_of, regions_of};
ghost use Rattle.sf_crew.specs.Boards.{about, seat_view, IsSeatOf, IsNewSeat};

use crate::kit::{anything, calls, settle};
use samples::{any_bit, execve_refused, low_bits};
use sf_ask::{Question, Reply, Sheet};
use sf_book::Settled;
use sf_crew::{Board, Open, Seat, sweep};
use std::alloc::Global;
use std::sync::Wait;
use std::test::Fail;
use std::thread;
use std::thread::Threads;

/// Two seats of the board.
fn two_of(board: &Board, mut seats: Vec<Seat>) -> Option<(Seat, Seat)>
    requires { All (λ s. IsNewSeat board.now s) seats.items }
    ensures { IfSome result (λ p. IsNewSeat board.now p.0 × IsNewSeat board.now p.1) }
{
    let Some(first) = seats.pop() else {
        return None;
    };
    let Some(second) = seats.pop() else {
        return None;
    };
    Some((first, second))
}

/// `execve`, and the calls of the x32 ABI.
fn two_questions(alloc: Global) -> Result<[Question; 2], Fail> {
    let first = calls(alloc, "execve", 59, 59)?;
    let second = calls(alloc, "x32", 0x40000000, 0x7fffffff)?;
    Ok([first, second])
}

/// Whether the sheet has a verdict on each question.
fn is_whole(sheet: &Sheet) -> bool
    ensures { IsTrue result → (q : ℕ) → q < length sheet.now.questions
        → is_skipped (verdict_at sheet.now.verdicts q) ≡ false }
{
    for q in 0..sheet.question_count() {
        if sheet.is_skipped(q) {
            return false;
        }
    }
    true
}

/// The seat judges the job that it has drawn, and enters a sheet with a verdict on each question.
fn enter(
    alloc: Global,
    board: &Board,
    seat: &mut Seat,
    settled: &Settled,
    questions: &[Question],
    job: usize,
) -> Option<()>
    requires seat { IsSeatOf board.now seat.old }
    requires owes { (seat_view seat.old).owes ≡ Some job }
    requires same { (regions_of (about board.now) ≡ settled.now)
        × (questions_of (about board.now) ≡ questions.now) }
    ensures same { IsSeatOf board.now seat.new }
    ensures free { IfSome result (λ _. (seat_view seat.new).owes ≡ None) }
{
    if settled.region_count() <= job || 256 < questions.len() {
        return None;
    }
    let Ok(sheet) = Sheet::of(alloc, settled, job, questions, [u64::MAX; 4]) else {
        return None;
    };
    if !is_whole(&sheet) {
        return None;
    }
    board.enter(seat, sheet);
    Some(())
}

/// The seat looks at the second of two questions, and where it sees a place below its job, enters a sheet with a
/// verdict on only the first question.
fn enter_without_second(
    alloc: Global,
    board: &Board,
    seat: &mut Seat,
    settled: &Settled,
    questions: &[Question; 2],
    job: usize,
) -> Option<()>
    requires seat { IsSeatOf board.now seat.old }
    requires owes { (seat_view seat.old).owes ≡ Some job }
    requires same { (regions_of (about board.now) ≡ settled.now)
        × (questions_of (about board.now) ≡ questions.now) }
    ensures same { IsSeatOf board.now seat.new }
    ensures free { IfSome result (λ _. (seat_view seat.new).owes ≡ None) }
{
    if settled.region_count() <= job {
        return None;
    }
    let place = board.look(seat, 1)?;
    if job <= place {
        return None;
    }
    let Ok(sheet) = Sheet::of(alloc, settled, job, questions, [1, 0, 0, 0]) else {
        return None;
    };
    if sheet.is_skipped(0) || !sheet.is_skipped(1) {
        return None;
    }
    board.enter(seat, sheet);
    Some(())
}

/// Each of two seats draws a job and enters a sheet, the second one first. Before the first seat enters, it looks at
/// the second question and at the first. Returns the jobs, and what the first seat has seen.
fn enter_one_each(
    alloc: Global,
    board: &Board,
    first: &mut Seat,
    second: &mut Seat,
    settled: &Settled,
    questions: &[Question],
) -> Option<([usize; 2], [Option<usize>; 2])>
    requires seats { IsNewSeat board.now first.old × IsNewSeat board.now second.old }
    requires same { (regions_of (about board.now) ≡ settled.now)
        × (questions_of (about board.now) ≡ questions.now) }
    requires two { 1 < length questions.now }
    ensures same { IsSeatOf board.now first.new × IsSeatOf board.now second.new }
    ensures free { IfSome result (λ _. ((seat_view first.new).owes ≡ None)
        × ((seat_view second.new).owes ≡ None)) }
{
    let a = board.draw(first)?;
    let b = board.draw(second)?;
    enter(alloc, board, second, settled, questions, b)?;
    let seen = [board.look(first, 1), board.look(first, 0)];
    enter(alloc, board, first, settled, questions, a)?;
    Some(([a, b], seen))
}

/// What a board says at its end, in plain numbers: the least places of two questions, the doubts, and the sheets.
type ShortTally = ([Option<usize>; 2], [u64; 4], usize);

/// What the board says after two seats, each of which draws no more. `None` where one of them still draws a job.
fn close_both(board: Board, mut first: Seat, mut second: Seat) -> Option<ShortTally>
    requires seats { IsSeatOf board first × IsSeatOf board second }
    requires free { ((seat_view first).owes ≡ None) × ((seat_view second).owes ≡ None) }
{
    if board.draw(&mut first).is_some() || board.draw(&mut second).is_some() {
        return None;
    }
    let all = board.join(first, second);
    let found = board.close(all);
    let least = [found.least[0], found.least[1]];
    Some((least, found.doubts, found.entered))
}

/// Two seats judge three regions: each of them one, and then the first seat another, whose last sheet has no verdict on
/// the question for which it has seen a place. Returns the jobs, what the first seat saw, and what the board says.
fn share_three(
    alloc: Global,
    settled: &Settled,
    questions: &[Question; 2],
) -> Option<([usize; 3], [Option<usize>; 2], ShortTally)> {
    let (board, seats) = Board::new(alloc, settled, questions, 2).ok()?;
    let (mut a, mut b) = two_of(&board, seats)?;
    let (jobs, seen) = enter_one_each(alloc, &board, &mut a, &mut b, settled, questions)?;
    let last = board.draw(&mut a)?;
    enter_without_second(alloc, &board, &mut a, settled, questions, last)?;
    let tally = close_both(board, a, b)?;
    Some(([jobs[0], jobs[1], last], seen, tally))
}

#[test]
fn two_seats_share_three_regions(rt: HostRuntime) -> Result<(), Fail> {
    let settled = settle(&rt, &execve_refused(), 1)?;
    let questions = two_questions(rt.alloc())?;
    let shared = share_three(rt.alloc(), &settled, &questions);
    let wanted = (
        [0, 1, 2],
        [Some(1), None],
        ([None, Some(1)], [0, 0, 0, 0], 3),
    );
    assert_eq!(rt; shared, Some(wanted));
    Ok(())
}

/// 65 times whether anything is let through.
fn many_questions(alloc: Global) -> Option<Vec<Question>> {
    let mut questions = Vec::new(alloc);
    for _ in 0..65 {
        questions.push(anything(alloc).ok()?).ok()?;
    }
    Some(questions)
}

/// What the board says of 65 questions where each of two seats judges one of two regions.
fn share_two(alloc: Global, settled: &Settled) -> Option<ShortTally> {
    let questions = many_questions(alloc)?;
    if questions.len() != 65 {
        return None;
    }
    let (board, seats) = Board::new(alloc, settled, &questions, 2).ok()?;
    let (mut a, mut b) = two_of(&board, seats)?;
    enter_one_each(alloc, &board, &mut a, &mut b, settled, &questions)?;
    close_both(board, a, b)
}

/// The second of two regions is in doubt for each question.
#[test]
fn doubts_have_a_bit_for_each_question(rt: HostRuntime) -> Result<(), Fail> {
    let settled = settle(&rt, &any_bit(5), 1)?;
    let (_least, doubts, entered) = share_two(rt.alloc(), &settled).ok_or("another answer")?;
    assert_eq!(rt; (doubts, entered), ([u64::MAX, 1, 0, 0], 2));
    Ok(())
}

/// Whether each of 65 questions is replied to by `Unsettled`.
fn are_unsettled<R: Threads + Wait + Sync + AllocGlobal>(
    rt: &R,
    settled: &Settled,
    workers: usize,
) -> Option<bool> {
    let questions = many_questions(rt.alloc())?;
    if questions.len() != 65 {
        return None;
    }
    let workers = workers.clamp(1, 64);
    let replies = sweep(rt, rt.alloc(), settled, &questions, workers, &Open).ok()?;
    Some(replies.as_slice() == [Reply::Unsettled; 65].as_slice())
}

#[test]
fn a_question_in_doubt_is_unsettled(rt: HostRuntime) -> Result<(), Fail> {
    let settled = settle(&rt, &any_bit(5), 1)?;
    for workers in [1, 2, 8] {
        assert_eq!(rt; are_unsettled(&rt, &settled, workers), Some(true));
    }
    Ok(())
}

/// All jobs that one seat draws; it enters each. `None` where there are more than there are regions.
fn draw_all(
    alloc: Global,
    board: &Board,
    mut seat: Seat,
    settled: &Settled,
    questions: &[Question],
) -> Option<Vec<usize>>
    requires seat { IsSeatOf board.now seat × ((seat_view seat).owes ≡ None) }
    requires same { (regions_of (about board.now) ≡ settled.now)
        × (questions_of (about board.now) ≡ questions.now) }
{
    let mut jobs = Vec::new(alloc);
    for _turn in 0..5 {
        let Some(job) = board.draw(&mut seat) else {
            return Some(jobs);
        };
        jobs.push(job).ok()?;
        enter(alloc, board, &mut seat, settled, questions, job)?;
    }
    None
}

/// The jobs that all seats have drawn, in rising order. `None` where a seat drew too many.
fn all_jobs(alloc: Global, drawn: Vec<Option<Vec<usize>>>) -> Option<Vec<usize>> {
    let mut all = Vec::new(alloc);
    for jobs in drawn {
        all.extend_from_slice(&jobs?).ok()?;
    }
    all.sort().ok()?;
    Some(all)
}

/// The jobs that eight seats draw, each on a thread of its own.
fn draw_by_eight<R: Threads + Sync>(
    rt: &R,
    alloc: Global,
    settled: &Settled,
    questions: &[Question; 2],
) -> Option<Vec<usize>> {
    let (board, seats) = Board::new(alloc, settled, questions, 8).ok()?;
    let shared = &board;
    let drawn = thread::map_vec(
        rt,
        seats,
        &|seat: Seat| -> Option<Vec<usize>>
            requires { IsNewSeat shared.now seat × (regions_of (about shared.now) ≡ settled.now)
                × (questions_of (about shared.now) ≡ questions.now) }
        { draw_all(alloc, shared, seat, settled, questions) },
    )
    .ok()?;
    all_jobs(alloc, drawn)
}

#[test]
fn eight_seats_draw_four_jobs_once_each(rt: HostRuntime) -> Result<(), Fail> {
    let settled = settle(&rt, &low_bits(3), 1)?;
    let questions = two_questions(rt.alloc())?;
    let jobs = draw_by_eight(&rt, rt.alloc(), &settled, &questions).ok_or("too many jobs")?;
    assert_eq!(rt; jobs.as_slice(), [0, 1, 2, 3].as_slice());
    Ok(())
}
