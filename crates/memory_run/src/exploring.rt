//! Books, benches and sheets, and what becomes of them where an allocation is refused.

use crate::books::{BUDGET, are_alike, are_same_pieces, book_after};
use crate::refused::{MEMORY, Refused, Score};
use crate::stacks::POLICY;
use crate::trying::{grow_pools, try_facts};
use crossbeam_deque::Steal;
use sf_ask::{Sheet, Verdict};
use sf_book::{Book, Lease, Settled};
use sf_check::Stack;
use sf_crew::{Owner, Thief, bench};
use sf_piece::{Piece, advance};
use sf_policy::read_policy;
use std::alloc::{AllocError, Global};
use std::sync::Arc;

/// Leases the first free piece. Where an allocation is refused, the counts of the book have to be as before.
fn lease(score: &mut Score, book: &mut Book) -> Result<Option<Lease>, Refused> {
    let before = book.counts();
    match book.lease() {
        Ok(lease) => Ok(lease),
        Err(fault) => {
            score.refuse(fault.into(), book.counts() == before);
            Ok(book.lease()?)
        }
    }
}

/// Works a piece, commits the work and gives the children back. Where an allocation is refused, the book has to be like
/// another one that took the same works before it, and both then have to take this work.
fn commit(
    alloc: Global,
    score: &mut Score,
    mut book: Book,
    id: u64,
    piece: &Arc<Piece>,
) -> Result<Book, Refused> {
    let commits = book.counts().commits;
    match book.commit(id, advance(alloc, piece)?) {
        Ok(None) => Ok(book),
        Ok(Some((f, t))) => {
            score.expect(id < f && f < t);
            book.give_back(f);
            book.give_back(t);
            Ok(book)
        }
        Err(fault) => {
            let twin = book_after(alloc, piece.stack(), commits)?;
            let is_as_before = are_alike(alloc, book, twin, id, piece)?;
            score.expect(is_as_before);
            Err(fault.into())
        }
    }
}

/// Works all pieces of a book, one after the other, and tries the pool and the facts of each. Gives the book, and on
/// how many pieces word 0 may be above word 1.
fn work_off(alloc: Global, score: &mut Score, mut book: Book) -> Result<(Book, u32), Refused> {
    let mut above = 0u32;
    for _ in 0..BUDGET {
        let Some(Lease { id, piece }) = lease(score, &mut book)? else {
            break;
        };
        if piece.cond_count() == 0 {
            grow_pools(score, &piece)?;
        }
        if try_facts(alloc, score, &piece)? {
            above = above.saturating_add(1);
        }
        book = commit(alloc, score, book, id, &piece)?;
    }
    Ok((book, above))
}

/// All regions of a stack. Adds the line of what the book counted and of what was tried.
pub fn settle_stack(
    alloc: Global,
    score: &mut Score,
    stack: &Arc<Stack>,
    text: &mut String,
) -> Result<Settled, Refused> {
    let opened = Book::open(alloc, Arc::try_clone(stack)?, BUDGET)?;
    let (book, above) = work_off(alloc, score, opened)?;
    let settled = book.finish(stack)?;
    let counts = settled.counts();
    let (left, emptied, commits) = (counts.left, counts.emptied, counts.commits);
    let regions = settled.region_count();
    write!(
        text,
        "regions {regions} open {left} emptied {emptied} commits {commits} above {above}\n"
    )?;
    Ok(settled)
}

/// Adds a letter for each verdict of a sheet, and a dash for each question that it wasn't asked.
fn push_verdicts(text: &mut String, sheet: &Sheet) -> Result<(), AllocError> {
    for q in 0..sheet.question_count() {
        let letter = match sheet.verdict(q) {
            None => "-",
            Some(Verdict::Clear) => "c",
            Some(Verdict::Hit(_)) => "h",
            Some(Verdict::Doubt) => "d",
        };
        text.push_str(letter)?;
    }
    Ok(())
}

/// Adds the line of the verdicts on each region, in the order of names: on all questions, and on only the second and
/// the fourth.
pub fn write_verdicts(alloc: Global, settled: &Settled, text: &mut String) -> Result<(), Refused> {
    let questions = read_policy(alloc, POLICY)?;
    text.push_str("verdicts")?;
    for job in 0..settled.region_count() {
        if questions.len() <= 256 {
            let all = Sheet::of(alloc, settled, job, &questions, [u64::MAX; 4])?;
            text.push_str(" ")?;
            push_verdicts(text, &all)?;
            let two = Sheet::of(alloc, settled, job, &questions, [10, 0, 0, 0])?;
            text.push_str("/")?;
            push_verdicts(text, &two)?;
        }
    }
    text.push_str("\n")?;
    Ok(())
}

/// Puts a lease of the piece on a bench. Where an allocation is refused, the lease has to come back as it was.
fn put(score: &mut Score, owner: &mut Owner, id: u64, piece: &Arc<Piece>) -> Result<(), Refused> {
    let lease = Lease {
        id,
        piece: Arc::try_clone(piece)?,
    };
    let Err(back) = owner.put(lease) else {
        return Ok(());
    };
    let refused = Refused { number: MEMORY };
    score.refuse(
        refused,
        back.id == id && are_same_pieces(&back.piece, piece),
    );
    match owner.put(back) {
        Ok(()) => Ok(()),
        Err(_) => Err(refused),
    }
}

/// How many leases are put on a bench: more than a new one has room for.
const LEASES: u64 = 150;

/// Gets all leases of the bench, by the owner and the thief in turn. They have to come in the order in which they were
/// put.
fn get_all(score: &mut Score, owner: &mut Owner, thief: &mut Thief) {
    for id in 0..LEASES {
        let got = if id % 2 == 0 {
            owner.take().map(|lease| lease.id)
        } else {
            match thief.steal() {
                Steal::Success(lease) => Some(lease.id),
                _ => None,
            }
        };
        score.expect(got == Some(id));
    }
    score.expect(owner.take().is_none());
}

/// Puts the root of the stack on a bench many times, each time under another id, and gets all leases again.
pub fn bench_of(alloc: Global, score: &mut Score, stack: &Arc<Stack>) -> Result<(), Refused> {
    let mut book = Book::open(alloc, Arc::try_clone(stack)?, 1)?;
    let Some(root) = lease(score, &mut book)? else {
        score.expect(false);
        return Ok(());
    };
    let (mut owner, mut thieves) = bench(alloc, 1)?;
    for id in 0..LEASES {
        put(score, &mut owner, id, &root.piece)?;
    }
    if let Some(mut thief) = thieves.pop() {
        get_all(score, &mut owner, &mut thief);
    }
    Ok(())
}
