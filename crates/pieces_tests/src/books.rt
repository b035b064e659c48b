//! Tests of books, whose pieces are worked one by one.
use crate::scripts::Act::{Back, Count, Lease, Strange, Work, WorkOff};
use crate::scripts::{Act, ended, shown};
use samples::{echo_stack, execve_refused, execve_stack, late_contradiction, other_text};
use sf_book::{Book, Counts, Fault};
use sf_piece::{Piece, advance};
use std::alloc::Global;
use std::sync::Arc;
use std::test::Fail;

/// Scripts over the stack of `execve_refused`: what a script is about, the budget, what is done, and what it shows.
const SCRIPTS: [(&str, u32, &[Act], &str); 7] = [
    (
        "a new book has the root outstanding",
        7,
        &[Count, Lease, Lease],
        "7: 1 0 0 0 0; 0 []; nothing; ",
    ),
    (
        "a work committed twice is stale",
        9,
        &[Lease, Work(0, 0), Work(0, 0), Count],
        "0 []; split; Stale; 9: 2 0 0 1 1; ",
    ),
    (
        "a work under the id of another piece is stale",
        9,
        &[Lease, Work(0, 0), Back(1), Lease, Work(2, 1), Count],
        "0 []; split; 1 [F]; Stale; 9: 2 0 0 1 1; ",
    ),
    (
        "a work of another stack is foreign",
        9,
        &[Lease, Strange(0), Count],
        "0 []; Foreign; 9: 1 0 0 0 0; ",
    ),
    (
        "a work after the budget is spent",
        1,
        &[
            Lease,
            Work(0, 0),
            Back(2),
            Lease,
            Work(2, 1),
            Count,
            Back(1),
            Lease,
        ],
        "0 []; split; 2 [T]; Spent; 1: 2 0 0 1 1; 1 [F]; ",
    ),
    (
        "a child given back is leased again",
        9,
        &[Lease, Work(0, 0), Lease, Back(2), Lease, Work(2, 1), Count],
        "0 []; split; nothing; 2 [T]; split; 9: 3 0 0 2 2; ",
    ),
    (
        "an unknown id given back changes nothing",
        9,
        &[Lease, Work(0, 0), Back(0), Back(9), Lease],
        "0 []; split; nothing; ",
    ),
];

#[test]
fn books_do_what_scripts_say(rt: HostRuntime) -> Result<(), Fail> {
    for (what, budget, acts, wanted) in SCRIPTS {
        let text = shown(rt.alloc(), &execve_refused(), budget, acts)?;
        assert_eq!(rt; text.as_str(), wanted, "{what}");
    }
    Ok(())
}

#[test]
fn a_book_worked_off_has_its_regions_in_name_order(rt: HostRuntime) -> Result<(), Fail> {
    let text = ended(rt.alloc(), &execve_refused(), 9, &[WorkOff])?;
    assert_eq!(rt;
        text.as_str(),
        "0 3 0 2 5; settled[F]80000000 0[TF]7fff0000 0[TT]50000 1; emptied; left"
    );
    Ok(())
}

#[test]
fn a_piece_without_a_member_leaves_its_name(rt: HostRuntime) -> Result<(), Fail> {
    let text = ended(rt.alloc(), &late_contradiction(), 9, &[WorkOff])?;
    assert_eq!(rt;
        text.as_str(),
        "0 3 1 3 7; settled[FF]80010000 0[TTF]80010000 0[TTT]80010000 0; emptied[FT]; left"
    );
    Ok(())
}

#[test]
fn an_ended_book_shows_what_is_left(rt: HostRuntime) -> Result<(), Fail> {
    let text = ended(rt.alloc(), &execve_refused(), 1, &[Lease, Work(0, 0)])?;
    assert_eq!(rt; text.as_str(), "2 0 0 1 1; settled; emptied; left[F][T]");
    Ok(())
}

#[test]
fn a_book_of_another_stack_is_not_closed(rt: HostRuntime) -> Result<(), Fail> {
    let alloc = rt.alloc();
    let other = echo_stack(alloc)?;
    let book = Book::open(alloc, execve_stack(alloc)?, 1)?;
    assert!(rt; matches!(book.finish(&other), Err(Fault::Foreign)));
    Ok(())
}

/// Splits each piece that isn't leased, and takes the leases of the children back.
fn split_all(alloc: Global, book: &mut Book) -> Result<(), Fail> {
    let mut leases = Vec::new(alloc);
    for _ in 0..1000 {
        let Some(lease) = book.lease()? else {
            break;
        };
        leases.push(lease)?;
    }
    for lease in &leases {
        let work = advance(alloc, &lease.piece)?;
        let _ids = book.commit(lease.id, work)?;
    }
    book.recall();
    Ok(())
}

/// Whether n pieces are leased one after the other, in the order of their names, and then none.
fn leases_in_name_order(book: &mut Book, n: usize) -> Result<bool, Fail> {
    let mut last: Option<Arc<Piece>> = None;
    for _ in 0..n {
        let Some(lease) = book.lease()? else {
            return Ok(false);
        };
        if let Some(before) = &last {
            if before.name().order(lease.piece.name()).is_ge() {
                return Ok(false);
            }
        }
        last = Some(lease.piece);
    }
    Ok(book.lease()?.is_none())
}

/// The book of the stack of `echo` after 511 works, each of a piece with a shortest name. All its leases are taken
/// back.
fn book_of_many(alloc: Global) -> Result<Book, Fail> {
    let mut book = Book::open(alloc, echo_stack(alloc)?, 511)?;
    for _ in 0..9 {
        split_all(alloc, &mut book)?;
    }
    Ok(book)
}

#[test]
fn many_pieces_are_leased_in_name_order(rt: HostRuntime) -> Result<(), Fail> {
    let mut book = book_of_many(rt.alloc())?;
    let counts = Counts {
        left: 512,
        settled: 0,
        emptied: 0,
        splits: 511,
        commits: 511,
    };
    assert_eq!(rt; book.counts(), counts);
    let first = leases_in_name_order(&mut book, 512)?;
    book.recall();
    let again = leases_in_name_order(&mut book, 512)?;
    assert_eq!(rt; [first, again], [true, true]);
    Ok(())
}

#[test]
fn faults_say_what_is_wrong(rt: HostRuntime) -> Result<(), Fail> {
    let cases = [
        (Fault::Foreign, "another stack than the book's"),
        (Fault::Stale, "no such piece is outstanding"),
        (Fault::Spent, "the budget is spent"),
        (Fault::Memory, "out of memory"),
    ];
    assert_eq!(rt; other_text(rt.alloc(), &cases)?, None);
    Ok(())
}

#[test]
fn faults_have_their_numbers(rt: HostRuntime) {
    let faults = [Fault::Foreign, Fault::Stale, Fault::Spent, Fault::Memory];
    assert_eq!(rt; faults.map(|fault| fault.number()), [30, 31, 32, 60]);
}
