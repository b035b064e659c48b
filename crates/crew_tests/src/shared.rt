//! One locked book, and threads that call it.
use crate::kit::counts;
use samples::{execve_stack, op, stack_of};
use sf_book::{Book, Counts, Fault, Region, Settled};
use sf_check::Stack;
use sf_crew::visit;
use sf_piece::{Name, Piece, advance, root};
use std::alloc::Global;
use std::sync::{Arc, Mutex, Wait};
use std::test::Fail;
use std::thread;
use std::thread::Threads;

/// What became of one commit, as a number: 2 where the piece split, 1 where it didn't, else the fault's number.
fn outcome(answer: Result<Option<(u64, u64)>, Fault>) -> u16 {
    match answer {
        Ok(Some(_)) => 2,
        Ok(None) => 1,
        Err(fault) => fault.number(),
    }
}

/// Works the piece and commits the work under the id.
fn commit_once<R: Wait>(
    rt: &R,
    alloc: Global,
    book: &Mutex<Book>,
    piece: &Arc<Piece>,
    id: u64,
) -> u16 {
    let Ok(work) = advance(alloc, piece) else {
        return 60;
    };
    outcome(book.lock(rt).commit(id, work))
}

/// Adds a name, `T` for true and `F` for false.
fn write_name(alloc: Global, text: &mut String, name: &Name) -> Result<(), Fail> {
    for value in &name.values(alloc)? {
        text.push_str(if *value { "T" } else { "F" })?;
    }
    Ok(())
}

/// Adds what is free, and leases it: each piece with its id, its name, and how many conditions and nodes it has.
fn write_leases(alloc: Global, text: &mut String, book: &mut Book) -> Result<(), Fail> {
    for _ in 0..100 {
        let Some(lease) = book.lease()? else {
            return Ok(());
        };
        let (id, piece) = (lease.id, lease.piece);
        let (conds, nodes) = (piece.cond_count(), piece.pool().len());
        write!(&mut *text, " {id} {conds} {nodes} ")?;
        write_name(alloc, &mut *text, piece.name())?;
    }
    Ok(())
}

/// Adds the budget of a book, the pieces that are free, and all its pieces.
fn write_pieces(alloc: Global, text: &mut String, book: &mut Book) -> Result<(), Fail> {
    let budget = book.budget();
    write!(&mut *text, "{budget}, free")?;
    write_leases(alloc, &mut *text, &mut *book)?;
    book.recall();
    text.push_str(", all")?;
    write_leases(alloc, text, book)
}

fn write_region(alloc: Global, text: &mut String, region: &Region) -> Result<(), Fail> {
    let answer = region.answer();
    let (action, info) = (answer.action.number(), answer.info);
    write_name(alloc, &mut *text, region.name())?;
    write!(&mut *text, " {action:08x} {info};")?;
    Ok(())
}

/// Adds the counts, and each region in the order of names.
fn write_settled(alloc: Global, text: &mut String, settled: &Settled) -> Result<(), Fail> {
    let counts = settled.counts();
    write!(&mut *text, ", at the end {counts:?}")?;
    for i in 0..settled.region_count() {
        write_region(alloc, &mut *text, settled.region(i))?;
    }
    Ok(())
}

/// All that a book shows.
fn show_book(alloc: Global, mut book: Book, stack: &Stack) -> Result<String, Fail> {
    let mut text = String::new(alloc);
    write_pieces(alloc, &mut text, &mut book)?;
    write_settled(alloc, &mut text, &book.finish(stack)?)?;
    Ok(text)
}

/// A new book of the stack.
fn book_of(alloc: Global, stack: &Arc<Stack>) -> Result<Book, Fail> {
    Ok(Book::open(alloc, Arc::try_clone(stack)?, 100)?)
}

/// A book in which one work was committed, that of the root.
fn book_of_one(alloc: Global, stack: &Arc<Stack>) -> Result<Book, Fail> {
    let mut book = book_of(alloc, stack)?;
    let lease = book.lease()?.ok_or("nothing to lease")?;
    let _ids = book.commit(lease.id, advance(alloc, &lease.piece)?)?;
    Ok(book)
}

/// The outcomes, in rising order, where eight threads commit the work of the piece under the id; and then the book.
fn commit_by_eight<R: Threads + Wait + Sync>(
    rt: &R,
    alloc: Global,
    book: Book,
    piece: &Arc<Piece>,
    id: u64,
) -> Result<(Vec<u16>, Book), Fail> {
    let book = Mutex::new(book);
    let shared = &book;
    let mut outcomes = thread::map_indices(
        rt,
        alloc,
        8,
        &|_i| -> u16 { commit_once(rt, alloc, shared, piece, id) },
    )?;
    outcomes.sort()?;
    Ok((outcomes, book.into_inner()))
}

/// What eight threads leave where each commits the work of the root.
fn root_by_eight<R: Threads + Wait + Sync>(
    rt: &R,
    alloc: Global,
    stack: &Arc<Stack>,
) -> Result<(Vec<u16>, Book), Fail> {
    let mut book = book_of(alloc, stack)?;
    let lease = book.lease()?.ok_or("nothing to lease")?;
    commit_by_eight(rt, alloc, book, &lease.piece, lease.id)
}

/// What eight threads leave where each commits the work of another stack's root.
fn stranger_by_eight<R: Threads + Wait + Sync>(
    rt: &R,
    alloc: Global,
    stack: &Arc<Stack>,
) -> Result<(Vec<u16>, Book), Fail> {
    let stranger = root(alloc, &stack_of(alloc, &[&[op(0x06, 0)]])?)?;
    commit_by_eight(rt, alloc, book_of(alloc, stack)?, &stranger, 0)
}

/// What the book counts, and whether it shows the same as the wanted one.
fn compare(alloc: Global, book: Book, wanted: Book, stack: &Stack) -> Result<(Counts, bool), Fail> {
    let counts = book.counts();
    let shown = show_book(alloc, book, stack)?;
    Ok((counts, shown == show_book(alloc, wanted, stack)?))
}

#[test]
fn of_eight_threads_with_the_same_work_one_commits(rt: HostRuntime) -> Result<(), Fail> {
    let stack = execve_stack(rt.alloc())?;
    let (outcomes, book) = root_by_eight(&rt, rt.alloc(), &stack)?;
    assert_eq!(rt;
        outcomes.as_slice(),
        [2, 31, 31, 31, 31, 31, 31, 31].as_slice()
    );
    let compared = compare(rt.alloc(), book, book_of_one(rt.alloc(), &stack)?, &stack)?;
    assert_eq!(rt; compared, (counts(2, 0, 0, 1, 1), true));
    Ok(())
}

#[test]
fn works_of_another_stack_leave_the_book_as_it_was(rt: HostRuntime) -> Result<(), Fail> {
    let stack = execve_stack(rt.alloc())?;
    let (outcomes, book) = stranger_by_eight(&rt, rt.alloc(), &stack)?;
    assert_eq!(rt; outcomes.as_slice(), [30; 8].as_slice());
    let compared = compare(rt.alloc(), book, book_of(rt.alloc(), &stack)?, &stack)?;
    assert_eq!(rt; compared, (counts(1, 0, 0, 0, 0), true));
    Ok(())
}

/// Commits the first piece, and gives the true child back: its id.
fn split_and_give_back<R: Wait>(rt: &R, alloc: Global, book: &Mutex<Book>) -> Option<u64> {
    let lease = book.lock(rt).lease().ok()??;
    let work = advance(alloc, &lease.piece).ok()?;
    let (_f, t) = book.lock(rt).commit(lease.id, work).ok()??;
    book.lock(rt).give_back(t);
    Some(t)
}

/// Leases the first piece and commits it: its id.
fn lease_and_commit<R: Wait>(rt: &R, alloc: Global, book: &Mutex<Book>) -> Option<u64> {
    let lease = book.lock(rt).lease().ok()??;
    let work = advance(alloc, &lease.piece).ok()?;
    let _ids = book.lock(rt).commit(lease.id, work).ok()?;
    Some(lease.id)
}

/// What a thread of its own answers, which gives the true child back or commits the first piece.
fn on_a_thread<R: Threads + Wait + Sync>(
    rt: &R,
    alloc: Global,
    book: &Mutex<Book>,
    gives_back: bool,
) -> Result<Option<u64>, Fail> {
    let ids = thread::map_indices(
        rt,
        alloc,
        1,
        &|_i| -> Option<u64> {
            if gives_back {
                split_and_give_back(rt, alloc, book)
            } else {
                lease_and_commit(rt, alloc, book)
            }
        },
    )?;
    Ok(ids.first().copied().unwrap_or(None))
}

/// What two threads answer, one after the other, and what the book then counts.
fn give_and_take<R: Threads + Wait + Sync>(
    rt: &R,
    alloc: Global,
    book: Book,
) -> Result<(Option<u64>, Option<u64>, Counts), Fail> {
    let book = Mutex::new(book);
    let first = on_a_thread(rt, alloc, &book, true)?;
    let second = on_a_thread(rt, alloc, &book, false)?;
    Ok((first, second, book.into_inner().counts()))
}

#[test]
fn a_second_thread_works_what_the_first_gave_back(rt: HostRuntime) -> Result<(), Fail> {
    let book = book_of(rt.alloc(), &execve_stack(rt.alloc())?)?;
    let (first, second, left) = give_and_take(&rt, rt.alloc(), book)?;
    assert!(rt; first.is_some());
    assert_eq!(rt; (second, left), (first, counts(3, 0, 0, 2, 2)));
    Ok(())
}

#[test]
fn a_visit_sees_the_book(rt: HostRuntime) -> Result<(), Fail> {
    let book = Mutex::new(book_of(rt.alloc(), &execve_stack(rt.alloc())?)?);
    let mut left = 0;
    visit(&rt, &book, |seen: &Book| left = seen.counts().left);
    assert_eq!(rt; left, 1);
    Ok(())
}
