//! Scripts of what is done with a book, and what it then shows.
use crate::exploring::push_name;
use samples::{echo_stack, stack_of};
use sf_book::{Book, Counts, Fault, Lease, Settled};
use sf_check::Stack;
use sf_insn::RawInsn;
use sf_piece::{Name, Piece, Work, advance, root};
use std::alloc::Global;
use std::sync::Arc;
use std::test::Fail;

/// What is done with a book. Ids and pieces are named by their places in the order in which they were seen.
#[derive(Clone, Copy)]
pub(crate) enum Act {
    /// Leases a piece. Shows the place of its id, and its name.
    Lease,
    /// Commits, under the first one, which is an id, the work of the second one, which is a piece. Shows whether it
    /// split, and so gave two ids, or the fault.
    Work(usize, usize),
    /// Commits, under this id, the work of a piece of another stack.
    Strange(usize),
    /// Gives the piece with this id back. Where no such id was seen, it is one that no piece has.
    Back(usize),
    /// Shows the budget, and how many pieces are left, are settled and are emptied, and how many splits and commits
    /// there were.
    Count,
    /// Works one piece after the other until none is left.
    WorkOff,
}

/// A book, the ids and the pieces that were seen, and what was shown.
#[derive(Drop)]
struct Desk {
    book: Book,
    ids: Vec<u64>,
    pieces: Vec<Arc<Piece>>,
    text: String,
}

impl Desk {
    /// A new book of a stack.
    fn open(alloc: Global, stack: &Arc<Stack>, budget: u32) -> Result<Desk, Fault> {
        let book = Book::open(alloc, Arc::try_clone(stack)?, budget)?;
        Ok(Desk {
            book,
            ids: Vec::new(alloc),
            pieces: Vec::new(alloc),
            text: String::new(alloc),
        })
    }

    /// The book after its end.
    fn finish(self, stack: &Stack) -> Result<Settled, Fault> {
        self.book.finish(stack)
    }

    /// The id at a place.
    fn id(&self, place: usize) -> u64 {
        *self.ids.get(place).unwrap_or(&u64::MAX)
    }

    /// Takes a lease in.
    fn take(&mut self, alloc: Global, lease: Lease) -> Result<(), Fail> {
        let place = place_of(&mut self.ids, lease.id)?;
        write!(&mut self.text, "{place} ")?;
        show_name(alloc, &mut self.text, lease.piece.name())?;
        self.text.push_str("; ")?;
        Ok(self.pieces.push(lease.piece)?)
    }

    /// Leases a piece.
    fn lease(&mut self, alloc: Global) -> Result<(), Fail> {
        match self.book.lease()? {
            Some(lease) => self.take(alloc, lease),
            None => Ok(self.text.push_str("nothing; ")?),
        }
    }

    /// Takes the ids of two children in.
    fn split(&mut self, f: u64, t: u64) -> Result<(), Fail> {
        self.ids.push(f)?;
        self.ids.push(t)?;
        Ok(self.text.push_str("split; ")?)
    }

    /// Commits a work under the id at a place.
    fn commit(&mut self, place: usize, work: Work) -> Result<(), Fail> {
        let id = self.id(place);
        match self.book.commit(id, work) {
            Ok(Some((f, t))) => self.split(f, t),
            Ok(None) => Ok(self.text.push_str("no split; ")?),
            Err(fault) => Ok(write!(&mut self.text, "{fault:?}; ")?),
        }
    }

    /// The work of the piece at a place.
    fn work(&self, alloc: Global, place: usize) -> Result<Work, Fail> {
        let piece = self.pieces.get(place).ok_or("no such piece")?;
        Ok(advance(alloc, piece)?)
    }

    /// Shows the budget and the counts.
    fn count(&mut self) -> Result<(), Fail> {
        let budget = self.book.budget();
        write!(&mut self.text, "{budget}: ")?;
        show_counts(&mut self.text, self.book.counts())
    }

    /// Does one act.
    fn act(&mut self, alloc: Global, act: Act) -> Result<(), Fail> {
        match act {
            Act::Lease => self.lease(alloc),
            Act::Work(id, piece) => {
                let work = self.work(alloc, piece)?;
                self.commit(id, work)
            }
            Act::Strange(id) => self.commit(id, strange_work(alloc)?),
            Act::Back(id) => {
                let id = self.id(id);
                self.book.give_back(id);
                Ok(())
            }
            Act::Count => self.count(),
            Act::WorkOff => work_off(alloc, &mut self.book),
        }
    }
}

/// The work of the root of another stack.
fn strange_work(alloc: Global) -> Result<Work, Fail> {
    Ok(advance(alloc, &root(alloc, &echo_stack(alloc)?)?)?)
}

/// The place of an id, which becomes the last one where it wasn't seen before.
fn place_of(ids: &mut Vec<u64>, id: u64) -> Result<usize, Fail> {
    for (place, seen) in ids.iter().enumerate() {
        if *seen == id {
            return Ok(place);
        }
    }
    let place = ids.len();
    ids.push(id)?;
    Ok(place)
}

/// Adds a name in brackets.
fn show_name(alloc: Global, text: &mut String, name: &Name) -> Result<(), Fail> {
    text.push('[')?;
    push_name(text, &name.values(alloc)?)?;
    text.push(']')?;
    Ok(())
}

/// Adds the counts of a book.
fn show_counts(text: &mut String, counts: Counts) -> Result<(), Fail> {
    let (left, settled, emptied) = (counts.left, counts.settled, counts.emptied);
    let (splits, commits) = (counts.splits, counts.commits);
    write!(
        &mut *text,
        "{left} {settled} {emptied} {splits} {commits}; "
    )?;
    Ok(())
}

/// Works the pieces of a book, one after the other, until none is left or 1000 were worked.
pub(crate) fn work_off(alloc: Global, book: &mut Book) -> Result<(), Fail> {
    for _ in 0..1000 {
        let Some(lease) = book.lease()? else {
            break;
        };
        if let Some((f, t)) = book.commit(lease.id, advance(alloc, &lease.piece)?)? {
            book.give_back(f);
            book.give_back(t);
        }
    }
    Ok(())
}

/// The desk after a script, with what each act showed, in order.
fn play(alloc: Global, stack: &Arc<Stack>, budget: u32, acts: &[Act]) -> Result<Desk, Fail> {
    let mut desk = Desk::open(alloc, stack, budget)?;
    for act in acts {
        desk.act(alloc, *act)?;
    }
    Ok(desk)
}

/// What a script over the stack of one filter shows.
pub(crate) fn shown(
    alloc: Global,
    filter: &[RawInsn],
    budget: u32,
    acts: &[Act],
) -> Result<String, Fail> {
    Ok(play(alloc, &stack_of(alloc, &[filter])?, budget, acts)?.text)
}

/// Adds the names of the regions with their actions, as hexadecimal numbers, and their data.
fn show_regions(alloc: Global, text: &mut String, settled: &Settled) -> Result<(), Fail> {
    text.push_str("settled")?;
    for i in 0..settled.region_count() {
        let region = settled.region(i);
        show_name(alloc, text, region.name())?;
        let (action, info) = (region.answer().action.number(), region.answer().info);
        write!(&mut *text, "{action:x} {info}")?;
    }
    Ok(())
}

/// Adds the names of the pieces without a member.
fn show_emptied(alloc: Global, text: &mut String, settled: &Settled) -> Result<(), Fail> {
    text.push_str("; emptied")?;
    for i in 0..settled.emptied_count() {
        show_name(alloc, text, settled.emptied(i))?;
    }
    Ok(())
}

/// Adds the names of the pieces that are left.
fn show_outstanding(alloc: Global, text: &mut String, settled: &Settled) -> Result<(), Fail> {
    text.push_str("; left")?;
    for i in 0..settled.outstanding_count() {
        show_name(alloc, text, settled.outstanding(i).name())?;
    }
    Ok(())
}

/// What a book shows that was ended.
fn show_settled(alloc: Global, settled: &Settled) -> Result<String, Fail> {
    let mut text = String::new(alloc);
    show_counts(&mut text, settled.counts())?;
    show_regions(alloc, &mut text, settled)?;
    show_emptied(alloc, &mut text, settled)?;
    show_outstanding(alloc, &mut text, settled)?;
    Ok(text)
}

/// What a book shows when it is ended after a script over the stack of one filter.
pub(crate) fn ended(
    alloc: Global,
    filter: &[RawInsn],
    budget: u32,
    acts: &[Act],
) -> Result<String, Fail> {
    let stack = stack_of(alloc, &[filter])?;
    let settled = play(alloc, &stack, budget, acts)?.finish(&stack)?;
    if !settled.stack().is_same(&stack) {
        return Err("another stack".into());
    }
    show_settled(alloc, &settled)
}
