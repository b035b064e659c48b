//! Books that are compared by all that they show.

use crate::refused::Refused;
use crate::trying::are_same;
use sf_book::{Book, Lease, Settled};
use sf_check::Stack;
use sf_piece::{Piece, advance};
use std::alloc::Global;
use std::sync::Arc;

/// The budget of a book, in works: more than any of the stacks needs.
pub const BUDGET: u32 = 1000;

/// A book of the stack that took this many works, each that of its first piece. The first piece that is left is on
/// lease.
pub fn book_after(alloc: Global, stack: &Arc<Stack>, commits: u32) -> Result<Book, Refused> {
    let mut book = Book::open(alloc, Arc::try_clone(stack)?, BUDGET)?;
    for _ in 0..commits {
        let Some(Lease { id, piece }) = book.lease()? else {
            break;
        };
        if let Some((f, t)) = book.commit(id, advance(alloc, &piece)?)? {
            book.give_back(f);
            book.give_back(t);
        }
    }
    let _first = book.lease()?;
    Ok(book)
}

/// Whether two pieces have the same conditions, in the same order.
fn have_same_conds(left: &Piece, right: &Piece) -> bool {
    if left.cond_count() != right.cond_count() {
        return false;
    }
    for i in 0..left.cond_count() {
        if i >= right.cond_count() || left.cond(i) != right.cond(i) {
            return false;
        }
    }
    true
}

/// Whether two pieces have the same name, words, conditions and facts.
pub fn are_same_pieces(left: &Piece, right: &Piece) -> bool {
    left.name().order(right.name()).is_eq()
        && are_same(left.pool(), right.pool())
        && have_same_conds(left, right)
        && left.facts().is_same(right.facts())
}

/// Leases all pieces that are free in both books. False where these aren't the same pieces under the same ids.
fn lease_alike(one: &mut Book, other: &mut Book) -> Result<bool, Refused> {
    for _ in 0..BUDGET {
        match (one.lease()?, other.lease()?) {
            (None, None) => return Ok(true),
            (Some(left), Some(right)) => {
                if left.id != right.id || !are_same_pieces(&left.piece, &right.piece) {
                    return Ok(false);
                }
            }
            _ => return Ok(false),
        }
    }
    Ok(false)
}

/// Commits the work of the piece under this id to both books. False where they answer different ids.
fn commit_alike(
    alloc: Global,
    one: &mut Book,
    other: &mut Book,
    id: u64,
    piece: &Arc<Piece>,
) -> Result<bool, Refused> {
    let ids = one.commit(id, advance(alloc, piece)?)?;
    Ok(ids == other.commit(id, advance(alloc, piece)?)?)
}

/// Whether two explorations found the same regions.
fn have_same_regions(left: &Settled, right: &Settled) -> bool {
    for i in 0..left.region_count() {
        if i >= right.region_count() {
            return false;
        }
        let (one, other) = (left.region(i), right.region(i));
        if one.name().order(other.name()).is_ne()
            || one.answer() != other.answer()
            || !are_same_pieces(one.piece(), other.piece())
        {
            return false;
        }
    }
    true
}

/// Whether two explorations left the same pieces outstanding.
fn have_same_pieces(left: &Settled, right: &Settled) -> bool {
    for i in 0..left.outstanding_count() {
        if i >= right.outstanding_count()
            || !are_same_pieces(left.outstanding(i), right.outstanding(i))
        {
            return false;
        }
    }
    true
}

/// Whether two explorations emptied the same pieces.
fn have_same_emptied(left: &Settled, right: &Settled) -> bool {
    for i in 0..left.emptied_count() {
        if i >= right.emptied_count() || left.emptied(i).order(right.emptied(i)).is_ne() {
            return false;
        }
    }
    true
}

/// Whether two explorations ended in the same way.
fn end_alike(left: &Settled, right: &Settled) -> bool {
    left.stack().is_same(right.stack())
        && left.counts() == right.counts()
        && have_same_regions(left, right)
        && have_same_pieces(left, right)
        && have_same_emptied(left, right)
}

/// Whether two books are alike: in their counts, in what is free and what is outstanding, in the ids that they answer
/// where both take the work of the piece under this id, and in what they end with.
pub fn are_alike(
    alloc: Global,
    mut one: Book,
    mut other: Book,
    id: u64,
    piece: &Arc<Piece>,
) -> Result<bool, Refused> {
    if one.counts() != other.counts() || one.budget() != other.budget() {
        return Ok(false);
    }
    if !lease_alike(&mut one, &mut other)? {
        return Ok(false);
    }
    one.recall();
    other.recall();
    if !lease_alike(&mut one, &mut other)? {
        return Ok(false);
    }
    if !commit_alike(alloc, &mut one, &mut other, id, piece)? {
        return Ok(false);
    }
    let left = one.finish(piece.stack())?;
    let right = other.finish(piece.stack())?;
    Ok(end_alike(&left, &right))
}
