//! Leases in a worker's hand. Only this module and those below it take a lease out of a hand, so none can be lost.

mod handles;
mod stealing;

ghost use Rattle.std.specs.Prelude.{◌≡◌, IfOk, IfErr, OnErr, MatchOption, MatchBool, All, true};
ghost use Rattle.std.specs.Arc.{arc_value};
ghost use Rattle.sf_book.specs.Changes.{Leases};
ghost use Rattle.sf_crew.specs.Explorations.{IsExhausted};
ghost use Rattle.sf_crew.specs.Workers.{given_back, HandsIn, HasItsChildren};
ghost use Rattle.sf_book.specs.declared.fault.Fault.TheVariants.{Memory};

use crate::workers::naming::{NamedLease, Naming};
pub(crate) use handles::{Bench, NewBench, Thieves};
use sf_book::{Book, Fault, Lease};
use sf_piece::{Piece, Work};
use std::marker::{Model, PhantomData};
use std::sync::Arc;

/// A lease in a worker's hand. It can't be dropped: its work is handed in, it is given back, or it is put on a bench.
pub(crate) struct Held<N: Naming> {
    lease: NamedLease<N>,
}

impl<N: Naming> Model for Held<N> {
    ghost use Rattle.sf_book.specs.declared.book.Lease.{Lease};

    ghost Value = { Lease };

    ghost view = { λ h. h.lease };
}

impl<N: Naming> Held<N> {
    pub(crate) fn piece(&self) -> &Arc<Piece>
        ensures { result.now ≡ self.now.piece }
    {
        &self.lease.lease().piece
    }
}

/// A work that is ready to be handed in, and its children where it is a split.
#[derive(Drop)]
pub(crate) struct Made {
    work: Work,
    children: Option<(Arc<Piece>, Arc<Piece>)>,
}

impl Made {
    /// A work with its children. They are shared with it, so the worker still has them when the book has taken the
    /// work.
    pub(crate) fn of(work: Work) -> Result<Made, Fault>
        ensures ok { IfOk result (λ made. (made.work ≡ work) × HasItsChildren made) }
        ensures err { IfErr result (λ f. f ≡ Memory) }
    {
        let children = match work.children() {
            Some((f, t)) => Some((Arc::try_clone(f)?, Arc::try_clone(t)?)),
            None => None,
        };
        Ok(Made { work, children })
    }
}

/// The book that workers share. Its type names the exploration: whenever the lock is got, the book is of that stack and
/// budget.
#[derive(Drop)]
pub(crate) struct SharedBook<N: Naming> {
    book: Book,
    of: PhantomData<N>,
}

impl<N: Naming> Model for SharedBook<N> {
    ghost use Rattle.std.specs.Prelude.{◌≡◌};
    ghost use Rattle.sf_book.specs.Books.{BookData};

    ghost Value = { BookData };

    ghost view = { λ s. s.book };

    ghost invariant = { λ s. (s.book.stack ≡ N.stack) × (s.book.budget ≡ N.budget) };
}

impl<N: Naming> SharedBook<N> {
    pub(crate) fn of(book: Book) -> SharedBook<N>
        requires { (book.stack ≡ N.stack) × (book.budget ≡ N.budget) }
        ensures { result ≡ book }
    {
        SharedBook {
            book,
            of: PhantomData,
        }
    }

    pub(crate) fn into_book(self) -> Book
        ensures same { result ≡ self }
        ensures named { (result.stack ≡ N.stack) × (result.budget ≡ N.budget) }
    {
        self.book
    }

    pub(crate) fn is_exhausted(&self) -> bool
        ensures { MatchBool result (IsExhausted self.now) (¬ IsExhausted self.now) }
    {
        let counts = self.book.counts();
        counts.left == 0 || counts.commits == self.book.budget()
    }

    /// A lease of the first piece, in name order, that isn't on lease.
    pub(crate) fn lease(&mut self) -> Result<Option<Held<N>>, Fault>
        ensures ok { IfOk result (λ found. MatchOption found ((self.new ≡ self.old)
            × All (λ e. e.leased ≡ true) self.old.outstanding)
            (λ h. Leases self.old h.id (arc_value h.piece) self.new)) }
        ensures err { IfErr result (λ f. (f ≡ Memory) × (self.new ≡ self.old)) }
    {
        // For the prover: the book is lawful.
        let _counts = self.book.counts();
        let Some(lease) = self.book.lease()? else {
            return Ok(None);
        };
        Ok(Some(Held {
            lease: NamedLease::of(lease),
        }))
    }

    /// Gives a lease back to the book: its piece can be leased out again.
    pub(crate) fn give_back(&mut self, held: Held<N>)
        ensures { self.new ≡ given_back held.id self.old }
    {
        let Held { lease } = held;
        self.book.give_back(lease.lease().id);
    }

    /// Commits the work of a lease. Returns the leases of the two children of a split. The work's stack isn't compared
    /// with the book's: by its type the lease is of a piece of this stack. Where the book refuses the work, the lease
    /// is given back.
    pub(crate) fn hand_in(
        &mut self,
        held: Held<N>,
        made: Made,
    ) -> Result<Option<(Held<N>, Held<N>)>, Fault>
        requires piece { made.work.piece ≡ arc_value held.piece }
        requires children { HasItsChildren made }
        ensures ok { IfOk result (λ children. HandsIn self.old held.id made.work
            children self.new) }
        ensures err { OnErr result (self.new ≡ given_back held.id self.old) }
    {
        let Made { work, children } = made;
        // For the prover: the work is right.
        let _piece = work.piece();
        let id = held.lease.lease().id;
        let ids = match self.book.commit_of_stack(id, work) {
            Ok(ids) => ids,
            Err(fault) => {
                self.give_back(held);
                return Err(fault);
            }
        };
        // The work is committed, so the lease has ended: taken out of the hand, it can be dropped.
        let Held { lease: _lease } = held;
        let Some((f_id, t_id)) = ids else {
            return Ok(None);
        };
        let Some((f, t)) = children else {
            unreachable!()
        };
        let on_false = NamedLease::of(Lease { id: f_id, piece: f });
        let on_true = NamedLease::of(Lease { id: t_id, piece: t });
        Ok(Some((Held { lease: on_false }, Held { lease: on_true })))
    }
}
