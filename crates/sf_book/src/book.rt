//! The book: what is outstanding, what is settled, and how a work takes the place of its piece.

ghost use Rattle.std.specs.Prelude.{◌≡◌, ◌≢◌, ◌+◌, ◌<◌, All, IfOk, IfErr, OnOk, MatchOption, map, true, false};
ghost use Rattle.std.specs.Arc.{arc_value};
ghost use Rattle.sf_insn.specs.declared.input.Input.{Input};
ghost use Rattle.sf_insn.specs.Inputs.{IsInput};
ghost use Rattle.sf_piece.specs.Pieces.{PieceData, IsRoot};
ghost use Rattle.sf_book.specs.Books.{IsLawfulBook, IsSettled, counts_of, fresh};
ghost use Rattle.sf_book.specs.Partition.{parts_of, names_of, LiesInOne, NoneBeginsAnother};
ghost use Rattle.sf_book.specs.PlainBooks.{IsPlainWhereStackIs};
ghost use Rattle.sf_book.specs.Unfoldings.{IsFringe};
ghost use Rattle.sf_book.specs.Changes.{CommitsAs, Leases, Settles, Refuses, MayCommit, with_lease, with_lease_at};
ghost use Rattle.sf_book.specs.declared.fault.Fault.TheVariants.{Memory, Foreign};

use crate::fault::Fault;
use crate::outstanding::OutstandingPieces;
use crate::regions::{Emptied, Region, add, has_name, is_of, put_in_order};
use crate::settled::Settled;
use sf_check::Stack;
use sf_piece::laws::execution_has_one_result;
use sf_piece::{Piece, Step, Work, root};
use sf_run::Counts;
use std::alloc::Global;
use std::marker::Model;
use std::sync::Arc;

/// A piece to work on.
#[derive(Drop)]
pub struct Lease {
    /// The id under which it is outstanding; no other outstanding piece has it.
    pub id: u64,
    /// The piece, which the book and its lease share.
    pub piece: Arc<Piece>,
}

/// The worklist of an exploration: each input of its stack lies in exactly one outstanding piece or settled region.
#[derive(Drop)]
pub struct Book {
    stack: Arc<Stack>,
    outstanding: OutstandingPieces,
    regions: Vec<Region>,
    emptied: Vec<Emptied>,
    // How many committed works split their piece.
    splits: u32,
    commits: u32,
    // How many works may be committed.
    budget: u32,
    // The id of the next new piece, above all ids that were given.
    next_id: u64,
}

impl Model for Book {
    ghost use Rattle.sf_book.specs.Books.{BookData};
    ghost use Rattle.sf_book.specs.PlainBooks.{IsBook};

    ghost Value = { BookData };

    ghost view = { λ b. record {
      stack = b.stack.value;
      outstanding = b.outstanding;
      regions = b.regions.items;
      emptied = b.emptied.items;
      splits = b.splits;
      commits = b.commits;
      budget = b.budget;
    } };

    ghost invariant = { λ b. IsBook (record {
      stack = b.stack.value;
      outstanding = b.outstanding;
      regions = b.regions.items;
      emptied = b.emptied.items;
      splits = b.splits;
      commits = b.commits;
      budget = b.budget;
    }) b.next_id };
}

impl Book {
    /// A new book of the stack, which takes at most `budget` works. The piece of all inputs is outstanding, under the
    /// id 0.
    pub fn open(alloc: Global, stack: Arc<Stack>, budget: u32) -> Result<Book, Fault>
        ensures ok { IfOk result (λ b. (r : PieceData) × IsRoot (arc_value stack) r
            × (b ≡ fresh (arc_value stack) r budget)) }
        ensures lawful { IfOk result (λ b. IsLawfulBook b) }
        ensures err { IfErr result (λ f. f ≡ Memory) }
    {
        // For the prover: the stack is lawful.
        let _programs = stack.programs();
        let piece = root(alloc, &stack)?;
        // For the prover: the first piece is named truly.
        let _name = piece.name();
        let outstanding = OutstandingPieces::open(alloc, 0, piece)?;
        let book = Book {
            stack,
            outstanding,
            regions: Vec::new(alloc),
            emptied: Vec::new(alloc),
            splits: 0,
            commits: 0,
            budget,
            next_id: 1,
        };
        // For the prover: the book is lawful.
        let _budget = book.budget();
        Ok(book)
    }

    /// How many works the book takes at most.
    pub fn budget(&self) -> u32
        ensures budget { result ≡ self.now.budget }
        ensures lawful { IsLawfulBook self.now }
    {
        self.budget
    }

    /// The counts of the book.
    #[tactic(auto, using(crate::specs::laws::PartitionLaws::lies_in_one, crate::specs::laws::PartitionLaws::none_begins_another))]
    pub fn counts(&self) -> Counts
        ensures counts { result ≡ counts_of self.now }
        ensures lawful { IsLawfulBook self.now }
        ensures one { (d : Input) → IsInput d → LiesInOne (parts_of self.now) d }
        ensures apart { NoneBeginsAnother (names_of self.now) }
        ensures plain { IsPlainWhereStackIs self.now }
        ensures fringe { IsFringe self.now }
    {
        Counts {
            left: self.outstanding.len(),
            settled: self.regions.len(),
            emptied: self.emptied.len(),
            splits: self.splits,
            commits: self.commits,
        }
    }

    /// Leases out the piece whose name comes first (`Name::order`) among those that aren't on lease. Takes no memory,
    /// but too many owners may share the piece.
    pub fn lease(&mut self) -> Result<Option<Lease>, Fault>
        ensures ok { IfOk result (λ l. MatchOption l ((self.new ≡ self.old)
            × All (λ e. e.leased ≡ true) self.old.outstanding)
            (λ l. Leases self.old l.id (arc_value l.piece) self.new)) }
        ensures err { IfErr result (λ f. (f ≡ Memory) × (self.new ≡ self.old)) }
    {
        let Some((id, piece)) = self.outstanding.lease()? else {
            return Ok(None);
        };
        Ok(Some(Lease { id, piece }))
    }

    /// Takes the piece under the id, if any, off lease.
    pub fn give_back(&mut self, id: u64)
        ensures { self.new ≡ record self.old {
          outstanding = map
              (with_lease_at id false) self.old.outstanding;
        } }
    {
        self.outstanding.give_back(id);
    }

    /// Takes all pieces off lease.
    pub fn recall(&mut self)
        ensures { self.new ≡ record self.old {
          outstanding = map
              (with_lease false) self.old.outstanding;
        } }
    {
        self.outstanding.recall();
    }

    /// Puts what became of a piece in its place: its two children, whose ids it gives, on lease, a region or an emptied
    /// name. The piece needn't be on lease. Refusals come in the order `Foreign`, `Stale`, `Spent`, `Memory`, and leave
    /// the book unchanged.
    pub fn commit(&mut self, id: u64, work: Work) -> Result<Option<(u64, u64)>, Fault>
        ensures ok { IfOk result (λ ids. MayCommit self.old id work
            × (self.old.commits < self.old.budget)
            × CommitsAs self.old id work.piece work.name work.step ids self.new) }
        ensures lawful { IfOk result (λ ids. IsLawfulBook self.new) }
        ensures err { IfErr result (λ f. Refuses self.old id work f × (self.new ≡ self.old)) }
    {
        if !is_of(&work, &self.stack) {
            return Err(Fault::Foreign);
        }
        self.commit_of_stack(id, work)
    }

    /// Commits a work of the book's stack: stacks aren't compared.
    pub fn commit_of_stack(&mut self, id: u64, work: Work) -> Result<Option<(u64, u64)>, Fault>
        requires { work.piece.stack ≡ self.old.stack }
        ensures ok { IfOk result (λ ids. MayCommit self.old id work
            × (self.old.commits < self.old.budget)
            × CommitsAs self.old id work.piece work.name work.step ids self.new) }
        ensures lawful { IfOk result (λ ids. IsLawfulBook self.new) }
        ensures err { IfErr result (λ f. Refuses self.old id work f × (self.new ≡ self.old)) }
    {
        self.admit(id, &work)?;
        let replaced = self.replace(id, work);
        // For the prover: the book is lawful still.
        let _budget = self.budget();
        replaced
    }

    /// Puts what the work made of the piece in its place, once `admit` has admitted it.
    fn replace(&mut self, id: u64, work: Work) -> Result<Option<(u64, u64)>, Fault>
        requires may { MayCommit self.old id work }
        requires room { self.old.commits < self.old.budget }
        ensures ok { IfOk result (λ ids. CommitsAs self.old id work.piece work.name
            work.step ids self.new) }
        ensures err { IfErr result (λ f. (f ≡ Memory) × (self.new ≡ self.old)) }
    {
        // For the prover: a stack has one execution tree.
        execution_has_one_result();
        let next = self.next_id;
        let (piece, step) = work.into_parts();
        // What may be refused comes first: the book is unchanged then.
        match step {
            Step::Split(f, t) => {
                self.outstanding.split(id, next, next + 1, f, t)?;
                self.splits += 1;
                self.commits += 1;
                self.next_id = next + 2;
                Ok(Some((next, next + 1)))
            }
            Step::Settled(name, answer) => {
                add(&mut self.regions, Region::of(piece, name, answer))?;
                self.outstanding.remove(id);
                self.commits += 1;
                Ok(None)
            }
            Step::Empty => {
                add(&mut self.emptied, Emptied { piece })?;
                self.outstanding.remove(id);
                self.commits += 1;
                Ok(None)
            }
        }
    }

    /// Fails where a work of the book's stack can't be committed.
    fn admit(&self, id: u64, work: &Work) -> Result<(), Fault>
        requires { work.now.piece.stack ≡ self.now.stack }
        ensures ok { OnOk result (MayCommit self.now id work.now
            × (self.now.commits < self.now.budget)) }
        ensures err { IfErr result (λ f. Refuses self.now id work.now f) }
    {
        let Some(piece) = self.outstanding.piece(id) else {
            return Err(Fault::Stale);
        };
        if !has_name(piece, work) {
            return Err(Fault::Stale);
        }
        if self.commits == self.budget {
            return Err(Fault::Spent);
        }
        Ok(())
    }

    /// Closes the book of this stack, and puts its regions in name order.
    pub fn finish(self, stack: &Stack) -> Result<Settled, Fault>
        ensures ok { IfOk result (λ s. (self.stack ≡ stack.now) × Settles self s) }
        ensures lawful { IfOk result (λ s. IsSettled s) }
        ensures err { IfErr result (λ f. (f ≡ Foreign) × (self.stack ≢ stack.now)) }
    {
        if !self.stack.is_same(stack) {
            return Err(Fault::Foreign);
        }
        let mut regions = self.regions;
        put_in_order(&mut regions);
        let settled = Settled {
            stack: self.stack,
            outstanding: self.outstanding,
            regions,
            emptied: self.emptied,
            splits: self.splits,
            commits: self.commits,
            budget: self.budget,
        };
        // For the prover: the book is lawful, with its regions in name order.
        let _count = settled.region_count();
        Ok(settled)
    }
}
