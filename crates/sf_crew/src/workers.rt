//! Workers that share one book under its lock. Each has a bench of leases, and steals from the benches of the others.

mod exploring;
mod hands;
mod naming;
mod setup;

ghost use Rattle.std.specs.Prelude.{◌≡◌, ◌<◌, ◌≤◌, IfOk, IfErr, OnOk, OnErr};
ghost use Rattle.std.specs.Arc.{arc_value};
ghost use denote.Ref.{Bor};
ghost use Rattle.sf_book.specs.Books.{BookData, IsLawfulBook};
ghost use Rattle.sf_crew.specs.History.{AllGot};
ghost use Rattle.sf_crew.specs.Benches.{owner_view};
ghost use Rattle.sf_crew.specs.Workers.{IsMadeOf, own_view, IsIdle, HoldsNext, PutsOrNot, WorksOn};
ghost use Rattle.sf_crew.specs.Explorations.{IsExplorationOf, IsExactExploration};
ghost use Rattle.sf_crew.specs.declared.fault.Fault.TheVariants.{Memory};
ghost use Rattle.sf_book.specs.declared.fault.Fault.TheVariants.{Memory as BookMemory};
ghost use Rattle.sf_check.specs.Stacks.{IsPlain};

use crate::benches::Owner;
use crate::fault::Fault;
use crate::gate::Gate;
use exploring::{explore_alone, finish_book, work_off};
use hands::{Bench, Held, Made, NewBench, SharedBook, Thieves};
use naming::{NamedLease, Naming};
use setup::workers_of;
use sf_book::{Book, Settled};
use sf_check::Stack;
use sf_piece::{Piece, advance};
use std::alloc::Global;
use std::marker::Brand;
use std::sync::{Arc, Mutex, Wait};
use std::thread;
use std::thread::{Threads, yield_now};

/// A worker that hasn't begun, so it may be dropped.
#[derive(Drop)]
pub(crate) struct NewWorker<N: Naming> {
    pub(crate) number: usize,
    pub(crate) own: NewBench<N>,
    pub(crate) others: Thieves<N>,
}

/// A worker, with its bench and a thief on the bench of each other one. It can't be dropped, since its bench can't.
pub(crate) struct Worker<N: Naming> {
    number: usize,
    calls: usize,
    own: Bench<N>,
    others: Thieves<N>,
}

impl<N: Naming> NewWorker<N> {
    fn begin(self) -> Worker<N> {
        Worker {
            number: self.number,
            calls: 0,
            own: self.own.open(),
            others: self.others,
        }
    }
}

impl<N: Naming> Worker<N> {
    /// Gets a lease: from the worker's own bench; else from those of the other workers, the next worker's first; else
    /// from the book, under its lock. `None` where the book gives none either.
    fn next_lease<R: Wait>(
        &mut self,
        rt: &R,
        book: &Mutex<SharedBook<N>>,
    ) -> Result<Option<Held<N>>, sf_book::Fault>
        ensures number { self.new.number ≡ self.old.number }
        ensures ok { IfOk result (λ found. HoldsNext self.old found self.new) }
        ensures err { OnErr result (IsIdle self.old self.new) }
    {
        if let Some(held) = self.own.take() {
            return Ok(Some(held));
        }
        if let Some(held) = self.others.steal() {
            return Ok(Some(held));
        }
        book.lock(rt).lease()
    }

    /// Makes the work of a piece, and lets the gate see the worker's call, which was counted already.
    fn make<G: Gate>(
        &self,
        alloc: Global,
        gate: &G,
        piece: &Arc<Piece>,
    ) -> Result<Made, sf_book::Fault>
        ensures ok { IfOk result (λ made. IsMadeOf (arc_value piece.now) made) }
        ensures err { IfErr result (λ f. f ≡ BookMemory) }
    {
        let work = advance(alloc, piece)?;
        let made = Made::of(work)?;
        gate.pass(self.number, self.calls);
        Ok(made)
    }

    /// Works the piece of the lease, and hands the work in. The leases of the children of a split are put on the
    /// worker's own bench. After each fault the lease is given back.
    fn work<R: Wait, G: Gate>(
        &mut self,
        rt: &R,
        alloc: Global,
        book: &Mutex<SharedBook<N>>,
        gate: &G,
        held: Held<N>,
    ) -> Result<(), sf_book::Fault>
        ensures number { self.new.number ≡ self.old.number }
        ensures ok { OnOk result (WorksOn held self.old self.new) }
        ensures err { OnErr result (own_view self.new ≡ own_view self.old) }
    {
        self.calls = self.calls.wrapping_add(1);
        let made = match self.make(alloc, gate, held.piece()) {
            Ok(made) => made,
            Err(fault) => {
                book.lock(rt).give_back(held);
                return Err(fault);
            }
        };
        let Some((f, t)) = book.lock(rt).hand_in(held, made)? else {
            return Ok(());
        };
        self.put(rt, book, f);
        self.put(rt, book, t);
        Ok(())
    }

    /// Puts a lease on the worker's bench, or gives it back to the book where the bench can't grow.
    fn put<R: Wait>(&mut self, rt: &R, book: &Mutex<SharedBook<N>>, held: Held<N>)
        ensures number { self.new.number ≡ self.old.number }
        ensures put { PutsOrNot (own_view self.old) held (own_view self.new) }
    {
        if let Err(held) = self.own.put(held) {
            book.lock(rt).give_back(held);
        }
    }

    /// Gives the leases that are left on the worker's own bench back to the book.
    fn empty<R: Wait>(&mut self, rt: &R, book: &Mutex<SharedBook<N>>)
        ensures { AllGot (own_view self.new) }
    {
        for _ in rt.forever() {
            let Some(held) = self.own.take() else {
                return;
            };
            book.lock(rt).give_back(held);
        }
        unreachable!()
    }
}

/// Runs one worker. It ends where nothing is outstanding, where the budget is spent, or where memory or a work is
/// refused to it. Where all outstanding pieces are on lease, it asks again.
fn run<N: Naming, R: Wait, G: Gate>(
    rt: &R,
    alloc: Global,
    book: &Mutex<SharedBook<N>>,
    gate: &G,
    new_worker: NewWorker<N>,
) -> Owner<NamedLease<N>>
    ensures { AllGot (owner_view result) }
{
    let mut worker = new_worker.begin();
    for _ in rt.forever() {
        let Ok(leased) = worker.next_lease(rt, book) else {
            break;
        };
        let Some(held) = leased else {
            if book.lock(rt).is_exhausted() {
                break;
            }
            // Other workers have all pieces that are left. There will be more where one of these is split.
            yield_now();
            continue;
        };
        if worker.work(rt, alloc, book, gate, held).is_err() {
            break;
        }
    }
    worker.empty(rt, book);
    let Worker {
        own,
        number: _,
        calls: _,
        others: _others,
    } = worker;
    own.close()
}

/// Lets the workers work on a book, each on a thread, and returns when all of them have ended. Where a thread can't be
/// started, the other workers do the work. Once nothing is left to do, no further thread is started.
fn run_each<'a, N: Naming, R: Threads + Wait + Sync, G: Gate>(
    rt: &'a R,
    alloc: Global,
    book: &'a Mutex<SharedBook<N>>,
    workers: Vec<NewWorker<N>>,
    gate: &'a G,
) {
    thread::scope(thread::scope_env(), rt, |scope| {
        for worker in workers {
            if book.lock(rt).is_exhausted() {
                break;
            }
            let _ = scope.spawn(move || {
                let _emptied = run(rt, alloc, book, gate, worker);
            });
        }
    });
}

/// Lets this many workers work on a book, and returns it when they have ended. Pieces may be outstanding then though
/// the budget isn't spent.
fn run_all<N: Naming, R: Threads + Wait + Sync, G: Gate>(
    rt: &R,
    alloc: Global,
    opened: Book,
    workers: usize,
    gate: &G,
) -> Result<Book, Fault>
    requires named { (opened.stack ≡ N.stack) × (opened.budget ≡ N.budget) }
    requires workers { (0 < workers) × (workers ≤ 64) }
    ensures ok { IfOk result (λ b. (b.stack ≡ opened.stack) × (b.budget ≡ opened.budget)) }
    ensures err { IfErr result (λ f. f ≡ Memory) }
{
    let new_workers: Vec<NewWorker<N>> = workers_of(alloc, workers)?;
    let book: Mutex<SharedBook<N>> = Mutex::new(SharedBook::of(opened));
    run_each(rt, alloc, &book, new_workers, gate);
    Ok(book.into_inner().into_book())
}

/// Explores a stack by at most `budget` works. The gate sees each work between its making and its commit, or its
/// refusal. Waits for the workers.
///
/// With 1 worker no thread is started. A worker that is refused memory ends. When all have ended, the calling thread
/// works off what is outstanding, under the next number.
pub fn explore<R: Threads + Wait + Sync, G: Gate>(
    rt: &R,
    alloc: Global,
    stack: Arc<Stack>,
    budget: u32,
    workers: usize,
    gate: &G,
) -> Result<Settled, Fault>
    requires workers { (0 < workers) × (workers ≤ 64) }
    ensures ok { IfOk result (λ s. IsExplorationOf (arc_value stack) budget s) }
    ensures plain { IfOk result (λ s. IsPlain (arc_value stack)
        → IsExactExploration (arc_value stack) budget s) }
    ensures err { IfErr result (λ f. f ≡ Memory) }
{
    if workers == 1 {
        return explore_alone(alloc, stack, budget, gate);
    }
    let opened = Book::open(alloc, Arc::try_clone(&stack)?, budget)?;
    let mut book = run_all::<Brand, R, G>(rt, alloc, opened, workers, gate)?;
    book.recall();
    work_off(alloc, &mut book, gate, workers)?;
    Ok(finish_book(book, &stack, budget))
}

/// Waits for the lock of a book that others share, and runs a closure on the book, of which it knows only that it is
/// lawful.
pub fn visit<R: Wait, F: FnOnce(&Book)>(rt: &R, book: &Mutex<Book>, f: F)
    requires { (b : Bor BookData) → IsLawfulBook b.now → F.pre f b }
    ensures { (b : Bor BookData) × IsLawfulBook b.now × F.post f b result }
{
    let guard = book.lock(rt);
    // For the prover: the book is lawful.
    let _counts = guard.counts();
    f(&guard);
}
