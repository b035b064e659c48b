//! Turns of one worker that has the book to itself: pieces are leased, worked and committed until none is left or the
//! budget is spent.

ghost use Rattle.std.specs.Prelude.{◌≡◌, IfOk, IfErr, OnOk, MatchOption};
ghost use Rattle.std.specs.Arc.{arc_value};
ghost use Rattle.sf_crew.specs.Explorations.{IsExhausted, IsFree, MayWork, IsSameExploration, TakesTurn, IsExplorationOf, IsExactExploration};
ghost use Rattle.sf_crew.specs.declared.fault.Fault.TheVariants.{Memory};
ghost use Rattle.sf_book.specs.declared.fault.Fault.TheVariants.{Memory as BookMemory};
ghost use Rattle.sf_check.specs.Stacks.{IsPlain};

use crate::fault::Fault;
use crate::gate::Gate;
use sf_book::{Book, Lease, Settled};
use sf_check::Stack;
use sf_piece::advance;
use std::alloc::Global;
use std::sync::Arc;

/// A lease of the first piece in name order. `None` where no piece is outstanding, or the budget is spent.
fn next_lease(book: &mut Book) -> Result<Option<Lease>, Fault>
    requires { IsFree book.old.outstanding }
    ensures same { IsSameExploration book.old book.new }
    ensures commits { book.new.commits ≡ book.old.commits }
    ensures ok { IfOk result (λ l. MatchOption l (IsExhausted book.new)
        (λ x. MayWork book.new x)) }
    ensures err { IfErr result (λ f. f ≡ Memory) }
{
    if book.counts().commits == book.budget() {
        return Ok(None);
    }
    Ok(book.lease()?)
}

/// One turn: the piece of the lease is worked, the work is committed, and the children of a split are taken off lease.
/// After a fault the piece stays on lease.
fn turn<G: Gate>(
    alloc: Global,
    book: &mut Book,
    gate: &G,
    worker: usize,
    call: usize,
    lease: Lease,
) -> Result<(), sf_book::Fault>
    requires { MayWork book.old lease }
    ensures same { IsSameExploration book.old book.new }
    ensures ok { OnOk result (TakesTurn book.old book.new) }
    ensures err { IfErr result (λ f. f ≡ BookMemory) }
{
    let work = advance(alloc, &lease.piece)?;
    gate.pass(worker, call);
    // For the prover: the book is lawful.
    let _counts = book.counts();
    if let Some((f, t)) = book.commit_of_stack(lease.id, work)? {
        book.give_back(f);
        book.give_back(t);
    }
    Ok(())
}

/// Works pieces one after another until none is outstanding or the budget is spent.
pub(crate) fn work_off<G: Gate>(
    alloc: Global,
    book: &mut Book,
    gate: &G,
    worker: usize,
) -> Result<(), Fault>
    requires { IsFree book.old.outstanding }
    ensures same { IsSameExploration book.old book.new }
    ensures end { OnOk result (IsExhausted book.new) }
    ensures err { IfErr result (λ f. f ≡ Memory) }
{
    let budget = book.budget();
    // Each turn commits one work, so after as many turns the budget is spent.
    for call in 0..budget {
        let Some(lease) = next_lease(book)? else {
            return Ok(());
        };
        turn(alloc, book, gate, worker, call as usize + 1, lease)?;
    }
    // For the prover: the book is lawful at the end too.
    let _end = book.counts();
    Ok(())
}

/// Closes a book, and returns what was explored. `_budget` is there for the contract only.
pub(crate) fn finish_book(book: Book, stack: &Arc<Stack>, _budget: u32) -> Settled
    requires end { IsExhausted book }
    requires stack { book.stack ≡ arc_value stack.now }
    requires budget { book.budget ≡ _budget }
    ensures end { IsExplorationOf (arc_value stack.now) _budget result }
    ensures plain { IsPlain (arc_value stack.now)
        → IsExactExploration (arc_value stack.now) _budget result }
{
    let Ok(settled) = book.finish(stack) else {
        unreachable!()
    };
    // For the prover: what has settled is lawful.
    let _counts = settled.counts();
    settled
}

/// Explores a stack by the calling thread only, as worker 0.
pub(crate) fn explore_alone<G: Gate>(
    alloc: Global,
    stack: Arc<Stack>,
    budget: u32,
    gate: &G,
) -> Result<Settled, Fault>
    ensures ok { IfOk result (λ s. IsExplorationOf (arc_value stack) budget s) }
    ensures plain { IfOk result (λ s. IsPlain (arc_value stack)
        → IsExactExploration (arc_value stack) budget s) }
    ensures err { IfErr result (λ f. f ≡ Memory) }
{
    let mut book = Book::open(alloc, Arc::try_clone(&stack)?, budget)?;
    work_off(alloc, &mut book, gate, 0)?;
    Ok(finish_book(book, &stack, budget))
}
