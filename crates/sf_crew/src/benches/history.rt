//! What the handles of a bench know of it, for proofs only.
use crossbeam_deque::protocol::{Join, Lesson, Outcome, Protocol, Split};
use sf_book::Lease;
use std::collections::LinkedList;

/// What happened on a bench.
pub enum Event<T = Lease> {
    /// The owner put this item.
    Put(T),
    /// The handle of this number got the first item that was left.
    Got(usize),
}

/// A handle's number, and the history that it knows.
pub struct End<T = Lease> {
    /// The handle's number; the owner has 0.
    pub number: usize,
    /// The history up to the handle's last step, oldest first.
    pub events: LinkedList<Event<T>>,
}

/// What a handle knows: its own end, and the ends of the thieves that were joined into it. For proofs only.
pub struct HandleView<T = Lease> {
    /// How many handles the owner has made, itself included; 0 for a thief.
    pub made: usize,
    /// The handle's own end, and then those that were joined into it.
    pub ends: LinkedList<End<T>>,
}

pub(crate) struct InOrder;

impl<T> Protocol<T, HandleView<T>> for InOrder {
    ghost use Rattle.sf_crew.specs.BenchRule.{BenchKept};
    ghost use Rattle.sf_crew.specs.History.{new_view};

    ghost holds = { BenchKept };

    ghost first = { new_view 0 1 };

    ghost guest = { new_view 0 1 };
}

pub(crate) struct Putting;

impl<T> Outcome<T, HandleView<T>> for Putting {
    ghost use Rattle.sf_crew.specs.BenchRule.{PutsAll};

    ghost then = { PutsAll };
}

pub(crate) struct Getting;

impl<T> Outcome<T, HandleView<T>> for Getting {
    ghost use Rattle.sf_crew.specs.History.{AllGot};
    ghost use Rattle.sf_crew.specs.BenchRule.{GetsAll};

    ghost then = { GetsAll };

    ghost empty = { AllGot };
}

pub(crate) struct AddingThief;

impl<T> Split<HandleView<T>> for AddingThief {
    ghost use Rattle.sf_crew.specs.BenchRule.{owner_with_thief, new_thief_view};

    ghost left = { owner_with_thief };

    ghost right = { new_thief_view };
}

pub(crate) struct Joining;

impl<T> Join<HandleView<T>> for Joining {
    ghost use Rattle.sf_crew.specs.History.{view_of_both};
    ghost use Rattle.sf_crew.specs.BenchRule.{spent_view};

    ghost both = { view_of_both };

    ghost spent = { spent_view };
}

/// What the owner learns from a look at the bench.
pub(crate) struct Recalling;

impl<T> Lesson<T, HandleView<T>> for Recalling {
    ghost use Rattle.sf_crew.specs.BenchRule.{WereLeft};

    ghost fact = { WereLeft };
}
