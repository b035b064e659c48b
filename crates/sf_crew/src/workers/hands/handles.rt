//! The handles of benches that a worker has: its own bench, and a thief on each other one.
ghost use Rattle.std.specs.Prelude.{◌≡◌, length};
ghost use Rattle.sf_crew.specs.Benches.{owner_view};
ghost use Rattle.sf_crew.specs.History.{own_history};

use crate::benches::{Owner, Thief};
use crate::workers::hands::Held;
use crate::workers::hands::stealing::steal_from;
use crate::workers::naming::{NamedLease, Naming};
use std::alloc::{AllocError, Global};

/// A worker's own bench before anything was put on it: it may be dropped.
#[derive(Drop)]
pub(crate) struct NewBench<N: Naming> {
    owner: Owner<NamedLease<N>>,
    ghost unused: { length (own_history (owner_view owner).ends) ≡ 0 },
}

/// A worker's own bench. It can't be dropped: `close` ends it, once nothing is left on it.
pub(crate) struct Bench<N: Naming> {
    owner: Owner<NamedLease<N>>,
}

/// Thieves on the benches of other workers.
#[derive(Drop)]
pub(crate) struct Thieves<N: Naming> {
    thieves: Vec<Thief<NamedLease<N>>>,
}

impl<N: Naming> NewBench<N> {
    pub(crate) fn of(owner: Owner<NamedLease<N>>) -> NewBench<N>
        requires { length (own_history (owner_view owner).ends) ≡ 0 }
    {
        NewBench { owner }
    }

    /// Opens the bench: from now on it can't be dropped.
    pub(crate) fn open(self) -> Bench<N>
        ensures { result.owner ≡ self.owner }
    {
        Bench { owner: self.owner }
    }
}

impl<N: Naming> Bench<N> {
    ghost use Rattle.std.specs.Prelude.{MatchOption, MatchResult};
    ghost use Rattle.sf_crew.specs.History.{Puts, GetsFirst, AllGot};

    /// Puts a lease on the bench, or hands it back where the bench can't grow.
    pub(crate) fn put(&mut self, held: Held<N>) -> Result<(), Held<N>>
        ensures { MatchResult result
            (λ _. Puts (owner_view self.old.owner) held (owner_view self.new.owner))
            (λ h. (h ≡ held) × (owner_view self.new.owner ≡ owner_view self.old.owner)) }
    {
        let Held { lease } = held;
        match self.owner.put(lease) {
            Ok(()) => Ok(()),
            Err(lease) => Err(Held { lease }),
        }
    }

    pub(crate) fn take(&mut self) -> Option<Held<N>>
        ensures { MatchOption result ((owner_view self.new.owner ≡ owner_view self.old.owner)
            × AllGot (owner_view self.old.owner))
            (λ h. GetsFirst (owner_view self.old.owner) h (owner_view self.new.owner)) }
    {
        let lease = self.owner.take()?;
        Some(Held { lease })
    }

    /// Ends the bench and returns its owner, which may be dropped. Where the bench has thieves, the proof can't check
    /// that nothing is left on it, since the owner doesn't know what thieves got.
    pub(crate) fn close(self) -> Owner<NamedLease<N>>
        requires { AllGot (owner_view self.owner) }
        ensures { result ≡ self.owner }
    {
        let Bench { owner } = self;
        owner
    }
}

impl<N: Naming> Thieves<N> {
    ghost use Rattle.sf_crew.specs.Workers.{thief_views, Steals};

    pub(crate) fn new(alloc: Global) -> Thieves<N> {
        Thieves {
            thieves: Vec::new(alloc),
        }
    }

    /// Adds a thief, which is tried last.
    pub(crate) fn add(&mut self, thief: Thief<NamedLease<N>>) -> Result<(), AllocError> {
        self.thieves.push(thief)?;
        Ok(())
    }

    pub(crate) fn steal(&mut self) -> Option<Held<N>>
        ensures { Steals (thief_views self.old.thieves.items) result
            (thief_views self.new.thieves.items) }
    {
        steal_from(self.thieves.as_mut_slice())
    }
}
