//! Benches: the owner puts leases and takes them, thieves steal them, first in, first out.

mod handles;
mod history;

ghost use Rattle.std.specs.Prelude.{◌≡◌, ◌+◌, ◌<◌, ◌⊎◌, All, IfOk, IfErr, MatchResult, MatchOption, vec_len};
ghost use Rattle.crossbeam_deque.specs.Steals.{MatchSteal};
ghost use Rattle.sf_crew.specs.History.{Puts, GetsFirst, AllGot, HaveOneHistory, IsWhole, IsKnownFirst, KeepsHandles, new_view, view_of_both};
ghost use Rattle.sf_crew.specs.BenchRule.{owner_with_thief, new_thief_view};
ghost use Rattle.sf_crew.specs.Benches.{owner_view, thief_view, seen_gone, AreThieves, IsOnBench, IsSameBench, IsSameThief};
ghost use Rattle.sf_crew.specs.declared.fault.Fault.TheVariants.{Memory};

use crate::fault::Fault;
use crossbeam_deque::{Steal, Worker};
pub use handles::{Owner, Thief};
pub use history::{End, Event, HandleView};
use history::{AddingThief, Getting, Joining, Putting, Recalling};
use std::alloc::{AllocError, Global};

/// How many items a new bench has room for before it grows.
const ROOM: usize = 64;

/// A new bench without items: its owner, and this many thieves.
pub fn bench<T: Drop>(alloc: Global, thieves: usize) -> Result<(Owner<T>, Vec<Thief<T>>), Fault>
    requires { thieves < 64 }
    ensures owner { IfOk result (λ b. owner_view b.0 ≡ new_view 0 (thieves + 1)) }
    ensures thieves { IfOk result (λ b. (vec_len b.1 ≡ thieves) × AreThieves 1 b.1.items) }
    ensures one { IfOk result (λ b. All (λ t. IsOnBench b.0 t) b.1.items) }
    ensures err { IfErr result (λ f. f ≡ Memory) }
{
    let mut owner = open_bench(alloc)?;
    let new_thieves = make_thieves(alloc, &mut owner, thieves)?;
    Ok((owner, new_thieves))
}

fn open_bench<T: Drop>(alloc: Global) -> Result<Owner<T>, Fault>
    ensures ok { IfOk result (λ owner. owner_view owner ≡ new_view 0 1) }
    ensures err { IfErr result (λ f. f ≡ Memory) }
{
    Ok(Owner {
        worker: Worker::fifo_as(alloc, ROOM)?,
    })
}

fn make_thieves<T: Drop>(
    alloc: Global,
    owner: &mut Owner<T>,
    thieves: usize,
) -> Result<Vec<Thief<T>>, Fault>
    requires { (owner_view owner.old ≡ new_view 0 1) × (thieves < 64) }
    ensures owner { IfOk result (λ _. owner_view owner.new ≡ new_view 0 (thieves + 1)) }
    ensures thieves { IfOk result (λ ts. (vec_len ts ≡ thieves) × AreThieves 1 ts.items) }
    ensures one { IfOk result (λ ts. All (λ t. IsOnBench owner.new t) ts.items) }
    ensures err { IfErr result (λ f. f ≡ Memory) }
{
    let mut new_thieves = Vec::new(alloc);
    for given in 0..thieves {
        let thief = owner.add_thief()?;
        new_thieves.push(thief)?;
    }
    Ok(new_thieves)
}

impl<T> Owner<T> {
    fn add_thief(&mut self) -> Result<Thief<T>, AllocError>
        requires { 0 < (owner_view self.old).made }
        ensures owner { IfOk result (λ _. owner_view self.new
            ≡ owner_with_thief (owner_view self.old)) }
        ensures thief { IfOk result (λ t. thief_view t ≡ new_thief_view (owner_view self.old)) }
        ensures one { IfOk result (λ t. IsOnBench self.new t × IsSameBench self.old self.new) }
    {
        let stealer = self.worker.stealer()?;
        let pass = self.worker.another::<AddingThief>();
        Ok(Thief { stealer, pass })
    }

    /// Puts the item on the bench, behind all others. Where the bench can't grow, it hands the item back.
    pub fn put(&mut self, item: T) -> Result<(), T>
        ensures put { MatchResult result
            (λ _. Puts (owner_view self.old) item (owner_view self.new))
            (λ l. (l ≡ item) × (owner_view self.new ≡ owner_view self.old)) }
        ensures handles { KeepsHandles (owner_view self.old) (owner_view self.new) }
        ensures same { IsSameBench self.old self.new }
    {
        self.worker.push_as::<Putting>(item)
    }

    /// Takes the first item that no handle has got, at one moment of the call. The owner doesn't know what live thieves
    /// got. So while there are some, the contract says only that some gets of theirs lead to this result.
    pub fn take(&mut self) -> Option<T>
        ensures got { MatchOption result ((owner_view self.new ≡ owner_view self.old)
            × AllGot (owner_view self.old))
            (λ l. GetsFirst (owner_view self.old) l (owner_view self.new)) }
        ensures whole { IsWhole (owner_view self.old)
            → IsKnownFirst (owner_view self.old) result }
        ensures handles { KeepsHandles (owner_view self.old) (owner_view self.new) }
        ensures same { IsSameBench self.old self.new }
    {
        self.worker.pop_as::<Getting>()
    }
}

impl<T: Drop> Owner<T> {
    /// Joins a thief of this bench into the owner, which then knows all that the thief knew.
    pub fn join(&mut self, thief: Thief<T>)
        requires { IsOnBench self.old thief }
        ensures both { owner_view self.new ≡ view_of_both (owner_view self.old)
            (thief_view thief) }
        ensures one { HaveOneHistory (owner_view self.old) (thief_view thief) }
        ensures same { IsSameBench self.old self.new }
    {
        let Thief {
            stealer: _stealer,
            pass,
        } = thief;
        self.worker.absorb::<Joining>(pass);
        // For the prover: by the rule of the bench there is one history.
        self.worker.len_as::<Recalling>();
    }
}

impl<T> Thief<T> {
    /// Tries to take the first item that no handle has got, at one moment of the call. `Retry`: another handle came
    /// first. A thief doesn't know what other live handles put and got, so of them the contract says only that some
    /// steps of theirs lead to this result.
    pub fn steal(&mut self) -> Steal<T>
        ensures got { MatchSteal result ((thief_view self.new ≡ thief_view self.old)
            × AllGot (thief_view self.old)) (thief_view self.new ≡ thief_view self.old)
            (λ l. GetsFirst (thief_view self.old) l (thief_view self.new)) }
        ensures retry { result ≡ Steal.Retry → (seen_gone self.old < seen_gone self.new)
            ⊎ AllGot (thief_view self.old) }
        ensures handles { KeepsHandles (thief_view self.old) (thief_view self.new) }
        ensures same { IsSameThief self.old self.new }
    {
        self.stealer.steal_as::<Getting>(&mut self.pass)
    }
}
