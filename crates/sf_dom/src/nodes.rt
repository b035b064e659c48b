//! What is known of each node of a pool, kept so that forks share what doesn't change.

ghost use Rattle.std.specs.Prelude.{◌≡◌, ◌<◌, ◌≤◌, ◌∷◌, ◌++◌, [], length, set, slice_index, IsTrue, IfOk, OnErr, ◌-◌, if◌then◌else◌};
ghost use Rattle.std.specs.Arc.{arc_value};
ghost use Rattle.sf_dom.specs.Known.{IsDecided, known_of};
ghost use Rattle.sf_dom.specs.Facts.{known_at};
ghost use Rattle.sf_dom.specs.Nodes.{IsLaidOut};

use crate::fault::Fault;
use crate::known::Known;
use crate::slots::{Slot, Slots, add_slot, slot_of};
use crate::variables::{Variable, add_variable};
use sf_blocks::shared::SharedList;
use std::alloc::Global;
use std::marker::Model;
use std::sync::Arc;

/// How many words an input has. They are the first nodes of each pool.
pub(crate) const WORDS: usize = 16;

/// What is known of the nodes of a pool, oldest first. The slot of a constant has its number; so has that of an
/// operation whose operands were decided when it was added. All other nodes are variables: only of them more can become
/// known. Forks share the slots until one of them gets another node; each has its own list of variables.
#[derive(Drop)]
pub(crate) struct Nodes {
    slots: Arc<Slots>,
    /// The variables, oldest first.
    variables: Vec<Variable>,
}

impl Model for Nodes {
    ghost use Rattle.std.specs.Arc.{arc_value};
    ghost use Rattle.sf_dom.specs.Nodes.{NodesView, known_by, places_of, AreKept};

    ghost Value = { NodesView };

    ghost view = { λ n. record {
      known = known_by n.variables.items (arc_value n.slots);
      variables = places_of n.variables.items;
    } };

    ghost invariant = { λ n. AreKept (arc_value n.slots) n.variables.items };
}

impl Nodes {
    pub(crate) fn new(alloc: Global) -> Result<Nodes, Fault>
        ensures known { IfOk result (λ n. n.known ≡ []) }
        ensures variables { IfOk result (λ n. n.variables ≡ []) }
    {
        Ok(Nodes {
            slots: Arc::new(alloc, SharedList::new(alloc)?)?,
            variables: Vec::new(alloc),
        })
    }

    pub(crate) fn len(&self) -> usize
        ensures { result ≡ length self.now.known }
    {
        self.slots.len()
    }

    pub(crate) fn get(&self, i: usize) -> Known
        requires { i < length self.now.known }
        ensures { result ≡ known_at self.now.known i }
    {
        match slot_of(&self.slots, i) {
            Slot::Number(c) => Known::of_number(c),
            Slot::Variable(rank) => self.variables[rank as usize].known,
        }
    }

    pub(crate) fn variable_count(&self) -> usize
        ensures count { result ≡ length self.now.variables }
        ensures laid_out { IsLaidOut self.now }
    {
        self.variables.len()
    }

    /// The variable with this rank; the oldest one has the rank 0.
    pub(crate) fn variable(&self, rank: usize) -> Variable
        requires { rank < length self.now.variables }
        ensures place { result.place ≡ slice_index self.now.variables rank }
        ensures known { result.known
            ≡ known_at self.now.known (slice_index self.now.variables rank) }
    {
        self.variables[rank]
    }

    /// Writes what is known of the variable with this rank.
    pub(crate) fn set_variable(&mut self, rank: usize, known: Known)
        requires { rank < length self.old.variables }
        ensures known { self.new.known
            ≡ set self.old.known (slice_index self.old.variables rank) known }
        ensures variables { self.new.variables ≡ self.old.variables }
        ensures laid_out { IsLaidOut self.new }
    {
        self.variables[rank].known = known;
    }

    /// Writes what is known of the node at a place.
    pub(crate) fn set(&mut self, i: usize, known: Known)
        requires within { i < length self.old.known }
        requires decided { IsDecided (known_at self.old.known i)
            → known ≡ known_at self.old.known i }
        ensures known { self.new.known ≡ set self.old.known i known }
        ensures variables { self.new.variables ≡ self.old.variables }
    {
        match slot_of(&self.slots, i) {
            // By the requirement `decided` the slot says it already.
            Slot::Number(_) => {}
            Slot::Variable(rank) => self.set_variable(rank as usize, known),
        }
    }

    /// Adds the next node. `fixed` says that no forward pass makes more known of it: it gets a slot with its number.
    /// Otherwise it becomes a variable.
    pub(crate) fn push(&mut self, known: Known, fixed: bool) -> Result<(), Fault>
        requires word { IsTrue fixed → 16 ≤ length self.old.known }
        requires number { IsTrue fixed → known ≡ known_of known.low known.low
            (4294967295 - known.low) known.low }
        ensures ok { IfOk result (λ _. self.new.known ≡ self.old.known ++ known ∷ []) }
        ensures variables { IfOk result (λ _. self.new.variables ≡ (if fixed
            then self.old.variables
            else self.old.variables ++ length self.old.known ∷ [])) }
        ensures err { OnErr result (self.new ≡ self.old) }
    {
        let alloc = *self.variables.allocator();
        let place = self.slots.len();
        if fixed {
            add_slot(alloc, &mut self.slots, Slot::Number(known.low))?;
            return Ok(());
        }
        let rank = self.variables.len();
        let variable = Variable {
            place: place as u32,
            known,
        };
        add_variable(
            &mut self.variables,
            variable,
            &mut self.slots,
            Slot::Variable(rank as u32),
        )?;
        Ok(())
    }

    /// A copy, which shares the slots and has its own list of variables.
    pub(crate) fn fork(&self, alloc: Global) -> Result<Nodes, Fault>
        ensures { IfOk result (λ n. n ≡ self.now) }
    {
        Ok(Nodes {
            slots: Arc::try_clone(&self.slots)?,
            variables: Vec::from_slice(alloc, self.variables.as_slice())?,
        })
    }
}
