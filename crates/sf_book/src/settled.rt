//! How an exploration ended.

ghost use Rattle.std.specs.Prelude.{◌≡◌, ◌<◌, length, map, slice_get, Some};
ghost use Rattle.std.specs.Arc.{arc_value};
ghost use Rattle.sf_insn.specs.declared.input.Input.{Input};
ghost use Rattle.sf_insn.specs.Inputs.{IsInput};
ghost use Rattle.sf_check.specs.Stacks.{IsPlain};
ghost use Rattle.sf_piece.specs.PlainPieces.{IsPlainPiece};
ghost use Rattle.sf_book.specs.PlainBooks.{IsPlainWhereStackIs};
ghost use Rattle.sf_book.specs.Unfoldings.{IsFringe};
ghost use Rattle.sf_book.specs.Partition.{parts_of, names_of, LiesInOne, NoneBeginsAnother};
ghost use Rattle.sf_book.specs.Books.{OutstandingData, IsSettled, IsRightRegion, counts_of};

use crate::outstanding::OutstandingPieces;
use crate::regions::{Emptied, Region};
use sf_check::Stack;
use sf_piece::{Name, Piece};
use sf_run::Counts;
use std::marker::Model;
use std::sync::Arc;

/// How an exploration ended: the settled regions, in name order, and the pieces that are left.
#[derive(Drop)]
pub struct Settled {
    pub(crate) stack: Arc<Stack>,
    pub(crate) outstanding: OutstandingPieces,
    pub(crate) regions: Vec<Region>,
    pub(crate) emptied: Vec<Emptied>,
    // The numbers of the book when it was closed.
    pub(crate) splits: u32,
    pub(crate) commits: u32,
    pub(crate) budget: u32,
}

impl Model for Settled {
    ghost use Rattle.sf_book.specs.Books.{BookData};
    ghost use Rattle.sf_book.specs.PlainBooks.{IsEndedBook};

    ghost Value = { BookData };

    ghost view = { λ b. record {
      stack = b.stack.value;
      outstanding = b.outstanding;
      regions = b.regions.items;
      emptied = b.emptied.items;
      splits = b.splits;
      commits = b.commits;
      budget = b.budget;
    } };

    ghost invariant = { λ b. IsEndedBook (record {
      stack = b.stack.value;
      outstanding = b.outstanding;
      regions = b.regions.items;
      emptied = b.emptied.items;
      splits = b.splits;
      commits = b.commits;
      budget = b.budget;
    }) };
}

impl Settled {
    /// The stack that was explored.
    pub fn stack(&self) -> &Arc<Stack>
        ensures value { arc_value result.now ≡ self.now.stack }
        ensures lawful { IsSettled self.now }
        ensures plain { IsPlainWhereStackIs self.now }
    {
        &self.stack
    }

    /// How many regions are settled.
    pub fn region_count(&self) -> usize
        ensures value { result ≡ length self.now.regions }
        ensures lawful { IsSettled self.now }
    {
        self.regions.len()
    }

    /// The region at this place in the order of names, from 0.
    pub fn region(&self, i: usize) -> &Region
        requires { i < length self.now.regions }
        ensures value { slice_get self.now.regions i ≡ Some result.now }
        ensures right { IsRightRegion self.now.stack result.now }
        ensures plain { IsPlain self.now.stack → IsPlainPiece result.now.piece }
        ensures lawful { IsSettled self.now }
    {
        &self.regions[i]
    }

    /// How many pieces are left.
    pub fn outstanding_count(&self) -> usize
        ensures value { result ≡ length self.now.outstanding }
        ensures lawful { IsSettled self.now }
    {
        self.outstanding.len()
    }

    /// The piece at this place, from 0, among those that are left, in the order of ids.
    pub fn outstanding(&self, i: usize) -> &Arc<Piece>
        requires { i < length self.now.outstanding }
        ensures value { slice_get (map (λ (e : OutstandingData). e.piece) self.now.outstanding) i
            ≡ Some (arc_value result.now) }
        ensures lawful { IsSettled self.now }
    {
        self.outstanding.at(i)
    }

    /// How many pieces turned out to have no member.
    pub fn emptied_count(&self) -> usize
        ensures value { result ≡ length self.now.emptied }
        ensures lawful { IsSettled self.now }
    {
        self.emptied.len()
    }

    /// The name at this place, from 0, of the pieces without a member, in the order of their commits.
    pub fn emptied(&self, i: usize) -> &Name
        requires { i < length self.now.emptied }
        ensures value { slice_get self.now.emptied i ≡ Some result.now }
        ensures lawful { IsSettled self.now }
    {
        self.emptied[i].name()
    }

    /// The counts of the book when it was closed.
    #[tactic(auto, using(crate::specs::laws::PartitionLaws::lies_in_one, crate::specs::laws::PartitionLaws::none_begins_another))]
    pub fn counts(&self) -> Counts
        ensures counts { result ≡ counts_of self.now }
        ensures lawful { IsSettled self.now }
        ensures one { (d : Input) → IsInput d → LiesInOne (parts_of self.now) d }
        ensures apart { NoneBeginsAnother (names_of self.now) }
        ensures plain { IsPlainWhereStackIs self.now }
        ensures fringe { IsFringe self.now }
    {
        Counts {
            left: self.outstanding_count(),
            settled: self.region_count(),
            emptied: self.emptied_count(),
            splits: self.splits,
            commits: self.commits,
        }
    }
}
