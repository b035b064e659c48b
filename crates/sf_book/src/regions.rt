//! What a book keeps of pieces that are no longer outstanding, and the test whether a work is of a piece and a stack.

ghost use Rattle.std.specs.Prelude.{◌≡◌, ◌↔◌, ◌∷◌, [], ◌++◌, IsTrue, IfErr, OnOk, IsPermutation};
ghost use Rattle.std.specs.Ordering.{bool_cmp};
ghost use Rattle.std.specs.Cmp.Lexicographic.{slice_cmp};
ghost use Rattle.std.specs.Arc.{arc_value};
ghost use Rattle.sf_book.specs.Books.{IsInNameOrder};
ghost use Rattle.sf_book.specs.declared.fault.Fault.TheVariants.{Memory};

use crate::fault::Fault;
use sf_check::Stack;
use sf_piece::{Name, Piece, Work};
use sf_run::Answer;
use std::cmp::Ordering;
use std::marker::Model;
use std::sync::Arc;

/// A settled piece: each member has this whole name as its trace, and this answer.
#[derive(Drop)]
pub struct Region {
    piece: Arc<Piece>,
    name: Name,
    answer: Answer,
}

impl Model for Region {
    ghost use Rattle.sf_book.specs.Books.{RegionData};

    ghost Value = { RegionData };

    ghost view = { λ r. record {
      piece = r.piece.value;
      name = r.name;
      answer = r.answer;
    } };
}

impl Region {
    /// The region of a piece that settled, with its whole name and its answer.
    pub(crate) fn of(piece: Arc<Piece>, name: Name, answer: Answer) -> Region
        ensures { result ≡ record {
          piece = arc_value piece;
          name = name;
          answer = answer;
        } }
    {
        Region {
            piece,
            name,
            answer,
        }
    }

    /// The piece that settled, whose path conditions and facts are those of the region.
    pub fn piece(&self) -> &Arc<Piece>
        ensures { arc_value result.now ≡ self.now.piece }
    {
        &self.piece
    }

    /// The trace that all members have.
    pub fn name(&self) -> &Name
        ensures { result.now ≡ self.now.name }
    {
        &self.name
    }

    /// What the stack answers on each member.
    pub fn answer(&self) -> Answer
        ensures { result ≡ self.now.answer }
    {
        self.answer
    }
}

/// A piece without a member, of which only the name is shown.
#[derive(Drop)]
pub(crate) struct Emptied {
    pub(crate) piece: Arc<Piece>,
}

impl Model for Emptied {
    ghost use Rattle.std.specs.Prelude.{List, Bool};

    ghost Value = { List Bool };

    ghost view = { λ e. e.piece.value.name };
}

impl Emptied {
    /// The piece's name.
    pub(crate) fn name(&self) -> &Name
        ensures { result.now ≡ self.now }
    {
        self.piece.name()
    }
}

/// Adds an element at the end.
pub(crate) fn add<T: Drop>(v: &mut Vec<T>, x: T) -> Result<(), Fault>
    ensures ok { OnOk result (v.new.items ≡ v.old.items ++ x ∷ []) }
    ensures err { IfErr result (λ f. (f ≡ Memory) × (v.new.items ≡ v.old.items)) }
{
    v.push(x)?;
    Ok(())
}

/// Whether the piece has the name of the work's piece.
pub(crate) fn has_name(piece: &Arc<Piece>, work: &Work) -> bool
    ensures { IsTrue result ↔ ((arc_value piece.now).name ≡ work.now.piece.name) }
{
    piece.name().order(work.piece().name()).is_eq()
}

/// Whether the work is of this stack, or of another one with the same programs.
pub(crate) fn is_of(work: &Work, stack: &Arc<Stack>) -> bool
    ensures { IsTrue result ↔ (work.now.piece.stack ≡ arc_value stack.now) }
{
    work.piece().stack().is_same(stack)
}

/// How two regions compare in name order (`Name::order`).
fn compare_names(a: &Region, b: &Region) -> Ordering
    ensures { result ≡ slice_cmp bool_cmp a.now.name b.now.name }
{
    a.name().order(b.name())
}

/// Puts regions in name order, in place.
pub(crate) fn put_in_order(regions: &mut Vec<Region>)
    ensures permutation { IsPermutation regions.old.items regions.new.items }
    ensures sorted { IsInNameOrder regions.new.items }
{
    regions.sort_unstable_by(|a, b| compare_names(a, b));
}
