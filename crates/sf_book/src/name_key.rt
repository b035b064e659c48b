//! A piece as the key of a map, in the order of names.

ghost use Rattle.std.specs.Prelude.{◌≡◌, Some, refl, IfOk, IfErr};
ghost use Rattle.std.specs.Ordering.{eq_by_cmp};
ghost use Rattle.std.specs.Arc.{arc_value};
ghost use Rattle.std.specs.Cmp.{eq_by_cmp_equiv, partial_order_from_agreeing_total};
ghost use Rattle.std.specs.Cmp;
ghost use Rattle.std.specs.Cmp.Rules.{comparing};
ghost use Rattle.std.proofs.Common.{rules};
ghost use Rattle.sf_book.specs.OutstandingMaps.{name_cmp, name_total, name_ties};
ghost use Rattle.sf_book.specs.declared.fault.Fault.TheVariants.{Memory};

use crate::fault::Fault;
use sf_piece::Piece;
use std::cmp::Ordering;
use std::marker::Model;
use std::sync::Arc;

/// A piece as a key by its name.
#[derive(Drop)]
pub(crate) struct NameKey {
    piece: Arc<Piece>,
}

impl Model for NameKey {
    ghost use Rattle.sf_piece.specs.Pieces.{PieceData};

    ghost Value = { PieceData };

    ghost view = { λ n. n.piece.value };
}

impl NameKey {
    /// The piece as a key.
    pub(crate) fn of(piece: Arc<Piece>) -> NameKey
        ensures { result ≡ arc_value piece }
    {
        NameKey { piece }
    }

    /// Another key of the same piece, which both share.
    pub(crate) fn share(&self) -> Result<NameKey, Fault>
        ensures ok { IfOk result (λ k. k ≡ self.now) }
        ensures err { IfErr result (λ f. f ≡ Memory) }
    {
        Ok(NameKey {
            piece: Arc::try_clone(&self.piece)?,
        })
    }

    /// The piece itself.
    pub(crate) fn piece(&self) -> &Arc<Piece>
        ensures { arc_value result.now ≡ self.now }
    {
        &self.piece
    }
}

impl PartialEq for NameKey {
    ghost eq = { λ x y. eq_by_cmp name_cmp x y };

    ghost laws = { Cmp.partial_equiv_from_equiv (eq_by_cmp_equiv name_total) };

    /// Whether the pieces have the same name.
    fn eq(&self, other: &NameKey) -> bool {
        self.cmp(other).is_eq()
    }
}

impl Eq for NameKey {
    ghost laws = { eq_by_cmp_equiv name_total };
}

impl PartialOrd for NameKey {
    ghost partial_cmp = { λ x y. Some (name_cmp x y) };

    ghost laws = { partial_order_from_agreeing_total name_cmp name_total (λ x y. refl)
        (λ x y. name_ties x y) };

    /// The result of `cmp`; never `None`.
    fn partial_cmp(&self, other: &NameKey) -> Option<Ordering> {
        Some(self.cmp(other))
    }
}

impl Ord for NameKey {
    ghost cmp = { name_cmp };

    ghost total = { name_total };

    ghost matches_partial_cmp = { Prim.search (comparing, rules) };

    ghost matches_eq = { λ x y. name_ties x y };

    /// How the names of the pieces compare (`Name::order`).
    fn cmp(&self, other: &NameKey) -> Ordering {
        self.piece.name().order(other.piece.name())
    }
}
