//! Names of explorations: types that stand for a stack and a budget in proofs. The type of a shared book names the
//! stack and the budget that the book has, and the type of a lease the stack that its piece has.
use sf_book::Lease;
use std::marker::{Brand, Model, PhantomData};

/// The stack and the budget of an exploration. `explore` passes the type `Brand`, for which the proof of this call
/// picks both.
pub(crate) trait Naming: Send + Sync {
    ghost use Rattle.std.specs.Prelude.{ℕ, List};
    ghost use Rattle.sf_check.specs.declared.insn.Insn.{Insn};

    ghost stack: { List (List Insn) };

    ghost budget: { ℕ };
}

impl Naming for Brand {
    ghost use Rattle.std.specs.Prelude.{[]};

    ghost stack = { [] };

    ghost budget = { 0 };
}

/// A lease of a piece of the stack that is named.
#[derive(Drop)]
pub(crate) struct NamedLease<N: Naming> {
    lease: Lease,
    of: PhantomData<N>,
}

impl<N: Naming> Model for NamedLease<N> {
    ghost use Rattle.std.specs.Prelude.{◌≡◌};
    ghost use Rattle.sf_book.specs.declared.book.Lease.{Lease};

    ghost Value = { Lease };

    ghost view = { λ l. l.lease };

    ghost invariant = { λ l. l.lease.piece.value.stack ≡ N.stack };
}

impl<N: Naming> NamedLease<N> {
    ghost use Rattle.std.specs.Prelude.{◌≡◌};
    ghost use Rattle.std.specs.Arc.{arc_value};

    /// For the prover: from now on the lease's type says that its piece is of the stack that N names.
    pub(crate) fn of(lease: Lease) -> NamedLease<N>
        requires { (arc_value lease.piece).stack ≡ N.stack }
        ensures { result ≡ lease }
    {
        NamedLease {
            lease,
            of: PhantomData,
        }
    }

    pub(crate) fn lease(&self) -> &Lease
        ensures same { result.now ≡ self.now }
        ensures named { (arc_value self.now.piece).stack ≡ N.stack }
    {
        &self.lease
    }
}
