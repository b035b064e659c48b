//! Why there is no tree.

ghost use Rattle.std.specs.Prelude.{◌≡◌};
ghost use Rattle.sf_diagram.specs.Numbers.{fault_number};
ghost use Rattle.sf_diagram.specs.declared.fault.Fault.TheVariants.{Memory};

use std::alloc::{AllocError, AllocFailed};
use thiserror::Error;

/// Why a call on a store gave nothing.
#[derive(Clone, Copy, Debug, PartialEq, Eq, Error)]
pub enum Fault {
    /// The store has as many nodes as are allowed.
    #[error("too many nodes")]
    Spent,
    /// An allocation was refused.
    #[error("out of memory")]
    Memory,
}

impl Fault {
    /// The number under which the program reports the fault.
    pub fn number(&self) -> u16
        ensures { result ≡ fault_number self.now }
    {
        match self {
            Fault::Spent => 32,
            Fault::Memory => 60,
        }
    }
}

impl From<AllocError> for Fault {
    ghost from_gives = { λ _ e. e ≡ Memory };

    /// Each `AllocError` is the fault `Memory`.
    fn from(_e: AllocError) -> Fault {
        Fault::Memory
    }
}

impl<T: Drop> From<AllocFailed<T>> for Fault {
    ghost from_gives = { λ _ e. e ≡ Memory };

    /// A refused allocation is the fault `Memory`. The value that should have been stored is dropped.
    fn from(_e: AllocFailed<T>) -> Fault {
        Fault::Memory
    }
}
