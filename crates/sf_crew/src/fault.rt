//! Why a call was refused.

ghost use Rattle.std.specs.Prelude.{◌≡◌};
ghost use Rattle.sf_crew.specs.declared.fault.Fault.TheVariants.{Memory};

use std::alloc::{AllocError, AllocFailed};
use thiserror::Error;

/// Why a call of this crate was refused.
#[derive(Clone, Copy, Debug, PartialEq, Eq, Error)]
pub enum Fault {
    /// An allocation was refused, or something that is shared has too many owners.
    #[error("out of memory")]
    Memory,
}

impl Fault {
    /// The number under which the program reports the fault.
    pub fn number(&self) -> u16
        ensures { result ≡ 60 }
    {
        match self {
            Fault::Memory => 60,
        }
    }
}

impl From<AllocError> for Fault {
    ghost from_gives = { λ _ e. e ≡ Memory };

    fn from(_e: AllocError) -> Fault {
        Fault::Memory
    }
}

impl<T: Drop> From<AllocFailed<T>> for Fault {
    ghost from_gives = { λ _ e. e ≡ Memory };

    fn from(_e: AllocFailed<T>) -> Fault {
        Fault::Memory
    }
}

impl From<sf_piece::Fault> for Fault {
    ghost from_gives = { λ _ e. e ≡ Memory };

    fn from(_e: sf_piece::Fault) -> Fault {
        Fault::Memory
    }
}

impl From<sf_book::Fault> for Fault {
    ghost from_gives = { λ _ e. e ≡ Memory };

    /// Only used while one thread has the book to itself: then no other fault than `Memory` can come.
    fn from(_e: sf_book::Fault) -> Fault {
        Fault::Memory
    }
}

impl From<sf_ask::Fault> for Fault {
    ghost from_gives = { λ _ e. e ≡ Memory };

    /// No other fault than `Memory` comes when a verdict or a sheet is made.
    fn from(_e: sf_ask::Fault) -> Fault {
        Fault::Memory
    }
}
